// Inputs of which a line of bytes is refused, before other lines are answered.
use crate::forms::words_in;
use std::alloc::Global;
use std::process::Abort;
use std::test::Fail;
use zv_runs::{answer_of, join, memory_devices};
use zv_tool::{Status, Words};

/// The cause for which bytes are refused, and a text with a line for each that are refused so: what
/// they are, and their parts, each by its name or in hexadecimal.
pub type Refusals = (&'static str, &'static str);

/// A form of the program: its words, what may stand before the parts, what stands behind them, and
/// what is told before the cause.
pub struct Reading {
    pub words: &'static str,
    pub heads: &'static [&'static str],
    pub lines: &'static str,
    pub told: &'static str,
}

// The names of parts, a line for each: lists of texts, and of byte strings, in two bytes a field;
// ends of rows; and ranges with their values, A to E with 1 and with 2, F to P with 1 and with 2,
// and rows that break a rule each: P to F, above the last code point, without a value.
const PARTS: &str = "\
    NONE 0000000000000000\n\
    A 0300000000000000010061\n\
    B 0300000000000000010062\n\
    A_B 0600000000000000020001006162\n\
    B_A 0600000000000000020001006261\n\
    A_A 0600000000000000020001006161\n\
    A_B_C 0900000000000000030001000200616263\n\
    NO_TEXT 03000000000000000100ff\n\
    AT_0 040000000000000000000000\n\
    AT_1 040000000000000001000000\n\
    AT_2 040000000000000002000000\n\
    AT_0_1 08000000000000000000000001000000\n\
    AT_1_1 08000000000000000100000001000000\n\
    AT_1_2 08000000000000000100000002000000\n\
    AT_2_1 08000000000000000200000001000000\n\
    AT_2_2 08000000000000000200000002000000\n\
    THREE_BYTES 0300000000000000010000\n\
    A_TO_E_1 41000000450000000100\n\
    A_TO_E_2 41000000450000000200\n\
    F_TO_P_1 46000000500000000100\n\
    F_TO_P_2 46000000500000000200\n\
    BACKWARDS 50000000460000000100\n\
    ABOVE_ALL 46000000000011000100\n\
    NO_VALUE 46000000500000000000";

// The part that a word stands for: the one of that name, or itself.
fn part_of<'w>(word: &'w str) -> &'w str {
    for line in PARTS.lines() {
        match line.split_once(' ') {
            Some((name, part)) if name == word => return part,
            _ => {}
        }
    }
    word
}

/// An input is refused with this line, and nothing else is written.
pub fn try_input(
    rt: &impl Abort,
    alloc: Global,
    words: &Words,
    input: &[u8],
    name: &str,
    line: &[u8],
) -> Result<(), Fail> {
    let answer = answer_of(alloc, words, memory_devices(alloc, input, 4096, 2_000)?);
    assert!(rt; answer.status == Status::BadImage, "{name}");
    assert!(rt; answer.sink.taken() == line, "{name}");
    Ok(())
}

// The input of a case behind a head.
fn input_of(alloc: Global, case: &str, head: &str, lines: &str) -> Result<Vec<u8>, Fail> {
    let mut input = join(alloc, &["x", head])?;
    let parts = case.split(": ").last().unwrap_or("");
    for word in parts.split(' ') {
        input.extend_from_slice(part_of(word).as_bytes())?;
    }
    input.extend_from_slice(lines.as_bytes())?;
    Ok(input)
}

/// Each case is refused in this form, behind each head.
pub fn are_refused(
    rt: &impl Abort,
    alloc: Global,
    reading: &Reading,
    refusals: &[Refusals],
) -> Result<(), Fail> {
    let words = words_in(alloc, reading.words)?;
    for (cause, cases) in refusals {
        let line = join(alloc, &[reading.told, cause, "\n"])?;
        for case in cases.lines() {
            for head in reading.heads {
                let input = input_of(alloc, case, head, reading.lines)?;
                try_input(rt, alloc, &words, &input, case, &line)?;
            }
        }
    }
    Ok(())
}
