// The lines that follow a table.
ghost use Rattle.std.specs.Prelude.{◌≡◌, ◌<◌, ◌≤◌, length, IfSome};
ghost use Rattle.std.specs.Option.{option_copied, option_map};
ghost use Rattle.zv_input.specs.Input.{words};
ghost use Rattle.zv_input.specs.Numbers.{number};
ghost use Rattle.zv_input.specs.Words.{first_of, words_after};
ghost use Rattle.zv_props.specs.Steps.{IsStep, at, if_end, range_of, set};
ghost use Rattle.zv_props.specs.Steps.{step_of};
ghost use Rattle.zv_props.specs.Tables.{max_code_point};

use crate::table::MAX_CODE_POINT;
use zv_input::{read_number, split_at_byte};

/// A line that follows a table.
#[derive(Clone, Copy)]
pub enum Step {
    /// A code point is asked.
    At(u32),
    /// The code points from the first to the last get a value.
    Set(u32, u32, u16),
}

// The number that the first word of a text spells, and what follows the word's space.
fn cut_number(text: Option<&[u8]>, most: u32) -> Option<(u32, Option<&[u8]>)>
    requires { most ≤ max_code_point }
    ensures number { option_map (λ p. (p.0, words_after (option_copied p.1))) result
        ≡ first_of (number most) (words_after (option_copied text.entry)) }
    ensures bound { IfSome result (λ p. p.0 ≤ most) }
{
    let (word, rest) = split_at_byte(b' ', text?);
    Some((read_number(word, most)?, rest))
}

// A step, where no word follows it.
#[tactic(auto, using(crate::proofs::Lines::not_end))]
fn if_end(step: Option<Step>, rest: Option<&[u8]>) -> Option<Step>
    requires { IfSome step IsStep }
    ensures step { result ≡ if_end step (words_after (option_copied rest.entry)) }
    ensures good { IfSome result IsStep }
{
    match rest {
        None => step,
        Some(_) => None,
    }
}

// `at N`: a code point that is asked.
#[tactic(auto, using(crate::proofs::Lines::at_by_number))]
fn read_at(fields: Option<&[u8]>) -> Option<Step>
    ensures step { result ≡ at (words_after (option_copied fields.entry)) }
    ensures good { IfSome result IsStep }
{
    let (c, rest) = cut_number(fields, MAX_CODE_POINT)?;
    if_end(Some(Step::At(c)), rest)
}

// The range of two ends and a value.
fn range_of(first: u32, last: u32, value: u32) -> Option<Step>
    requires value { value ≤ 65535 }
    requires top { last ≤ max_code_point }
    ensures step { result ≡ range_of first last value }
    ensures good { IfSome result IsStep }
{
    if first <= last {
        Some(Step::Set(first, last, value as u16))
    } else {
        None
    }
}

// `set N N N`: a range and its value.
#[tactic(auto, using(crate::proofs::Lines::set_by_numbers))]
fn read_set(fields: Option<&[u8]>) -> Option<Step>
    ensures step { result ≡ set (words_after (option_copied fields.entry)) }
    ensures good { IfSome result IsStep }
{
    let (first, rest) = cut_number(fields, MAX_CODE_POINT)?;
    let (last, rest) = cut_number(rest, MAX_CODE_POINT)?;
    let (value, rest) = cut_number(rest, u32::from(u16::MAX))?;
    if_end(range_of(first, last, value), rest)
}

/// The step of a line, or `None` where the line is none.
pub(crate) fn read_step(line: &[u8]) -> Option<Step>
    ensures step { result ≡ step_of (words line.now) }
    ensures good { IfSome result IsStep }
    ensures some { IfSome result (λ _. 0 < length line.now) }
{
    let (name, fields) = split_at_byte(b' ', line);
    if name == b"at".as_slice() {
        read_at(fields)
    } else if name == b"set".as_slice() {
        read_set(fields)
    } else {
        None
    }
}
