// Inputs of many bytes: values at the edges of the size rule, and the limit of an input.
use crate::runs::{Answer, answer_of, memory_devices, words_of};
use std::alloc::Global;
use std::process::Abort;
use std::test::Fail;
use zv_tool::Status;

/// A part of a text: as it stands, or again and again.
#[derive(Drop)]
pub enum Part<'t> {
    Once(&'t str),
    Times(&'t str, usize),
}

// Adds a text so many times. It has no contract: a proof shall not count them.
fn push_times(text: &mut Vec<u8>, piece: &str, times: usize) -> Result<(), Fail> {
    for _ in 0..times {
        text.extend_from_slice(piece.as_bytes())?;
    }
    Ok(())
}

/// A text of parts.
pub fn text_of(alloc: Global, parts: &[Part<'_>]) -> Result<Vec<u8>, Fail> {
    let mut text = Vec::new(alloc);
    for part in parts {
        let (piece, times) = match part {
            Part::Once(piece) => (*piece, 1),
            Part::Times(piece, times) => (*piece, *times),
        };
        push_times(&mut text, piece, times)?;
    }
    Ok(text)
}

// What the program answers to an input.
fn long_answer(alloc: Global, input: &[u8]) -> Result<Answer, Fail> {
    let devices = memory_devices(alloc, input, 65_536, 1_000_000)?;
    Ok(answer_of(alloc, &words_of(alloc, &["edit"])?, devices))
}

/// The program answers this to an input.
pub fn try_long_input(
    rt: &impl Abort,
    alloc: Global,
    input: &[u8],
    output: &[u8],
) -> Result<(), Fail> {
    let answer = long_answer(alloc, input)?;
    assert!(rt; answer.status == Status::Done);
    assert!(rt; answer.sink.taken() == output);
    Ok(())
}

// The program ends so on an input, and wrote this.
fn try_long(
    rt: &impl Abort,
    alloc: Global,
    input: &[Part<'_>],
    status: Status,
    output: &[Part<'_>],
) -> Result<(), Fail> {
    let answer = long_answer(alloc, &text_of(alloc, input)?)?;
    assert!(rt; answer.status == status);
    assert!(rt; *answer.sink.taken() == *text_of(alloc, output)?);
    Ok(())
}

const EMPTY_LINE: &str = "x0000000000000000000000000000000000000000000000000000000000000000\n";

// The image of a value of "a" and "b", up to the length of the values.
const ONE_ROW: &str = "03000000000000000100610400000000000000010000000300000000000000010062";

#[test]
fn long_values_are_replaced(rt: HostRuntime) -> Result<(), Fail> {
    // A value of 65,534 bytes is replaced by as many and by one.
    try_long(
        &rt,
        rt.alloc(),
        &[
            Part::Once(EMPTY_LINE),
            Part::Once("put x61 x62 x"),
            Part::Times("11", 65_534),
            Part::Once("\nput x61 x63 x01\nput x61 x62 x"),
            Part::Times("22", 65_534),
            Part::Once("\nput x61 x62 x02\n"),
        ],
        Status::Done,
        &[
            Part::Once("new\nnew\nold x"),
            Part::Times("11", 65_534),
            Part::Once("\nold x"),
            Part::Times("22", 65_534),
            Part::Once(
                "\nimage x0300000000000000010061040000000000000002000000\
                060000000000000002000100626306000000000000000200\
                01000201\n",
            ),
        ],
    )
}

// The values are wide, and the keys are not.
const WIDE_VALUES: &str = "ffffffffffffffff101020";

#[test]
fn a_put_beside_a_long_value_is_answered(rt: HostRuntime) -> Result<(), Fail> {
    try_long(
        &rt,
        rt.alloc(),
        &[
            Part::Once(EMPTY_LINE),
            Part::Once("put x61 x62 x"),
            Part::Times("11", 65_534),
            Part::Once("\nput x63 x64 x01\nrow x63\n"),
        ],
        Status::Done,
        &[
            Part::Once("new\nnew\nrow x64 x01\nimage x"),
            Part::Once(WIDE_VALUES),
            Part::Once(
                "060000000000000002000100616308000000000000000100\
                00000200000006000000000000000200010062640700010000000000\
                02000000feff0000",
            ),
            Part::Times("11", 65_534),
            Part::Once("01\n"),
        ],
    )
}

#[test]
fn an_oversized_value_is_read_and_shortened(rt: HostRuntime) -> Result<(), Fail> {
    try_long(
        &rt,
        rt.alloc(),
        &[
            Part::Once("x"),
            Part::Once(ONE_ROW),
            Part::Once("72110100000000000100"),
            Part::Times("33", 70_000),
            Part::Once("\nget x61 x62\nput x61 x62 x"),
            Part::Times("33", 70_000),
            Part::Once("\nput x61 x62 x010203\n"),
        ],
        Status::Done,
        &[
            Part::Once("some x"),
            Part::Times("33", 70_000),
            Part::Once("\nold x"),
            Part::Times("33", 70_000),
            Part::Once("\nold x"),
            Part::Times("33", 70_000),
            Part::Once("\nimage x"),
            Part::Once(ONE_ROW),
            Part::Once("05000000000000000100010203\n"),
        ],
    )
}

#[test]
fn a_value_that_needs_wide_fields_is_put(rt: HostRuntime) -> Result<(), Fail> {
    try_long(
        &rt,
        rt.alloc(),
        &[
            Part::Once(EMPTY_LINE),
            Part::Once("put x61 x62 x"),
            Part::Times("11", 65_535),
            Part::Once("\n"),
        ],
        Status::Done,
        &[
            Part::Once("new\nimage x"),
            Part::Once(WIDE_VALUES),
            Part::Once(ONE_ROW),
            Part::Once("030001000000000001000000"),
            Part::Times("11", 65_535),
            Part::Once("\n"),
        ],
    )
}

// A value of so many bytes is put into the empty map, and the image is so long.
fn try_size(
    rt: &impl Abort,
    alloc: Global,
    len: usize,
    size: usize,
    head: &str,
) -> Result<(), Fail> {
    let input = [
        Part::Once(EMPTY_LINE),
        Part::Once("put x61 x62 x"),
        Part::Times("11", len),
    ];
    let answer = long_answer(alloc, &text_of(alloc, &input)?)?;
    let front = text_of(alloc, &[Part::Once("new\nimage x"), Part::Once(head)])?;
    assert!(rt; answer.sink.taken().starts_with(&front));

    // Two digits for each byte, `new` and `image x`, and an LF behind each.
    let digits = size.saturating_mul(2);
    assert!(rt; answer.sink.taken().len() == digits.saturating_add(12));
    Ok(())
}

#[test]
fn an_image_has_a_head_where_a_list_is_wide(rt: HostRuntime) -> Result<(), Fail> {
    let alloc = rt.alloc();
    try_size(&rt, alloc, 65_533, 65_577, ONE_ROW)?;
    try_size(&rt, alloc, 65_534, 65_591, WIDE_VALUES)
}

// The image of a value of so many bytes for "a" and "b", and 01 for "c" and "d": narrow up to
// 65,530 bytes, and wide above.
fn two_values(alloc: Global, len: usize) -> Result<Vec<u8>, Fail> {
    let (head, fields) = match len {
        65_530 => ("", "ffff0000000000000200faff"),
        65_531 => (WIDE_VALUES, "040001000000000002000000fbff0000"),
        _ => (WIDE_VALUES, "070001000000000002000000feff0000"),
    };
    text_of(
        alloc,
        &[
            Part::Once(head),
            Part::Once("0600000000000000020001006163"),
            Part::Once("08000000000000000100000002000000"),
            Part::Once("0600000000000000020001006264"),
            Part::Once(fields),
            Part::Times("11", len),
            Part::Once("01"),
        ],
    )
}

// A change of the first value is answered with the second image, and undone with the first.
fn try_two(rt: &impl Abort, alloc: Global, lens: [usize; 2]) -> Result<(), Fail> {
    let [from, to] = lens;
    let image = two_values(alloc, from)?;
    let mut input = text_of(alloc, &[Part::Once("x")])?;
    input.extend_from_slice(&image)?;
    input.extend_from_slice(&text_of(
        alloc,
        &[Part::Once("\nput x61 x62 x"), Part::Times("11", to)],
    )?)?;
    let mut output = text_of(
        alloc,
        &[
            Part::Once("old x"),
            Part::Times("11", from),
            Part::Once("\nimage x"),
        ],
    )?;
    output.extend_from_slice(&two_values(alloc, to)?)?;
    output.push(b'\n')?;
    try_long_input(rt, alloc, &input, &output)
}

#[test]
fn a_list_is_wide_by_need(rt: HostRuntime) -> Result<(), Fail> {
    let alloc = rt.alloc();
    for lens in [
        [65_530, 65_530],
        [65_530, 65_531],
        [65_531, 65_530],
        [65_531, 65_534],
        [65_534, 65_530],
        [65_534, 65_531],
    ] {
        try_two(&rt, alloc, lens)?;
    }
    Ok(())
}

#[test]
fn an_image_that_becomes_narrow_has_no_head(rt: HostRuntime) -> Result<(), Fail> {
    let alloc = rt.alloc();
    let mut input = text_of(alloc, &[Part::Once("x")])?;
    input.extend_from_slice(&two_values(alloc, 65_534)?)?;
    input.extend_from_slice(b"\nget x63 x64\ndel x61 x62\n")?;
    let output = text_of(
        alloc,
        &[
            Part::Once("some x01\nold x"),
            Part::Times("11", 65_534),
            Part::Once("\nimage x0300000000000000010063040000000000000001000000"),
            Part::Once("03000000000000000100640300000000000000010001\n"),
        ],
    )?;
    try_long_input(&rt, alloc, &input, &output)
}

// The limit is 2^20 times as long.
const SIXTEEN: &str = "0000000000000000";

#[test]
fn the_limit_is_kept(rt: HostRuntime) -> Result<(), Fail> {
    let alloc = rt.alloc();

    // One byte over the limit, and as many as it.
    try_long(
        &rt,
        alloc,
        &[Part::Times(SIXTEEN, 1_048_576), Part::Once("0")],
        Status::TooLong,
        &[],
    )?;
    try_long(
        &rt,
        alloc,
        &[
            Part::Once("x000000000000000"),
            Part::Times(SIXTEEN, 1_048_575),
        ],
        Status::BadLine,
        &[Part::Once("error line 1\n")],
    )
}
