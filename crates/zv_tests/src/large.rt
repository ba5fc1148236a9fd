// Wide images of one row of many pairs: of 10 MB of text, and of more pairs than two bytes can
// count. An unproved run needs over a minute to read the first byte by byte.
use crate::long_inputs::{Part, text_of};
use crate::runs::{answer_of, memory_devices, words_of};
use std::alloc::Global;
use std::process::Abort;
use std::test::Fail;
use zv_tool::Status;

// The pairs of a row: how many there are, and how many bytes each value has.
#[derive(Clone, Copy)]
struct Row {
    pairs: u32,
    value_len: u32,
}

const TEN_MEGABYTES: Row = Row {
    pairs: 1_000,
    value_len: 5_000,
};

const MANY_PAIRS: Row = Row {
    pairs: 70_000,
    value_len: 1,
};

// The pair with this number gets another value.
const CHANGED: u32 = 700;

// The first key "a" as a list, and how many bytes the joiner has.
const FRONT: &[u8] = b"\
    \x03\0\0\0\0\0\0\0\x01\0a\
    \x04\0\0\0\0\0\0\0";

// A second key: three numbers below 100, so that the keys ascend with the numbers of their pairs.
fn key_of(pair: u32) -> [u8; 3] {
    [
        (pair / 10_000 % 100) as u8,
        (pair / 100 % 100) as u8,
        (pair % 100) as u8,
    ]
}

// Each byte of a value, at first and once one was changed.
fn value_of(pair: u32, is_changed: bool) -> u8 {
    if is_changed && pair == CHANGED {
        255
    } else {
        (pair % 251) as u8
    }
}

// A list of so many elements of one length is wide by need.
fn is_wide(count: u32, len: u32) -> bool {
    65_535 < (count as u64).saturating_mul(2 + len as u64)
}

// The byte that names the format of a list.
fn name_of(is_wide: bool) -> u8 {
    if is_wide { 32 } else { 16 }
}

// A field of a list: of four bytes, or of two.
fn push_field(bytes: &mut Vec<u8>, number: u32, is_wide: bool) -> Result<(), Fail> {
    let [a, b, c, d] = number.to_le_bytes();
    bytes.extend_from_slice(&[a, b])?;
    if is_wide {
        bytes.extend_from_slice(&[c, d])?;
    }
    Ok(())
}

// The length of a list of so many elements of one length, their count, and the starts of all but
// the first.
fn push_fields(bytes: &mut Vec<u8>, count: u32, len: u32) -> Result<(), Fail> {
    let wide = is_wide(count, len);
    let width: u64 = if wide { 4 } else { 2 };
    let size = (count as u64).saturating_mul(width.saturating_add(len as u64));
    bytes.extend_from_slice(&size.to_le_bytes())?;
    push_field(bytes, count, wide)?;
    for index in 1..count {
        push_field(bytes, index.saturating_mul(len), wide)?;
    }
    Ok(())
}

// The second keys and the values of the pairs of a row from one on.
fn push_pairs(bytes: &mut Vec<u8>, row: Row, first: u32, is_changed: bool) -> Result<(), Fail> {
    let count = row.pairs.saturating_sub(first);
    bytes.extend_from_slice(&count.to_le_bytes())?;
    push_fields(bytes, count, 3)?;
    for pair in first..row.pairs {
        bytes.extend_from_slice(&key_of(pair))?;
    }
    push_fields(bytes, count, row.value_len)?;
    for pair in first..row.pairs {
        let len = bytes.len().saturating_add(row.value_len as usize);
        bytes.resize(len, value_of(pair, is_changed))?;
    }
    Ok(())
}

// The image of the pairs of a row from one on, in hexadecimal.
fn image_of(alloc: Global, row: Row, first: u32, is_changed: bool) -> Result<String, Fail> {
    let count = row.pairs.saturating_sub(first);
    let mut bytes = Vec::from_slice(alloc, &[255; 8])?;
    bytes.extend_from_slice(&[
        16,
        name_of(is_wide(count, 3)),
        name_of(is_wide(count, row.value_len)),
    ])?;
    bytes.extend_from_slice(FRONT)?;
    push_pairs(&mut bytes, row, first, is_changed)?;
    Ok(hex::encode(alloc, bytes.as_slice())?)
}

// An input: the first pair goes, and another one gets another value. What is answered.
fn edit_of(alloc: Global, row: Row) -> Result<(Vec<u8>, Vec<u8>), Fail> {
    let len = row.value_len as usize;
    let image = image_of(alloc, row, 0, false)?;
    let input = text_of(
        alloc,
        &[
            Part::Once("x"),
            Part::Once(&image),
            Part::Once("\nget x61 x000700\ndel x61 x000000\nput x61 x000700 x"),
            Part::Times("ff", len),
            Part::Once("\nget x61 x000700\nrow x62\n"),
        ],
    )?;
    let image = image_of(alloc, row, 1, true)?;
    let output = text_of(
        alloc,
        &[
            Part::Once("some x"),
            Part::Times("c6", len),
            Part::Once("\nold x"),
            Part::Times("00", len),
            Part::Once("\nold x"),
            Part::Times("c6", len),
            Part::Once("\nsome x"),
            Part::Times("ff", len),
            Part::Once("\nnone\nimage x"),
            Part::Once(&image),
            Part::Once("\n"),
        ],
    )?;
    Ok((input, output))
}

// An edit of a row is answered, where the input comes in pieces of at most so many bytes.
fn try_row(rt: &impl Abort, alloc: Global, row: Row, piece: usize) -> Result<(), Fail> {
    let (input, output) = edit_of(alloc, row)?;
    let devices = memory_devices(alloc, &input, piece, 16_000_000)?;
    let answer = answer_of(alloc, &words_of(alloc, &["edit"])?, devices);
    assert!(rt; answer.status == Status::Done);
    assert!(rt; answer.sink.taken() == output.as_slice());
    Ok(())
}

#[test]
fn a_wide_image_of_ten_megabytes_is_edited(rt: HostRuntime) -> Result<(), Fail> {
    try_row(&rt, rt.alloc(), TEN_MEGABYTES, 4_096)
}

#[test]
fn such_an_image_may_come_in_short_pieces(rt: HostRuntime) -> Result<(), Fail> {
    try_row(&rt, rt.alloc(), TEN_MEGABYTES, 7)
}

#[test]
fn such_an_image_may_come_in_single_bytes(rt: HostRuntime) -> Result<(), Fail> {
    try_row(&rt, rt.alloc(), TEN_MEGABYTES, 1)
}

#[test]
fn a_row_has_more_pairs_than_two_bytes_count(rt: HostRuntime) -> Result<(), Fail> {
    try_row(&rt, rt.alloc(), MANY_PAIRS, 4_096)
}
