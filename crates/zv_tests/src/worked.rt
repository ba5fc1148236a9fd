// Worked inputs, given to the program in pieces of several sizes.
use crate::cases::{Case, cases, head_cases};
use crate::changes::changes;
use crate::frozen::frozen;
use crate::layers::layers;
use crate::locales::locales;
use crate::looks::looks;
use crate::makes::makes;
use crate::props::props;
use crate::runs::{answer_of, failing_devices, join, memory_devices, words_of};
use std::alloc::Global;
use std::process::Abort;
use std::test::Fail;
use zv_tool::{Status, Words};

// A case, with its texts joined.
#[derive(Drop)]
struct JoinedCase {
    words: Words,
    input: Vec<u8>,
    output: Vec<u8>,
}

fn join_case(alloc: Global, case: &Case) -> Result<JoinedCase, Fail> {
    let words = words_of(alloc, case.words)?;
    let input = join(alloc, case.input)?;
    let output = join(alloc, case.output)?;
    Ok(JoinedCase {
        words,
        input,
        output,
    })
}

// A run whose source gives at most `piece` bytes at once.
fn try_piece(
    rt: &impl Abort,
    alloc: Global,
    case: &Case,
    joined: &JoinedCase,
    piece: usize,
) -> Result<(), Fail> {
    let name = case.name;
    let devices = memory_devices(alloc, &joined.input, piece, 2_000)?;
    let answer = answer_of(alloc, &joined.words, devices);
    assert!(rt; answer.status == case.status);
    assert!(rt; answer.sink.taken() == joined.output.as_slice());
    Ok(())
}

// How long a front of an answer is, up to its image's line and three bytes more.
fn replies_and_three(output: &[u8]) -> usize {
    let replies = output.windows(7).position(|w| w == b"image x".as_slice());
    replies.unwrap_or(0).saturating_add(3)
}

// A run whose sink fails at a write, of which it takes three bytes.
fn try_failing_write(
    rt: &impl Abort,
    alloc: Global,
    case: &Case,
    joined: &JoinedCase,
    write: usize,
    len: usize,
) -> Result<(), Fail> {
    let name = case.name;
    let devices = failing_devices(alloc, &joined.input, &[], &[write])?;
    let answer = answer_of(alloc, &joined.words, devices);
    let taken = answer.sink.taken();
    assert!(rt; answer.status == Status::WriteFault);
    assert!(rt; taken.len() == len);
    assert!(rt; joined.output.starts_with(taken));
    Ok(())
}

// The runs of each case.
fn try_cases(rt: &impl Abort, alloc: Global, cases: &[Case]) -> Result<(), Fail> {
    for case in cases {
        let joined = join_case(alloc, case)?;
        for piece in [1, 7, 4096] {
            try_piece(rt, alloc, case, &joined, piece)?;
        }
    }
    Ok(())
}

#[test]
fn each_input_is_answered(rt: HostRuntime) -> Result<(), Fail> {
    try_cases(&rt, rt.alloc(), cases())
}

#[test]
fn each_head_is_answered(rt: HostRuntime) -> Result<(), Fail> {
    try_cases(&rt, rt.alloc(), head_cases())
}

#[test]
fn each_look_up_is_answered(rt: HostRuntime) -> Result<(), Fail> {
    try_cases(&rt, rt.alloc(), looks())
}

#[test]
fn each_stack_of_layers_is_answered(rt: HostRuntime) -> Result<(), Fail> {
    try_cases(&rt, rt.alloc(), layers())
}

#[test]
fn each_frozen_image_is_answered(rt: HostRuntime) -> Result<(), Fail> {
    try_cases(&rt, rt.alloc(), frozen())
}

#[test]
fn each_locale_is_answered(rt: HostRuntime) -> Result<(), Fail> {
    try_cases(&rt, rt.alloc(), locales())
}

#[test]
fn each_table_is_answered(rt: HostRuntime) -> Result<(), Fail> {
    try_cases(&rt, rt.alloc(), props())
}

#[test]
fn each_table_is_made(rt: HostRuntime) -> Result<(), Fail> {
    try_cases(&rt, rt.alloc(), makes())
}

#[test]
fn each_change_is_answered(rt: HostRuntime) -> Result<(), Fail> {
    try_cases(&rt, rt.alloc(), changes())
}

#[test]
fn each_write_of_an_answer_can_fail(rt: HostRuntime) -> Result<(), Fail> {
    let alloc = rt.alloc();
    for case in changes() {
        if case.status == Status::Done {
            let joined = join_case(alloc, case)?;
            let replies = replies_and_three(&joined.output);
            try_failing_write(&rt, alloc, case, &joined, 0, 3)?;
            try_failing_write(&rt, alloc, case, &joined, 1, replies)?;
        }
    }
    Ok(())
}
