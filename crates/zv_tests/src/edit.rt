// The edit by its calls.
use crate::cases::PAIR;
use crate::long_inputs::{Part, text_of};
use crate::runs::join;
use std::alloc::Global;
use std::process::Abort;
use std::test::Fail;
use zv_tool::{
    Command, Commands, CommandsError, EditError, KeyText, MemSink, NoMemory, ValueBytes, edit2d,
    look2d,
};

// The command that gives "a" and "b" a value.
fn put(alloc: Global, value: &[u8]) -> Result<Command, NoMemory> {
    let key0 = KeyText::new(alloc, "a")?;
    let key1 = KeyText::new(alloc, "b")?;
    let value = ValueBytes::new(alloc, value)?;
    Ok(Command::Put { key0, key1, value })
}

// The command that asks for the row of the empty text.
fn empty_row(alloc: Global) -> Result<Command, NoMemory> {
    let key0 = KeyText::new(alloc, "")?;
    Ok(Command::Row { key0 })
}

// The list of the one command that gives "a" and "b" a value.
fn one_put(alloc: Global, value: &[u8]) -> Result<Commands, Fail> {
    let mut commands = Commands::new(alloc);
    commands.push(put(alloc, value)?)?;
    Ok(commands)
}

// The edit of the empty image ends so, and wrote this.
fn try_edit(
    rt: &impl Abort,
    alloc: Global,
    writes: &[usize],
    ended: Result<(), EditError>,
    written: &[u8],
) -> Result<(), Fail> {
    let commands = one_put(alloc, &[1])?;
    let mut sink = MemSink::new(alloc, 2_000, 3, writes)?;
    assert!(rt; edit2d(alloc, &[0; 32], &commands, &mut sink) == ended);
    assert!(rt; sink.taken() == written);
    Ok(())
}

#[test]
fn an_edit_by_its_calls(rt: HostRuntime) -> Result<(), Fail> {
    let alloc = rt.alloc();
    let answer = join(alloc, &["new\nimage x", PAIR, "\n"])?;
    try_edit(&rt, alloc, &[], Ok(()), &answer)?;
    try_edit(&rt, alloc, &[0], Err(EditError::Write), b"new")
}

// The image of "a" in "b", which has 1.
const ONE_PAIR: &[u8] = b"\
    \x03\0\0\0\0\0\0\0\x01\0a\
    \x04\0\0\0\0\0\0\0\x01\0\0\0\
    \x03\0\0\0\0\0\0\0\x01\0b\
    \x03\0\0\0\0\0\0\0\x01\0\x01";

// What "a" has in an image for a second key, or why it has nothing.
fn looked<'a>(image: &'a [u8], key1: &str) -> Result<Option<&'a [u8]>, EditError> {
    Ok(look2d(image, "a", key1)?.map(|value| value.as_bytes()))
}

#[test]
fn a_look_up_by_its_call(rt: HostRuntime) {
    assert!(rt; looked(ONE_PAIR, "b") == Ok(Some([1].as_slice())));
    assert!(rt; looked(ONE_PAIR, "c") == Ok(None));
    assert!(rt; looked(&[0; 32], "b") == Ok(None));
    assert!(rt; looked(&[0; 31], "b") == Err(EditError::Frame));
}

// 1 for the command, and fields of 1, 1 and 16,777,213 bytes, are all that a list takes.
#[test]
fn commands_are_full_at_their_limit(rt: HostRuntime) -> Result<(), Fail> {
    let alloc = rt.alloc();
    let parts = [
        Part::Times("0000000000000000", 1_048_575),
        Part::Once("0000000000000"),
    ];
    let value = text_of(alloc, &parts)?;
    let mut commands = one_put(alloc, &value)?;
    assert!(rt; commands.push(empty_row(alloc)?) == Err(CommandsError::Full));
    Ok(())
}
