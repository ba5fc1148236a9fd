// Containers of maps.
ghost use Rattle.std.specs.Prelude.{◌<◌, ◌^◌, IsTrue, length};

use crate::refusal::{end, is_refused};
use std::alloc::Global;
use std::process::Abort;
use std::test::Fail;
use zv_map::MutableZeroVecLike;
use zv_ule::{ZvArg, ZvKind};

/// What is asked of a list of one element.
#[derive(Clone, Copy)]
pub enum Call {
    Insert,
    Push,
    Replace,
    Remove,
    Room,
    Own,
    Copy,
}

/// A call, and the bytes of the list that it leaves.
pub type Row<'r> = (Call, &'r [u8]);

// Makes a call at the first place, and tells whether it is refused.
fn is_call_refused<'a, T, C, Q>(
    rt: &impl Abort,
    alloc: Global,
    list: &mut C,
    call: Call,
    value: &Q,
) -> bool
where
    T: ZvKind,
    C: MutableZeroVecLike<'a, T>,
    Q: ZvArg<T>,
    requires { length (Q.bytes value.now) < 2 ^ 64 }
{
    let is_empty = list.zvl_len() == 0;
    match call {
        Call::Insert => is_refused(rt, list.zvl_insert(alloc, 0, value)),
        Call::Push => is_refused(rt, list.zvl_push(alloc, value)),
        Call::Replace if !is_empty => is_refused(rt, list.zvl_replace(alloc, 0, value)),
        Call::Remove if !is_empty => is_refused(rt, list.zvl_remove(alloc, 0)),
        Call::Room => is_refused(rt, list.zvl_reserve_bytes(alloc, 100)),
        Call::Own => is_refused(rt, list.zvl_make_owned(alloc)),
        Call::Copy => is_refused(rt, list.zvl_clone(alloc)),
        Call::Replace | Call::Remove => false,
    }
}

// Makes a call on the list of bytes, which it borrows or owns. It leaves these bytes, or the list
// as it was.
fn try_call<'a, T, C, Q>(
    rt: &impl Abort,
    alloc: Global,
    before: &'a [u8],
    row: &Row<'_>,
    value: &Q,
    is_owned: bool,
) -> Result<(), Fail>
where
    T: ZvKind,
    C: MutableZeroVecLike<'a, T>,
    Q: ZvArg<T>,
    requires usable { IsTrue T.usable }
    requires below { length (Q.bytes value.now) < 2 ^ 64 }
{
    let mut list = C::zvl_parse(before)?;
    if is_owned {
        list.zvl_make_owned(alloc)?;
    }
    let (call, after) = *row;
    let is_refused = is_call_refused::<T, C, Q>(rt, alloc, &mut list, call, value);
    assert!(rt; list.zvl_bytes() == if is_refused { before } else { after });
    end(is_refused)
}

/// Makes each call on a borrowed list and on an owned one.
pub fn try_calls<'a, T, C, Q>(
    rt: &impl Abort,
    alloc: Global,
    before: &'a [u8],
    rows: &[Row<'_>],
    value: &Q,
) -> Result<(), Fail>
where
    T: ZvKind,
    C: MutableZeroVecLike<'a, T>,
    Q: ZvArg<T>,
    requires usable { IsTrue T.usable }
    requires below { length (Q.bytes value.now) < 2 ^ 64 }
{
    for row in rows {
        try_call::<T, C, Q>(rt, alloc, before, row, value, false)?;
        try_call::<T, C, Q>(rt, alloc, before, row, value, true)?;
    }
    Ok(())
}

/// The list of "a".
pub const TEXT: &[u8] = b"\x01\0a";

/// Calls with "bc" on the list of "a".
pub const TEXTS: [Row<'static>; 7] = [
    (Call::Insert, b"\x02\0\x02\0bca"),
    (Call::Push, b"\x02\0\x01\0abc"),
    (Call::Replace, b"\x01\0bc"),
    (Call::Remove, b""),
    (Call::Room, TEXT),
    (Call::Own, TEXT),
    (Call::Copy, TEXT),
];

/// The list of 1.
pub const NUMBER: &[u8] = b"\x01\0\0\0";

/// Calls with 7 on the list of 1.
pub const NUMBERS: [Row<'static>; 7] = [
    (Call::Insert, b"\x07\0\0\0\x01\0\0\0"),
    (Call::Push, b"\x01\0\0\0\x07\0\0\0"),
    (Call::Replace, b"\x07\0\0\0"),
    (Call::Remove, b""),
    (Call::Room, NUMBER),
    (Call::Own, NUMBER),
    (Call::Copy, NUMBER),
];
