// Maps in two levels.
use crate::refusal::{end, is_refused};
use std::alloc::Global;
use std::process::Abort;
use std::test::Fail;
use zv_map::MutableZeroVecLike;
use zv_map2d::Map2dOver;
use zv_ule::StrULE;

// A map from two numbers to a name.
type Names<'a, C, D> = Map2dOver<'a, u32, u32, StrULE, C, C, D>;

// What is asked of a map of (1, 2, "dos").
#[derive(Clone, Copy)]
enum Call {
    Insert(u32, u32),
    Append(u32, u32),
    Remove(u32, u32),
    Room,
    RoomFor,
    Own,
    Copy,
}

// A call, and the first keys, ends, second keys and values of the map that it leaves.
struct Row<'r> {
    call: Call,
    keys0: &'r [u8],
    joiner: &'r [u8],
    keys1: &'r [u8],
    values: &'r [u8],
}

// Makes a call, with the name "x" where it takes one, and tells whether it is refused.
fn is_call_refused<'a, C, D>(
    rt: &impl Abort,
    alloc: Global,
    map: &mut Names<'a, C, D>,
    call: Call,
) -> bool
where
    C: MutableZeroVecLike<'a, u32>,
    D: MutableZeroVecLike<'a, StrULE>,
{
    match call {
        Call::Insert(key0, key1) => is_refused(rt, map.insert(alloc, &key0, &key1, &"x")),
        Call::Append(key0, key1) => is_refused(rt, map.try_append(alloc, &key0, &key1, &"x")),
        Call::Remove(key0, key1) => is_refused(rt, map.remove(alloc, &key0, &key1)),
        Call::Room => is_refused(rt, map.reserve(alloc, 100)),
        Call::RoomFor => is_refused(rt, map.reserve_for(alloc, 20, 20, 50, 10)),
        Call::Own => is_refused(rt, map.make_owned(alloc)),
        Call::Copy => is_refused(rt, map.clone(alloc)),
    }
}

// The map has these lists.
fn has_lists<'a, C, D>(rt: &impl Abort, map: &Names<'a, C, D>, row: &Row<'_>)
where
    C: MutableZeroVecLike<'a, u32>,
    D: MutableZeroVecLike<'a, StrULE>,
{
    let parts = map.canon_parts();
    assert!(rt; parts.keys0 == row.keys0);
    assert!(rt; parts.joiner == row.joiner);
    assert!(rt; parts.keys1 == row.keys1);
    assert!(rt; parts.values == row.values);
}

const BEFORE: Row<'static> = Row {
    call: Call::Own,
    keys0: &[1, 0, 0, 0],
    joiner: &[1, 0, 0, 0],
    keys1: &[2, 0, 0, 0],
    values: b"\x01\0dos",
};

// Makes a call on the map. It leaves these lists, or the map as it was.
fn try_call<'a, C, D>(rt: &impl Abort, alloc: Global, row: &Row<'_>) -> Result<(), Fail>
where
    C: MutableZeroVecLike<'a, u32>,
    D: MutableZeroVecLike<'a, StrULE>,
{
    let mut map = Names::<'a, C, D>::new();
    map.insert(alloc, &1, &2, &"dos")?;
    let is_refused = is_call_refused(rt, alloc, &mut map, row.call);
    has_lists(rt, &map, if is_refused { &BEFORE } else { row });
    end(is_refused)
}

const ROWS: [Row<'static>; 10] = [
    Row {
        call: Call::Insert(0, 9),
        keys0: &[0, 0, 0, 0, 1, 0, 0, 0],
        joiner: &[1, 0, 0, 0, 2, 0, 0, 0],
        keys1: &[9, 0, 0, 0, 2, 0, 0, 0],
        values: b"\x02\0\x01\0xdos",
    },
    Row {
        call: Call::Insert(1, 3),
        keys0: &[1, 0, 0, 0],
        joiner: &[2, 0, 0, 0],
        keys1: &[2, 0, 0, 0, 3, 0, 0, 0],
        values: b"\x02\0\x03\0dosx",
    },
    Row {
        call: Call::Insert(1, 2),
        keys0: &[1, 0, 0, 0],
        joiner: &[1, 0, 0, 0],
        keys1: &[2, 0, 0, 0],
        values: b"\x01\0x",
    },
    Row {
        call: Call::Append(1, 3),
        keys0: &[1, 0, 0, 0],
        joiner: &[2, 0, 0, 0],
        keys1: &[2, 0, 0, 0, 3, 0, 0, 0],
        values: b"\x02\0\x03\0dosx",
    },
    Row {
        call: Call::Append(2, 2),
        keys0: &[1, 0, 0, 0, 2, 0, 0, 0],
        joiner: &[1, 0, 0, 0, 2, 0, 0, 0],
        keys1: &[2, 0, 0, 0, 2, 0, 0, 0],
        values: b"\x02\0\x03\0dosx",
    },
    Row {
        call: Call::Remove(1, 2),
        keys0: &[],
        joiner: &[],
        keys1: &[],
        values: &[],
    },
    BEFORE,
    Row {
        call: Call::Room,
        ..BEFORE
    },
    Row {
        call: Call::RoomFor,
        ..BEFORE
    },
    Row {
        call: Call::Copy,
        ..BEFORE
    },
];

/// Makes each call.
pub fn try_calls<'a, C, D>(rt: &impl Abort, alloc: Global) -> Result<(), Fail>
where
    C: MutableZeroVecLike<'a, u32>,
    D: MutableZeroVecLike<'a, StrULE>,
{
    for row in &ROWS {
        try_call::<C, D>(rt, alloc, row)?;
    }
    Ok(())
}
