// Maps in one level.
use crate::refusal::{end, is_refused};
use std::alloc::Global;
use std::process::Abort;
use std::test::Fail;
use zv_map::MutableZeroVecLike;
use zv_map1::{MapOver, ZeroMapBorrowed};
use zv_ule::StrULE;

// A map from numbers to names.
type Names<C, D> = MapOver<u32, StrULE, C, D>;

// What is asked of a map of (1, "dos").
#[derive(Clone, Copy)]
enum Call {
    Insert(u32),
    Append(u32),
    Remove(u32),
    Room,
    Copy,
}

// A call, and the pairs that it leaves.
struct Row<'r> {
    call: Call,
    after: &'r [(u32, &'r str)],
}

// Makes a call with the name "x", and tells whether it is refused.
fn is_call_refused<'a, C, D>(
    rt: &impl Abort,
    alloc: Global,
    map: &mut Names<C, D>,
    call: Call,
) -> bool
where
    C: MutableZeroVecLike<'a, u32>,
    D: MutableZeroVecLike<'a, StrULE>,
{
    match call {
        Call::Insert(key) => is_refused(rt, map.insert(alloc, &key, &"x")),
        Call::Append(key) => is_refused(rt, map.try_append(alloc, &key, &"x")),
        Call::Remove(key) => is_refused(rt, map.remove(alloc, &key)),
        Call::Room => is_refused(rt, map.reserve(alloc, 100)),
        Call::Copy => is_refused(rt, map.clone(alloc)),
    }
}

// The map has these pairs and no others.
fn has_pairs(rt: &impl Abort, map: ZeroMapBorrowed<'_, u32, StrULE>, pairs: &[(u32, &str)]) {
    assert!(rt; map.len() == pairs.len());
    for (key, value) in pairs {
        match map.get(key) {
            Some(found) => assert!(rt; found.as_str() == *value),
            None => panic!(rt; "{key} has no value"),
        }
    }
}

// Makes a call on the map. It leaves these pairs, or the map as it was.
fn try_call<'a, C, D>(rt: &impl Abort, alloc: Global, row: &Row<'_>) -> Result<(), Fail>
where
    C: MutableZeroVecLike<'a, u32>,
    D: MutableZeroVecLike<'a, StrULE>,
{
    let mut map = Names::<C, D>::try_from_pairs(alloc, &[(1, "dos")])?;
    let is_refused = is_call_refused(rt, alloc, &mut map, row.call);
    let wanted = if is_refused { BEFORE } else { row.after };
    has_pairs(rt, map.as_borrowed(), wanted);
    end(is_refused)
}

const BEFORE: &[(u32, &str)] = &[(1, "dos")];

const ROWS: [Row<'static>; 9] = [
    Row {
        call: Call::Insert(0),
        after: &[(0, "x"), (1, "dos")],
    },
    Row {
        call: Call::Insert(1),
        after: &[(1, "x")],
    },
    Row {
        call: Call::Insert(2),
        after: &[(1, "dos"), (2, "x")],
    },
    Row {
        call: Call::Append(1),
        after: &[(1, "dos")],
    },
    Row {
        call: Call::Append(2),
        after: &[(1, "dos"), (2, "x")],
    },
    Row {
        call: Call::Remove(1),
        after: &[],
    },
    Row {
        call: Call::Remove(2),
        after: &[(1, "dos")],
    },
    Row {
        call: Call::Room,
        after: &[(1, "dos")],
    },
    Row {
        call: Call::Copy,
        after: &[(1, "dos")],
    },
];

/// Makes each call.
pub fn try_calls<'a, C, D>(rt: &impl Abort, alloc: Global) -> Result<(), Fail>
where
    C: MutableZeroVecLike<'a, u32>,
    D: MutableZeroVecLike<'a, StrULE>,
{
    for row in &ROWS {
        try_call::<C, D>(rt, alloc, row)?;
    }
    Ok(())
}
