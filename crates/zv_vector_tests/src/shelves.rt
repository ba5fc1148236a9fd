// A buffer of bytes that counts what is written into it, and its room.
ghost use Rattle.std.specs.Prelude.{◌≡◌, ℕ, ◌<◌};

use std::alloc::Global;
use std::marker::Brand;
use std::process::Abort;
use std::sync::ledger::{Blank, Ledger};
use std::test::Fail;
use zv_owned::shelf::Shelf;
use zv_ule::Steps;

// The shelf has these bytes.
fn has(rt: &impl Abort, shelf: &Shelf, bytes: &[u8]) {
    assert!(rt; shelf.bytes() == bytes);
    assert!(rt; shelf.len() == bytes.len());
}

// A shelf of the bytes 1 to 4, which were taken in with no room and then in room that was made.
fn one_to_four<L: Ledger>(
    rt: &impl Abort,
    alloc: Global,
    steps: &mut Steps<L>,
) -> Result<Shelf, Fail> {
    let mut shelf = Shelf::new(alloc);
    assert!(rt; shelf.spare() == 0);
    shelf.take_in(&[1, 2, 3], steps)?;
    assert!(rt; shelf.spare() == 0);
    shelf.reserve(4)?;
    has(rt, &shelf, &[1, 2, 3]);
    let spare = shelf.spare();
    assert!(rt; 4 <= spare);
    shelf.take_in(&[4], steps)?;
    assert!(rt; shelf.spare().checked_add(1) == Some(spare));
    assert!(rt; shelf.capacity() == spare.saturating_add(3));
    Ok(shelf)
}

// The bytes 1 to 4 become 1 to 4, 7 and 8, and then 9, 9, 2, 3, 7 and 8.
fn writes_in_place<L: Ledger>(
    rt: &impl Abort,
    shelf: &mut Shelf,
    steps: &mut Steps<L>,
) -> Result<(), Fail> {
    has(rt, shelf, &[1, 2, 3, 4]);
    shelf.grow(2, steps)?;
    has(rt, shelf, &[1, 2, 3, 4, 0, 0]);
    assert!(rt; shelf.len() == 6);
    shelf.write(4, &[7, 8], steps);
    has(rt, shelf, &[1, 2, 3, 4, 7, 8]);
    moves_in_place(rt, shelf, steps);
    Ok(())
}

// Of six bytes the first three are moved by one place, and the first becomes 9.
fn moves_in_place<L: Ledger>(rt: &impl Abort, shelf: &mut Shelf, steps: &mut Steps<L>) {
    assert!(rt; shelf.len() == 6);
    shelf.move_bytes(0..3, 1, steps);
    has(rt, shelf, &[1, 1, 2, 3, 7, 8]);
    assert!(rt; shelf.len() == 6);
    shelf.lend(0, 2, steps)[0] = 9;
    has(rt, shelf, &[9, 1, 2, 3, 7, 8]);
}

// Of six bytes two are kept, and then none: what goes is room.
fn is_emptied(rt: &impl Abort, shelf: &mut Shelf) {
    assert!(rt; shelf.len() == 6);
    let spare = shelf.spare();
    shelf.cut(2);
    has(rt, shelf, &[9, 1]);
    assert!(rt; shelf.spare().checked_sub(4) == Some(spare));
    shelf.clear();
    has(rt, shelf, &[]);
    assert!(rt; shelf.spare().checked_sub(6) == Some(spare));
}

// An empty shelf with room takes in 16 bytes more than it has room for, and gives them.
fn takes_more_than_its_room<L: Ledger>(
    rt: &impl Abort,
    alloc: Global,
    mut shelf: Shelf,
    steps: &mut Steps<L>,
) -> Result<(), Fail> {
    let mut bytes = Vec::new(alloc);
    bytes.resize(shelf.spare().saturating_add(16), 5)?;
    shelf.take_in(&bytes, steps)?;
    has(rt, &shelf, &bytes);
    assert!(rt; shelf.spare() == 0);
    assert!(rt; shelf.into_bytes().as_slice() == bytes.as_slice());
    Ok(())
}

// All of it.
fn keeps_bytes<L: Ledger>(rt: &impl Abort, alloc: Global, blank: Blank) -> Result<(), Fail>
    requires name { blank.name ≡ L.name }
    requires parts { blank.parts ≡ L.parts }
    requires some { 0 < blank.parts }
{
    let mut steps = Steps::<L>::start(blank);
    let mut shelf = one_to_four(rt, alloc, &mut steps)?;
    writes_in_place(rt, &mut shelf, &mut steps)?;
    is_emptied(rt, &mut shelf);
    takes_more_than_its_room(rt, alloc, shelf, &mut steps)
}

#[test]
fn a_shelf_keeps_bytes(rt: HostRuntime) -> Result<(), Fail> {
    keeps_bytes::<Brand>(&rt, rt.alloc(), Blank::new(1))
}
