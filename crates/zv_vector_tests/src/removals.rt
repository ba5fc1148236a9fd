// Removals from lists that borrow their bytes, and own those that are left.
use std::alloc::Global;
use std::process::Abort;
use std::test::Fail;
use zv_fixed::ZeroVec;
use zv_owned::VarZeroVec;
use zv_ule::{AsULE, Index8, Index16, Index32, StrULE, UsableKind, VarZeroVecFormat};

// The list of these bytes gives the value at a place, and is left as these.
fn gives<T: AsULE + UsableKind + PartialEq>(
    rt: &impl Abort,
    alloc: Global,
    bytes: &[u8],
    (index, value): (usize, T),
    left: &[u8],
) -> Result<(), Fail> {
    let mut list = ZeroVec::<'_, T>::parse_bytes(bytes)?;
    assert!(rt; !list.is_owned());
    assert!(rt; index < list.len());
    assert!(rt; list.remove(alloc, index)? == value);
    assert!(rt; list.is_owned());
    assert!(rt; list.as_bytes() == left);
    Ok(())
}

#[test]
fn a_borrowed_list_gives_a_value(rt: HostRuntime) -> Result<(), Fail> {
    let alloc = rt.alloc();
    gives::<u16>(&rt, alloc, &[1, 0, 2, 0, 3, 0], (0, 1), &[2, 0, 3, 0])?;
    gives::<u16>(&rt, alloc, &[1, 0, 2, 0, 3, 0], (1, 2), &[1, 0, 3, 0])?;
    gives::<u16>(&rt, alloc, &[1, 0, 2, 0, 3, 0], (2, 3), &[1, 0, 2, 0])?;
    gives::<char>(&rt, alloc, &[97, 0, 0, 0, 1, 0], (0, 'a'), &[0, 1, 0])?;
    gives::<u8>(&rt, alloc, &[7], (0, 7), &[])
}

// The list of these bytes loses the text at a place, and is left as these.
fn loses<F: VarZeroVecFormat>(
    rt: &impl Abort,
    alloc: Global,
    bytes: &[u8],
    index: usize,
    left: &[u8],
) -> Result<(), Fail> {
    let mut list = VarZeroVec::<'_, StrULE, F>::parse_bytes(bytes)?;
    assert!(rt; !list.is_owned());
    assert!(rt; index < list.len());
    list.remove(alloc, index)?;
    assert!(rt; list.is_owned());
    assert!(rt; list.as_bytes() == left);
    Ok(())
}

// The texts "a", "bb" and "c", in fields of two bytes.
const THREE_TEXTS: &[u8] = b"\x03\0\x01\0\x03\0abbc";

#[test]
fn a_borrowed_list_loses_a_text(rt: HostRuntime) -> Result<(), Fail> {
    let alloc = rt.alloc();
    loses::<Index16>(&rt, alloc, THREE_TEXTS, 0, b"\x02\0\x02\0bbc")?;
    loses::<Index16>(&rt, alloc, THREE_TEXTS, 1, b"\x02\0\x01\0ac")?;
    loses::<Index16>(&rt, alloc, THREE_TEXTS, 2, b"\x02\0\x01\0abb")?;
    loses::<Index8>(&rt, alloc, b"\x02\x01ab", 0, b"\x01b")?;
    loses::<Index32>(&rt, alloc, b"\x01\0\0\0a", 0, b"")
}
