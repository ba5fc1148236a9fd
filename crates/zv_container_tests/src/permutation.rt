// The elements of containers in another order.
use std::alloc::Global;
use std::process::Abort;
use std::test::Fail;
use zv_fixed::ZeroVec;
use zv_map::{FlexVec, ZeroVecPermute};
use zv_owned::VarZeroVec16;
use zv_ule::{StrULE, ZvKind};

// The list has seven elements, and their new order is 3, 2, 1, 0, 6, 5, 4.
fn turns<'a, T: ZvKind, C: ZeroVecPermute<'a, T>>(
    rt: &impl Abort,
    alloc: Global,
    list: &mut C,
    wanted: &[u8],
) {
    assert!(rt; list.zvl_len() == 7);
    assert!(rt; list.zvl_permute(alloc, &[3, 2, 1, 0, 6, 5, 4]) == Ok(()));
    assert!(rt; list.zvl_bytes() == wanted);
    assert!(rt; list.zvl_is_owned());
}

#[test]
fn numbers_are_turned(rt: HostRuntime) -> Result<(), Fail> {
    let bytes = [11, 0, 22, 0, 33, 0, 44, 0, 55, 0, 66, 0, 77, 0];
    let mut list = ZeroVec::<'_, u16>::parse_bytes(&bytes)?;
    let wanted = [44, 0, 33, 0, 22, 0, 11, 0, 77, 0, 66, 0, 55, 0];
    turns::<u16, ZeroVec<'_, u16>>(&rt, rt.alloc(), &mut list, &wanted);
    Ok(())
}

#[test]
fn texts_are_turned(rt: HostRuntime) -> Result<(), Fail> {
    let bytes = b"\x07\0\x02\0\x04\0\x06\0\x08\0\x0a\0\x0c\011223344556677";
    let mut list = VarZeroVec16::<'_, StrULE>::parse_bytes(bytes)?;
    let wanted = b"\x07\0\x02\0\x04\0\x06\0\x08\0\x0a\0\x0c\044332211776655";
    turns::<StrULE, VarZeroVec16<'_, StrULE>>(&rt, rt.alloc(), &mut list, wanted);
    let mut list = FlexVec::<'_, StrULE>::parse_bytes(false, bytes)?;
    turns::<StrULE, FlexVec<'_, StrULE>>(&rt, rt.alloc(), &mut list, wanted);
    Ok(())
}
