// Owned lists whose fields become wider or narrower.
use std::alloc::Global;
use std::process::Abort;
use std::test::Fail;
use zv_owned::VarZeroVecOwned;
use zv_ule::{Index16, Index32, NoMemory, StrULE, VarZeroVecFormat};
use zv_var::VarZeroSlice;

// An owned copy of the list that bytes are.
fn list_of<F: VarZeroVecFormat>(
    alloc: Global,
    bytes: &[u8],
) -> Result<VarZeroVecOwned<StrULE, F>, Fail> {
    let view = VarZeroSlice::<'_, StrULE, F>::parse_bytes(bytes)?;
    Ok(VarZeroVecOwned::from_slice(alloc, view)?)
}

// The list as a wide one.
fn wide(
    list: VarZeroVecOwned<StrULE, Index16>,
) -> Result<VarZeroVecOwned<StrULE, Index32>, NoMemory> {
    match list.widen() {
        Ok(wide) => Ok(wide),
        Err(_) => Err(NoMemory),
    }
}

// A list of these bytes becomes one of those, and again one of the last.
fn becomes(
    rt: &impl Abort,
    alloc: Global,
    bytes: &[u8],
    widened: &[u8],
    narrowed: &[u8],
) -> Result<(), Fail> {
    let wide = wide(list_of(alloc, bytes)?)?;
    assert!(rt; wide.as_bytes() == widened);
    assert!(rt; wide.narrow().is_ok_and(|list| list.as_bytes() == narrowed));
    Ok(())
}

#[test]
fn two_texts_become_wide_and_narrow_again(rt: HostRuntime) -> Result<(), Fail> {
    let narrow = [2, 0, 1, 0, 97, 98];
    let wide = [2, 0, 0, 0, 1, 0, 0, 0, 97, 98];
    becomes(&rt, rt.alloc(), &narrow, &wide, &narrow)
}

#[test]
fn bytes_after_a_count_of_zero_are_left_out(rt: HostRuntime) -> Result<(), Fail> {
    let alloc = rt.alloc();
    becomes(&rt, alloc, &[0, 0, 9, 9], &[], &[])?;
    let list = list_of::<Index32>(alloc, &[0, 0, 0, 0, 9])?;
    assert!(rt; list.narrow().is_ok_and(|list| list.as_bytes().is_empty()));
    Ok(())
}

// The narrow list of one text of as many letters.
fn letters(alloc: Global, count: usize) -> Result<VarZeroVecOwned<StrULE, Index16>, Fail> {
    let mut bytes = Vec::from_slice(alloc, &[1, 0])?;
    bytes.resize(count.saturating_add(2), 97)?;
    list_of(alloc, &bytes)
}

#[test]
fn a_list_is_narrow_up_to_what_a_field_says(rt: HostRuntime) -> Result<(), Fail> {
    let alloc = rt.alloc();
    let longest = wide(letters(alloc, 65_533)?)?;
    assert!(rt; longest.as_bytes().len() == 65_537);
    assert!(rt;
        longest
            .narrow()
            .is_ok_and(|list| list.as_bytes().len() == 65_535)
    );
    let longer = wide(letters(alloc, 65_534)?)?;
    assert!(rt;
        longer
            .narrow()
            .is_err_and(|list| list.as_bytes().len() == 65_538)
    );
    Ok(())
}

#[test]
fn a_list_with_room_widens_in_it(rt: HostRuntime) -> Result<(), Fail> {
    let mut list = list_of::<Index16>(rt.alloc(), &[2, 0, 1, 0, 97, 98])?;
    list.reserve_bytes(10)?;
    let spare = list.spare();
    let list = wide(list)?;
    assert!(rt; list.spare().saturating_add(4) == spare);
    Ok(())
}
