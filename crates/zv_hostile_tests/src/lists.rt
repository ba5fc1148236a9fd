// Lists of which few bytes are read in more than one way.
use std::process::Abort;
use std::test::Fail;
use zv_owned::VarZeroVecOwned;
use zv_ule::{Index16, StrULE};
use zv_var::{VarZeroSlice, VarZeroSliceULE};

type Texts = VarZeroSliceULE<StrULE, Index16>;

// A count of 1 and nothing behind it: one element of no bytes.
const ONE: &[u8] = &[1, 0];

#[test]
fn a_count_of_one_is_an_empty_text(rt: HostRuntime) -> Result<(), Fail> {
    let list = VarZeroSlice::<'_, StrULE, Index16>::parse_bytes(ONE)?;
    assert!(rt; list.len() == 1);
    let Some(text) = list.get(0) else {
        panic!(rt; "there is a text");
    };
    assert!(rt; text.as_str() == "");
    Ok(())
}

#[test]
fn a_count_of_one_is_an_empty_list(rt: HostRuntime) -> Result<(), Fail> {
    let lists = VarZeroSlice::<'_, Texts, Index16>::parse_bytes(ONE)?;
    assert!(rt; lists.len() == 1);
    let Some(list) = lists.get(0) else {
        panic!(rt; "there is a list");
    };
    assert!(rt; VarZeroSliceULE::as_varzeroslice(list).is_empty());
    Ok(())
}

// A list of no text is written as a count of 0, of which a nested list takes two bytes.
#[test]
fn two_empty_lists_are_two_counts(rt: HostRuntime) -> Result<(), Fail> {
    let lists: [&[&str]; 2] = [&[], &[]];
    let owned = VarZeroVecOwned::<Texts, Index16>::try_from_elements(rt.alloc(), &lists)?;
    assert!(rt; owned.as_bytes() == [2, 0, 2, 0, 0, 0, 0, 0].as_slice());
    Ok(())
}
