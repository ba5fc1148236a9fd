// Lists of lists: how they are read, refused, compared and written.
ghost use Rattle.std.specs.Prelude.{◌≡◌, IsTrue};

use crate::formats::is_spelled;
use std::cmp::Ordering;
use std::process::Abort;
use std::test::Fail;
use zv_owned::{VarZeroVec, VarZeroVecOwned};
use zv_ule::{Index8, Index16, Index32, StrULE, TyName, UleError, VarRef, ZvKind, ZvOrd};
use zv_var::{VarZeroSlice, VarZeroSliceULE, VarZeroVecComponents, VarZeroVecFormatError};

// Lists of texts, and lists of those.
type Texts = VarZeroSliceULE<StrULE, Index16>;

type Lists = VarZeroSliceULE<Texts, Index32>;

// The list of "a" and "b", and that of "c".
const TWO_LISTS: [u8; 17] = [2, 0, 0, 0, 6, 0, 0, 0, 2, 0, 1, 0, 97, 98, 1, 0, 99];

#[test]
fn lists_of_lists_are_written(rt: HostRuntime) -> Result<(), Fail> {
    let alloc = rt.alloc();
    let lists: [&[&str]; 2] = [&["a", "b"], &["c"]];
    is_spelled::<Lists, &[&[&str]]>(&rt, alloc, &lists.as_slice(), &TWO_LISTS)?;

    // A list of no text has a count.
    let lists: [&[&str]; 2] = [&[], &["a"]];
    let owned = VarZeroVecOwned::<Texts, Index16>::try_from_elements(alloc, &lists)?;
    assert!(rt; owned.as_bytes() == [2, 0, 2, 0, 0, 0, 1, 0, 97].as_slice());
    Ok(())
}

#[test]
fn a_list_is_written_as_its_own_bytes(rt: HostRuntime) -> Result<(), Fail> {
    let alloc = rt.alloc();
    let bytes = [0, 0, 7, 7];
    let view = VarZeroSlice::<'_, StrULE, Index16>::parse_bytes(&bytes)?;
    is_spelled::<Texts, VarZeroSlice<'_, StrULE, Index16>>(&rt, alloc, &view, &bytes)?;
    let list = VarZeroVec::from(view);
    is_spelled::<Texts, VarZeroVec<'_, StrULE, Index16>>(&rt, alloc, &list, &bytes)?;
    let owned = VarZeroVecOwned::<StrULE, Index16>::new(alloc);
    is_spelled::<Texts, VarZeroVecOwned<StrULE, Index16>>(&rt, alloc, &owned, &[])
}

#[test]
fn lists_of_lists_are_read(rt: HostRuntime) -> Result<(), Fail> {
    let lists = VarZeroSliceULE::as_varzeroslice(VarRef::<'_, Lists>::new(&TWO_LISTS)?);
    assert!(rt; lists.len() == 2);
    let Some(first) = lists.get(0) else {
        panic!(rt; "there are two lists");
    };
    let texts = VarZeroSliceULE::as_varzeroslice(first);
    assert!(rt; texts.same_slice(&["a", "b"]));
    assert!(rt; !texts.same_slice(&["a", "c"]));
    assert!(rt; !texts.same_slice(&["a"]));
    assert!(rt; texts.as_view().as_bytes() == &TWO_LISTS[8..14]);
    Ok(())
}

// Bytes are refused as a list of lists, and as one in a list of such.
fn is_refused(rt: &impl Abort, bytes: &[u8]) {
    let error = UleError::parse(TyName::VarZeroSlice);
    assert!(rt; Lists::check(bytes) == Err(error));
    assert!(rt;
        VarZeroVecComponents::<'_, Texts, Index32>::parse_bytes(bytes).err()
            == Some(VarZeroVecFormatError::Values(error))
    );
}

#[test]
fn a_fault_deep_inside_is_that_of_a_list(rt: HostRuntime) {
    // The second list's only text is no UTF-8.
    is_refused(
        &rt,
        &[2, 0, 0, 0, 6, 0, 0, 0, 2, 0, 1, 0, 97, 98, 1, 0, 0xff],
    );
    // The first list's second text starts past the end.
    is_refused(&rt, &[2, 0, 0, 0, 6, 0, 0, 0, 2, 0, 9, 0, 97, 98, 1, 0, 99]);
    // The second list's count is cut.
    is_refused(&rt, &[2, 0, 0, 0, 6, 0, 0, 0, 2, 0, 1, 0, 97, 98, 1]);
}

// Two elements compare so.
fn compares<K: ZvOrd>(
    rt: &impl Abort,
    left: &[u8],
    right: &[u8],
    order: Ordering,
) -> Result<(), Fail>
    requires { IsTrue K.usable }
{
    let left = VarRef::<'_, K>::new(left)?;
    let right = VarRef::<'_, K>::new(right)?;
    assert!(rt; left.order(right) == order);
    assert!(rt; left.same(right) == order.is_eq());
    Ok(())
}

#[test]
fn lists_of_lists_compare(rt: HostRuntime) -> Result<(), Fail> {
    // The lists of "a" and "b", and of "d".
    let higher = [2, 0, 0, 0, 6, 0, 0, 0, 2, 0, 1, 0, 97, 98, 1, 0, 100];
    compares::<Lists>(&rt, &TWO_LISTS, &higher, Ordering::Less)?;
    // The list of "a" and "b" alone.
    let shorter = [1, 0, 0, 0, 2, 0, 1, 0, 97, 98];
    compares::<Lists>(&rt, &TWO_LISTS, &shorter, Ordering::Greater)?;
    // The list of no text and that of "c": the first has no bytes, and then a count of 0.
    let bare = [2, 0, 0, 0, 0, 0, 0, 0, 1, 0, 99];
    let counted = [2, 0, 0, 0, 2, 0, 0, 0, 0, 0, 1, 0, 99];
    compares::<Lists>(&rt, &bare, &counted, Ordering::Equal)?;
    compares::<Lists>(&rt, &bare, &TWO_LISTS, Ordering::Less)
}

#[test]
fn an_empty_list_is_the_same_with_a_count(rt: HostRuntime) -> Result<(), Fail> {
    let bytes = [0, 0, 0, 0];
    compares::<VarZeroSliceULE<StrULE, Index8>>(&rt, &bytes, &[], Ordering::Equal)?;
    compares::<VarZeroSliceULE<StrULE, Index16>>(&rt, &bytes, &[], Ordering::Equal)?;
    compares::<VarZeroSliceULE<StrULE, Index32>>(&rt, &bytes, &[], Ordering::Equal)
}

#[test]
fn vectors_compare_with_lists(rt: HostRuntime) -> Result<(), Fail> {
    let alloc = rt.alloc();
    let owned = VarZeroVecOwned::<StrULE, Index16>::try_from_elements(alloc, &["a", "b"])?;
    let list = owned.as_varzerovec();
    assert!(rt; owned.same(list.as_slice()));
    assert!(rt; list.same_slice(&["a", "b"]));
    let shorter = VarZeroVecOwned::<StrULE, Index16>::try_from_elements(alloc, &["a"])?;
    assert!(rt; list.order(shorter.as_slice()) == Ordering::Greater);
    assert!(rt; shorter.order(list.as_slice()) == Ordering::Less);
    Ok(())
}
