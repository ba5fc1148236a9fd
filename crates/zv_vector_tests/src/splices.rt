// Changes of lists inside the buffer that they lie in.
ghost use Rattle.std.specs.Prelude.{◌≡◌, ℕ, ◌<◌};

use std::alloc::Global;
use std::marker::Brand;
use std::process::Abort;
use std::sync::ledger::{Blank, Ledger};
use std::test::Fail;
use zv_owned::{Change, VarZeroVec, VarZeroVec16, VarZeroVecOwned, VecError};
use zv_ule::{Index8, Index16, Index32, NoMemory, Steps, StrULE, VarZeroVecFormat};
use zv_var::serialize::{
    compute_serializable_len_without_length, get_serializable_bytes_non_empty,
};
use zv_var::{VarZeroLengthlessSlice, VarZeroSlice};

// A change of a list of texts, at a place.
#[derive(Clone, Copy)]
enum Edit<'t> {
    Insert(usize, &'t str),
    Replace(usize, &'t str),
    Remove(usize),
}

// Makes a change where the list has its place, and counts.
fn make_from<F: VarZeroVecFormat, L: Ledger>(
    rt: &impl Abort,
    list: &mut VarZeroVecOwned<StrULE, F>,
    edit: Edit<'_>,
    blank: Blank,
) -> Result<(), VecError>
    requires name { blank.name ≡ L.name }
    requires parts { blank.parts ≡ L.parts }
    requires some { 0 < blank.parts }
{
    let mut steps = Steps::<L>::start(blank);
    match edit {
        Edit::Insert(place, text) => {
            assert!(rt; place <= list.len());
            list.splice_counted(place, Change::Insert(&text), &mut steps)
        }
        Edit::Replace(place, text) => {
            assert!(rt; place < list.len());
            list.splice_counted(place, Change::Replace(&text), &mut steps)
        }
        Edit::Remove(place) => {
            assert!(rt; place < list.len());
            list.splice_counted(place, Change::<'_, &str>::Remove, &mut steps)
        }
    }
}

// Makes a change, uncounted.
fn make<F: VarZeroVecFormat>(
    rt: &impl Abort,
    list: &mut VarZeroVecOwned<StrULE, F>,
    edit: Edit<'_>,
) -> Result<(), VecError> {
    make_from::<F, Brand>(rt, list, edit, Blank::new(1))
}

// A list, changes of it, and the list that they leave.
struct Row {
    before: &'static [&'static str],
    edits: &'static [Edit<'static>],
    after: &'static [&'static str],
}

const SEVEN: [&str; 7] = ["apples", "bananas", "eeples", "", "baneenees", "five", ""];

const ROWS: [Row; 5] = [
    Row {
        before: &["a"],
        edits: &[Edit::Insert(0, "bc")],
        after: &["bc", "a"],
    },
    Row {
        before: &[],
        edits: &[
            Edit::Insert(0, "1234567890"),
            Edit::Insert(1, "foo3"),
            Edit::Insert(2, "qwertyuiop"),
            Edit::Insert(0, "asdfghjkl;"),
            Edit::Insert(2, ""),
        ],
        after: &["asdfghjkl;", "1234567890", "", "foo3", "qwertyuiop"],
    },
    Row {
        before: &SEVEN,
        edits: &[
            Edit::Remove(0),
            Edit::Remove(2),
            Edit::Remove(4),
            Edit::Remove(0),
            Edit::Remove(1),
            Edit::Remove(1),
        ],
        after: &["eeples"],
    },
    Row {
        before: &["eeples"],
        edits: &[Edit::Remove(0)],
        after: &[],
    },
    Row {
        before: &SEVEN,
        edits: &[
            Edit::Replace(0, "blablah"),
            Edit::Replace(1, "twily"),
            Edit::Replace(3, "aoeuidhtns"),
            Edit::Replace(6, "0123456789"),
            Edit::Replace(2, ""),
        ],
        after: &[
            "blablah",
            "twily",
            "",
            "aoeuidhtns",
            "baneenees",
            "five",
            "0123456789",
        ],
    },
];

// The list after the changes of a row.
fn changed<F: VarZeroVecFormat>(
    rt: &impl Abort,
    alloc: Global,
    row: &Row,
) -> Result<VarZeroVecOwned<StrULE, F>, VecError> {
    let mut list = VarZeroVecOwned::new(alloc);
    for text in row.before {
        list.push(text)?;
    }
    for edit in row.edits {
        make(rt, &mut list, *edit)?;
    }
    Ok(list)
}

// Each row leaves its texts, and no bytes where it leaves none.
fn leaves_texts<F: VarZeroVecFormat>(rt: &impl Abort, alloc: Global) -> Result<(), Fail> {
    for row in &ROWS {
        let list = changed::<F>(rt, alloc, row)?;
        assert!(rt; list.len() == row.after.len());
        for (element, text) in list.iter().zip(row.after.iter()) {
            assert!(rt; element.as_str() == *text);
        }
        assert!(rt; list.as_bytes().is_empty() == row.after.is_empty());
    }
    Ok(())
}

#[test]
fn texts_come_and_go(rt: HostRuntime) -> Result<(), Fail> {
    let alloc = rt.alloc();
    leaves_texts::<Index8>(&rt, alloc)?;
    leaves_texts::<Index16>(&rt, alloc)?;
    leaves_texts::<Index32>(&rt, alloc)
}

// Changes of the list of the text "a", one after another.
const EDITS: [Edit<'static>; 5] = [
    Edit::Insert(1, "b"),
    Edit::Replace(0, "cc"),
    Edit::Remove(0),
    Edit::Insert(0, "a"),
    Edit::Replace(1, "c"),
];

// In a list that has room, each of the changes leaves these bytes.
fn leaves_bytes<F: VarZeroVecFormat>(
    rt: &impl Abort,
    alloc: Global,
    before: &[u8],
    after: [&[u8]; 5],
) -> Result<(), Fail> {
    let view = VarZeroSlice::<'_, StrULE, F>::parse_bytes(before)?;
    let mut list = VarZeroVecOwned::from_slice(alloc, view)?.clone()?;
    list.reserve(4)?;
    list.reserve_bytes(9)?;
    for (edit, bytes) in EDITS.iter().zip(after.iter()) {
        make(rt, &mut list, *edit)?;
        assert!(rt; list.as_bytes() == *bytes);
    }
    Ok(())
}

#[test]
fn bytes_are_changed_in_place(rt: HostRuntime) -> Result<(), Fail> {
    let alloc = rt.alloc();
    leaves_bytes::<Index8>(
        &rt,
        alloc,
        &[1, 97],
        [
            &[2, 1, 97, 98],
            &[2, 2, 99, 99, 98],
            &[1, 98],
            &[2, 1, 97, 98],
            &[2, 1, 97, 99],
        ],
    )?;
    leaves_bytes::<Index16>(
        &rt,
        alloc,
        &[1, 0, 97],
        [
            &[2, 0, 1, 0, 97, 98],
            &[2, 0, 2, 0, 99, 99, 98],
            &[1, 0, 98],
            &[2, 0, 1, 0, 97, 98],
            &[2, 0, 1, 0, 97, 99],
        ],
    )?;
    leaves_bytes::<Index32>(
        &rt,
        alloc,
        &[1, 0, 0, 0, 97],
        [
            &[2, 0, 0, 0, 1, 0, 0, 0, 97, 98],
            &[2, 0, 0, 0, 2, 0, 0, 0, 99, 99, 98],
            &[1, 0, 0, 0, 98],
            &[2, 0, 0, 0, 1, 0, 0, 0, 97, 98],
            &[2, 0, 0, 0, 1, 0, 0, 0, 97, 99],
        ],
    )
}

#[test]
fn bytes_after_a_count_of_zero_go(rt: HostRuntime) -> Result<(), Fail> {
    let mut list = VarZeroVec16::<'_, StrULE>::parse_bytes(&[0, 0, 9, 9])?;
    make(&rt, list.make_mut(rt.alloc())?, Edit::Insert(0, "ab"))?;
    assert!(rt; list.as_bytes() == [1, 0, 97, 98].as_slice());
    Ok(())
}

// These bytes, and a text of 70,000 letters.
fn before_text(alloc: Global, head: &[u8]) -> Result<Vec<u8>, Fail> {
    let mut bytes = Vec::from_slice(alloc, head)?;
    let end = bytes.len().saturating_add(70_000);
    bytes.resize(end, 98)?;
    Ok(bytes)
}

#[test]
fn a_text_that_is_too_long_stays(rt: HostRuntime) -> Result<(), Fail> {
    let alloc = rt.alloc();
    let bytes = before_text(alloc, &[2, 0, 1, 0, 97])?;
    let mut list = VarZeroVec16::<'_, StrULE>::parse_bytes(&bytes)?.into_owned(alloc)?;
    make(&rt, list.make_mut(alloc)?, Edit::Remove(0))?;
    assert!(rt; list.as_bytes() == before_text(alloc, &[1, 0])?.as_slice());
    Ok(())
}

// How much room an empty list has that was made for two elements, and then for ten bytes more.
fn rooms<F: VarZeroVecFormat>(alloc: Global) -> Result<(usize, usize), NoMemory> {
    let mut list = VarZeroVecOwned::<StrULE, F>::with_capacity(alloc, 2)?;
    let two = list.spare();
    list.reserve_bytes(two.saturating_add(10))?;
    Ok((two, list.spare()))
}

#[test]
fn room_is_made(rt: HostRuntime) -> Result<(), Fail> {
    let (two, more) = rooms::<Index16>(rt.alloc())?;
    assert!(rt; 12 <= two);
    assert!(rt; two.saturating_add(10) <= more);
    Ok(())
}

// Puts a text first, in the room that the list has.
fn insert_in_room<F: VarZeroVecFormat>(
    rt: &impl Abort,
    list: &mut VarZeroVec<'_, StrULE, F>,
    text: &str,
) {
    assert!(rt; list.is_owned());
    assert!(rt; list.takes_insert(text.len()));
    assert!(rt; text.len() + F::W <= list.spare());
    list.insert_reserved(0, &text);
}

// Puts a text in place of the first, in the room that the list has.
fn replace_in_room<F: VarZeroVecFormat>(
    rt: &impl Abort,
    list: &mut VarZeroVec<'_, StrULE, F>,
    text: &str,
) {
    assert!(rt; list.is_owned());
    assert!(rt; 0 < list.len());
    assert!(rt; list.takes_replace(0, text.len()));
    assert!(rt; text.len() + F::W <= list.spare());
    list.replace_reserved(0, &text);
}

// Takes the first text out of an owned list.
fn remove_first<F: VarZeroVecFormat>(rt: &impl Abort, list: &mut VarZeroVec<'_, StrULE, F>) {
    assert!(rt; list.is_owned());
    assert!(rt; 0 < list.len());
    list.remove_reserved(0);
}

#[test]
fn a_vector_changes_in_its_room(rt: HostRuntime) -> Result<(), Fail> {
    let mut list = VarZeroVec16::<'_, StrULE>::with_capacity(rt.alloc(), 2)?;
    insert_in_room(&rt, &mut list, "a");
    insert_in_room(&rt, &mut list, "b");
    assert!(rt; list.as_bytes() == [2, 0, 1, 0, 98, 97].as_slice());
    remove_first(&rt, &mut list);
    assert!(rt; list.as_bytes() == [1, 0, 97].as_slice());
    Ok(())
}

#[test]
fn a_borrowed_vector_gets_room(rt: HostRuntime) -> Result<(), Fail> {
    let alloc = rt.alloc();
    let mut list = VarZeroVec16::<'_, StrULE>::parse_bytes(&[1, 0, 97])?;
    list.make_owned(alloc)?;
    list.reserve(alloc, 1)?;
    list.reserve_bytes(alloc, 7)?;
    replace_in_room(&rt, &mut list, "seven");
    assert!(rt; list.into_bytes(alloc)?.as_slice() == [1, 0, 115, 101, 118, 101, 110].as_slice());
    Ok(())
}

// The list of the text "a", which is these bytes.
fn is_made_of_values<F: VarZeroVecFormat>(
    rt: &impl Abort,
    alloc: Global,
    bytes: &[u8],
) -> Result<(), Fail> {
    let list = VarZeroVecOwned::<StrULE, F>::try_from_elements(alloc, &["a"])?;
    assert!(rt; list.as_bytes() == bytes);
    assert!(rt; !list.as_varzerovec().is_owned());
    let vector = VarZeroVec::<'_, StrULE, F>::try_from_elements(alloc, &["a"])?;
    assert!(rt; vector.is_owned());
    assert!(rt; vector.as_bytes() == bytes);
    Ok(())
}

#[test]
fn values_become_a_list(rt: HostRuntime) -> Result<(), Fail> {
    let alloc = rt.alloc();
    is_made_of_values::<Index8>(&rt, alloc, &[1, 97])?;
    is_made_of_values::<Index16>(&rt, alloc, &[1, 0, 97])?;
    is_made_of_values::<Index32>(&rt, alloc, &[1, 0, 0, 0, 97])?;
    let none: [&str; 0] = [];
    let empty = VarZeroVec16::<'_, StrULE>::try_from_elements(alloc, &none)?;
    assert!(rt; !empty.is_owned());
    Ok(())
}

#[test]
fn values_become_bytes(rt: HostRuntime) -> Result<(), Fail> {
    let bytes = get_serializable_bytes_non_empty::<StrULE, &str, Index16>(rt.alloc(), &["a"])?;
    assert!(rt; bytes.as_deref() == Some([1, 0, 97].as_slice()));
    let none: [&str; 0] = [];
    let len = compute_serializable_len_without_length::<StrULE, &str, Index16>(&none);
    assert!(rt; len == Some(0));
    Ok(())
}

#[test]
fn a_list_without_its_count_is_read(rt: HostRuntime) -> Result<(), Fail> {
    let list = VarZeroLengthlessSlice::<'_, StrULE, Index16>::parse_bytes(2, &[1, 0, 97, 98])?;
    assert!(rt; list.get(1).map(|text| text.as_str()) == Some("b"));
    assert!(rt; list.as_bytes() == [1, 0, 97, 98].as_slice());
    assert!(rt;
        VarZeroLengthlessSlice::<'_, StrULE, Index16>::parse_bytes(3, &[1, 0, 97, 98]).is_err()
    );
    Ok(())
}
