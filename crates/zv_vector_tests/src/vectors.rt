// Lists of elements of any length and of one width that change.
use std::alloc::Global;
use std::process::Abort;
use std::test::Fail;
use zv_fixed::ZeroVec;
use zv_owned::{VarZeroVec, VarZeroVec16, VarZeroVec32, VarZeroVecOwned, VecError};
use zv_ule::{Index8, Index16, Index32, StrULE, VarZeroVecFormat};
use zv_var::VarZeroSlice;

// A list of texts, pushed one after another.
fn texts<F: VarZeroVecFormat>(
    alloc: Global,
    items: &[&str],
) -> Result<VarZeroVecOwned<StrULE, F>, VecError> {
    let mut list = VarZeroVecOwned::new(alloc);
    for item in items {
        list.push(item)?;
    }
    Ok(list)
}

// The list has these texts.
fn has_texts<F: VarZeroVecFormat>(
    rt: &impl Abort,
    list: &VarZeroVecOwned<StrULE, F>,
    items: &[&str],
) {
    assert!(rt; list.len() == items.len());
    for (element, item) in list.iter().zip(items.iter()) {
        assert!(rt; element.as_str() == *item);
    }
    assert!(rt; list.as_bytes().is_empty() == items.is_empty());
}

#[test]
fn a_text_is_inserted(rt: HostRuntime) -> Result<(), Fail> {
    let mut list = texts::<Index16>(rt.alloc(), &["a"])?;
    assert!(rt; list.as_bytes() == [1, 0, 97].as_slice());
    list.insert(0, &"bc")?;
    assert!(rt; list.as_bytes() == [2, 0, 2, 0, 98, 99, 97].as_slice());
    Ok(())
}

// An owned list of "a", "b" and "cc" is searched and read.
fn is_searched<F: VarZeroVecFormat>(rt: &impl Abort, list: &VarZeroVecOwned<StrULE, F>) {
    for (text, place) in [("a", Ok(0)), ("cc", Ok(2)), ("bb", Err(2))] {
        assert!(rt; list.binary_search(&text) == place);
    }
    assert!(rt; list.binary_search_in_range(&"b", 1..3) == Some(Ok(0)));
    assert!(rt; list.binary_search_in_range(&"b", 1..4) == None);
}

#[test]
fn an_owned_list_is_searched_and_cloned(rt: HostRuntime) -> Result<(), Fail> {
    let list = texts::<Index16>(rt.alloc(), &["a", "b", "cc"])?;
    is_searched(&rt, &list);
    let copy = list.clone()?;
    has_texts(&rt, &copy, &["a", "b", "cc"]);
    Ok(())
}

#[test]
fn a_borrowed_list_is_owned_once_it_changes(rt: HostRuntime) -> Result<(), Fail> {
    let alloc = rt.alloc();
    let mut list = VarZeroVec16::<'_, StrULE>::parse_bytes(&[0, 0, 7, 7])?;
    assert!(rt; !list.is_owned());
    assert!(rt; list.as_maybe_borrowed().is_some());
    list.insert_arg(alloc, 0, &"w")?;
    assert!(rt; list.as_bytes() == [1, 0, 119].as_slice());
    assert!(rt; list.is_owned());
    list.make_mut(alloc)?.push(&"v")?;
    assert!(rt; list.as_bytes() == [2, 0, 1, 0, 119, 118].as_slice());
    Ok(())
}

// A copy of the list has these bytes, and is owned where the list is.
fn is_cloned<F: VarZeroVecFormat>(
    rt: &impl Abort,
    alloc: Global,
    list: &VarZeroVec<'_, StrULE, F>,
    bytes: &[u8],
) -> Result<(), Fail> {
    let copy = list.clone(alloc)?;
    assert!(rt; copy.as_bytes() == bytes);
    assert!(rt; copy.is_owned() == list.is_owned());
    Ok(())
}

// A list that is borrowed is changed through the owned list that it becomes.
fn is_made_owned<F: VarZeroVecFormat>(
    rt: &impl Abort,
    alloc: Global,
    list: &mut VarZeroVec<'_, StrULE, F>,
    item: &str,
) -> Result<(), Fail> {
    assert!(rt; !list.is_owned());
    list.make_mut(alloc)?.push(&item)?;
    assert!(rt; list.is_owned());
    Ok(())
}

#[test]
fn a_borrowed_list_is_made_owned(rt: HostRuntime) -> Result<(), Fail> {
    let alloc = rt.alloc();
    let mut list = VarZeroVec16::<'_, StrULE>::parse_bytes(&[1, 0, 97])?;
    is_cloned(&rt, alloc, &list, &[1, 0, 97])?;
    is_made_owned(&rt, alloc, &mut list, "b")?;
    assert!(rt; list.as_bytes() == [2, 0, 1, 0, 97, 98].as_slice());
    is_cloned(&rt, alloc, &list, &[2, 0, 1, 0, 97, 98])?;
    list.clear();
    assert!(rt; list.is_owned());
    assert!(rt; list.is_empty());
    Ok(())
}

// Adds a text to a list that is owned already.
fn push_owned<F: VarZeroVecFormat>(
    list: &mut VarZeroVec<'_, StrULE, F>,
    item: &str,
) -> Result<bool, VecError> {
    match list.as_owned() {
        Some(owned) => {
            owned.push(&item)?;
            Ok(true)
        }
        None => Ok(false),
    }
}

#[test]
fn an_owned_list_becomes_a_vector(rt: HostRuntime) -> Result<(), Fail> {
    let owned = texts::<Index32>(rt.alloc(), &["a"])?;
    let mut list = VarZeroVec32::from(owned);
    assert!(rt; push_owned(&mut list, "b")?);
    assert!(rt; list.as_bytes() == [2, 0, 0, 0, 1, 0, 0, 0, 97, 98].as_slice());
    assert!(rt; list.as_components().len() == 2);
    Ok(())
}

#[test]
fn a_view_becomes_a_vector(rt: HostRuntime) -> Result<(), Fail> {
    let view = VarZeroSlice::<'_, StrULE, Index8>::parse_bytes(&[2, 1, 97, 98])?;
    let mut list = VarZeroVec::from(view);
    assert!(rt; !push_owned(&mut list, "c")?);
    assert!(rt; list.as_bytes() == [2, 1, 97, 98].as_slice());
    Ok(())
}

// A text of so many letters. It has no contract: a proof shall not count them.
fn letters(alloc: Global, count: usize) -> Result<String, Fail> {
    let mut text = String::new(alloc);
    for _ in 0..count {
        text.push('a')?;
    }
    Ok(text)
}

#[test]
fn a_list_with_fields_of_one_byte_is_full(rt: HostRuntime) -> Result<(), Fail> {
    let alloc = rt.alloc();
    let text = letters(alloc, 254)?;
    let mut list = texts::<Index8>(alloc, &[text.as_str()])?;
    assert!(rt; list.push(&"") == Err(VecError::TooLarge));
    list.replace(0, &"b")?;
    assert!(rt; list.into_bytes().as_slice() == [1, 98].as_slice());
    Ok(())
}

// Which lengths the owned list takes beside its own, and in place of its only element.
fn takes<F: VarZeroVecFormat>(
    rt: &impl Abort,
    list: &VarZeroVecOwned<StrULE, F>,
    inserts: &[(usize, bool)],
    replaces: &[(usize, bool)],
) {
    assert!(rt; list.len() == 1);
    for (len, taken) in inserts {
        assert!(rt; list.takes_insert(*len) == *taken);
    }
    for (len, taken) in replaces {
        assert!(rt; list.takes_replace(0, *len) == *taken);
    }
}

// The same of a vector.
fn vector_takes<F: VarZeroVecFormat>(
    rt: &impl Abort,
    list: &VarZeroVec<'_, StrULE, F>,
    inserts: &[(usize, bool)],
    replaces: &[(usize, bool)],
) {
    assert!(rt; list.len() == 1);
    for (len, taken) in inserts {
        assert!(rt; list.takes_insert(*len) == *taken);
    }
    for (len, taken) in replaces {
        assert!(rt; list.takes_replace(0, *len) == *taken);
    }
}

// What a list of an element of `len` bytes takes, with fields of two bytes.
fn only_takes(
    rt: &impl Abort,
    alloc: Global,
    len: usize,
    inserts: &[(usize, bool)],
    replaces: &[(usize, bool)],
) -> Result<(), Fail> {
    let text = letters(alloc, len)?;
    let list = texts::<Index16>(alloc, &[text.as_str()])?;
    takes(rt, &list, inserts, replaces);
    vector_takes(rt, &VarZeroVec::from(list), inserts, replaces);
    Ok(())
}

#[test]
fn the_size_rule_is_asked(rt: HostRuntime) -> Result<(), Fail> {
    let alloc = rt.alloc();
    only_takes(
        &rt,
        alloc,
        10,
        &[(65_521, true), (65_522, false)],
        &[
            (65_533, true),
            (65_534, false),
            (65_535, false),
            (65_536, false),
        ],
    )?;
    only_takes(
        &rt,
        alloc,
        65_534,
        &[(0, false)],
        &[(0, true), (65_534, true), (65_535, false)],
    )
}

#[test]
fn numbers_are_changed(rt: HostRuntime) -> Result<(), Fail> {
    let alloc = rt.alloc();
    let mut list = ZeroVec::<'_, u32>::parse_bytes(&[1, 0, 0, 0, 2, 0, 0, 0])?;
    list.insert(alloc, 1, 7)?;
    list.push(alloc, 9)?;
    list.set(alloc, 0, 300)?;
    assert!(rt; list.remove(alloc, 2)? == 2);
    assert!(rt; list.is_owned());
    assert!(rt; list.as_bytes() == [44, 1, 0, 0, 7, 0, 0, 0, 9, 0, 0, 0].as_slice());
    let copy = list.clone(alloc)?;
    list.clear();
    assert!(rt; !list.is_owned());
    assert!(rt; copy.last() == Some(9));
    Ok(())
}
