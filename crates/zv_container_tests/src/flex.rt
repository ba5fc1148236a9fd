// Lists that become wide as they grow, and narrow again.
use std::alloc::Global;
use std::process::Abort;
use std::test::Fail;
use zv_map::{
    FlexULE, FlexVec, Layout, MutableZeroVecLike, ZeroMapKV, ZeroVecLike, ZeroVecSearch,
    ZvContainer,
};
use zv_ule::{SliceULE, StrULE, VarBox, VarRef, ZvKind};

type Texts<'a> = <FlexULE<StrULE> as ZeroMapKV<'a>>::Container;

// So many letters. It has no contract: a proof shall not count them.
fn letters(alloc: Global, count: usize) -> Result<String, Fail> {
    let mut text = String::new(alloc);
    for _ in 0..count {
        text.push('a')?;
    }
    Ok(text)
}

// Puts a text first.
fn insert_first(
    rt: &impl Abort,
    alloc: Global,
    list: &mut Texts<'_>,
    text: &str,
) -> Result<(), Fail> {
    list.zvl_insert(alloc, 0, &text)?;
    assert!(rt; list.is_owned() && list.is_roomy());
    Ok(())
}

// Puts the list into the form that it needs.
fn settle(rt: &impl Abort, list: &mut Texts<'_>) {
    assert!(rt; list.is_roomy());
    let spare = list.spare();
    list.settle();
    assert!(rt; spare <= list.spare());
}

// The list has this form and so many bytes.
fn has_form(rt: &impl Abort, list: &Texts<'_>, wide: bool, len: usize) {
    assert!(rt; list.is_wide() == wide);
    assert!(rt; list.as_bytes().len() == len);
}

// Takes the element at a place out.
fn remove(rt: &impl Abort, alloc: Global, list: &mut Texts<'_>, index: usize) -> Result<(), Fail> {
    assert!(rt; index < list.len());
    list.zvl_remove(alloc, index)?;
    Ok(())
}

#[test]
fn a_long_element_makes_a_list_wide_once_it_is_settled(rt: HostRuntime) -> Result<(), Fail> {
    let alloc = rt.alloc();
    let mut list = Texts::<'_>::new();
    insert_first(&rt, alloc, &mut list, &letters(alloc, 65_534)?)?;
    has_form(&rt, &list, false, 65_536);
    settle(&rt, &mut list);
    has_form(&rt, &list, true, 65_538);
    insert_first(&rt, alloc, &mut list, "a")?;
    has_form(&rt, &list, true, 65_543);
    remove(&rt, alloc, &mut list, 1)?;
    has_form(&rt, &list, true, 5);
    settle(&rt, &mut list);
    assert!(rt; !list.is_wide());
    assert!(rt; list.as_bytes() == [1, 0, 97].as_slice());
    Ok(())
}

// A list of so many letters and 65,000 more. Narrow, it has 65,535 bytes where there are 531.
fn two_texts<'a>(rt: &impl Abort, alloc: Global, count: usize) -> Result<Texts<'a>, Fail> {
    let mut list = Texts::<'_>::new();
    insert_first(rt, alloc, &mut list, &letters(alloc, 65_000)?)?;
    insert_first(rt, alloc, &mut list, &letters(alloc, count)?)?;
    Ok(list)
}

// A list gets this form as it is settled.
fn settles(rt: &impl Abort, list: &mut Texts<'_>, wide: bool, len: usize) {
    settle(rt, list);
    has_form(rt, list, wide, len);
}

#[test]
fn a_list_widens_as_it_grows(rt: HostRuntime) -> Result<(), Fail> {
    let alloc = rt.alloc();
    for (count, wide, len) in [(531, false, 65_535), (532, true, 65_540)] {
        let mut list = two_texts(&rt, alloc, count)?;
        has_form(&rt, &list, wide, len);
        settles(&rt, &mut list, wide, len);
    }
    Ok(())
}

// The first text of a list gives way to one of so many letters.
fn replace_first(
    rt: &impl Abort,
    alloc: Global,
    list: &mut Texts<'_>,
    count: usize,
) -> Result<(), Fail> {
    let text = letters(alloc, count)?;
    assert!(rt; 0 < list.len());
    list.zvl_replace(alloc, 0, &text)?;
    Ok(())
}

#[test]
fn a_narrow_list_widens_as_an_element_grows(rt: HostRuntime) -> Result<(), Fail> {
    let alloc = rt.alloc();
    for (count, wide, len) in [(531, false, 65_535), (532, true, 65_540)] {
        let mut list = two_texts(&rt, alloc, 10)?;
        replace_first(&rt, alloc, &mut list, count)?;
        has_form(&rt, &list, wide, len);
        settles(&rt, &mut list, wide, len);
    }
    Ok(())
}

#[test]
fn a_wide_list_is_wide_until_it_is_settled(rt: HostRuntime) -> Result<(), Fail> {
    let alloc = rt.alloc();
    for (count, len, wide, settled) in [(531, 65_539, false, 65_535), (532, 65_540, true, 65_540)] {
        let mut list = two_texts(&rt, alloc, 600)?;
        replace_first(&rt, alloc, &mut list, count)?;
        has_form(&rt, &list, true, len);
        settles(&rt, &mut list, wide, settled);
        let mut list = two_texts(&rt, alloc, count)?;
        insert_first(&rt, alloc, &mut list, "a")?;
        remove(&rt, alloc, &mut list, 0)?;
        has_form(&rt, &list, true, len);
        settles(&rt, &mut list, wide, settled);
    }
    Ok(())
}

// The fields of a list of 65,000 letters and more, and its texts.
fn spelling(alloc: Global, fields: &[u8], count: usize) -> Result<Vec<u8>, Fail> {
    let mut bytes = Vec::from_slice(alloc, fields)?;
    bytes.resize(
        fields.len().saturating_add(65_000).saturating_add(count),
        b'a',
    )?;
    Ok(bytes)
}

// A list of both texts is read in a form, and settled.
fn is_settled(
    rt: &impl Abort,
    alloc: Global,
    wide: bool,
    bytes: &[u8],
    settled: (bool, usize),
) -> Result<(), Fail> {
    let mut list = Texts::<'_>::parse_bytes(wide, bytes)?;
    assert!(rt; list.len() == 2 && !list.is_roomy());
    list.zvl_reserve_bytes(alloc, 0)?;
    has_form(rt, &list, wide, bytes.len());
    let (wide, len) = settled;
    settles(rt, &mut list, wide, len);
    Ok(())
}

#[test]
fn a_list_settles_from_both_forms(rt: HostRuntime) -> Result<(), Fail> {
    let alloc = rt.alloc();
    for (count, settled) in [(531, (false, 65_535)), (532, (true, 65_540))] {
        let narrow = spelling(alloc, &[2, 0, 0xe8, 0xfd], count)?;
        is_settled(&rt, alloc, false, &narrow, settled)?;
        let wide = spelling(alloc, &[2, 0, 0, 0, 0xe8, 0xfd, 0, 0], count)?;
        is_settled(&rt, alloc, true, &wide, settled)?;
    }
    Ok(())
}

#[test]
fn an_element_gives_way_to_a_longer_one(rt: HostRuntime) -> Result<(), Fail> {
    let alloc = rt.alloc();
    let mut list = Texts::<'_>::new();
    insert_first(&rt, alloc, &mut list, "a")?;
    let longer = letters(alloc, 70_000)?;
    assert!(rt; 0 < list.len());
    let old = list.zvl_replace(alloc, 0, &longer)?;
    assert!(rt; old.as_bytes() == b"a".as_slice());
    has_form(&rt, &list, true, 70_004);
    Ok(())
}

// Bytes of either form are a list of "a" and "b", which keeps the form until it is settled.
fn is_read(rt: &impl Abort, alloc: Global, wide: bool, bytes: &[u8]) -> Result<(), Fail> {
    let mut list = Texts::<'_>::parse_bytes(wide, bytes)?;
    assert!(rt; list.is_wide() == wide && !list.is_owned() && list.spare() == 0);
    let Some(view) = list.zvl_as_borrowed_inner() else {
        panic!(rt; "the list borrows its bytes");
    };
    let Some(again) = Texts::<'_>::zvl_from_borrowed(view) else {
        panic!(rt; "the view fits");
    };
    assert!(rt; again.is_wide() == wide && again.as_bytes() == bytes);
    list.zvl_reserve_bytes(alloc, 5)?;
    assert!(rt; 5 <= list.spare());
    let copy = list.zvl_clone(alloc)?;
    assert!(rt; copy.is_wide() == wide && copy.as_bytes() == bytes);
    settle(rt, &mut list);
    assert!(rt; list.as_bytes() == [2, 0, 1, 0, 97, 98].as_slice());
    Ok(())
}

#[test]
fn both_forms_are_read(rt: HostRuntime) -> Result<(), Fail> {
    let alloc = rt.alloc();
    is_read(&rt, alloc, false, &[2, 0, 1, 0, 97, 98])?;
    is_read(&rt, alloc, true, &[2, 0, 0, 0, 1, 0, 0, 0, 97, 98])?;
    let none = Texts::<'_>::parse_bytes(true, &[2, 0, 1, 0, 97, 98]);
    assert!(rt; none.is_err());
    Ok(())
}

#[test]
fn bytes_after_a_count_of_zero_go(rt: HostRuntime) -> Result<(), Fail> {
    let mut list = Texts::<'_>::parse_bytes(false, &[0, 0, 9, 9])?;
    list.zvl_reserve(rt.alloc(), 1)?;
    settle(&rt, &mut list);
    assert!(rt; list.as_bytes().is_empty());
    Ok(())
}

// By the bounds through which maps know it, a container becomes "a", "bb" and "ccc".
fn keeps_texts<'a, C: MutableZeroVecLike<'a, FlexULE<StrULE>, OwnedType = VarBox<FlexULE<StrULE>>>>(
    rt: &impl Abort,
    alloc: Global,
    list: &mut C,
) -> Result<(), Fail> {
    assert!(rt; list.zvl_push(alloc, &"b") == Ok(()));
    assert!(rt; list.zvl_insert(alloc, 0, &"a") == Ok(()));
    assert!(rt; list.zvl_push(alloc, &String::from_str(alloc, "ccc")?) == Ok(()));
    assert!(rt; 1 < list.zvl_len());
    assert!(rt; list.zvl_replace(alloc, 1, &"bb")?.as_bytes() == b"b".as_slice());
    assert!(rt; list.zvl_spelling() == [3, 0, 1, 0, 3, 0, 97, 98, 98, 99, 99, 99].as_slice());
    assert!(rt; list.zvl_as_borrowed().layout() == Layout::Index16);
    Ok(())
}

// The texts "a", "bb" and "ccc" are found.
fn finds_texts<C: ZeroVecSearch<FlexULE<StrULE>>>(rt: &impl Abort, list: &C) {
    assert!(rt; list.zvl_binary_search(&"bb") == Ok(1));
    assert!(rt; list.zvl_is_ascending());
    let Some(element) = list.zvl_get(2) else {
        panic!(rt; "there are three texts");
    };
    assert!(rt; FlexULE::<StrULE>::plain(element).as_str() == "ccc");
}

// Room for two elements is made and used, and none is left over that was not asked for.
fn changes_in_room<'a, T: ZvKind, C: MutableZeroVecLike<'a, T>>(
    rt: &impl Abort,
    alloc: Global,
    element: VarRef<'_, T>,
) -> Result<(), Fail> {
    let mut list = C::zvl_with_capacity(alloc, 2)?;
    assert!(rt; list.zvl_is_owned());
    list.zvl_reserve_bytes(alloc, 40)?;
    list.zvl_push(alloc, &element)?;
    assert!(rt; list.zvl_len() == 1);
    list.zvl_discard(0);
    assert!(rt; list.zvl_is_empty());
    list.zvl_clear();
    Ok(())
}

#[test]
fn texts_are_kept_in_a_container_that_widens(rt: HostRuntime) -> Result<(), Fail> {
    let alloc = rt.alloc();
    let mut list = Texts::<'_>::zvl_new();
    keeps_texts::<Texts<'_>>(&rt, alloc, &mut list)?;
    finds_texts(&rt, &list);
    let text = VarRef::<'_, StrULE>::new(b"text")?;
    changes_in_room::<FlexULE<StrULE>, Texts<'_>>(&rt, alloc, FlexULE::<StrULE>::of_plain(text))?;
    Ok(())
}

#[test]
fn data_are_kept_in_a_container_that_widens(rt: HostRuntime) -> Result<(), Fail> {
    let mut data = FlexVec::<'_, FlexULE<SliceULE<u8>>>::new();
    data.zvl_push(rt.alloc(), &[1, 2].as_slice())?;
    assert!(rt; data.as_bytes() == [1, 0, 1, 2].as_slice());
    assert!(rt; data.zvl_binary_search(&[1, 3].as_slice()) == Err(1));
    Ok(())
}

#[test]
fn the_empty_list_is_narrow(rt: HostRuntime) {
    let list = Texts::<'_>::default();
    assert!(rt; !list.is_wide() && list.as_bytes().is_empty());
}
