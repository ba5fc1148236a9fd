// Lists of elements of one width.
use std::alloc::Global;
use std::cmp::Ordering;
use std::process::Abort;
use std::test::Fail;
use zv_fixed::{EachError, ZeroSlice, ZeroSliceULE, ZeroVec};
use zv_ule::{
    AsULE, EncodeAsVarULE, NoMemory, RawBytesULE, TyName, UleError, VarRef, encode_varule_to_box,
};

// 211, 281, 421 and 32973.
const FOUR_NUMBERS: [u8; 8] = [211, 0, 25, 1, 165, 1, 205, 128];

// The list has these values and bytes, and owns them or not.
fn has<T: AsULE + PartialEq>(
    rt: &impl Abort,
    list: &ZeroVec<'_, T>,
    values: &[T],
    bytes: &[u8],
    owned: bool,
) {
    assert!(rt; list.same_slice(values));
    assert!(rt; list.const_len() == values.len());
    assert!(rt; list.as_bytes() == bytes);
    assert!(rt; list.is_owned() == owned);
}

// The list is 1 and 2, and owns its bytes.
fn is_one_two(rt: &impl Abort, list: &ZeroVec<'_, u16>) {
    has(rt, list, &[1, 2], &[1, 0, 2, 0], true);
}

fn one_two(alloc: Global) -> Result<ZeroVec<'static, u16>, NoMemory> {
    ZeroVec::alloc_from_slice(alloc, &[1, 2])
}

#[test]
fn lists_are_made(rt: HostRuntime) -> Result<(), Fail> {
    let alloc = rt.alloc();
    is_one_two(&rt, &one_two(alloc)?);
    let stored = [RawBytesULE([1, 0]), RawBytesULE([2, 0])];
    is_one_two(&rt, &ZeroVec::new_owned(alloc, &stored)?);
    is_one_two(&rt, &ZeroVec::from_slice_or_alloc(alloc, &[1, 2])?);
    let items = vec![in alloc; 1u16, 2]?;
    is_one_two(&rt, &ZeroVec::try_collect(alloc, items)?);
    Ok(())
}

#[test]
fn lists_are_copied(rt: HostRuntime) -> Result<(), Fail> {
    let alloc = rt.alloc();
    let list = ZeroVec::<'_, u16>::parse_bytes(&[1, 0, 2, 0])?;
    has(&rt, &list.clone(alloc)?, &[1, 2], &[1, 0, 2, 0], false);
    let values = list.to_vec(alloc)?;
    assert!(rt; values.as_slice() == [1, 2].as_slice());
    is_one_two(&rt, &list.into_owned(alloc)?);
    Ok(())
}

#[test]
fn bytes_are_borrowed(rt: HostRuntime) -> Result<(), Fail> {
    let alloc = rt.alloc();
    assert!(rt; ZeroVec::try_from_slice([1u16].as_slice()).is_none());
    match ZeroVec::try_from_slice([1u8, 2].as_slice()) {
        Some(list) => has(&rt, &list, &[1, 2], &[1, 2], false),
        None => panic!(rt; "bytes lie as they are stored"),
    }
    let list = ZeroVec::from_slice_or_alloc(alloc, [3u8].as_slice())?;
    has(&rt, &list, &[3], &[3], false);
    Ok(())
}

#[test]
fn an_owned_list_has_room(rt: HostRuntime) -> Result<(), Fail> {
    let mut list = ZeroVec::<'_, u16>::with_capacity(rt.alloc(), 9)?;
    has(&rt, &list, &[], &[], true);
    assert!(rt; list.spare() >= 18);
    assert!(rt; list.take_first() == None);
    assert!(rt; list.take_last() == None);
    assert!(rt; list.is_owned());
    Ok(())
}

// Changes a list that owns its bytes, with room for one more.
fn changes_in_place(rt: &impl Abort, list: &mut ZeroVec<'_, u16>) {
    assert!(rt; list.is_owned() && list.len() == 2 && list.spare() >= 2);
    list.insert_owned(1, 7);
    assert!(rt; list.same_slice(&[1, 7, 2]));
    list.set_owned(0, 300);
    assert!(rt; list.remove_owned(1) == 7);
    assert!(rt; list.as_bytes() == [44, 1, 2, 0].as_slice());
}

#[test]
fn lists_change_without_memory(rt: HostRuntime) -> Result<(), Fail> {
    let alloc = rt.alloc();
    let mut list = ZeroVec::<'_, u16>::parse_bytes(&[1, 0, 2, 0])?;
    assert!(rt; list.spare() == 0);
    list.make_owned(alloc)?;
    is_one_two(&rt, &list);
    list.reserve_bytes(alloc, 2)?;
    is_one_two(&rt, &list);
    changes_in_place(&rt, &mut list);
    Ok(())
}

#[test]
fn values_are_set(rt: HostRuntime) -> Result<(), Fail> {
    let alloc = rt.alloc();
    let mut list = one_two(alloc)?;
    assert!(rt; !list.is_empty());
    list.set(alloc, 0, 5)?;
    has(&rt, &list, &[5, 2], &[5, 0, 2, 0], true);
    Ok(())
}

#[test]
fn each_value_is_changed(rt: HostRuntime) -> Result<(), Fail> {
    let alloc = rt.alloc();
    let mut list = one_two(alloc)?;
    list.for_each_mut(alloc, |n| n.wrapping_add(1))?;
    has(&rt, &list, &[2, 3], &[2, 0, 3, 0], true);
    Ok(())
}

// One more, but nothing after 2.
fn one_more(n: u16) -> Result<u16, bool> {
    if n == 2 {
        Err(true)
    } else {
        Ok(n.wrapping_add(1))
    }
}

#[test]
fn a_closure_stops(rt: HostRuntime) -> Result<(), Fail> {
    let alloc = rt.alloc();
    let mut list = one_two(alloc)?;
    let stopped = list.try_for_each_mut(alloc, |n| one_more(n));
    assert!(rt; stopped == Err(EachError::Stopped(true)));
    has(&rt, &list, &[2, 2], &[2, 0, 2, 0], true);
    Ok(())
}

#[test]
fn a_closure_goes_on_to_the_end(rt: HostRuntime) -> Result<(), Fail> {
    let alloc = rt.alloc();
    let mut list = ZeroVec::<'_, u16>::parse_bytes(&[3, 0, 4, 0])?;
    let done = list.try_for_each_mut(alloc, |n| one_more(n));
    assert!(rt; done == Ok(()));
    has(&rt, &list, &[4, 5], &[4, 0, 5, 0], true);
    Ok(())
}

#[test]
fn values_are_handed_over(rt: HostRuntime) -> Result<(), Fail> {
    let alloc = rt.alloc();
    let mut list = one_two(alloc)?;
    let pushed = list.with_mut(alloc, |mut values| {
        let pushed = values.push(3).is_ok();
        (values, pushed)
    })?;
    assert!(rt; pushed);
    has(&rt, &list, &[1, 2, 3], &[1, 0, 2, 0, 3, 0], true);
    Ok(())
}

// The values are those of the slice.
fn is_view<T: AsULE + PartialEq>(rt: &impl Abort, list: ZeroSlice<'_, T>, values: &[T]) {
    assert!(rt; list.same_slice(values));
    assert!(rt; list.len() == values.len());
}

// A list of four is taken apart.
fn is_taken_apart<T: AsULE + PartialEq>(rt: &impl Abort, list: ZeroSlice<'_, T>, values: &[T]) {
    assert!(rt; values.len() == 4);
    match list.split_first() {
        Some((first, rest)) => {
            assert!(rt; first == values[0]);
            is_view(rt, rest, &values[1..]);
        }
        None => panic!(rt; "there are four"),
    }
    match list.get_subslice(1..3) {
        Some(middle) => is_view(rt, middle, &values[1..3]),
        None => panic!(rt; "there are four"),
    }
    assert!(rt; list.get_subslice(3..5).is_none() && list.get_subslice(2..1).is_none());
}

#[test]
fn a_list_is_taken_apart(rt: HostRuntime) -> Result<(), Fail> {
    let list = ZeroSlice::<'_, u16>::try_from_bytes(&FOUR_NUMBERS)?;
    is_taken_apart(&rt, list, &[211, 281, 421, 32973]);
    assert!(rt; list.get_as_array::<4>() == Some([211, 281, 421, 32973]));
    assert!(rt; list.get_as_array::<3>() == None);
    assert!(rt; (list.first(), list.last()) == (Some(211), Some(32973)));
    Ok(())
}

// A vector of four is taken apart.
fn is_vector_taken_apart<T: AsULE + PartialEq>(
    rt: &impl Abort,
    list: &ZeroVec<'_, T>,
    values: &[T],
) {
    assert!(rt; values.len() == 4);
    match list.split_first() {
        Some((first, rest)) => {
            assert!(rt; first == values[0]);
            is_view(rt, rest, &values[1..]);
        }
        None => panic!(rt; "there are four"),
    }
    match list.get_subslice(1..3) {
        Some(middle) => is_view(rt, middle, &values[1..3]),
        None => panic!(rt; "there are four"),
    }
    assert!(rt; list.get_subslice(3..5).is_none() && list.get_subslice(2..1).is_none());
}

// A vector of the four numbers is read as an array, and as other values.
fn is_read_otherwise(rt: &impl Abort, list: &ZeroVec<'_, u16>) -> Result<(), Fail> {
    assert!(rt; list.get_as_array::<4>() == Some([211, 281, 421, 32973]));
    assert!(rt; list.get_as_array::<5>() == None);
    is_view(rt, list.try_as_converted::<u8>()?, &FOUR_NUMBERS);
    is_view(
        rt,
        list.try_as_converted::<i16>()?,
        &[211, 281, 421, -32563],
    );
    let error = list.try_as_converted::<char>();
    assert!(rt; error.map(|_| ()) == Err(UleError::length(TyName::Char, 8)));
    Ok(())
}

#[test]
fn a_vector_is_taken_apart(rt: HostRuntime) -> Result<(), Fail> {
    let list = ZeroVec::<'_, u16>::parse_bytes(&FOUR_NUMBERS)?;
    is_vector_taken_apart(&rt, &list, &[211, 281, 421, 32973]);
    is_read_otherwise(&rt, &list)?;
    let owned = list.into_owned(rt.alloc())?;
    is_vector_taken_apart(&rt, &owned, &[211, 281, 421, 32973]);
    is_read_otherwise(&rt, &owned)
}

#[test]
fn an_empty_list_has_no_parts(rt: HostRuntime) {
    let list = ZeroSlice::<'static, u32>::new_empty();
    assert!(rt; list.split_first().is_none() && list.split_last().is_none());
    assert!(rt; list.get_as_array::<0>() == Some([]));
    assert!(rt; (list.first(), list.last()) == (None, None));
    is_view(&rt, list, &[]);
    let vector = ZeroVec::<'static, u32>::new();
    assert!(rt; vector.split_first().is_none());
    assert!(rt; vector.get_as_array::<0>() == Some([]));
}

#[test]
fn a_list_is_read_from_both_ends(rt: HostRuntime) -> Result<(), Fail> {
    let list = ZeroSlice::<'_, u16>::parse_bytes(&FOUR_NUMBERS)?;
    let mut numbers = list.iter();
    assert!(rt; numbers.next_back() == Some(32973));
    assert!(rt; numbers.next() == Some(211));
    assert!(rt; (numbers.len(), numbers.size_hint()) == (2, (2, Some(2))));
    assert!(rt; numbers.next_back() == Some(421));
    assert!(rt; numbers.next_back() == Some(281));
    assert!(rt; (numbers.next_back(), numbers.next()) == (None, None));
    Ok(())
}

#[test]
fn a_list_is_shortened(rt: HostRuntime) -> Result<(), Fail> {
    let mut list = ZeroVec::<'_, u16>::parse_bytes(&FOUR_NUMBERS)?;
    assert!(rt; list.take_first() == Some(211));
    assert!(rt; list.take_last() == Some(32973));
    has(&rt, &list, &[281, 421], &[25, 1, 165, 1], false);
    let whole = list.truncated(9);
    has(&rt, &whole, &[281, 421], &[25, 1, 165, 1], false);
    has(&rt, &whole.truncated(1), &[281], &[25, 1], false);
    Ok(())
}

#[test]
fn values_are_found(rt: HostRuntime) -> Result<(), Fail> {
    let list = ZeroSlice::<'_, u16>::parse_bytes(&FOUR_NUMBERS)?;
    assert!(rt; list.binary_search(&281) == Ok(1));
    assert!(rt; list.binary_search(&300) == Err(2));
    assert!(rt; list.as_zerovec().binary_search(&32973) == Ok(3));
    assert!(rt; list.binary_search_by(|n| n.cmp(&421)) == Ok(2));
    assert!(rt; list.as_zerovec().binary_search_by(|n| n.cmp(&40000)) == Err(4));
    Ok(())
}

// Both searches for a number in the list end so.
fn is_found(rt: &impl Abort, bytes: &[u8], number: u8, place: Result<usize, usize>) {
    match ZeroSlice::<'_, u8>::parse_bytes(bytes) {
        Ok(list) => {
            assert!(rt; list.binary_search(&number) == place);
            assert!(rt; list.binary_search_by(|n| n.cmp(&number)) == place);
        }
        Err(_) => panic!(rt; "every byte is a number"),
    }
}

// The middle is the upper of two, and neither half has it.
#[test]
fn equal_values_are_found_by_halves(rt: HostRuntime) {
    for (number, place) in [(0, Err(0)), (1, Ok(3)), (2, Ok(5)), (3, Err(6))] {
        is_found(&rt, &[1, 1, 1, 1, 2, 2], number, place);
    }
    for (count, place) in [(1, 0), (2, 1), (3, 1), (4, 2), (5, 2), (6, 3)] {
        is_found(&rt, [7; 6].split_at(count).0, 7, Ok(place));
    }
}

// The order of a list and another, and whether they are the same.
fn compares<T: AsULE + Ord>(
    rt: &impl Abort,
    left: ZeroSlice<'_, T>,
    right: ZeroSlice<'_, T>,
    order: Ordering,
) {
    assert!(rt; left.order(right) == order);
    assert!(rt; left.as_zerovec().order(right) == order);
    assert!(rt; left.same(right) == order.is_eq());
    assert!(rt; left.as_view().order(right.as_view()) == order);
}

#[test]
fn lists_compare(rt: HostRuntime) -> Result<(), Fail> {
    let one = ZeroSlice::<'_, u16>::parse_bytes(&[1, 0])?;
    let one_two = ZeroSlice::<'_, u16>::parse_bytes(&[1, 0, 2, 0])?;
    let many = ZeroSlice::<'_, u16>::parse_bytes(&[0, 1])?;
    compares(&rt, one, one_two, Ordering::Less);
    compares(&rt, many, one_two, Ordering::Greater);
    compares(&rt, one_two, one_two, Ordering::Equal);
    Ok(())
}

#[test]
fn lists_become_others(rt: HostRuntime) -> Result<(), Fail> {
    let list = ZeroSlice::<'_, u32>::parse_bytes(&[255, 255, 255, 255])?;
    is_view(&rt, list.cast::<i32>(), &[-1]);
    is_view(&rt, list.try_as_converted::<u8>()?, &[255, 255, 255, 255]);
    let error = list.try_as_converted::<char>();
    assert!(rt; error.map(|_| ()) == Err(UleError::length(TyName::Char, 4)));
    has(
        &rt,
        &list.as_zerovec().cast::<i32>(),
        &[-1],
        &[255, 255, 255, 255],
        false,
    );
    Ok(())
}

#[test]
fn bytes_become_lists(rt: HostRuntime) -> Result<(), Fail> {
    let bytes = one_two(rt.alloc())?.into_bytes();
    has(&rt, &bytes, &[1, 0, 2, 0], &[1, 0, 2, 0], true);
    is_one_two(&rt, &bytes.try_into_parsed()?);
    let three = ZeroVec::<'_, u8>::parse_bytes(&[1, 0, 2])?.try_into_parsed::<u16>();
    assert!(rt; three.map(|_| ()) == Err(UleError::length(TyName::RawBytes2, 3)));
    Ok(())
}

#[test]
fn lists_are_checked_anew(rt: HostRuntime) -> Result<(), Fail> {
    let list = ZeroVec::<'_, u8>::parse_bytes(&[1, 0])?;
    has(
        &rt,
        &list.try_into_converted::<bool>()?,
        &[true, false],
        &[1, 0],
        false,
    );
    let bad = ZeroVec::<'_, u8>::parse_bytes(&[1, 2])?.try_into_converted::<bool>();
    assert!(rt; bad.map(|_| ()) == Err(UleError::parse(TyName::Bool)));
    Ok(())
}

// A value is written as the element of these bytes.
fn spells<E: EncodeAsVarULE<ZeroSliceULE<u16>>>(
    rt: &impl Abort,
    alloc: Global,
    value: &E,
    bytes: &[u8],
) -> Result<(), Fail> {
    assert!(rt; value.encode_var_ule_fits());
    let element = encode_varule_to_box::<E, ZeroSliceULE<u16>>(alloc, value)?;
    assert!(rt; element.as_bytes() == bytes);
    Ok(())
}

#[test]
fn lists_are_elements(rt: HostRuntime) -> Result<(), Fail> {
    let alloc = rt.alloc();
    let bytes = [1, 0, 2, 0];
    spells(&rt, alloc, &[1u16, 2].as_slice(), &bytes)?;
    spells(&rt, alloc, &vec![in alloc; 1u16, 2]?, &bytes)?;
    spells(&rt, alloc, &one_two(alloc)?, &bytes)?;
    let list = ZeroSlice::parse_bytes(&bytes)?;
    spells(&rt, alloc, &list, &bytes)?;
    is_view(&rt, ZeroSliceULE::as_zeroslice(list.as_view()), &[1, 2]);
    let cut = VarRef::<'_, ZeroSliceULE<u16>>::new(&[1, 0, 2]);
    assert!(rt; cut.map(|_| ()) == Err(UleError::length(TyName::RawBytes2, 3)));
    Ok(())
}
