// A map of many pairs is one, however it is built.
use std::alloc::Global;
use std::process::Abort;
use std::test::Fail;
use zv_map::{MutableZeroVecLike, ZeroMapKV};
use zv_map1::{MapOver, ZeroMapBorrowed};

// A map that is to give each number itself.
type Numbers<C, D> = MapOver<u32, u16, C, D>;

type Of<'a, T> = <T as ZeroMapKV<'a>>::Container;

// The map to which each number is appended, in rising order.
fn appended<'a, C: MutableZeroVecLike<'a, u32>, D: MutableZeroVecLike<'a, u16>>(
    rt: &impl Abort,
    alloc: Global,
    count: u16,
) -> Result<Numbers<C, D>, Fail> {
    let mut map = Numbers::with_capacity(alloc, usize::from(count))?;
    for number in 0..count {
        let key = u32::from(number);
        let back = map.try_append(alloc, &key, &number)?;
        assert!(rt; back.is_none());
    }
    Ok(map)
}

// The map into which each number is inserted, in falling order.
fn inserted<'a, C: MutableZeroVecLike<'a, u32>, D: MutableZeroVecLike<'a, u16>>(
    rt: &impl Abort,
    alloc: Global,
    count: u16,
) -> Result<Numbers<C, D>, Fail> {
    let mut map = Numbers::new();
    for number in (0..count).rev() {
        let old = map.insert(alloc, &u32::from(number), &number)?;
        assert!(rt; old.is_none());
    }
    Ok(map)
}

// Each number twice, first with another value.
fn twice(alloc: Global, count: u16) -> Result<Vec<(u32, u16)>, Fail> {
    let mut pairs = Vec::new(alloc);
    for number in 0..count {
        pairs.push((u32::from(number), 55_555))?;
    }
    for number in (0..count).rev() {
        pairs.push((u32::from(number), number))?;
    }
    Ok(pairs)
}

// Each of so many numbers has its own, and the next has none.
fn has_numbers(rt: &impl Abort, map: ZeroMapBorrowed<'_, u32, u16>, count: u16) {
    assert!(rt; map.len() == usize::from(count));
    for (key, value) in map.iter_copied() {
        assert!(rt; key == u32::from(value));
    }
    if let Some(last) = count.checked_sub(1) {
        assert!(rt; map.get_copied(&u32::from(last)) == Some(last));
    }
    assert!(rt; map.get_copied(&u32::from(count)).is_none());
}

// The three ways lead to one map.
fn is_one<'a, C: MutableZeroVecLike<'a, u32>, D: MutableZeroVecLike<'a, u16>>(
    rt: &impl Abort,
    alloc: Global,
    count: u16,
) -> Result<(), Fail> {
    let map = Numbers::<C, D>::try_from_pairs(alloc, &twice(alloc, count)?)?;
    let by_appending = appended::<C, D>(rt, alloc, count)?;
    assert!(rt; map.same(by_appending.as_borrowed()));
    let by_inserting = inserted::<C, D>(rt, alloc, count)?;
    assert!(rt; map.same(by_inserting.as_borrowed()));
    has_numbers(rt, map.as_borrowed(), count);
    Ok(())
}

#[test]
fn a_map_is_one_however_it_is_built(rt: HostRuntime) -> Result<(), Fail> {
    is_one::<Of<'_, u32>, Of<'_, u16>>(&rt, rt.alloc(), 10_000)
}
