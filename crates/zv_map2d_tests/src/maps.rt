// Maps in two levels at other kinds than those of an image.
use std::alloc::Global;
use std::process::Abort;
use std::test::Fail;
use zv_map::{MutableZeroVecLike, ZeroMapKV, ZvContainer};
use zv_map2d::Map2dOver;
use zv_ule::{SliceULE, StrULE, VarRef};

type Of<'a, K> = <K as ZeroMapKV<'a>>::Container;

// ---- a map from a text and a number to bytes

// The row of "k" has 300 and not 3.
fn has_data<C0, C1, D>(rt: &impl Abort, map: &Map2dOver<'_, StrULE, u32, SliceULE<u8>, C0, C1, D>)
where
    C0: ZvContainer<StrULE>,
    C1: ZvContainer<u32>,
    D: ZvContainer<SliceULE<u8>>,
{
    let Some(row) = map.get0(&"k") else {
        panic!(rt; "the row is there");
    };
    let Some(value) = row.get1(&300) else {
        panic!(rt; "the pair is there");
    };
    assert!(rt; value.as_bytes() == [1, 2].as_slice());
    assert!(rt; row.get1(&3).is_none());
    assert!(rt; map.get_2d(&"j", &300).is_none());
    assert!(rt; map.canon_parts().keys1 == [2, 0, 0, 0, 44, 1, 0, 0].as_slice());
}

// The row of "k" gets 300 and 2.
fn takes_data<'a, C0, C1, D>(rt: &impl Abort, alloc: Global) -> Result<(), Fail>
where
    C0: MutableZeroVecLike<'a, StrULE>,
    C1: MutableZeroVecLike<'a, u32>,
    D: MutableZeroVecLike<'a, SliceULE<u8>>,
{
    let mut map = Map2dOver::<'a, StrULE, u32, SliceULE<u8>, C0, C1, D>::new();
    map.insert(alloc, &"k", &300, &VarRef::of_bytes(&[1, 2]))?;
    map.insert(alloc, &"k", &2, &VarRef::of_bytes(&[3]))?;
    has_data(rt, &map);
    Ok(())
}

#[test]
fn a_row_is_asked_by_its_second_keys(rt: HostRuntime) -> Result<(), Fail> {
    takes_data::<Of<'_, StrULE>, Of<'_, u32>, Of<'_, SliceULE<u8>>>(&rt, rt.alloc())
}

// ---- room

// Room for one put of a first key and a second of two bytes each, and a value of five.
fn puts_in_room<'a, C0, C1, D>(
    rt: &impl Abort,
    alloc: Global,
    map: &mut Map2dOver<'a, u16, u16, StrULE, C0, C1, D>,
) -> Result<(), Fail>
where
    C0: MutableZeroVecLike<'a, u16>,
    C1: MutableZeroVecLike<'a, u16>,
    D: MutableZeroVecLike<'a, StrULE>,
{
    map.reserve_for(alloc, 2, 2, 5, 1)?;
    assert!(rt; map.put_reserved(&1, &2, &"three") == Ok(false));
    assert!(rt; map.canon_parts().values == b"\x01\x00three".as_slice());
    Ok(())
}

// The put would fit again, and the pair goes.
fn discards<'a, C0, C1, D>(
    rt: &impl Abort,
    alloc: Global,
    map: &mut Map2dOver<'a, u16, u16, StrULE, C0, C1, D>,
) -> Result<(), Fail>
where
    C0: MutableZeroVecLike<'a, u16>,
    C1: MutableZeroVecLike<'a, u16>,
    D: MutableZeroVecLike<'a, StrULE>,
{
    assert!(rt; map.would_take(&1, &2, &"three"));
    map.make_owned(alloc)?;
    assert!(rt; !map.discard(&2, &2));
    map.make_owned(alloc)?;
    assert!(rt; map.discard(&1, &2));
    assert!(rt; map.is_empty());
    Ok(())
}

// A pair comes and goes in room that was made for it.
fn has_room<'a, C0, C1, D>(rt: &impl Abort, alloc: Global) -> Result<(), Fail>
where
    C0: MutableZeroVecLike<'a, u16>,
    C1: MutableZeroVecLike<'a, u16>,
    D: MutableZeroVecLike<'a, StrULE>,
{
    let mut map = Map2dOver::<'a, u16, u16, StrULE, C0, C1, D>::with_capacity(alloc, 3)?;
    assert!(rt; map.is_empty());
    map.reserve(alloc, 4)?;
    map.reserve_for(alloc, 0, 0, 0, 0)?;
    puts_in_room(rt, alloc, &mut map)?;
    discards(rt, alloc, &mut map)
}

#[test]
fn pairs_come_and_go_in_room(rt: HostRuntime) -> Result<(), Fail> {
    has_room::<Of<'_, u16>, Of<'_, u16>, Of<'_, StrULE>>(&rt, rt.alloc())
}
