// Each kind's container, called through the bounds by which a map knows it.
ghost use Rattle.std.specs.Prelude.{IsTrue, ◌^◌, ◌<◌, length};

use std::alloc::Global;
use std::num::{NonZeroI8, NonZeroU8};
use std::process::Abort;
use std::test::Fail;
use zv_fixed::ZeroSliceULE;
use zv_map::{MutableZeroVecLike, ZeroMapKV, ZeroVecLike, ZeroVecSearch, ZvContainer};
use zv_owned::VarZeroVec32;
use zv_ule::{
    NichedOption, SliceULE, StrULE, VarBox, VarRef, ZvArg, ZvOrd, ZvOrdArg, encode_varule_to_box,
};

type Of<'a, K> = <K as ZeroMapKV<'a>>::Container;

// A container of a kind takes two values, and is searched for both.
fn are_kept_in_order<'a, K: ZvOrd, C: MutableZeroVecLike<'a, K> + Drop, Q: ZvOrdArg<K>>(
    rt: &impl Abort,
    alloc: Global,
    low: &Q,
    high: &Q,
    bytes: &[u8],
)
    requires usable { IsTrue K.usable }
    requires low { length (Q.bytes low.now) < 2 ^ 64 }
    requires high { length (Q.bytes high.now) < 2 ^ 64 }
{
    let mut list = C::zvl_new();
    assert!(rt; list.zvl_push(alloc, low) == Ok(()));
    assert!(rt; list.zvl_push(alloc, high) == Ok(()));
    assert!(rt; *list.zvl_bytes() == *bytes);
    assert!(rt; list.zvl_binary_search(low) == Ok(0));
    assert!(rt; list.zvl_binary_search(high) == Ok(1));
}

// A value is missing from the list that the bytes spell, and would go to the place.
fn is_missing<'a, K: ZeroMapKV<'a> + ZvOrd, Q: ZvOrdArg<K>>(
    rt: &impl Abort,
    bytes: &'a [u8],
    missing: &Q,
    place: usize,
)
    requires usable { IsTrue K.usable }
    requires below { length (Q.bytes missing.now) < 2 ^ 64 }
{
    match <K::Container as MutableZeroVecLike<'a, K>>::zvl_parse(bytes) {
        Ok(list) => assert!(rt; list.zvl_binary_search(missing) == Err(place)),
        Err(_) => panic!(rt; "the bytes are a list"),
    }
}

#[test]
fn pairs_are_kept(rt: HostRuntime) {
    let bytes = b"\xff\0\x62\0\0\0\x01\x61\0\0";
    let (low, high) = ((255, 'b'), (256, 'a'));
    are_kept_in_order::<(u16, char), Of<'_, (u16, char)>, (u16, char)>(
        &rt,
        rt.alloc(),
        &low,
        &high,
        bytes,
    );
    is_missing::<(u16, char), (u16, char)>(&rt, bytes, &(255, 'c'), 1);
}

#[test]
fn options_are_kept(rt: HostRuntime) {
    let bytes = [0, 0, 1, 7];
    let (low, high) = (None, Some(7));
    are_kept_in_order::<Option<u8>, Of<'_, Option<u8>>, Option<u8>>(
        &rt,
        rt.alloc(),
        &low,
        &high,
        &bytes,
    );
    is_missing::<Option<u8>, Option<u8>>(&rt, &bytes, &Some(0), 1);
}

// The bytes are so many elements, in the container that maps keep the kind in.
fn are_kept<'a, K: ZeroMapKV<'a>>(rt: &impl Abort, bytes: &'a [u8], count: usize)
    requires { IsTrue K.usable }
{
    match <K::Container as MutableZeroVecLike<'a, K>>::zvl_parse(bytes) {
        Ok(list) => assert!(rt; list.zvl_len() == count),
        Err(_) => panic!(rt; "the bytes are a list"),
    }
}

#[test]
fn unsigned_numbers_have_containers(rt: HostRuntime) {
    let ones = [1; 48];
    are_kept::<u8>(&rt, &ones, 48);
    are_kept::<u16>(&rt, &ones, 24);
    are_kept::<u32>(&rt, &ones, 12);
    are_kept::<u64>(&rt, &ones, 6);
    are_kept::<u128>(&rt, &ones, 3);
}

#[test]
fn signed_numbers_have_containers(rt: HostRuntime) {
    let ones = [1; 48];
    are_kept::<i8>(&rt, &ones, 48);
    are_kept::<i16>(&rt, &ones, 24);
    are_kept::<i32>(&rt, &ones, 12);
    are_kept::<i64>(&rt, &ones, 6);
    are_kept::<i128>(&rt, &ones, 3);
}

#[test]
fn other_single_kinds_have_containers(rt: HostRuntime) {
    let ones = [1; 48];
    are_kept::<char>(&rt, &ones, 16);
    are_kept::<NonZeroU8>(&rt, &ones, 48);
    are_kept::<NonZeroI8>(&rt, &ones, 48);
    are_kept::<Option<u8>>(&rt, &ones, 24);
    are_kept::<NichedOption<NonZeroU8, 1>>(&rt, &ones, 48);
}

#[test]
fn arrays_have_containers(rt: HostRuntime) {
    let ones = [1; 48];
    are_kept::<[u8; 2]>(&rt, &ones, 24);
    are_kept::<[u16; 2]>(&rt, &ones, 12);
    are_kept::<[u32; 2]>(&rt, &ones, 6);
    are_kept::<[u64; 2]>(&rt, &ones, 3);
    are_kept::<[char; 2]>(&rt, &ones, 8);
}

#[test]
fn tuples_have_containers(rt: HostRuntime) {
    let ones = [1; 48];
    are_kept::<(u8, u16)>(&rt, &ones, 16);
    are_kept::<(u8, u16, u8)>(&rt, &ones, 12);
    are_kept::<(u8, u8, u8, u8)>(&rt, &ones, 12);
    are_kept::<(u8, u8, u8, u8, u16)>(&rt, &ones, 8);
    are_kept::<(u8, u8, u8, u8, u8, u8)>(&rt, &ones, 8);
}

#[test]
fn kinds_of_lists_have_containers(rt: HostRuntime) {
    let lists = b"\x02\0\x02\0\x01\0\x02\0\x03\0";
    are_kept::<SliceULE<u8>>(&rt, lists, 2);
    are_kept::<ZeroSliceULE<u16>>(&rt, lists, 2);
}

#[test]
fn lists_of_numbers_are_keys(rt: HostRuntime) -> Result<(), Fail> {
    let bytes = b"\x02\0\x02\0\x01\0\x01\0\x03\0";
    let low = VarRef::<ZeroSliceULE<u16>>::new(b"\x01\0")?;
    let high = VarRef::<ZeroSliceULE<u16>>::new(b"\x01\0\x03\0")?;
    are_kept_in_order::<ZeroSliceULE<u16>, Of<'_, ZeroSliceULE<u16>>, VarRef<'_, _>>(
        &rt,
        rt.alloc(),
        &low,
        &high,
        bytes,
    );
    let missing = VarRef::<ZeroSliceULE<u16>>::new(b"\0\x01")?;
    is_missing::<ZeroSliceULE<u16>, VarRef<'_, _>>(&rt, bytes, &missing, 2);
    Ok(())
}

// The container takes the text that an argument stands for.
fn takes<'a, C: MutableZeroVecLike<'a, StrULE>, Q: ZvArg<StrULE>>(
    rt: &impl Abort,
    alloc: Global,
    list: &mut C,
    text: &Q,
)
    requires { length (Q.bytes text.now) < 2 ^ 64 }
{
    assert!(rt; list.zvl_push(alloc, text) == Ok(()));
}

#[test]
fn arguments_for_texts_are_written(rt: HostRuntime) -> Result<(), Fail> {
    let alloc = rt.alloc();
    let text = String::from_str(alloc, "b")?;
    let written: VarBox<StrULE> = encode_varule_to_box(alloc, &"d")?;
    let mut list = <Of<'_, StrULE> as ZvContainer<StrULE>>::zvl_new();
    takes(&rt, alloc, &mut list, &"a");
    takes(&rt, alloc, &mut list, &text);
    takes(&rt, alloc, &mut list, &VarRef::of_str("c"));
    takes(&rt, alloc, &mut list, &written);
    assert!(rt; list.zvl_bytes() == b"\x04\0\x01\0\x02\0\x03\0abcd".as_slice());
    Ok(())
}

#[test]
fn a_container_with_fields_of_four_bytes(rt: HostRuntime) {
    let bytes = b"\x02\0\0\0\x01\0\0\0ab";
    are_kept_in_order::<StrULE, VarZeroVec32<'_, StrULE>, &str>(&rt, rt.alloc(), &"a", &"b", bytes);
}
