// Each impl for an element, called once through the bounds by which generic code knows it.
ghost use Rattle.std.specs.Prelude.{IsTrue, ◌^◌, ◌<◌, length};

use std::alloc::Global;
use std::num::{NonZeroI8, NonZeroU8};
use std::process::Abort;
use std::test::Fail;
use zv_map::{KvSlice, ZeroVecSearch};
use zv_owned::VarZeroVecOwned;
use zv_ule::{
    AsULE, CharULE, Index16, Index32, NichedOption, RawBytesULE, SliceAsULE, SliceULE, StrULE,
    TyName, ULE, UleError, VarBox, VarRef, ZvArg, ZvKind, ZvOrd, ZvOrdArg, encode_varule_to_box,
    store,
};
use zv_var::VarZeroSliceULE;

// The element of these bytes.
fn element<'a, K: ZvKind>(rt: &impl Abort, bytes: &'a [u8]) -> VarRef<'a, K>
    requires { IsTrue K.usable }
{
    match VarRef::new(bytes) {
        Ok(element) => element,
        Err(_) => panic!(rt; "the bytes are an element"),
    }
}

// The value is stored as these bytes, which its kind takes and reads as the value.
fn is_stored_as<T: AsULE + PartialEq>(rt: &impl Abort, value: T, bytes: &[u8])
    requires { IsTrue T.usable }
{
    let mut buffer = [0; 16];
    let Some(stored) = buffer.get_mut(..bytes.len()) else {
        panic!(rt; "no value takes more than 16 bytes");
    };
    assert!(rt; stored.len() == <T::ULE as ULE>::size());
    store(value, stored);
    assert!(rt; *stored == *bytes);
    assert!(rt; element::<T>(rt, bytes).value() == value);
}

// The first element is below the second, as elements and by an argument for the second.
fn is_below<K: ZvOrd, Q: ZvOrdArg<K>>(rt: &impl Abort, low: &[u8], high: &[u8], argument: &Q)
    requires usable { IsTrue K.usable }
    requires below { length (Q.bytes argument.now) < 2 ^ 64 }
{
    let (low, high) = (element::<K>(rt, low), element::<K>(rt, high));
    assert!(rt; low.order(high).is_lt() && high.order(low).is_gt());
    assert!(rt; KvSlice::<'_, K>::t_cmp_get(argument, &low).is_gt());
    assert!(rt; KvSlice::<'_, K>::t_cmp_get(argument, &high).is_eq());
}

// Two values are stored as these bytes, and the first is below the second.
fn are_stored_as<T: AsULE + PartialEq + ZvOrd + ZvOrdArg<T>>(
    rt: &impl Abort,
    low: T,
    low_bytes: &[u8],
    high: T,
    high_bytes: &[u8],
)
    requires usable { IsTrue T.usable }
    requires below { length (T.bytes high) < 2 ^ 64 }
{
    is_stored_as(rt, low, low_bytes);
    is_stored_as(rt, high, high_bytes);
    is_below::<T, T>(rt, low_bytes, high_bytes, &high);
}

#[test]
fn unsigned_numbers(rt: HostRuntime) {
    are_stored_as(&rt, 1u8, b"\x01", 200, b"\xc8");
    are_stored_as(&rt, 255u16, b"\xff\0", 256, b"\0\x01");
    are_stored_as(&rt, 0xffffu32, b"\xff\xff\0\0", 0x1_0000, b"\0\0\x01\0");
    are_stored_as(
        &rt,
        255u64,
        b"\xff\0\0\0\0\0\0\0",
        1 << 56,
        b"\0\0\0\0\0\0\0\x01",
    );
    are_stored_as(
        &rt,
        255u128,
        b"\xff\0\0\0\0\0\0\0\0\0\0\0\0\0\0\0",
        0x0102_0304_0506_0708_090a_0b0c_0d0e_0f10,
        b"\x10\x0f\x0e\x0d\x0c\x0b\x0a\x09\x08\x07\x06\x05\x04\x03\x02\x01",
    );
}

#[test]
fn signed_numbers(rt: HostRuntime) {
    are_stored_as(&rt, -2i8, b"\xfe", 1, b"\x01");
    are_stored_as(&rt, -2i16, b"\xfe\xff", 1, b"\x01\0");
    are_stored_as(&rt, -256i32, b"\0\xff\xff\xff", 1, b"\x01\0\0\0");
    are_stored_as(
        &rt,
        i64::MIN,
        b"\0\0\0\0\0\0\0\x80",
        i64::MAX,
        b"\xff\xff\xff\xff\xff\xff\xff\x7f",
    );
    are_stored_as(
        &rt,
        -1i128,
        b"\xff\xff\xff\xff\xff\xff\xff\xff\xff\xff\xff\xff\xff\xff\xff\xff",
        0,
        b"\0\0\0\0\0\0\0\0\0\0\0\0\0\0\0\0",
    );
}

#[test]
fn other_single_values(rt: HostRuntime) {
    are_stored_as(&rt, false, b"\0", true, b"\x01");
    are_stored_as(&rt, 'ÿ', b"\xff\0\0", 'Ā', b"\0\x01\0");
    let (Some(low), Some(high)) = (NonZeroU8::new(1), NonZeroU8::new(255)) else {
        panic!(rt; "neither is 0");
    };
    are_stored_as(&rt, low, b"\x01", high, b"\xff");
    let none = NichedOption::<NonZeroU8, 1>(None);
    are_stored_as(&rt, none, b"\0", NichedOption(Some(high)), b"\xff");
    let (Some(low), Some(high)) = (NonZeroI8::new(-3), NonZeroI8::new(3)) else {
        panic!(rt; "neither is 0");
    };
    are_stored_as(&rt, low, b"\xfd", high, b"\x03");
    are_stored_as(&rt, None, b"\0\0\0", Some(258u16), b"\x01\x02\x01");
}

#[test]
fn tuples_of_two_to_six(rt: HostRuntime) {
    are_stored_as(&rt, (1u8, 255u16), b"\x01\xff\0", (1, 256), b"\x01\0\x01");
    are_stored_as(
        &rt,
        (7u8, false, -1i8),
        b"\x07\0\xff",
        (7, true, -2),
        b"\x07\x01\xfe",
    );
    are_stored_as(
        &rt,
        (1u8, -1i8, 2u8, -2i8),
        b"\x01\xff\x02\xfe",
        (1, 0, 0, 0),
        b"\x01\0\0\0",
    );
    are_stored_as(
        &rt,
        (1u8, 2u8, 3u8, 4u8, -5i8),
        b"\x01\x02\x03\x04\xfb",
        (1, 2, 3, 4, 5),
        b"\x01\x02\x03\x04\x05",
    );
    are_stored_as(
        &rt,
        (1u8, 2u8, 3u8, 4u8, 5u8, -6i16),
        b"\x01\x02\x03\x04\x05\xfa\xff",
        (1, 2, 3, 4, 5, 6),
        b"\x01\x02\x03\x04\x05\x06\0",
    );
}

#[test]
fn arrays_of_two(rt: HostRuntime) {
    are_stored_as(&rt, [1u8, 2], b"\x01\x02", [2, 1], b"\x02\x01");
    are_stored_as(&rt, [1u16, 255], b"\x01\0\xff\0", [1, 256], b"\x01\0\0\x01");
    are_stored_as(
        &rt,
        [1u32, 0xffff],
        b"\x01\0\0\0\xff\xff\0\0",
        [1, 0x1_0000],
        b"\x01\0\0\0\0\0\x01\0",
    );
    are_stored_as(
        &rt,
        [1u64, 255],
        b"\x01\0\0\0\0\0\0\0\xff\0\0\0\0\0\0\0",
        [1, 1 << 56],
        b"\x01\0\0\0\0\0\0\0\0\0\0\0\0\0\0\x01",
    );
    are_stored_as(
        &rt,
        ['a', 'ÿ'],
        b"\x61\0\0\xff\0\0",
        ['a', 'Ā'],
        b"\x61\0\0\0\x01\0",
    );
}

#[test]
fn texts_and_slices_are_ordered(rt: HostRuntime) -> Result<(), Fail> {
    let alloc = rt.alloc();
    let text = String::from_str(alloc, "b")?;
    is_below::<StrULE, &str>(&rt, b"ab", b"b", &"b");
    is_below::<StrULE, String>(&rt, b"ab", b"b", &text);
    is_below::<StrULE, VarRef<'_, StrULE>>(&rt, b"ab", b"b", &VarRef::of_str("b"));
    let written: VarBox<StrULE> = encode_varule_to_box(alloc, &text)?;
    is_below::<StrULE, VarBox<StrULE>>(&rt, b"ab", b"b", &written);
    is_below::<SliceULE<u8>, &[u8]>(&rt, &[1, 255], &[2], &[2u8].as_slice());
    let chars = CharULE::from_array(['Ā']);
    is_below::<SliceULE<CharULE>, &[CharULE]>(
        &rt,
        b"\xff\0\0\xff\0\0",
        b"\0\x01\0",
        &chars.as_slice(),
    );
    Ok(())
}

// A slice of the type is not seen as bytes.
fn is_unseen<T: SliceAsULE>(rt: &impl Abort, slice: &[T]) {
    assert!(rt; T::slice_to_unaligned(slice).is_none());
}

#[test]
fn only_bytes_are_seen_as_bytes(rt: HostRuntime) {
    let bytes = [7u8, 0, 9];
    assert!(rt; SliceAsULE::slice_to_unaligned(&bytes) == Some(bytes.as_slice()));
    is_unseen(&rt, &[7u16, 0, 9]);
    is_unseen(&rt, &[7u32]);
    is_unseen(&rt, &[7u64]);
    is_unseen(&rt, &[7u128]);
    is_unseen::<NonZeroU8>(&rt, &[]);
    is_unseen(&rt, &[true]);
}

#[test]
fn signed_numbers_are_not_seen_as_bytes(rt: HostRuntime) {
    is_unseen(&rt, &[7i8]);
    is_unseen(&rt, &[7i16]);
    is_unseen(&rt, &[7i32]);
    is_unseen(&rt, &[7i64]);
    is_unseen(&rt, &[7i128]);
}

#[test]
fn arrays_are_not_seen_as_bytes(rt: HostRuntime) {
    is_unseen(&rt, &[[7u8, 8]]);
    is_unseen(&rt, &[[7u16, 8]]);
    is_unseen(&rt, &[[7u32, 8]]);
    is_unseen(&rt, &[[7u64, 8]]);
}

// A value is stored as these bytes, through the conversion's bound.
fn is_raw<const N: usize, V: Into<RawBytesULE<N>>>(rt: &impl Abort, value: V, bytes: [u8; N]) {
    let raw: RawBytesULE<N> = value.into();
    assert!(rt; raw == RawBytesULE(bytes));
    assert!(rt; raw.as_bytes() == bytes.as_slice());
}

#[test]
fn numbers_become_raw_bytes(rt: HostRuntime) {
    is_raw(&rt, [1u8, 2, 3], [1, 2, 3]);
    is_raw(&rt, 0x0102u16, [2, 1]);
    is_raw(&rt, -2i16, [0xfe, 0xff]);
    is_raw(&rt, 0x0102_0304u32, [4, 3, 2, 1]);
    is_raw(&rt, -2i32, [0xfe, 0xff, 0xff, 0xff]);
    is_raw(&rt, 258u64, [2, 1, 0, 0, 0, 0, 0, 0]);
    is_raw(&rt, -1i64, [0xff; 8]);
    is_raw(
        &rt,
        258u128,
        [2, 1, 0, 0, 0, 0, 0, 0, 0, 0, 0, 0, 0, 0, 0, 0],
    );
    is_raw(&rt, -1i128, [0xff; 16]);
}

#[test]
fn a_list_is_an_element(rt: HostRuntime) {
    let Ok(element) = VarRef::<VarZeroSliceULE<StrULE, Index16>>::new(b"\x02\0\x01\0ab") else {
        panic!(rt; "the bytes spell a and b");
    };
    let list = VarZeroSliceULE::as_varzeroslice(element);
    assert!(rt; list.len() == 2);
    let Some(text) = list.get(1) else {
        panic!(rt; "there are two texts");
    };
    assert!(rt; text.as_str() == "b");
    let error = UleError::parse(TyName::VarZeroSlice);
    assert!(rt; VarZeroSliceULE::<StrULE, Index16>::check(b"\x02\0\x03\0ab") == Err(error));
    assert!(rt; VarZeroSliceULE::<StrULE, Index16>::check(b"\x01\0\xff") == Err(error));
}

// The bytes are refused with this error, as one element and as a list.
fn are_refused<T: AsULE>(rt: &impl Abort, bytes: &[u8], error: UleError)
    requires { IsTrue T.usable }
{
    assert!(rt; T::check(bytes) == Err(error));
    assert!(rt; <T::ULE as ULE>::validate_bytes(bytes) == Err(error));
}

// The first bad part of the bytes is of the type with this name.
fn is_bad<T: AsULE>(rt: &impl Abort, bytes: &[u8], ty: TyName)
    requires { IsTrue T.usable }
{
    are_refused::<T>(rt, bytes, UleError::parse(ty));
}

#[test]
fn the_bad_value_is_named(rt: HostRuntime) {
    is_bad::<bool>(&rt, b"\x02", TyName::Bool);
    is_bad::<char>(&rt, b"\0\0\x11", TyName::Char);
    is_bad::<NonZeroU8>(&rt, b"\0", TyName::NonZeroU8);
    is_bad::<NonZeroI8>(&rt, b"\0", TyName::NonZeroU8);
    is_bad::<Option<u16>>(&rt, b"\0\0\x01", TyName::Opt);
    is_bad::<[char; 2]>(&rt, b"\x61\0\0\0\xdc\0", TyName::Char);
}

#[test]
fn the_first_bad_part_is_named(rt: HostRuntime) {
    is_bad::<(u8, bool)>(&rt, b"\x02\x02", TyName::Bool);
    is_bad::<(u8, char, bool)>(&rt, b"\x02\0\xd8\0\x02", TyName::Char);
    is_bad::<(u8, u8, u8, bool)>(&rt, b"\x02\x02\x02\x02", TyName::Bool);
    is_bad::<(u8, u8, u8, u8, NonZeroU8)>(&rt, b"\0\0\0\0\0", TyName::NonZeroU8);
    is_bad::<(u8, u8, u8, u8, bool, NonZeroU8)>(&rt, b"\0\0\0\0\x02\0", TyName::Bool);
}

// A byte is no list of elements of the type with this name.
fn is_cut<T: AsULE>(rt: &impl Abort, ty: TyName)
    requires { IsTrue T.usable }
{
    are_refused::<T>(rt, b"\x01", UleError::length(ty, 1));
}

#[test]
fn a_cut_value_is_named(rt: HostRuntime) {
    is_cut::<u16>(&rt, TyName::RawBytes2);
    is_cut::<u32>(&rt, TyName::RawBytes4);
    is_cut::<u64>(&rt, TyName::RawBytes8);
    is_cut::<i128>(&rt, TyName::RawBytes16);
    is_cut::<char>(&rt, TyName::Char);
    is_cut::<Option<u8>>(&rt, TyName::Opt);
    is_cut::<[u8; 2]>(&rt, TyName::Array);
}

#[test]
fn a_cut_tuple_is_named(rt: HostRuntime) {
    is_cut::<(u8, u8)>(&rt, TyName::Tuple2);
    is_cut::<(u8, u8, u8)>(&rt, TyName::Tuple3);
    is_cut::<(u8, u8, u8, u8)>(&rt, TyName::Tuple4);
    is_cut::<(u8, u8, u8, u8, u8)>(&rt, TyName::Tuple5);
    is_cut::<(u8, u8, u8, u8, u8, u8)>(&rt, TyName::Tuple6);
}

#[test]
fn options_give_their_value(rt: HostRuntime) {
    let none = NichedOption::<NonZeroU8, 1>::default();
    assert!(rt; none.into_iter().count() == 0);
    assert!(rt; NichedOption::<u8, 1>(Some(7)).into_iter().next() == Some(7));
}

#[test]
fn fields_of_four_bytes(rt: HostRuntime) {
    let mut list = VarZeroVecOwned::<StrULE, Index32>::new(rt.alloc());
    list.push(&"a").expect(&rt, "memory");
    list.push(&"b").expect(&rt, "memory");
    assert!(rt; list.as_bytes() == b"\x02\0\0\0\x01\0\0\0ab".as_slice());
}
