// The calls of stored types by name: options, numbers of several bytes, and the integers of fields.
ghost use Rattle.std.specs.Prelude.{IsTrue};
ghost use Rattle.zv_ule.specs.Fixed.{is_width};

use std::num::NonZeroU8;
use std::process::Abort;
use zv_ule::{IntegerULE, NichedOptionULE, OptionULE, RawBytesULE, ULE, read_number, write_number};

// ---- options

// A stored option is this option.
fn is_option<U: Copy + PartialEq>(rt: &impl Abort, option: Option<U>) {
    assert!(rt; OptionULE::new(option).get() == option);
}

#[test]
fn options_are_given_back(rt: HostRuntime) {
    is_option(&rt, Some(7u8));
    is_option(&rt, Some(RawBytesULE([1, 2])));
    is_option::<u8>(&rt, None);
}

// And so is one with no tag, whose value is seen where it is.
fn is_niched(rt: &impl Abort, option: Option<NonZeroU8>) {
    let stored = NichedOptionULE::<NonZeroU8, 1>::new(option);
    assert!(rt; stored.get() == option);
    assert!(rt; stored.as_ref() == option.as_ref());
}

#[test]
fn niched_options_are_given_back(rt: HostRuntime) {
    is_niched(&rt, NonZeroU8::new(7));
    is_niched(&rt, NonZeroU8::new(255));
    is_niched(&rt, None);
}

// ---- numbers of several bytes

#[test]
fn numbers_of_two_bytes(rt: HostRuntime) {
    for (bytes, unsigned, signed) in [
        ([0xfe, 0xff], 65_534, -2),
        ([0, 0x80], 0x8000, i16::MIN),
        ([0xff, 0x7f], 0x7fff, i16::MAX),
    ] {
        let stored = RawBytesULE(bytes);
        assert!(rt; (stored.as_unsigned_int(), stored.as_signed_int()) == (unsigned, signed));
        assert!(rt; RawBytesULE::<2>::from_unsigned(unsigned) == stored);
        assert!(rt; RawBytesULE::<2>::from_aligned(unsigned) == stored);
        assert!(rt; RawBytesULE::<2>::from_signed(signed) == stored);
    }
    let stored = RawBytesULE::<2>::from_array([1, 0x0203]);
    assert!(rt; stored == [RawBytesULE([1, 0]), RawBytesULE([3, 2])]);
}

#[test]
fn numbers_of_four_bytes(rt: HostRuntime) {
    for (bytes, unsigned, signed) in [
        ([0xfe, 0xff, 0xff, 0xff], 0xffff_fffe, -2),
        ([0, 0, 0, 0x80], 0x8000_0000, i32::MIN),
        ([0xff, 0xff, 0xff, 0x7f], 0x7fff_ffff, i32::MAX),
    ] {
        let stored = RawBytesULE(bytes);
        assert!(rt; (stored.as_unsigned_int(), stored.as_signed_int()) == (unsigned, signed));
        assert!(rt; RawBytesULE::<4>::from_unsigned(unsigned) == stored);
        assert!(rt; RawBytesULE::<4>::from_aligned(unsigned) == stored);
        assert!(rt; RawBytesULE::<4>::from_signed(signed) == stored);
    }
    let stored = RawBytesULE::<4>::from_array([1, 0x0203_0405]);
    assert!(rt; stored == [RawBytesULE([1, 0, 0, 0]), RawBytesULE([5, 4, 3, 2])]);
}

#[test]
fn numbers_of_eight_bytes(rt: HostRuntime) {
    for (bytes, unsigned, signed) in [
        (
            [0xfe, 0xff, 0xff, 0xff, 0xff, 0xff, 0xff, 0xff],
            u64::MAX - 1,
            -2,
        ),
        ([0, 0, 0, 0, 0, 0, 0, 0x80], 1 << 63, i64::MIN),
    ] {
        let stored = RawBytesULE(bytes);
        assert!(rt; (stored.as_unsigned_int(), stored.as_signed_int()) == (unsigned, signed));
        assert!(rt; RawBytesULE::<8>::from_unsigned(unsigned) == stored);
        assert!(rt; RawBytesULE::<8>::from_aligned(unsigned) == stored);
        assert!(rt; RawBytesULE::<8>::from_signed(signed) == stored);
    }
    let stored = RawBytesULE::<8>::from_array([0x0203]);
    assert!(rt; stored == [RawBytesULE([3, 2, 0, 0, 0, 0, 0, 0])]);
}

#[test]
fn numbers_of_sixteen_bytes(rt: HostRuntime) {
    let mut lowest = [0; 16];
    lowest[15] = 0x80;
    for (bytes, unsigned, signed) in [([0xff; 16], u128::MAX, -1), (lowest, 1 << 127, i128::MIN)] {
        let stored = RawBytesULE(bytes);
        assert!(rt; (stored.as_unsigned_int(), stored.as_signed_int()) == (unsigned, signed));
        assert!(rt; RawBytesULE::<16>::from_unsigned(unsigned) == stored);
        assert!(rt; RawBytesULE::<16>::from_aligned(unsigned) == stored);
        assert!(rt; RawBytesULE::<16>::from_signed(signed) == stored);
    }
    assert!(rt; RawBytesULE::<16>::from_array([u128::MAX]) == [RawBytesULE([0xff; 16])]);
}

// ---- the integers of fields

// The number is stored as these bytes.
fn is_integer<U: IntegerULE + PartialEq>(rt: &impl Abort, number: usize, bytes: &[u8])
    requires { IsTrue (is_width U.width) }
{
    let Some(stored) = U::iule_from_usize(number) else {
        panic!(rt; "the number is small enough");
    };
    assert!(rt; stored.iule_to_usize() == number);
    assert!(rt; bytes.len() == U::size());
    assert!(rt; U::read_chunk(bytes) == stored);
    assert!(rt; read_number::<U>(bytes) == number);
}

// The largest number is stored, and the next isn't.
fn ends_at<U: IntegerULE + PartialEq>(rt: &impl Abort, largest: u32, bytes: &[u8])
    requires { IsTrue (is_width U.width) }
{
    assert!(rt; U::MAX_VALUE == largest);
    is_integer::<U>(rt, largest as usize, bytes);
    assert!(rt; U::iule_from_usize(largest as usize + 1).is_none());
    assert!(rt; U::iule_from_usize(usize::MAX).is_none());
}

#[test]
fn integers_of_fields(rt: HostRuntime) {
    is_integer::<u8>(&rt, 0, b"\0");
    ends_at::<u8>(&rt, 255, b"\xff");
    is_integer::<RawBytesULE<2>>(&rt, 258, b"\x02\x01");
    ends_at::<RawBytesULE<2>>(&rt, 65_535, b"\xff\xff");
    is_integer::<RawBytesULE<4>>(&rt, 0x0102_0304, b"\x04\x03\x02\x01");
    ends_at::<RawBytesULE<4>>(&rt, u32::MAX, b"\xff\xff\xff\xff");
}

#[test]
fn numbers_are_written_over_fields(rt: HostRuntime) {
    let mut field = [9; 1];
    write_number::<u8>(200, &mut field);
    assert!(rt; field == [200]);
    let mut field = [9; 2];
    write_number::<RawBytesULE<2>>(258, &mut field);
    assert!(rt; field == [2, 1]);
    let mut field = [9; 4];
    write_number::<RawBytesULE<4>>(258, &mut field);
    assert!(rt; field == [2, 1, 0, 0]);
}
