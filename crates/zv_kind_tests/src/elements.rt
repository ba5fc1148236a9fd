// Values of fixed width: what they are written as, what is read again, and which bytes are refused.
ghost use Rattle.std.specs.Prelude.{IsTrue};
ghost use Rattle.zv_ule.specs.Fixed.{is_width};

use std::alloc::Global;
use std::num::NonZeroU8;
use std::process::Abort;
use std::test::Fail;
use zv_fixed::ZeroSlice;
use zv_ule::{
    AsULE, CharULE, EncodeAsVarULE, NichedOption, OptionULE, SliceULE, TyName, ULE, UleError,
    VarBox, encode_varule_to_box,
};

// Stored values are written as these bytes, one after another.
fn are_written<U: ULE>(
    rt: &impl Abort,
    alloc: Global,
    stored: &[U],
    bytes: &[u8],
) -> Result<(), Fail>
    requires { IsTrue (is_width U.width) }
{
    assert!(rt; stored.encode_var_ule_fits());
    let list: VarBox<SliceULE<U>> = encode_varule_to_box(alloc, &stored)?;
    assert!(rt; *list.as_bytes() == *bytes);
    Ok(())
}

// The bytes are the list of these values.
fn are_values<T: AsULE + PartialEq>(rt: &impl Abort, bytes: &[u8], values: &[T])
    requires { IsTrue T.usable }
{
    let Ok(list) = ZeroSlice::<T>::parse_bytes(bytes) else {
        panic!(rt; "the bytes are a list");
    };
    assert!(rt; list.len() == values.len());
    for (index, value) in values.iter().enumerate() {
        assert!(rt; list.get(index) == Some(*value));
    }
}

// The bytes are refused with this error as stored values.
fn are_refused<U: ULE>(rt: &impl Abort, bytes: &[u8], error: UleError)
    requires { IsTrue (is_width U.width) }
{
    assert!(rt; U::validate_bytes(bytes) == Err(error));
}

#[test]
fn characters_take_three_bytes(rt: HostRuntime) -> Result<(), Fail> {
    let chars = ['w', 'ω', '文', '𑄃', '🙃'];
    let bytes = b"\x77\x00\x00\xc9\x03\x00\x87\x65\x00\x03\x11\x01\x43\xf6\x01";
    let stored = CharULE::from_array(chars);
    are_values::<char>(&rt, bytes, &chars);
    are_refused::<CharULE>(&rt, b"\x00\xd8\x00", UleError::parse(TyName::Char));
    are_written(&rt, rt.alloc(), &stored, bytes)
}

#[test]
fn pairs_are_their_parts(rt: HostRuntime) -> Result<(), Fail> {
    let pairs = [(1u32, 'a'), (1_234_901, '啊'), (100, 'अ')];
    let bytes = b"\x01\0\0\0\x61\0\0\xd5\xd7\x12\0\x4a\x55\0\x64\0\0\0\x05\x09\0";
    let stored = [
        pairs[0].to_unaligned(),
        pairs[1].to_unaligned(),
        pairs[2].to_unaligned(),
    ];
    are_values::<(u32, char)>(&rt, bytes, &pairs);
    are_refused::<<(char, u32) as AsULE>::ULE>(&rt, bytes, UleError::parse(TyName::Char));
    are_written(&rt, rt.alloc(), &stored, bytes)
}

#[test]
fn triples_are_their_parts(rt: HostRuntime) -> Result<(), Fail> {
    let triples = [(1u32, 'a', -5i8), (1_234_901, '啊', 3), (100, 'अ', -127)];
    let bytes = b"\x01\0\0\0\x61\0\0\xfb\xd5\xd7\x12\0\x4a\x55\0\x03\x64\0\0\0\x05\x09\0\x81";
    let stored = [
        triples[0].to_unaligned(),
        triples[1].to_unaligned(),
        triples[2].to_unaligned(),
    ];
    are_values::<(u32, char, i8)>(&rt, bytes, &triples);
    are_refused::<<(char, i8, u32) as AsULE>::ULE>(&rt, bytes, UleError::parse(TyName::Char));
    are_written(&rt, rt.alloc(), &stored, bytes)
}

#[test]
fn arrays_divide_six_bytes(rt: HostRuntime) {
    let bytes = [1u8, 2, 3, 4, 5, 6];
    are_values::<[u8; 2]>(&rt, &bytes, &[[1, 2], [3, 4], [5, 6]]);
    are_values::<[u8; 3]>(&rt, &bytes, &[[1, 2, 3], [4, 5, 6]]);
    are_values::<[u8; 6]>(&rt, &bytes, &[[1, 2, 3, 4, 5, 6]]);
    let uneven = UleError::length(TyName::Array, 6);
    are_refused::<[u8; 4]>(&rt, &bytes, uneven);
    are_refused::<[u8; 5]>(&rt, &bytes, uneven);
    are_refused::<[u8; 7]>(&rt, &bytes, uneven);
}

#[test]
fn options_name_the_innermost_fault(rt: HostRuntime) {
    let options = [NichedOption(NonZeroU8::new(1)), NichedOption(None)];
    are_values::<NichedOption<NonZeroU8, 1>>(&rt, &[1, 0], &options);
    are_refused::<OptionULE<bool>>(&rt, &[1, 2], UleError::parse(TyName::Bool));
    are_refused::<OptionULE<bool>>(&rt, &[2, 0], UleError::parse(TyName::Opt));
    are_refused::<OptionULE<u8>>(&rt, &[0, 5], UleError::parse(TyName::Opt));
}
