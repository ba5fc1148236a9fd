// Elements that own their bytes, and what is written for values.
ghost use Rattle.std.specs.Prelude.{IsTrue};
ghost use Rattle.zv_ule.specs.Fixed.{is_width};

use std::alloc::Global;
use std::process::Abort;
use std::test::Fail;
use zv_ule::{
    CharULE, EncodeAsVarULE, SliceULE, StrULE, TyName, ULE, UleError, VarBox, VarRef, VarULE,
    encode_varule_to_box,
};

// These bytes are written for a value, and stand in its box, in the copy of that, and in a box of
// what the copy views.
fn is_written_as<K: VarULE, S: EncodeAsVarULE<K>>(
    rt: &impl Abort,
    alloc: Global,
    value: &S,
    bytes: &[u8],
) -> Result<(), Fail>
    requires { IsTrue K.usable }
{
    assert!(rt; value.encode_var_ule_fits());
    let written = encode_varule_to_box::<S, K>(alloc, value)?;
    assert!(rt; *written.as_bytes() == *bytes);
    is_copied(rt, alloc, &written)
}

// A copy of the box has its bytes, and so has a box of what the copy views.
fn is_copied<K: VarULE>(rt: &impl Abort, alloc: Global, written: &VarBox<K>) -> Result<(), Fail> {
    let copied = written.clone(alloc)?;
    assert!(rt; *copied.as_bytes() == *written.as_bytes());
    let boxed = copied.as_ref().to_boxed(alloc)?;
    assert!(rt; *boxed.into_bytes() == *written.as_bytes());
    Ok(())
}

#[test]
fn texts_are_written(rt: HostRuntime) -> Result<(), Fail> {
    let alloc = rt.alloc();
    let text = String::from_str(alloc, "ab")?;
    let view = VarRef::of_str("ab");
    is_written_as::<StrULE, &str>(&rt, alloc, &"ab", b"ab")?;
    is_written_as::<StrULE, String>(&rt, alloc, &text, b"ab")?;
    is_written_as::<StrULE, &String>(&rt, alloc, &&text, b"ab")?;
    is_written_as::<StrULE, VarRef<'_, StrULE>>(&rt, alloc, &view, b"ab")?;
    Ok(())
}

#[test]
fn boxes_are_written(rt: HostRuntime) -> Result<(), Fail> {
    let alloc = rt.alloc();
    let owned: VarBox<StrULE> = encode_varule_to_box(alloc, &"ab")?;
    is_written_as::<StrULE, VarBox<StrULE>>(&rt, alloc, &owned, b"ab")?;
    let listed = owned.into_bytes();
    is_written_as::<SliceULE<u8>, Vec<u8>>(&rt, alloc, &listed, b"ab")?;
    Ok(())
}

#[test]
fn slices_are_written(rt: HostRuntime) -> Result<(), Fail> {
    let alloc = rt.alloc();
    let chars = CharULE::from_array(['a', 'Ā']);
    let list = Vec::from_slice(alloc, &chars)?;
    let bytes = b"\x61\0\0\0\x01\0";
    is_written_as::<SliceULE<CharULE>, &[CharULE]>(&rt, alloc, &chars.as_slice(), bytes)?;
    is_written_as::<SliceULE<CharULE>, Vec<CharULE>>(&rt, alloc, &list, bytes)?;
    Ok(())
}

// Bytes become an element that keeps them, or are refused with this error.
fn are_checked<K: VarULE>(
    rt: &impl Abort,
    alloc: Global,
    bytes: &[u8],
    error: Option<UleError>,
) -> Result<(), Fail>
    requires { IsTrue K.usable }
{
    match VarBox::<K>::from_bytes(Vec::from_slice(alloc, bytes)?) {
        Ok(kept) => {
            assert!(rt; error.is_none());
            assert!(rt; *kept.as_bytes() == *bytes);
        }
        Err(found) => assert!(rt; error == Some(found)),
    }
    Ok(())
}

#[test]
fn bytes_become_boxes(rt: HostRuntime) -> Result<(), Fail> {
    let alloc = rt.alloc();
    are_checked::<StrULE>(&rt, alloc, b"ab", None)?;
    are_checked::<StrULE>(&rt, alloc, b"", None)?;
    are_checked::<StrULE>(&rt, alloc, b"a\xff", Some(UleError::parse(TyName::Str)))?;
    are_checked::<SliceULE<u8>>(&rt, alloc, b"a\xff", None)?;
    let cut = UleError::length(TyName::Char, 2);
    are_checked::<SliceULE<CharULE>>(&rt, alloc, b"a\0", Some(cut))?;
    are_checked::<SliceULE<CharULE>>(&rt, alloc, b"a\0\0", None)
}

// The slice of these bytes has these values, and no others.
fn has_values<U: ULE + PartialEq>(rt: &impl Abort, bytes: &[u8], values: &[U]) -> Result<(), Fail>
    requires { IsTrue (is_width U.width) }
{
    let slice = VarRef::<'_, SliceULE<U>>::new(bytes)?;
    assert!(rt; SliceULE::<U>::len(slice) == values.len());
    for (index, value) in values.iter().enumerate() {
        assert!(rt; SliceULE::<U>::get(slice, index) == Some(*value));
    }
    assert!(rt; SliceULE::<U>::get(slice, values.len()) == None);
    Ok(())
}

#[test]
fn slices_are_read(rt: HostRuntime) -> Result<(), Fail> {
    has_values::<u8>(&rt, &[7, 9], &[7, 9])?;
    let chars = CharULE::from_array(['a', 'Ā']);
    has_values::<CharULE>(&rt, b"\x61\0\0\0\x01\0", &chars)?;
    has_values::<CharULE>(&rt, b"", &[])
}
