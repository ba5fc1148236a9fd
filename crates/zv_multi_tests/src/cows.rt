// Elements that are borrowed or owned.
use crate::records::is_written;
use std::cmp::Ordering;
use std::test::Fail;
use zv_multi::{Tuple3VarULE, VarZeroCow};
use zv_ule::{Index16, SliceULE, StrULE, TyName, UleError, VarBox, VarRef, encode_varule_to_box};
use zv_var::VarZeroSliceULE;

type Text<'a> = VarZeroCow<'a, StrULE>;

#[test]
fn a_text_is_borrowed_or_owned(rt: HostRuntime) -> Result<(), Fail> {
    let alloc = rt.alloc();
    let owned = Text::from_encodeable(alloc, &"a")?;
    assert!(rt; owned.is_owned());
    assert!(rt; owned.clone(alloc)?.is_owned());
    let borrowed = Text::parse_bytes(b"a")?;
    assert!(rt; !borrowed.is_owned());
    assert!(rt; !borrowed.clone(alloc)?.is_owned());
    assert!(rt; owned.same(&borrowed) && owned.as_bytes() == b"a".as_slice());
    assert!(rt; Text::parse_bytes(b"b")?.order(&owned) == Ordering::Greater);
    is_written::<StrULE, Text<'_>>(&rt, alloc, &borrowed, b"a")?;

    assert!(rt; !Text::from(VarRef::of_str("a")).is_owned());
    let boxed: VarBox<StrULE> = encode_varule_to_box(alloc, &"a")?;
    assert!(rt; Text::from(boxed).is_owned());
    Ok(())
}

#[test]
fn other_bytes_are_no_text(rt: HostRuntime) -> Result<(), Fail> {
    let error = UleError::parse(TyName::Str);
    assert!(rt; Text::parse_bytes(b"\xff").err() == Some(error));
    let bytes = Vec::from_slice(rt.alloc(), b"\xff")?;
    assert!(rt; Text::parse_owned_bytes(bytes).err() == Some(error));
    let bytes = Vec::from_slice(rt.alloc(), b"a")?;
    assert!(rt; Text::parse_owned_bytes(bytes)?.is_owned());
    Ok(())
}

#[test]
fn a_record_is_owned(rt: HostRuntime) -> Result<(), Fail> {
    type Record = Tuple3VarULE<StrULE, SliceULE<u8>, VarZeroSliceULE<StrULE, Index16>, Index16>;
    let bytes = [0x67, 0xff, 0xff, 0x64, 0x62, 0x79, 0x65];
    let list = ["one", "two", "three"];
    let values = ("hello", bytes.as_slice(), list.as_slice());
    let spelling = b"\x05\0\x0c\0hello\x67\xff\xff\x64\x62\x79\x65\x03\0\x03\0\x06\0onetwothree";
    is_written::<Record, _>(&rt, rt.alloc(), &values, spelling)?;
    let record = VarZeroCow::<'_, Record>::from_encodeable(rt.alloc(), &values)?;
    assert!(rt; record.as_bytes() == spelling.as_slice());
    assert!(rt; Record::a(record.as_ref()).as_str() == "hello");
    assert!(rt; Record::b(record.as_ref()).as_bytes() == bytes.as_slice());
    let third = VarZeroSliceULE::as_varzeroslice(Record::c(record.as_ref()));
    assert!(rt; third.same_slice(&list));
    Ok(())
}
