// A value with an element behind it, and elements that may be missing.
use crate::records::is_written;
use std::cmp::Ordering;
use std::test::Fail;
use zv_multi::{OptionVarULE, Tuple2VarULE, VarTuple, VarTupleULE};
use zv_ule::{Index8, StrULE, TyName, UleError, VarRef, ZvKind};
use zv_var::VarZeroVecComponents;

#[test]
fn a_value_stands_before_its_element(rt: HostRuntime) -> Result<(), Fail> {
    type Named = VarTupleULE<u16, StrULE>;
    let value = VarTuple {
        sized: 1500u16,
        variable: "hello",
    };
    let written = is_written::<Named, _>(&rt, rt.alloc(), &value, b"\xdc\x05hello")?;
    assert!(rt; Named::sized(written.as_ref()).as_unsigned_int() == 1500);
    assert!(rt; Named::variable(written.as_ref()).as_str() == "hello");

    let longer = VarRef::<'_, Named>::new(b"\xdc\x05hello!")?;
    assert!(rt; written.as_ref().order(longer) == Ordering::Less);
    // By the number, which is little-endian, before the text.
    let larger = VarRef::<'_, Named>::new(b"\0\x06a")?;
    assert!(rt; longer.order(larger) == Ordering::Less);
    Ok(())
}

#[test]
fn the_value_is_checked_before_its_element(rt: HostRuntime) {
    type Flagged = VarTupleULE<bool, StrULE>;
    assert!(rt; Flagged::check(b"") == Err(UleError::length(TyName::VarTuple, 0)));
    assert!(rt; Flagged::check(b"\x02\xff") == Err(UleError::parse(TyName::Bool)));
    assert!(rt; Flagged::check(b"\x01\xff") == Err(UleError::parse(TyName::Str)));
}

type OptionalText = OptionVarULE<StrULE>;

#[test]
fn a_text_may_be_missing(rt: HostRuntime) -> Result<(), Fail> {
    let alloc = rt.alloc();
    let missing: Option<&str> = None;
    let missing = is_written::<OptionalText, _>(&rt, alloc, &missing, b"\0")?;
    assert!(rt; OptionalText::as_ref(missing.as_ref()).is_none());
    let empty = is_written::<OptionalText, _>(&rt, alloc, &Some(""), b"\x01")?;
    let text = OptionalText::as_ref(empty.as_ref());
    assert!(rt; text.is_some_and(|text| text.as_str() == ""));
    assert!(rt; missing.as_ref().order(empty.as_ref()) == Ordering::Less);
    let later = VarRef::<'_, OptionalText>::new(b"\x01a")?;
    assert!(rt; later.order(empty.as_ref()) == Ordering::Greater);

    type Pair = Tuple2VarULE<OptionalText, StrULE, Index8>;
    is_written::<Pair, _>(&rt, alloc, &(Some("a"), "b"), b"\x02\x01ab")?;
    Ok(())
}

#[test]
fn other_bytes_are_no_optional_text(rt: HostRuntime) {
    assert!(rt; OptionalText::check(b"") == Err(UleError::length(TyName::OptionVar, 0)));
    assert!(rt; OptionalText::check(b"\0a") == Err(UleError::length(TyName::OptionVar, 2)));
    assert!(rt; OptionalText::check(b"\x02") == Err(UleError::parse(TyName::OptionVar)));
    assert!(rt; OptionalText::check(b"\x01\xff") == Err(UleError::parse(TyName::Str)));
}

#[test]
fn lists_of_composed_elements_have_defaults(rt: HostRuntime) {
    type Record = Tuple2VarULE<OptionalText, VarTupleULE<u16, StrULE>, Index8>;
    assert!(rt; VarZeroVecComponents::<'_, Record, Index8>::default().is_empty());
}
