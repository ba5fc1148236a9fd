// Bytes that are no record, alone and in a list.
use std::test::Fail;
use zv_multi::{MultiFieldsULE, Tuple3VarULE};
use zv_ule::{CharULE, Index8, SliceULE, StrULE, TyName, UleError, VarRef, ZvKind};
use zv_var::{VarZeroVecComponents, VarZeroVecFormatError};

// A text, characters, and a text.
type Record = Tuple3VarULE<StrULE, SliceULE<CharULE>, StrULE, Index8>;

#[test]
fn the_first_fault_of_a_record_is_named(rt: HostRuntime) -> Result<(), Fail> {
    let shape = UleError::parse(TyName::Lengthless);
    let text = UleError::parse(TyName::Str);
    let character = UleError::length(TyName::Char, 1);
    for (bytes, error) in [
        // The starts are cut.
        (b"\x01".as_slice(), shape),
        // A start past the end.
        (b"\x01\x05a".as_slice(), shape),
        // Starts that fall.
        (b"\x02\x01ab".as_slice(), shape),
        // The same, and a first field that is no text.
        (b"\x02\x01\xff\xff".as_slice(), shape),
        // A second field that is no character.
        (b"\x01\x02ab".as_slice(), character),
        // A first field that is no text, and then the same.
        (b"\x01\x02\xffb".as_slice(), text),
        // The second and the third field.
        (b"\x01\x02ab\xff".as_slice(), character),
        // The third field alone.
        (b"\x01\x01a\xff".as_slice(), text),
    ] {
        assert!(rt; Record::check(bytes) == Err(error));
        let fields = VarRef::<'_, MultiFieldsULE<3, Index8>>::new(bytes);
        assert!(rt; fields.is_err() == (error == shape));
        let list = VarZeroVecComponents::<'_, Record, Index8>::parse_bytes_with_length(1, bytes);
        assert!(rt; list.err() == Some(VarZeroVecFormatError::Values(error)));
    }
    Ok(())
}
