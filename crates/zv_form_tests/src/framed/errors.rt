// Why bytes are no framed form.
ghost use Rattle.std.specs.Prelude.{◌≡◌};

use std::test::Fail;
use zv_framed::FormError;
use zv_ule::{TyName, UleError};

// The errors of parts that are no list of numbers of two bytes, of four, of pairs of numbers.
pub(crate) const ODD_BYTE: FormError = FormError::Part(UleError::InvalidLength {
    ty: TyName::RawBytes2,
    len: 1,
});

pub(crate) const SHORT_NUMBER: FormError = FormError::Part(UleError::InvalidLength {
    ty: TyName::RawBytes4,
    len: 3,
});

pub(crate) const SHORT_PAIR: FormError = FormError::Part(UleError::InvalidLength {
    ty: TyName::Tuple2,
    len: 7,
});

// The error of a part with a key that is 0 and may not be.
pub(crate) const ZERO_KEY: FormError = FormError::Part(UleError::ParseError {
    ty: TyName::NonZeroU8,
});

// The error of a part that is no list of texts.
pub(crate) const NO_TEXTS: FormError = FormError::Part(UleError::ParseError {
    ty: TyName::VarZeroSlice,
});

#[test]
fn errors_print(rt: HostRuntime) -> Result<(), Fail> {
    let frame = format!(in rt.alloc(); "{}", FormError::Frame)?;
    assert!(&rt; frame.as_str() == "the bytes are not parts, each after its length");
    let part = format!(in rt.alloc(); "{}", ODD_BYTE)?;
    assert!(&rt; part.as_str() == "Invalid length 1 for slice of type RawBytes2");
    Ok(())
}
