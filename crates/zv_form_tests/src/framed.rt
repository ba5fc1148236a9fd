// Framed forms that are read, and written again; bytes that are none.
ghost use Rattle.std.specs.Prelude.{◌≡◌, IsTrue};

pub(crate) mod errors;
mod lists;

use std::alloc::Global;
use std::process::Abort;
use std::test::Fail;
use zv_framed::{FormError, Framed};

/// Bytes that are a form, and the form that what is read of them is written as.
pub(crate) type Form<'a> = (&'a [u8], &'a [u8]);

/// Bytes, and why they are no form.
pub(crate) type Fault<'a> = (&'a [u8], FormError);

// The bytes that were written are these, and have no more room.
pub(crate) fn are_just(rt: &impl Abort, written: &Vec<u8>, bytes: &[u8]) {
    assert!(rt; written.as_slice() == bytes);
    assert!(rt; written.capacity() == written.len());
}

// A value is written as these bytes.
pub(crate) fn is_written<'a, F: Framed<'a>>(
    rt: &impl Abort,
    alloc: Global,
    value: &F,
    bytes: &[u8],
) -> Result<(), Fail> {
    are_just(rt, &value.to_framed_bytes(alloc)?, bytes);
    Ok(())
}

// Bytes are a form, and what is read of them is written so; none of their fronts is a form.
fn is_form<'a, F: Framed<'a> + Drop>(
    rt: &impl Abort,
    alloc: Global,
    bytes: &'a [u8],
    written: &[u8],
) -> Result<(), Fail>
    requires { IsTrue F.usable }
{
    match F::parse_framed(bytes) {
        Ok(value) => is_written(rt, alloc, &value, written)?,
        Err(error) => panic!(rt; "{error}"),
    }
    for end in 0..bytes.len() {
        assert!(rt; F::parse_framed(&bytes[..end]).err() == Some(FormError::Frame));
    }
    Ok(())
}

// Each of the bytes is refused so.
fn are_refused<'a, F: Framed<'a> + Drop>(rt: &impl Abort, cases: &[Fault<'a>])
    requires { IsTrue F.usable }
{
    for (bytes, error) in cases {
        assert!(rt; F::parse_framed(bytes).err() == Some(*error), "{error}");
    }
}

// Each of the forms is one, and each of the cases is none.
pub(crate) fn is_read<'a, F: Framed<'a> + Drop>(
    rt: &impl Abort,
    alloc: Global,
    forms: &[Form<'a>],
    cases: &[Fault<'a>],
) -> Result<(), Fail>
    requires { IsTrue F.usable }
{
    for (bytes, written) in forms {
        is_form::<F>(rt, alloc, bytes, written)?;
    }
    are_refused::<F>(rt, cases);
    Ok(())
}
