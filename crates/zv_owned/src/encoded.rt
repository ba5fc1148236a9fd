// A value that is written as an element, as the argument of a change.
ghost use Rattle.std.specs.Prelude.{◌≡◌, ◌<◌, ◌^◌, length, Option, None, IsTrue, IfSome, is_some};

use std::marker::PhantomData;
use zv_ule::{EncodeAsVarULE, VarZeroVecFormat, ZvArg, ZvKind};
use zv_var::slice::VarZeroSlice;

/// A value that has a spelling, with the spelling's length: an argument of the kind, whose bytes
/// are the spelling.
#[derive(Drop)]
pub struct Encoded<'e, T: ZvKind, A: EncodeAsVarULE<T>> {
    value: &'e A,
    len: usize,
    of: PhantomData<T>,
    ghost fits: { IsTrue (A.fits value.now) },
    ghost is_len: { len ≡ length (A.spelling value.now) },
    ghost valid: { T.fault (A.spelling value.now) ≡ None },
}

impl<'e, T: ZvKind, A: EncodeAsVarULE<T>> Encoded<'e, T, A> {
    /// The value as an argument, or `None` where it has no spelling.
    #[inline]
    pub fn new(value: &'e A) -> Option<Self>
        requires { IsTrue T.usable }
        ensures some { is_some result ≡ A.fits value.now }
        ensures value { IfSome result (λ e. e.value.now ≡ value.now) }
        ensures below { IfSome result (λ e. length (A.spelling e.value.now) < 2 ^ 64) }
    {
        if !value.encode_var_ule_fits() {
            return None;
        }
        Some(Encoded {
            value,
            len: value.encode_var_ule_len(),
            of: PhantomData,
        })
    }

    /// The value as an argument of a list's kind, or `None` where it has no spelling.
    #[inline]
    pub(crate) fn for_list<F: VarZeroVecFormat>(
        _list: VarZeroSlice<'_, T, F>,
        value: &'e A,
    ) -> Option<Self>
        ensures some { is_some result ≡ A.fits value.now }
        ensures value { IfSome result (λ e. e.value.now ≡ value.now) }
        ensures below { IfSome result (λ e. length (A.spelling e.value.now) < 2 ^ 64) }
    {
        Self::new(value)
    }
}

impl<T: ZvKind, A: EncodeAsVarULE<T>> ZvArg<T> for Encoded<'_, T, A> {
    ghost bytes = { λ e. A.spelling e.value.now };

    #[inline]
    fn arg_len(&self) -> usize {
        self.len
    }

    #[inline]
    fn arg_write(&self, out: &mut [u8]) {
        self.value.encode_var_ule_write(out);
    }
}
