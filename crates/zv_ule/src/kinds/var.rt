// Kinds of elements of any length, and the values that have an element of such a kind.
ghost use Rattle.std.specs.Prelude.{◌≡◌, ℕ, ◌*◌, ◌^◌, ◌<◌, Bool, nat_lt, true, List, length};
ghost use Rattle.std.specs.Prelude.{flat_map, None, IsTrue, IfOk, string_bytes};
ghost use Rattle.std.specs.Result.{result_err};
ghost use Rattle.zv_ule.specs.declared.error.UleError.{UleError};
ghost use Rattle.zv_ule.specs.Views.{element_of};

use crate::element::{ULE, all_known, write_all};
use crate::error::UleError;
use crate::kind::ZvKind;
use crate::kinds::slices::SliceULE;
use crate::kinds::text::StrULE;
use crate::kinds::view::VarRef;

/// A kind whose elements may have any length. Both calls are provided, and no kind overrides them.
pub trait VarULE: ZvKind {
    /// The test of one element, which is `check`.
    #[inline]
    fn validate_bytes(bytes: &[u8]) -> Result<(), UleError>
        requires { IsTrue Self.usable }
        ensures { result_err result ≡ Self.fault bytes.now }
    {
        Self::check(bytes)
    }

    /// Checks that the bytes are an element and views them, as `VarRef::new`.
    #[inline]
    fn parse_bytes<'b>(bytes: &'b [u8]) -> Result<VarRef<'b, Self>, UleError>
        requires { IsTrue Self.usable }
        ensures error { result_err result ≡ Self.fault bytes.now }
        ensures bytes { IfOk result (λ v. element_of v ≡ bytes.now) }
    {
        VarRef::new(bytes)
    }
}

impl VarULE for StrULE {}

impl<U: ULE> VarULE for SliceULE<U> {}

/// A value that is written as an element of a kind: a text, a slice, an element that is
/// viewed. Its *spelling* is the bytes that are written.
pub trait EncodeAsVarULE<T: ZvKind> {
    /// Whether the value has a spelling, of fewer than 2^64 bytes.
    ghost fits: { Self → Bool };

    /// The spelling, where the value has one; else bytes that mean nothing.
    ghost spelling: { Self → List ℕ };

    /// Whether the value has a spelling. Only for a slice of wide values, or a list that is too
    /// long for its format, is it `false`.
    fn encode_var_ule_fits(&self) -> bool
        requires { IsTrue T.usable }
        ensures { result ≡ fits self.now };

    /// How many bytes the spelling has.
    fn encode_var_ule_len(&self) -> usize
        requires usable { IsTrue T.usable }
        requires fits { IsTrue (fits self.now) }
        ensures len { result ≡ length (spelling self.now) }
        ensures spells { T.fault (spelling self.now) ≡ None };

    /// Writes the spelling over the whole of `dst`.
    fn encode_var_ule_write(&self, dst: &mut [u8])
        requires usable { IsTrue T.usable }
        requires fits { IsTrue (fits self.now) }
        requires whole { length dst.old ≡ length (spelling self.now) }
        ensures written { dst.new ≡ spelling self.now }
        ensures spells { T.fault (spelling self.now) ≡ None };
}

impl<T: ZvKind> EncodeAsVarULE<T> for VarRef<'_, T> {
    ghost fits = { λ _. true };

    ghost spelling = { element_of };

    #[inline]
    fn encode_var_ule_fits(&self) -> bool {
        true
    }

    #[inline]
    fn encode_var_ule_len(&self) -> usize {
        self.as_bytes().len()
    }

    #[inline]
    fn encode_var_ule_write(&self, dst: &mut [u8]) {
        dst.copy_from_slice(self.as_bytes());
    }
}

impl<T: ZvKind, E: EncodeAsVarULE<T>> EncodeAsVarULE<T> for &E {
    ghost fits = { λ v. E.fits v.now };

    ghost spelling = { λ v. E.spelling v.now };

    #[inline]
    fn encode_var_ule_fits(&self) -> bool {
        (**self).encode_var_ule_fits()
    }

    #[inline]
    fn encode_var_ule_len(&self) -> usize {
        (**self).encode_var_ule_len()
    }

    #[inline]
    fn encode_var_ule_write(&self, dst: &mut [u8]) {
        (**self).encode_var_ule_write(dst);
    }
}

#[tactic(auto, using(crate::proofs::Texts::text_good))]
impl EncodeAsVarULE<StrULE> for &str {
    ghost fits = { λ _. true };

    ghost spelling = { λ s. s.now };

    #[inline]
    fn encode_var_ule_fits(&self) -> bool {
        true
    }

    #[inline]
    fn encode_var_ule_len(&self) -> usize {
        self.as_bytes().len()
    }

    #[inline]
    fn encode_var_ule_write(&self, dst: &mut [u8]) {
        dst.copy_from_slice(self.as_bytes());
    }
}

impl<U: ULE> EncodeAsVarULE<SliceULE<U>> for &[U] {
    ghost fits = { λ s. nat_lt (length s.now * U.width) (2 ^ 64) };

    ghost spelling = { λ s. flat_map U.chunk s.now };

    #[inline]
    fn encode_var_ule_fits(&self) -> bool {
        self.len().checked_mul(U::size()).is_some()
    }

    #[inline]
    fn encode_var_ule_len(&self) -> usize {
        all_known(*self);
        self.len() * U::size()
    }

    #[inline]
    fn encode_var_ule_write(&self, dst: &mut [u8]) {
        all_known(*self);
        write_all(*self, dst);
    }
}

impl EncodeAsVarULE<StrULE> for String {
    ghost fits = { λ _. true };

    ghost spelling = { λ s. string_bytes s };

    #[inline]
    fn encode_var_ule_fits(&self) -> bool {
        true
    }

    #[inline]
    fn encode_var_ule_len(&self) -> usize {
        let text = self.as_str();
        text.encode_var_ule_len()
    }

    #[inline]
    fn encode_var_ule_write(&self, dst: &mut [u8]) {
        let text = self.as_str();
        text.encode_var_ule_write(dst);
    }
}

impl<U: ULE> EncodeAsVarULE<SliceULE<U>> for Vec<U> {
    ghost fits = { λ v. nat_lt (length v.items * U.width) (2 ^ 64) };

    ghost spelling = { λ v. flat_map U.chunk v.items };

    #[inline]
    fn encode_var_ule_fits(&self) -> bool {
        self.as_slice().encode_var_ule_fits()
    }

    #[inline]
    fn encode_var_ule_len(&self) -> usize {
        self.as_slice().encode_var_ule_len()
    }

    #[inline]
    fn encode_var_ule_write(&self, dst: &mut [u8]) {
        self.as_slice().encode_var_ule_write(dst);
    }
}
