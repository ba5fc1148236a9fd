// A list in a format whose count stands elsewhere.
ghost use Rattle.std.specs.Prelude.{◌≡◌, ⊤, ℕ, ◌==◌, ◌≤◌, List, take, length, Option, None, IfOk};
ghost use Rattle.std.specs.Prelude.{IsTrue};
ghost use Rattle.std.specs.Result.{result_err};
ghost use Rattle.std.specs.List.{concat, slice_get};
ghost use Rattle.std.specs.Option.{option_map};
ghost use Rattle.zv_var.specs.Format.{elements_after, fault_after};
ghost use Rattle.zv_var.specs.Nested.{lengthless_fault};

use crate::components::VarZeroVecComponents;
use std::alloc::AllocError;
use zv_ule::{TyName, UleError, VarRef, VarZeroVecFormat, ZvKind};

/// A list of elements of any lengths whose bytes do not tell how many there are: the starts and the
/// elements of a [`VarZeroSlice`](crate::VarZeroSlice), without its count. It is read in place, and
/// a copy is a count and a slice.
pub struct VarZeroLengthlessSlice<'a, T: ZvKind, F: VarZeroVecFormat> {
    parts: VarZeroVecComponents<'a, T, F>,
}

impl<T: ZvKind, F: VarZeroVecFormat> Copy for VarZeroLengthlessSlice<'_, T, F> {}

impl<T: ZvKind, F: VarZeroVecFormat> Clone for VarZeroLengthlessSlice<'_, T, F> {
    ghost is_clone = { λ v w. w ≡ v };

    ghost is_infallible = { λ _. ⊤ };

    /// A copy, which takes no memory.
    #[inline]
    fn clone(&self) -> Result<Self, AllocError> {
        Ok(*self)
    }
}

impl<'a, T: ZvKind, F: VarZeroVecFormat> VarZeroLengthlessSlice<'a, T, F> {
    ghost use Rattle.zv_ule.specs.Views.{element_of};
    ghost use Rattle.zv_var.specs.Views.{lengthless_bytes, lengthless_list};

    /// The list of `len` elements that bytes are.
    ///
    /// # Errors
    /// `ParseError { ty: Lengthless }` where they are no such list.
    /// [`VarZeroVecComponents::parse_bytes_with_length`] says why.
    pub fn parse_bytes(len: u32, bytes: &'a [u8]) -> Result<Self, UleError>
        requires { IsTrue T.usable }
        ensures error { result_err result ≡
            lengthless_fault (fault_after F.W T.fault len bytes.now) }
        ensures list { IfOk result (λ s. lengthless_list s ≡ elements_after F.W len bytes.now) }
        ensures bytes { IfOk result (λ s. lengthless_bytes s ≡ bytes.now) }
    {
        match VarZeroVecComponents::parse_bytes_with_length(len, bytes) {
            Ok(parts) => Ok(VarZeroLengthlessSlice { parts }),
            Err(_) => Err(UleError::parse(TyName::Lengthless)),
        }
    }

    /// The list of `len` elements that bytes are known to be. It checks nothing.
    #[inline]
    pub fn of_valid(len: u32, bytes: &'a [u8]) -> Self
        requires usable { IsTrue T.usable }
        requires spells { fault_after F.W T.fault len bytes.now ≡ None }
        ensures { lengthless_list result ≡ elements_after F.W len bytes.now }
    {
        VarZeroLengthlessSlice {
            parts: VarZeroVecComponents::of_valid(len, bytes),
        }
    }

    /// The bytes that the list is read from, as they were given.
    #[inline]
    pub fn as_bytes(self) -> &'a [u8]
        ensures { result.now ≡ lengthless_bytes self.entry }
    {
        self.parts.bytes_after_count()
    }

    /// The element at a place, counted from 0, or `None` from the end on.
    #[inline]
    pub fn get(self, idx: usize) -> Option<VarRef<'a, T>>
        ensures { option_map element_of result ≡ slice_get (lengthless_list self.entry) idx }
    {
        self.parts.get(idx)
    }
    /// Where the element at a place starts, as [`VarZeroVecComponents::offset`] says.
    #[inline]
    pub fn offset(self, idx: usize) -> usize
        requires { idx ≤ length (lengthless_list self) }
        ensures { result ≡ length (concat (take idx (lengthless_list self.entry))) }
    {
        self.parts.offset(idx)
    }
}
