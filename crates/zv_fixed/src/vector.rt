// Lists of values that may be changed.
ghost use Rattle.std.specs.Prelude.{◌≡◌, []};
ghost use Rattle.std.specs.Prelude.{true, false, Some, None, IsTrue, IfOk};
ghost use Rattle.std.specs.Prelude.{MatchOption};
ghost use Rattle.std.specs.Result.{result_err};
ghost use Rattle.zv_ule.specs.Chunks.{chunks_fault, values_of};
ghost use Rattle.zv_ule.specs.Fixed.{is_width};

mod changes;
mod conversions;
mod each;
mod reads;

use crate::cow_bytes::CowBytes;
use crate::slice::ZeroSlice;
pub use each::EachError;
use std::marker::{Model, PhantomData};
use zv_ule::{AsULE, UleError, UsableKind};

/// A list of values of fixed width in plain bytes, as `ZeroSlice`, that may be changed. It borrows
/// its bytes until the first change, which copies them, and from then on owns them and changes
/// them in place.
#[derive(Drop)]
pub struct ZeroVec<'a, T: AsULE> {
    cow: CowBytes<'a>,
    of: PhantomData<T>,
}

impl<'a, T: AsULE> Model for ZeroVec<'a, T> {
    ghost use Rattle.std.specs.Prelude.{◌≡◌, None, IsTrue};
    ghost use Rattle.zv_ule.specs.Chunks.{chunks_fault, values_of};
    ghost use Rattle.zv_ule.specs.Fixed.{is_width};
    ghost use Rattle.zv_fixed.specs.CowBytes.{bytes_in, spare_in, owned_in};
    ghost use Rattle.zv_fixed.specs.Vectors.{Vector};

    ghost Value = { Vector T };

    ghost view = { λ v. record {
      values = values_of T.ULE.width (λ b. T.loaded (T.ULE.value b)) (bytes_in v.cow);
      bytes = bytes_in v.cow;
      spare = spare_in v.cow;
      owned = owned_in v.cow;
    } };

    ghost invariant = { λ v. IsTrue (is_width T.ULE.width)
        × (chunks_fault T.ULE.TY T.ULE.width T.ULE.chunk_fault (bytes_in v.cow) ≡ None) };
}

/// The list of no values, as [`ZeroVec::new`].
impl<T: AsULE + UsableKind> Default for ZeroVec<'_, T> {
    ghost is_default = { λ v. (v.values ≡ []) × (v.bytes ≡ []) × (v.owned ≡ false) };

    #[inline]
    fn default() -> Self {
        ZeroVec::new()
    }
}

impl<'a, T: AsULE> ZeroVec<'a, T> {
    ghost use Rattle.zv_fixed.specs.Views.{bytes_of, values_in};

    /// A list of no values. It takes no memory.
    #[inline]
    pub fn new() -> Self
        requires { IsTrue T.usable }
        ensures values { result.values ≡ [] }
        ensures bytes { result.bytes ≡ [] }
        ensures owned { result.owned ≡ false }
        ensures spare { result.spare ≡ 0 }
    {
        ZeroVec {
            cow: CowBytes::Borrowed(&[]),
            of: PhantomData,
        }
    }

    /// Checks that the bytes are a list and borrows them. The error is that of
    /// `ZeroSlice::parse_bytes`.
    #[inline]
    pub fn parse_bytes(bytes: &'a [u8]) -> Result<Self, UleError>
        requires { IsTrue T.usable }
        ensures error { result_err result
            ≡ chunks_fault T.ULE.TY T.ULE.width T.ULE.chunk_fault bytes.now }
        ensures values { IfOk result (λ v. v.values
            ≡ values_of T.ULE.width (λ b. T.loaded (T.ULE.value b)) bytes.now) }
        ensures bytes { IfOk result (λ v. v.bytes ≡ bytes.now) }
        ensures owned { IfOk result (λ v. v.owned ≡ false) }
    {
        let view = ZeroSlice::parse_bytes(bytes)?;
        Ok(ZeroVec::new_borrowed(view))
    }

    /// Borrows the bytes of a view.
    #[inline]
    pub fn new_borrowed(view: ZeroSlice<'a, T>) -> Self
        ensures values { result.values ≡ values_in view.entry }
        ensures bytes { result.bytes ≡ bytes_of view.entry }
        ensures owned { result.owned ≡ false }
    {
        ZeroVec {
            cow: CowBytes::Borrowed(view.as_bytes()),
            of: PhantomData,
        }
    }

    /// Views the list.
    #[inline]
    pub fn as_slice(&self) -> ZeroSlice<'_, T>
        ensures values { values_in result ≡ self.now.values }
        ensures bytes { bytes_of result ≡ self.now.bytes }
    {
        ZeroSlice::of_valid(self.cow.bytes())
    }

    /// Views the list for as long as the bytes are borrowed, or gives `None` where it owns them.
    #[inline]
    pub fn as_maybe_borrowed(&self) -> Option<ZeroSlice<'a, T>>
        ensures { MatchOption result (self.now.owned ≡ true)
            (λ s. (self.now.owned ≡ false) × (bytes_of s ≡ self.now.bytes)
            × (values_in s ≡ self.now.values)) }
    {
        let bytes = self.cow.borrowed()?;
        Some(ZeroSlice::of_valid(bytes))
    }

    /// Whether the list owns its bytes.
    #[inline]
    pub fn is_owned(&self) -> bool
        ensures { result ≡ self.now.owned }
    {
        self.cow.is_owned()
    }
}
