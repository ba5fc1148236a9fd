// Views of single elements.
ghost use Rattle.std.specs.Prelude.{◌≡◌, ⊤, ◌<◌, None, IsTrue, IfOk, ◌↔◌};
ghost use Rattle.std.specs.declared.cmp.Ordering.TheVariants.{Equal};
ghost use Rattle.std.specs.Result.{result_err};
ghost use Rattle.zv_ule.specs.declared.error.UleError.{UleError};

use crate::element::{AsULE, load};
use crate::error::UleError;
use crate::kind::{ZvKind, ZvOrd, order};
use crate::kinds::slices::SliceULE;
use crate::kinds::text::{StrULE, text_of};
use std::alloc::AllocError;
use std::cmp::Ordering;
use std::marker::PhantomData;

/// A view of one element of a kind: bytes that were checked, or that are known to be one. It is two
/// words, copied freely, lives as long as the bytes, and no call on it checks them again.
pub struct VarRef<'b, T: ZvKind> {
    bytes: &'b [u8],
    of: PhantomData<T>,
    pub ghost usable: { IsTrue T.usable },
    pub ghost spells: { T.fault bytes.now ≡ None },
}

impl<T: ZvKind> Clone for VarRef<'_, T> {
    ghost is_clone = { λ v w. w ≡ v };

    ghost is_infallible = { λ _. ⊤ };

    #[inline]
    fn clone(&self) -> Result<Self, AllocError> {
        Ok(*self)
    }
}

impl<T: ZvKind> Copy for VarRef<'_, T> {}

impl<'b, T: ZvKind> VarRef<'b, T> {
    ghost use Rattle.zv_ule.specs.Views.{element_of};

    /// Checks that the bytes are an element, by `check` of the kind, and views them.
    #[inline]
    pub fn new(bytes: &'b [u8]) -> Result<Self, UleError>
        requires { IsTrue T.usable }
        ensures error { result_err result ≡ T.fault bytes.now }
        ensures bytes { IfOk result (λ v. element_of v ≡ bytes.now) }
    {
        T::check(bytes)?;
        Ok(VarRef {
            bytes,
            of: PhantomData,
        })
    }

    /// Views bytes that are known to be an element. It checks nothing.
    #[inline]
    pub fn of_valid(bytes: &'b [u8]) -> Self
        requires usable { IsTrue T.usable }
        requires spells { T.fault bytes.now ≡ None }
        ensures { element_of result ≡ bytes.now }
    {
        VarRef {
            bytes,
            of: PhantomData,
        }
    }

    /// The element's bytes.
    #[inline]
    pub fn as_bytes(self) -> &'b [u8]
        ensures same { result.now ≡ element_of self.entry }
        ensures spells { T.fault result.now ≡ None }
    {
        self.bytes
    }
}

impl<T: ZvOrd> VarRef<'_, T> {
    ghost use Rattle.zv_ule.specs.Views.{element_of};

    /// How two elements compare.
    #[inline]
    pub fn order(self, other: VarRef<'_, T>) -> Ordering
        ensures { result ≡ T.cmp (element_of self.entry) (element_of other.entry) }
    {
        order::<T>(self.as_bytes(), other.as_bytes())
    }

    /// Whether two elements compare as equal. For numbers, texts and slices of bytes they are then
    /// the same bytes.
    #[inline]
    pub fn same(self, other: VarRef<'_, T>) -> bool
        ensures { IsTrue result ↔ (T.cmp (element_of self.entry) (element_of other.entry) ≡ Equal) }
    {
        self.order(other).is_eq()
    }
}

impl<T: AsULE> VarRef<'_, T> {
    ghost use Rattle.zv_ule.specs.Views.{element_of};

    /// Reads the value of an element of fixed width.
    #[inline]
    pub fn value(self) -> T
        ensures read { result ≡ T.loaded (T.ULE.value (element_of self.entry)) }
        ensures valid { T.is_value result }
        ensures spelled { T.ULE.chunk (T.stored result) ≡ element_of self.entry }
    {
        load::<T>(self.as_bytes())
    }
}

#[tactic(auto, using(crate::proofs::Texts::text_good))]
impl<'b> VarRef<'b, StrULE> {
    ghost use Rattle.zv_ule.specs.Views.{element_of};

    /// Views a text. It checks nothing, as a `str` is UTF-8.
    #[inline]
    pub fn of_str(text: &'b str) -> VarRef<'b, StrULE>
        ensures { element_of result ≡ text.now }
    {
        VarRef {
            bytes: text.as_bytes(),
            of: PhantomData,
        }
    }

    /// The text itself, with no copy and no check.
    #[inline]
    pub fn as_str(self) -> &'b str
        ensures { result.now ≡ element_of self.entry }
    {
        text_of(self.as_bytes())
    }
}

impl<'b> VarRef<'b, SliceULE<u8>> {
    ghost use Rattle.zv_ule.specs.Views.{element_of};

    /// Views a byte string. It checks nothing, as every byte string is a slice of bytes.
    #[inline]
    #[tactic(auto, using(crate::proofs::ChunkFaults::plain_bytes))]
    pub fn of_bytes(bytes: &'b [u8]) -> VarRef<'b, SliceULE<u8>>
        ensures { element_of result ≡ bytes.now }
    {
        VarRef {
            bytes,
            of: PhantomData,
        }
    }
}
