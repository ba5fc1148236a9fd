// How lists that own their bytes, or may, compare.
ghost use Rattle.std.specs.Prelude.{◌≡◌, ℕ, ◌^◌, ◌<◌, ◌↔◌, IsTrue, length};
ghost use Rattle.std.specs.Cmp.Lexicographic.{pointwise, slice_cmp};
ghost use Rattle.std.specs.List.{All};
ghost use Rattle.std.specs.declared.cmp.Ordering.TheVariants.{Equal};
ghost use Rattle.zv_var.specs.Compared.{is_same};
ghost use Rattle.zv_var.specs.Views.{list_of};

use crate::owned::VarZeroVecOwned;
use crate::vector::VarZeroVec;
use std::cmp::Ordering;
use zv_ule::{VarZeroVecFormat, ZvOrd, ZvOrdArg};
use zv_var::slice::VarZeroSlice;

impl<T: ZvOrd, F: VarZeroVecFormat> VarZeroVecOwned<T, F> {
    /// How the list compares with another, as [`VarZeroSlice::order`].
    #[inline]
    pub fn order(&self, other: VarZeroSlice<'_, T, F>) -> Ordering
        ensures { result ≡ slice_cmp T.cmp self.now.list (list_of other.entry) }
    {
        self.as_slice().order(other)
    }

    /// Whether the list compares as equal to another, as [`VarZeroSlice::same`].
    #[inline]
    pub fn same(&self, other: VarZeroSlice<'_, T, F>) -> bool
        ensures { IsTrue result ↔ (slice_cmp T.cmp self.now.list (list_of other.entry) ≡ Equal) }
    {
        self.as_slice().same(other)
    }

    /// Whether the elements compare as equal to those of arguments, as
    /// [`VarZeroSlice::same_slice`].
    #[inline]
    pub fn same_slice<Q: ZvOrdArg<T>>(&self, other: &[Q]) -> bool
        requires below { All (λ q. length (Q.bytes q) < 2 ^ 64) other.now }
        ensures { result ≡ pointwise (is_same T.cmp Q.bytes) self.now.list other.now }
    {
        self.as_slice().same_slice(other)
    }
}

impl<'a, T: ZvOrd, F: VarZeroVecFormat> VarZeroVec<'a, T, F> {
    ghost use Rattle.zv_owned.specs.Vectors.{vector_list};

    /// How the list compares with another, as [`VarZeroSlice::order`].
    #[inline]
    pub fn order(&self, other: VarZeroSlice<'_, T, F>) -> Ordering
        ensures { result ≡ slice_cmp T.cmp (vector_list self.now) (list_of other.entry) }
    {
        self.as_slice().order(other)
    }

    /// Whether the list compares as equal to another, as [`VarZeroSlice::same`].
    #[inline]
    pub fn same(&self, other: VarZeroSlice<'_, T, F>) -> bool
        ensures { IsTrue result
            ↔ (slice_cmp T.cmp (vector_list self.now) (list_of other.entry) ≡ Equal) }
    {
        self.as_slice().same(other)
    }

    /// Whether the elements compare as equal to those of arguments, as
    /// [`VarZeroSlice::same_slice`].
    #[inline]
    pub fn same_slice<Q: ZvOrdArg<T>>(&self, other: &[Q]) -> bool
        requires below { All (λ q. length (Q.bytes q) < 2 ^ 64) other.now }
        ensures { result ≡ pointwise (is_same T.cmp Q.bytes)
            (vector_list self.now) other.now }
    {
        self.as_slice().same_slice(other)
    }
}
