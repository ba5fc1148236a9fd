// Searches in lists that own their bytes, or may.
ghost use Rattle.std.specs.Prelude.{◌≡◌, ℕ, ◌-◌, ◌^◌, ◌<◌, ◌≤◌, ◌↔◌, IfSome, IsNone, List, length};
ghost use Rattle.std.specs.Prelude.{Result, map, slice_range};
ghost use Rattle.std.specs.Fn.{ComputesKey};
ghost use Rattle.std.specs.List.Sorted.{IsSearchInRange};
ghost use Rattle.std.specs.declared.cmp.Ordering.{Ordering};
ghost use Rattle.zv_ule.specs.Search.{AnsweredEqual, Found, FoundIn, IsOutside, compared};

use crate::owned::VarZeroVecOwned;
use crate::vector::VarZeroVec;
use std::cmp::Ordering;
use std::ops::Range;
use zv_ule::{VarZeroVecFormat, ZvKind, ZvOrd, ZvOrdArg};

impl<T: ZvKind, F: VarZeroVecFormat> VarZeroVecOwned<T, F> {
    /// Searches a range of places by a predicate, as
    /// [`zv_var::VarZeroVecComponents::binary_search_in_range_by`].
    #[inline]
    pub fn binary_search_in_range_by<P: FnMut(&[u8]) -> Ordering>(
        &self,
        predicate: P,
        range: Range<usize>,
    ) -> Option<Result<usize, usize>>
        requires { P.IsAlwaysCallable predicate }
        ensures none { IsNone result ↔ IsOutside range (length self.now.list) }
        ensures bound { IfSome result (λ r. IsSearchInRange r (range.end - range.start)) }
        ensures equal { IfSome result (AnsweredEqual P.FnMut predicate
            (slice_range self.now.list range.start range.end)) }
        ensures found { (answer : List ℕ → Ordering) → ComputesKey P.FnMut answer predicate →
            IfSome result (FoundIn (map answer self.now.list) range) }
    {
        self.as_slice().binary_search_in_range_by(predicate, range)
    }

    /// Searches the whole list by a predicate, as
    /// [`zv_var::VarZeroVecComponents::binary_search_in_range_by`].
    #[inline]
    pub fn binary_search_by<P: FnMut(&[u8]) -> Ordering>(
        &self,
        predicate: P,
    ) -> Result<usize, usize>
        requires { P.IsAlwaysCallable predicate }
        ensures bound { IsSearchInRange result (length self.now.list) }
        ensures equal { AnsweredEqual P.FnMut predicate self.now.list result }
        ensures found { (answer : List ℕ → Ordering) → ComputesKey P.FnMut answer predicate →
            Found (map answer self.now.list) result }
    {
        self.as_slice().binary_search_by(predicate)
    }
}

impl<T: ZvOrd, F: VarZeroVecFormat> VarZeroVecOwned<T, F> {
    /// Searches a range of the list, as [`zv_var::VarZeroSlice::binary_search_in_range`].
    #[inline]
    pub fn binary_search_in_range<Q: ZvOrdArg<T>>(
        &self,
        needle: &Q,
        range: Range<usize>,
    ) -> Option<Result<usize, usize>>
        requires below { length (Q.bytes needle.now) < 2 ^ 64 }
        ensures none { IsNone result ↔ IsOutside range (length self.now.list) }
        ensures found { IfSome result
            (FoundIn (compared T.cmp self.now.list (Q.bytes needle.now)) range) }
    {
        self.as_slice().binary_search_in_range(needle, range)
    }

    /// Searches the list, as [`zv_var::VarZeroSlice::binary_search`].
    #[inline]
    pub fn binary_search<Q: ZvOrdArg<T>>(&self, needle: &Q) -> Result<usize, usize>
        requires below { length (Q.bytes needle.now) < 2 ^ 64 }
        ensures { Found (compared T.cmp self.now.list (Q.bytes needle.now)) result }
    {
        self.as_slice().binary_search(needle)
    }
}

impl<'a, T: ZvKind, F: VarZeroVecFormat> VarZeroVec<'a, T, F> {
    ghost use Rattle.zv_owned.specs.Vectors.{vector_list};

    /// Searches a range of places by a predicate, as
    /// [`zv_var::VarZeroVecComponents::binary_search_in_range_by`].
    #[inline]
    pub fn binary_search_in_range_by<P: FnMut(&[u8]) -> Ordering>(
        &self,
        predicate: P,
        range: Range<usize>,
    ) -> Option<Result<usize, usize>>
        requires { P.IsAlwaysCallable predicate }
        ensures none { IsNone result ↔ IsOutside range (length (vector_list self.now)) }
        ensures bound { IfSome result (λ r. IsSearchInRange r (range.end - range.start)) }
        ensures equal { IfSome result (AnsweredEqual P.FnMut predicate
            (slice_range (vector_list self.now) range.start range.end)) }
        ensures found { (answer : List ℕ → Ordering) → ComputesKey P.FnMut answer predicate →
            IfSome result (FoundIn (map answer (vector_list self.now)) range) }
    {
        self.as_slice().binary_search_in_range_by(predicate, range)
    }

    /// Searches the whole list by a predicate, as
    /// [`zv_var::VarZeroVecComponents::binary_search_in_range_by`].
    #[inline]
    pub fn binary_search_by<P: FnMut(&[u8]) -> Ordering>(
        &self,
        predicate: P,
    ) -> Result<usize, usize>
        requires { P.IsAlwaysCallable predicate }
        ensures bound { IsSearchInRange result (length (vector_list self.now)) }
        ensures equal { AnsweredEqual P.FnMut predicate (vector_list self.now) result }
        ensures found { (answer : List ℕ → Ordering) → ComputesKey P.FnMut answer predicate →
            Found (map answer (vector_list self.now)) result }
    {
        self.as_slice().binary_search_by(predicate)
    }
}

impl<'a, T: ZvOrd, F: VarZeroVecFormat> VarZeroVec<'a, T, F> {
    ghost use Rattle.zv_owned.specs.Vectors.{vector_list};

    /// Searches a range of the list, as [`zv_var::VarZeroSlice::binary_search_in_range`].
    #[inline]
    pub fn binary_search_in_range<Q: ZvOrdArg<T>>(
        &self,
        needle: &Q,
        range: Range<usize>,
    ) -> Option<Result<usize, usize>>
        requires below { length (Q.bytes needle.now) < 2 ^ 64 }
        ensures none { IsNone result ↔ IsOutside range (length (vector_list self.now)) }
        ensures found { IfSome result
            (FoundIn (compared T.cmp (vector_list self.now) (Q.bytes needle.now)) range) }
    {
        self.as_slice().binary_search_in_range(needle, range)
    }

    /// Searches the list, as [`zv_var::VarZeroSlice::binary_search`].
    #[inline]
    pub fn binary_search<Q: ZvOrdArg<T>>(&self, needle: &Q) -> Result<usize, usize>
        requires below { length (Q.bytes needle.now) < 2 ^ 64 }
        ensures { Found (compared T.cmp (vector_list self.now) (Q.bytes needle.now)) result }
    {
        self.as_slice().binary_search(needle)
    }
}
