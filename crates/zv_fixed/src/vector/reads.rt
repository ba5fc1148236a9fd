// Reads of a list.
ghost use Rattle.std.specs.Prelude.{◌≡◌, ◌≢◌, ◌==◌, ◌*◌, ◌-◌, ◌^◌, ◌<◌, ◌↔◌, [], ◌∷◌, ◌++◌, length};
ghost use Rattle.std.specs.Prelude.{flat_map, map, slice_index_or, slice_range, false, Result};
ghost use Rattle.std.specs.Prelude.{Some, None, IsTrue, IsNone, IfOk, IfSome, IsOk, MatchOption};
ghost use Rattle.std.specs.Cmp.Lexicographic.{pointwise, slice_cmp};
ghost use Rattle.std.specs.List.{slice_get};
ghost use Rattle.std.specs.List.Sorted.{IsSearchInRange};
ghost use Rattle.std.specs.Result.{result_err};
ghost use Rattle.std.specs.declared.cmp.Ordering.{Ordering};
ghost use Rattle.zv_fixed.specs.Calls.{Computes};
ghost use Rattle.zv_fixed.specs.Searches.{AnsweredEqual};
ghost use Rattle.zv_ule.specs.Chunks.{chunks_fault, chunks_of, values_of};
ghost use Rattle.zv_ule.specs.Fixed.{is_width};
ghost use Rattle.zv_ule.specs.Search.{Found, IsOutside, compared};
ghost use Rattle.zv_ule.specs.Views.{element_of};

use super::ZeroVec;
use crate::iter::ZeroSliceIter;
use crate::slice::{ZeroSlice, ZeroSliceULE};
use std::alloc::Global;
use std::cmp::Ordering;
use std::marker::PhantomData;
use std::ops::Range;
use zv_ule::{AsULE, NoMemory, UleError, VarRef, ZvOrd, ZvOrdArg, chunk_at, load};

impl<'a, T: AsULE> ZeroVec<'a, T> {
    ghost use Rattle.zv_fixed.specs.Iters.{left_of};
    ghost use Rattle.zv_fixed.specs.Views.{bytes_of, values_in};

    /// The bytes: the chunks of the values, one after another.
    #[inline]
    pub fn as_bytes(&self) -> &[u8]
        ensures bytes { result.now ≡ self.now.bytes }
        ensures spells { chunks_fault T.ULE.TY T.ULE.width T.ULE.chunk_fault result.now ≡ None }
        ensures joined { flat_map (λ v. T.ULE.chunk (T.stored v)) self.now.values ≡ result.now }
    {
        self.as_slice().as_bytes()
    }

    /// How many values there are.
    #[inline]
    pub fn len(&self) -> usize
        ensures { result ≡ length self.now.values }
    {
        self.as_slice().len()
    }

    /// How many values there are.
    #[inline]
    pub fn const_len(&self) -> usize
        ensures { result ≡ length self.now.values }
    {
        self.len()
    }

    /// Whether there is no value.
    #[inline]
    pub fn is_empty(&self) -> bool
        ensures { result ≡ (length self.now.values == 0) }
    {
        self.as_slice().is_empty()
    }

    /// The value at a place, or `None` past the end.
    #[inline]
    pub fn get(&self, index: usize) -> Option<T>
        ensures { result ≡ slice_get self.now.values index }
    {
        self.as_slice().get(index)
    }

    /// The value at a place that is known to be in the list. It reads one chunk.
    #[inline]
    pub fn at(&self, index: usize) -> T
        requires { index < length self.now.values }
        ensures read { slice_get self.now.values index ≡ Some result }
        ensures chunk { T.ULE.chunk (T.stored result)
            ≡ slice_index_or (chunks_of T.ULE.width self.now.bytes) index [] }
    {
        self.all_read();
        load::<T>(chunk_at::<T::ULE>(self.cow.bytes(), index))
    }

    /// The first value, or `None` where there is none.
    #[inline]
    pub fn first(&self) -> Option<T>
        ensures { result ≡ slice_get self.now.values 0 }
    {
        self.as_slice().first()
    }

    /// The last value, or `None` where there is none.
    #[inline]
    pub fn last(&self) -> Option<T>
        ensures { result ≡ slice_get self.now.values (length self.now.values - 1) }
    {
        self.as_slice().last()
    }

    /// The values of a range of places, or `None` exactly where it ends past the list or before it
    /// starts.
    #[inline]
    pub fn get_subslice(&self, range: Range<usize>) -> Option<ZeroSlice<'_, T>>
        ensures none { IsNone result ↔ IsOutside range (length self.now.values) }
        ensures values { IfSome result (λ s. values_in s
            ≡ slice_range self.now.values range.start range.end) }
        ensures bytes { IfSome result (λ s. bytes_of s ≡ slice_range self.now.bytes
            (range.start * T.ULE.width) (range.end * T.ULE.width)) }
    {
        self.as_slice().get_subslice(range)
    }

    /// The values as an array, or `None` exactly where there are more or fewer than its places.
    #[inline]
    pub fn get_as_array<const N: usize>(&self) -> Option<[T; N]>
        ensures { MatchOption result (length self.now.values ≢ N)
            (λ array. array ≡ self.now.values) }
    {
        self.as_slice().get_as_array()
    }

    /// The first value and a view of those after it, or `None` where there is none.
    #[inline]
    pub fn split_first(&self) -> Option<(T, ZeroSlice<'_, T>)>
        ensures { MatchOption result (self.now.values ≡ [])
            (λ p. self.now.values ≡ p.0 ∷ values_in p.1) }
    {
        self.as_slice().split_first()
    }

    /// The last value and a view of those before it, or `None` where there is none.
    #[inline]
    pub fn split_last(&self) -> Option<(T, ZeroSlice<'_, T>)>
        ensures { MatchOption result (self.now.values ≡ [])
            (λ p. self.now.values ≡ values_in p.1 ++ p.0 ∷ []) }
    {
        self.as_slice().split_last()
    }

    /// A view of the list of another type that the bytes are. The error is that of `parse_bytes`.
    #[inline]
    pub fn try_as_converted<P: AsULE>(&self) -> Result<ZeroSlice<'_, P>, UleError>
        requires { IsTrue P.usable }
        ensures error { result_err result
            ≡ chunks_fault P.ULE.TY P.ULE.width P.ULE.chunk_fault self.now.bytes }
        ensures bytes { IfOk result (λ s. bytes_of s ≡ self.now.bytes) }
    {
        self.as_slice().try_as_converted()
    }

    /// A list that borrows the bytes of this one.
    #[inline]
    pub fn as_zerovec(&self) -> ZeroVec<'_, T>
        ensures values { result.values ≡ self.now.values }
        ensures bytes { result.bytes ≡ self.now.bytes }
        ensures owned { result.owned ≡ false }
    {
        self.as_slice().as_zerovec()
    }

    /// The list as an element. It reads no byte.
    #[inline]
    pub fn as_view(&self) -> VarRef<'_, ZeroSliceULE<T>>
        ensures { element_of result ≡ self.now.bytes }
    {
        self.as_slice().as_view()
    }

    /// Whether the list has the same values as another.
    #[inline]
    pub fn same(&self, other: ZeroSlice<'_, T>) -> bool
        ensures { IsTrue result ↔ (self.now.values ≡ values_in other.entry) }
    {
        self.as_slice().same(other)
    }

    /// Searches the list by a predicate, as `ZeroSlice::binary_search_by`.
    #[inline]
    pub fn binary_search_by<P: FnMut(T) -> Ordering>(&self, predicate: P) -> Result<usize, usize>
        requires { P.IsAlwaysCallable predicate }
        ensures bound { IsSearchInRange result (length self.now.values) }
        ensures equal { AnsweredEqual P.FnMut predicate self.now.values result }
        ensures found { (answer : T → Ordering) → Computes P.FnMut answer predicate →
            Found (map answer self.now.values) result }
    {
        self.as_slice().binary_search_by(predicate)
    }

    /// The values, in order.
    #[inline]
    pub fn iter(&self) -> ZeroSliceIter<'_, T>
        ensures { left_of result ≡ self.now.values }
    {
        self.as_slice().iter()
    }

    /// Each chunk of the bytes is read as the value at its place. The call does
    /// nothing when it runs.
    #[inline]
    pub fn all_read(&self)
        ensures usable { IsTrue T.usable }
        ensures width { IsTrue (is_width T.ULE.width) }
        ensures values { values_of T.ULE.width (λ b. T.loaded (T.ULE.value b)) self.now.bytes
            ≡ self.now.values }
        ensures len { length (chunks_of T.ULE.width self.now.bytes) ≡ length self.now.values }
        ensures spells { chunks_fault T.ULE.TY T.ULE.width T.ULE.chunk_fault self.now.bytes ≡ None }
    {
        let _bytes = self.cow.bytes();
    }

    /// A list of the same values, which borrows the same bytes, or owns a copy of those that this
    /// one owns. It takes memory only where it is owned.
    #[inline]
    pub fn clone(&self, alloc: Global) -> Result<Self, NoMemory>
        ensures values { IfOk result (λ v. v.values ≡ self.now.values) }
        ensures bytes { IfOk result (λ v. v.bytes ≡ self.now.bytes) }
        ensures owned { IfOk result (λ v. v.owned ≡ self.now.owned) }
        ensures borrowed { self.now.owned ≡ false → IsOk result }
    {
        let cow = self.cow.clone(alloc)?;
        Ok(ZeroVec {
            cow,
            of: PhantomData,
        })
    }
}

impl<'a, T: AsULE + PartialEq> ZeroVec<'a, T> {
    /// Whether the values are those of a slice.
    #[inline]
    pub fn same_slice(&self, other: &[T]) -> bool
        ensures { result ≡ pointwise T.eq self.now.values other.now }
    {
        self.as_slice().same_slice(other)
    }
}

impl<'a, T: AsULE + Ord> ZeroVec<'a, T> {
    ghost use Rattle.zv_fixed.specs.Views.{values_in};

    /// How the list compares with another, value by value; the shorter of two that agree is less.
    #[inline]
    pub fn order(&self, other: ZeroSlice<'_, T>) -> Ordering
        ensures { result ≡ slice_cmp T.cmp self.now.values (values_in other.entry) }
    {
        self.as_slice().order(other)
    }
}

impl<'a, T: AsULE + ZvOrd> ZeroVec<'a, T> {
    /// Searches the list, ascending in the kind's order, for a value equal to the key, as
    /// `ZeroSlice::binary_search`.
    #[inline]
    pub fn binary_search<Q: ZvOrdArg<T>>(&self, x: &Q) -> Result<usize, usize>
        requires { length (Q.bytes x.now) < 2 ^ 64 }
        ensures { Found (compared T.cmp (chunks_of T.ULE.width self.now.bytes) (Q.bytes x.now))
            result }
    {
        self.as_slice().binary_search(x)
    }
}
