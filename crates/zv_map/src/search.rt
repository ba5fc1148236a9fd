// Searches in a container, and whether it ascends.
ghost use Rattle.std.specs.Prelude.{◌≡◌, ℕ, ◌-◌, ◌^◌, ◌<◌, ◌≤◌, ◌↔◌, List, length, Option, IfNone};
ghost use Rattle.std.specs.Prelude.{IfSome, IsNone, Result, slice_range};
ghost use Rattle.zv_ule.specs.Search.{AtMostDigits, Found, FoundIn, IsOutside, compared};
ghost use Rattle.zv_ule.specs.Views.{element_of};
ghost use Rattle.zv_map.specs.Keys.{ascends};

use crate::vecs::ZeroVecLike;
use crate::view::Layout;
use std::cmp::Ordering;
use std::marker::PhantomData;
use std::ops::Range;
use std::sync::ledger::Ledger;
use zv_ule::search::{
    IndexedList, compare_with_element, is_ascending_between, search, search_in_range,
    search_in_range_counted,
};
use zv_ule::{Index16, Index32, Steps, VarRef, ZvKind, ZvOrd, ZvOrdArg};
use zv_var::slice::VarZeroSlice;

/// A container as a list that is read by place.
#[derive(Drop)]
pub(crate) struct Indexed<'l, T: ZvKind, C: ZeroVecLike<T>> {
    container: &'l C,
    of: PhantomData<T>,
}

impl<'l, T: ZvKind, C: ZeroVecLike<T>> Indexed<'l, T, C> {
    /// The container's list, by place.
    #[inline]
    pub(crate) fn new(container: &'l C) -> Self
        ensures { result.container.now ≡ container.now }
    {
        Indexed {
            container,
            of: PhantomData,
        }
    }
}

impl<T: ZvKind, C: ZeroVecLike<T>> IndexedList<T> for Indexed<'_, T, C> {
    ghost list = { λ s. C.list s.container.now };

    #[inline]
    fn element_count(&self) -> usize {
        self.container.zvl_len()
    }

    #[inline]
    fn element_at(&self, index: usize) -> VarRef<'_, T> {
        match self.container.zvl_get(index) {
            Some(element) => element,
            None => unreachable!(),
        }
    }
}

/// The searches of a container whose elements have an order. Each container has them.
///
/// A search halves its range and compares once a turn. Where the list ascends the answer is exact:
/// `Ok` is the place of the element that is equal to the key, and `Err` the place where the key
/// would go. In a list that doesn't ascend, `Ok` still names an equal element, and `Err` says
/// nothing. In a range, places are counted from its start, and `None` comes exactly where the range
/// ends past the list or before it starts. The counted search alone has a clause that bounds its
/// comparisons.
pub trait ZeroVecSearch<T: ZvOrd>: ZeroVecLike<T> {
    /// Searches a range, and counts each comparison as a step: at most as many as the range's
    /// length has binary digits, and none where the answer is `None`.
    fn zvl_search_counted<Q: ZvOrdArg<T>, L: Ledger>(
        &self,
        k: &Q,
        range: Range<usize>,
        steps: &mut Steps<L>,
    ) -> Option<Result<usize, usize>>
        requires below { length (Q.bytes k.now) < 2 ^ 64 }
        ensures none { IsNone result ↔ IsOutside range (length (Self.list self.now)) }
        ensures found { IfSome result
            (FoundIn (compared T.cmp (Self.list self.now) (Q.bytes k.now)) range) }
        ensures digits { AtMostDigits (steps.new - steps.old) (range.end - range.start) }
        ensures counted { steps.old ≤ steps.new }
        ensures free { IfNone result (steps.new ≡ steps.old) }
    {
        search_in_range_counted(&Indexed::new(self), k, range, steps)
    }

    /// Searches a range.
    fn zvl_binary_search_in_range<Q: ZvOrdArg<T>>(
        &self,
        k: &Q,
        range: Range<usize>,
    ) -> Option<Result<usize, usize>>
        requires below { length (Q.bytes k.now) < 2 ^ 64 }
        ensures none { IsNone result ↔ IsOutside range (length (Self.list self.now)) }
        ensures found { IfSome result
            (FoundIn (compared T.cmp (Self.list self.now) (Q.bytes k.now)) range) }
    {
        let view = self.zvl_as_borrowed();
        match view.layout() {
            Layout::Fixed(_) => search_in_range(&Indexed::new(self), k, range),
            Layout::Index16 => {
                let list = VarZeroSlice::<T, Index16>::of_valid(view.bytes());
                search_in_range(&list.components(), k, range)
            }
            Layout::Index32 => {
                let list = VarZeroSlice::<T, Index32>::of_valid(view.bytes());
                search_in_range(&list.components(), k, range)
            }
        }
    }

    /// Searches the whole list.
    fn zvl_binary_search<Q: ZvOrdArg<T>>(&self, k: &Q) -> Result<usize, usize>
        requires below { length (Q.bytes k.now) < 2 ^ 64 }
        ensures { Found (compared T.cmp (Self.list self.now) (Q.bytes k.now)) result }
    {
        let view = self.zvl_as_borrowed();
        match view.layout() {
            Layout::Fixed(_) => search(&Indexed::new(self), k),
            Layout::Index16 => {
                let list = VarZeroSlice::<T, Index16>::of_valid(view.bytes());
                search(&list.components(), k)
            }
            Layout::Index32 => {
                let list = VarZeroSlice::<T, Index32>::of_valid(view.bytes());
                search(&list.components(), k)
            }
        }
    }

    /// Whether the list ascends: each element is below its next.
    fn zvl_is_ascending(&self) -> bool
        ensures { result ≡ ascends T.cmp (Self.list self.now) }
    {
        is_ascending_between(&Indexed::new(self), 0, self.zvl_len())
    }

    /// Whether the elements from `start` up to `end` ascend.
    fn zvl_is_ascending_between(&self, start: usize, end: usize) -> bool
        requires order { start ≤ end }
        requires within { end ≤ length (Self.list self.now) }
        ensures { result ≡ ascends T.cmp (slice_range (Self.list self.now) start end) }
    {
        is_ascending_between(&Indexed::new(self), start, end)
    }

    /// How an argument compares with an element, by the kind's order.
    fn t_cmp_get<Q: ZvOrdArg<T>>(t: &Q, g: &VarRef<'_, T>) -> Ordering
        requires below { length (Q.bytes t.now) < 2 ^ 64 }
        ensures { result ≡ T.cmp (Q.bytes t.now) (element_of g.now) }
    {
        compare_with_element(t, g)
    }

    /// How two elements compare, by the kind's order.
    fn get_cmp_get(a: &VarRef<'_, T>, b: &VarRef<'_, T>) -> Ordering
        ensures { result ≡ T.cmp (element_of a.now) (element_of b.now) }
    {
        a.order(*b)
    }
}

impl<T: ZvOrd, C: ZeroVecLike<T>> ZeroVecSearch<T> for C {}
