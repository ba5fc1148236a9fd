// Searches in a list by halving.
ghost use Rattle.std.specs.Prelude.{◌^◌, ◌<◌, length, map, Result};
ghost use Rattle.std.specs.List.Sorted.{IsSearchInRange};
ghost use Rattle.std.specs.declared.cmp.Ordering.{Ordering};
ghost use Rattle.zv_fixed.specs.Calls.{Computes};
ghost use Rattle.zv_fixed.specs.Searches.{AnsweredEqual};
ghost use Rattle.zv_ule.specs.Chunks.{chunks_of};
ghost use Rattle.zv_ule.specs.Search.{Found, compared};

use crate::slice::ZeroSlice;
use std::cmp::Ordering;
use zv_ule::search::{IndexedList, Window, search};
use zv_ule::{AsULE, VarRef, ZvOrd, ZvOrdArg, chunk_at};

impl<T: AsULE> IndexedList<T> for ZeroSlice<'_, T> {
    ghost use Rattle.zv_fixed.specs.Views.{bytes_of};

    ghost list = { λ s. chunks_of T.ULE.width (bytes_of s) };

    #[inline]
    fn element_count(&self) -> usize {
        self.len()
    }

    #[inline]
    fn element_at(&self, index: usize) -> VarRef<'_, T> {
        VarRef::of_valid(chunk_at::<T::ULE>(self.bytes, index))
    }
}

impl<'a, T: AsULE + ZvOrd> ZeroSlice<'a, T> {
    ghost use Rattle.zv_fixed.specs.Views.{bytes_of};

    /// Searches the list, ascending in the kind's order, for a value equal to the key.
    ///
    /// `Ok` is the place of such a value, and `Err` the place where the key would go. In a list
    /// that does not ascend, `Ok` still names an equal value, and `Err` says nothing.
    #[inline]
    pub fn binary_search<Q: ZvOrdArg<T>>(self, x: &Q) -> Result<usize, usize>
        requires { length (Q.bytes x.now) < 2 ^ 64 }
        ensures { Found (compared T.cmp (chunks_of T.ULE.width (bytes_of self.entry))
            (Q.bytes x.now)) result }
    {
        search(&self, x)
    }
}

impl<'a, T: AsULE> ZeroSlice<'a, T> {
    ghost use Rattle.zv_fixed.specs.Views.{values_in};

    /// Searches the list by a predicate, which says how a value lies to what is sought: `Less` is
    /// before it, `Equal` is it, `Greater` is after it.
    ///
    /// `Ok` is a place where the predicate answered `Equal`. Where the predicate is a function of
    /// the value and its answers rise along the list, `Err` is the place that parts the answers
    /// `Less` from the answers `Greater`.
    pub fn binary_search_by<P: FnMut(T) -> Ordering>(self, mut predicate: P) -> Result<usize, usize>
        requires { P.IsAlwaysCallable predicate }
        ensures bound { IsSearchInRange result (length (values_in self.entry)) }
        ensures equal { AnsweredEqual P.FnMut predicate (values_in self.entry) result }
        ensures found { (answer : T → Ordering) → Computes P.FnMut answer predicate →
            Found (map answer (values_in self.entry)) result }
    {
        let mut window = Window::whole(self.len());
        while window.size > 0 {
            let middle = window.middle();
            let answer = predicate(self.at(middle));
            if answer.is_eq() {
                return Ok(middle);
            }
            window = window.left_by(answer);
        }
        Err(window.low)
    }
}
