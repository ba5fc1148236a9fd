// How lists of values compare.
ghost use Rattle.std.specs.Prelude.{◌≡◌, ◌↔◌, IsTrue};
ghost use Rattle.std.specs.Cmp.{on_total};
ghost use Rattle.std.specs.Cmp.Lexicographic.{slice_cmp};
ghost use Rattle.std.specs.Ordering.{on};
ghost use Rattle.std.proofs.lemmas.Cmp.{lists_total};
ghost use Rattle.zv_ule.specs.Chunks.{values_of};

use crate::slice::ZeroSlice;
use crate::slice::kind::ZeroSliceULE;
use std::cmp::Ordering;
use std::sync::ledger::Ledger;
use zv_ule::{AsULE, Steps, ZvOrd};

impl<'a, T: AsULE> ZeroSlice<'a, T> {
    ghost use Rattle.zv_fixed.specs.Views.{values_in};

    /// Whether two lists have the same values. A value is stored in one way alone, so that it
    /// compares the bytes.
    #[inline]
    pub fn same(self, other: ZeroSlice<'_, T>) -> bool
        ensures { IsTrue result ↔ (values_in self.entry ≡ values_in other.entry) }
    {
        self.as_bytes() == other.as_bytes()
    }
}

impl<'a, T: AsULE + PartialEq> ZeroSlice<'a, T> {
    ghost use Rattle.std.specs.Cmp.Lexicographic.{pointwise};
    ghost use Rattle.zv_fixed.specs.Views.{values_in};

    /// Whether the values are those of a slice.
    pub fn same_slice(self, other: &[T]) -> bool
        ensures { result ≡ pointwise T.eq (values_in self.entry) other.now }
    {
        let mut left = self;
        let mut right = other;
        while let Some((first, left_rest)) = left.split_first() {
            let [second, right_rest @ ..] = right else {
                return false;
            };
            if first != *second {
                return false;
            }
            left = left_rest;
            right = right_rest;
        }
        right.is_empty()
    }
}

impl<'a, T: AsULE + Ord> ZeroSlice<'a, T> {
    ghost use Rattle.zv_fixed.specs.Views.{values_in};

    /// How two lists compare, value by value; the shorter of two that agree is less.
    pub fn order(self, other: ZeroSlice<'_, T>) -> Ordering
        ensures { result ≡ slice_cmp T.cmp (values_in self.entry) (values_in other.entry) }
    {
        let mut left = self;
        let mut right = other;
        while let Some((first, left_rest)) = left.split_first() {
            let Some((second, right_rest)) = right.split_first() else {
                return Ordering::Greater;
            };
            let order = first.cmp(&second);
            if order.is_ne() {
                return order;
            }
            left = left_rest;
            right = right_rest;
        }
        if right.is_empty() {
            Ordering::Equal
        } else {
            Ordering::Less
        }
    }
}

impl<T: AsULE + Ord> ZvOrd for ZeroSliceULE<T> {
    ghost cmp = { on (values_of T.ULE.width (λ b. T.loaded (T.ULE.value b))) (slice_cmp T.cmp) };

    #[inline]
    fn compare<L: Ledger>(a: &[u8], b: &[u8], steps: &mut Steps<L>) -> Ordering {
        steps.tick();
        ZeroSlice::<'_, T>::of_valid(a).order(ZeroSlice::of_valid(b))
    }

    ghost total = { on_total (values_of T.ULE.width (λ b. T.loaded (T.ULE.value b)))
        (lists_total T.total) };
}
