// How lists compare, element by element.
ghost use Rattle.std.specs.Prelude.{◌≡◌, ℕ, ◌^◌, ◌<◌, ◌↔◌, length, IsTrue};
ghost use Rattle.std.specs.Cmp.Lexicographic.{pointwise, slice_cmp};
ghost use Rattle.std.specs.List.{All};
ghost use Rattle.std.specs.declared.cmp.Ordering.TheVariants.{Equal};
ghost use Rattle.zv_var.specs.Compared.{is_same};

use crate::slice::VarZeroSlice;
use std::cmp::Ordering;
use zv_ule::search::compare_with_element;
use zv_ule::{VarZeroVecFormat, ZvOrd, ZvOrdArg};

impl<'a, T: ZvOrd, F: VarZeroVecFormat> VarZeroSlice<'a, T, F> {
    ghost use Rattle.zv_var.specs.Views.{list_of};

    /// How two lists compare, element by element in the kind's order; the shorter of two that agree
    /// is less.
    pub fn order(self, other: VarZeroSlice<'_, T, F>) -> Ordering
        ensures { result ≡ slice_cmp T.cmp (list_of self.entry) (list_of other.entry) }
    {
        let mut left = self.iter();
        let mut right = other.iter();
        while let Some(first) = left.next() {
            let Some(second) = right.next() else {
                return Ordering::Greater;
            };
            let order = first.order(second);
            if order.is_ne() {
                return order;
            }
        }
        if right.next().is_none() {
            Ordering::Equal
        } else {
            Ordering::Less
        }
    }

    /// Whether two lists compare as equal: they are as long, and their elements do, place by place.
    #[inline]
    pub fn same(self, other: VarZeroSlice<'_, T, F>) -> bool
        ensures { IsTrue result ↔
            (slice_cmp T.cmp (list_of self.entry) (list_of other.entry) ≡ Equal) }
    {
        self.order(other).is_eq()
    }

    /// Whether the elements compare as equal to those that are written for arguments, place by
    /// place. Nothing is written.
    pub fn same_slice<Q: ZvOrdArg<T>>(self, other: &[Q]) -> bool
        requires below { All (λ q. length (Q.bytes q) < 2 ^ 64) other.now }
        ensures { result ≡ pointwise (is_same T.cmp Q.bytes)
            (list_of self.entry) other.now }
    {
        let mut elements = self.iter();
        for value in other {
            let Some(element) = elements.next() else {
                return false;
            };
            if !compare_with_element(value, &element).is_eq() {
                return false;
            }
        }
        elements.next().is_none()
    }
}
