// The order of slices, element by element.
ghost use Rattle.std.specs.Prelude.{◌≡◌, ◌<◌, None, IsTrue};
ghost use Rattle.std.specs.Cmp.{on_total};
ghost use Rattle.std.specs.Cmp.Lexicographic.{slice_cmp};
ghost use Rattle.std.specs.Ordering.{on};
ghost use Rattle.std.proofs.lemmas.Cmp.{lists_total};
ghost use Rattle.zv_ule.specs.Chunks.{chunks_fault, values_of};
ghost use Rattle.zv_ule.specs.Fixed.{is_width};

use crate::chunks::next_value;
use crate::element::{ULE, all_known};
use crate::kind::{ZvKind, ZvOrd};
use crate::kinds::argument::ZvOrdArg;
use crate::kinds::slices::SliceULE;
use crate::steps::Steps;
use std::cmp::Ordering;
use std::sync::ledger::Ledger;

/// The order of two lists, value by value; the shorter of two that agree is less.
fn compare_chunks<U: ULE + Ord>(a: &[u8], b: &[u8]) -> Ordering
    requires usable { IsTrue (is_width U.width) }
    requires a_spells { chunks_fault U.TY U.width U.chunk_fault a.now ≡ None }
    requires b_spells { chunks_fault U.TY U.width U.chunk_fault b.now ≡ None }
    ensures { result ≡ slice_cmp U.cmp (values_of U.width U.value a.now)
        (values_of U.width U.value b.now) }
{
    let mut left = a;
    let mut right = b;
    while let Some((first, left_rest)) = next_value::<U>(left) {
        let Some((second, right_rest)) = next_value::<U>(right) else {
            return Ordering::Greater;
        };
        let order = first.cmp(&second);
        if order.is_ne() {
            return order;
        }
        left = left_rest;
        right = right_rest;
    }
    if next_value::<U>(right).is_none() {
        Ordering::Equal
    } else {
        Ordering::Less
    }
}

impl<U: ULE + Ord> ZvOrd for SliceULE<U> {
    ghost cmp = { on (values_of U.width U.value) (slice_cmp U.cmp) };

    #[inline]
    fn compare<L: Ledger>(a: &[u8], b: &[u8], steps: &mut Steps<L>) -> Ordering {
        steps.tick();
        compare_chunks::<U>(a, b)
    }

    ghost total = { on_total (values_of U.width U.value) (lists_total U.total) };
}

/// The order of a stored list and one that is not stored, value by value, without writing the
/// latter.
fn compare_values<U: ULE + Ord>(a: &[u8], b: &[U]) -> Ordering
    requires usable { IsTrue (is_width U.width) }
    requires spells { chunks_fault U.TY U.width U.chunk_fault a.now ≡ None }
    ensures { result ≡ slice_cmp U.cmp (values_of U.width U.value a.now) b.now }
{
    let mut left = a;
    let mut right = b;
    while let Some((first, left_rest)) = next_value::<U>(left) {
        let Some((second, right_rest)) = right.split_first() else {
            return Ordering::Greater;
        };
        let order = first.cmp(second);
        if order.is_ne() {
            return order;
        }
        left = left_rest;
        right = right_rest;
    }
    if right.is_empty() {
        Ordering::Equal
    } else {
        Ordering::Less
    }
}

impl<U: ULE + Ord> ZvOrdArg<SliceULE<U>> for &[U] {
    #[inline]
    fn arg_compare<L: Ledger>(&self, element: &[u8], steps: &mut Steps<L>) -> Ordering {
        steps.tick();
        all_known(*self);
        compare_values::<U>(element, *self)
    }
}
