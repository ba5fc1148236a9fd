// A map in two levels over views.
ghost use Rattle.std.specs.Prelude.{◌≡◌, ⊤, suc, ◌+◌, ◌<◌, ◌≤◌, ◌==◌, ◌↔◌, IsTrue, [], length};
ghost use Rattle.std.specs.Prelude.{option_map, slice_get};
ghost use Rattle.zv_fixed.specs.Views.{values_in};
ghost use Rattle.zv_ule.specs.Views.{element_of};
ghost use Rattle.zv_map.specs.Maps.{keys_of, values_of};
ghost use Rattle.zv_map.specs.Views.{list_of};
ghost use Rattle.zv_map2d.specs.Appending.{last_key};
ghost use Rattle.zv_map2d.specs.Keys.{nth};
ghost use Rattle.zv_map2d.specs.Rows.{IsFlat, IsWell, IsWell-prop, before, firsts, row_at, rows_of};
ghost use Rattle.zv_map2d.specs.Rows.{seconds};

mod look_ups;

use crate::cursor::Iter1;
use std::alloc::AllocError;
use zv_fixed::ZeroSlice;
use zv_map::{KvSlice, ZeroVecLike};
use zv_ule::{UsableKind, VarRef, ZvKind, ZvOrd};

/// A map in two levels that borrows all its bytes, in whatever layouts they are. It is copied
/// freely, lives as long as the bytes, and takes no memory. Each read of a map in two levels is one
/// of this.
pub struct ZeroMap2dBorrowed<'a, K0: ZvOrd, K1: ZvOrd, V: ZvKind> {
    pub(crate) keys0: KvSlice<'a, K0>,
    pub(crate) joiner: ZeroSlice<'a, u32>,
    pub(crate) keys1: KvSlice<'a, K1>,
    pub(crate) values: KvSlice<'a, V>,
    pub ghost flat: { IsFlat (list_of keys0) (values_in joiner) (list_of keys1) (list_of values)
        (rows_of (list_of keys0) (values_in joiner) (list_of keys1) (list_of values)) },
    pub ghost well: { IsWell K0.cmp K1.cmp (rows_of (list_of keys0)
        (values_in joiner) (list_of keys1) (list_of values)) } by { IsWell-prop _ _ _ },
}

impl<K0: ZvOrd, K1: ZvOrd, V: ZvKind> Copy for ZeroMap2dBorrowed<'_, K0, K1, V> {}

impl<K0: ZvOrd, K1: ZvOrd, V: ZvKind> Clone for ZeroMap2dBorrowed<'_, K0, K1, V> {
    ghost is_clone = { λ v w. w ≡ v };

    ghost is_infallible = { λ _. ⊤ };

    /// A copy, which takes no memory.
    #[inline]
    fn clone(&self) -> Result<Self, AllocError> {
        Ok(*self)
    }
}

/// The map of no pairs.
impl<K0, K1, V> Default for ZeroMap2dBorrowed<'_, K0, K1, V>
where
    K0: ZvOrd + UsableKind,
    K1: ZvOrd + UsableKind,
    V: ZvKind + UsableKind,
{
    ghost use Rattle.zv_map2d.specs.Borrowed.{rows_in};

    ghost is_default = { λ m. rows_in m ≡ [] };

    #[inline]
    fn default() -> Self {
        ZeroMap2dBorrowed::new()
    }
}

impl<'a, K0: ZvOrd, K1: ZvOrd, V: ZvKind> ZeroMap2dBorrowed<'a, K0, K1, V> {
    ghost use Rattle.zv_map2d.specs.Borrowed.{rows_in};
    ghost use Rattle.zv_map.specs.Iters.{left_of};

    /// The map of no pairs.
    pub fn new() -> Self
        requires keys0 { IsTrue K0.usable }
        requires keys1 { IsTrue K1.usable }
        requires values { IsTrue V.usable }
        ensures { rows_in result ≡ [] }
    {
        ZeroMap2dBorrowed {
            keys0: KvSlice::<'static, K0>::zvl_new_borrowed(),
            joiner: ZeroSlice::<'static, u32>::new_empty(),
            keys1: KvSlice::<'static, K1>::zvl_new_borrowed(),
            values: KvSlice::<'static, V>::zvl_new_borrowed(),
        }
    }

    /// How many first keys there are. It reads a count.
    #[inline]
    #[tactic(auto, using(crate::proofs::Seen::rows_count))]
    pub fn rows(&self) -> usize
        ensures { result ≡ length (rows_in self.now) }
    {
        self.keys0.len()
    }

    /// How many pairs of keys there are. It reads a count.
    #[inline]
    #[tactic(auto, using(crate::proofs::Seen::seconds_count))]
    pub fn len(&self) -> usize
        ensures { result ≡ length (seconds (rows_in self.now)) }
    {
        self.keys1.len()
    }

    /// Whether there is no pair.
    #[inline]
    pub fn is_empty(&self) -> bool
        ensures { result ≡ (length (seconds (rows_in self.now)) == 0) }
    {
        self.len() == 0
    }

    /// Where the row's pairs end among all pairs.
    #[inline(always)]
    #[tactic(auto, using(crate::proofs::Seen::ends_count, crate::proofs::Seen::end_read))]
    pub(crate) fn row_end(&self, row: usize) -> usize
        requires { row < length (rows_in self.now) }
        ensures { result ≡ before (rows_in self.now) (suc row) }
    {
        self.joiner.at(row) as usize
    }

    /// Where the row's pairs start among all pairs; after the last row, where all pairs end.
    #[inline(always)]
    pub(crate) fn row_start(&self, row: usize) -> usize
        requires { row ≤ length (rows_in self.now) }
        ensures { result ≡ before (rows_in self.now) row }
    {
        match row.checked_sub(1) {
            Some(last) => self.row_end(last),
            None => 0,
        }
    }

    /// How many pairs the row has.
    #[tactic(auto, using(crate::proofs::Flat::before_suc))]
    pub(crate) fn row_len(&self, row: usize) -> usize
        requires { row < length (rows_in self.now) }
        ensures { result ≡ length (row_at (rows_in self.now) row) }
    {
        self.row_end(row) - self.row_start(row)
    }

    /// The place among all pairs of a pair of the row, or of the row's end.
    #[inline(always)]
    #[tactic(auto, using(crate::proofs::Flat::row_ends))]
    pub(crate) fn pair_start(&self, row: usize, pair: usize) -> usize
        requires row { row < length (rows_in self.now) }
        requires pair { pair ≤ length (row_at (rows_in self.now) row) }
        ensures { result ≡ before (rows_in self.now) row + pair }
    {
        // No place lies after all pairs.
        let _pairs = self.len();
        self.row_start(row) + pair
    }

    /// The first key of the row.
    pub(crate) fn first_key(&self, row: usize) -> VarRef<'a, K0>
        requires { row < length (rows_in self.now) }
        ensures { element_of result ≡ nth (firsts (rows_in self.now)) row }
    {
        self.keys0.at(row)
    }

    /// The last second key of the row.
    pub(crate) fn last_key_of(&self, row: usize) -> VarRef<'a, K1>
        requires { row < length (rows_in self.now) }
        ensures { element_of result ≡ last_key (keys_of (row_at (rows_in self.now) row)) }
    {
        self.keys1.at(self.row_end(row) - 1)
    }

    /// The value of a pair of the row.
    #[inline(always)]
    pub(crate) fn value_at(&self, row: usize, pair: usize) -> Option<VarRef<'a, V>>
        requires row { row < length (rows_in self.now) }
        requires pair { pair < length (row_at (rows_in self.now) row) }
        ensures { option_map element_of result
            ≡ slice_get (values_of (row_at (rows_in self.now) row)) pair }
    {
        self.values.get(self.pair_start(row, pair))
    }

    /// The pairs of the row, in order.
    pub(crate) fn pairs(&self, row: usize) -> Iter1<'a, K1, V>
        requires { row < length (rows_in self.now) }
        ensures { left_of result ≡ row_at (rows_in self.now) row }
    {
        let start = self.row_start(row);
        Iter1::between(self.keys1, self.values, start, self.row_end(row))
    }

    /// Whether another map has the same pairs, each element the same bytes.
    pub fn same(&self, other: ZeroMap2dBorrowed<'_, K0, K1, V>) -> bool
        ensures { IsTrue result ↔ (rows_in self.now ≡ rows_in other.entry) }
    {
        self.joiner.same(other.joiner)
            && self.keys0.same(other.keys0)
            && self.keys1.same(other.keys1)
            && self.values.same(other.values)
    }
}
