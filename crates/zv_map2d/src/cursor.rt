// One row of a map.
ghost use Rattle.std.specs.Prelude.{◌≡◌, ℕ, ◌^◌, ◌<◌, ◌≤◌, ◌-◌, ◌↔◌, List, length, Option};
ghost use Rattle.std.specs.Prelude.{IfSome, IsTrue, map, option_map};
ghost use Rattle.std.specs.Fn.{ComputesKey};
ghost use Rattle.std.specs.declared.cmp.Ordering.{Ordering};
ghost use Rattle.zv_ule.specs.Search.{AtMostDigits};
ghost use Rattle.zv_ule.specs.Views.{element_of};
ghost use Rattle.zv_map.specs.Maps.{look_up};
ghost use Rattle.zv_map2d.specs.Predicates.{FoundBy, IsPicked};

use crate::borrowed::ZeroMap2dBorrowed;
use std::cmp::Ordering;
use std::marker::{Model, PhantomData};
use std::sync::ledger::Ledger;
use zv_map::{ZeroMapCopiedValues, ZeroMapIter};
use zv_ule::{AsULE, Steps, VarRef, ZvKind, ZvOrd, ZvOrdArg};

/// The pairs of a row, in order: each a second key and its value.
pub type Iter1<'l, K1, V> = ZeroMapIter<'l, K1, V>;

/// The pairs of a row, in order, their values copied out.
pub type Iter1Copied<'l, K1, V> = ZeroMapCopiedValues<'l, K1, V>;

/// One row of a map: a first key, and its pairs of a second key and a value in order. It is a place
/// in the map, and takes no memory.
#[derive(Drop)]
pub struct ZeroMap2dCursor<'l, 'a, K0: ZvOrd, K1: ZvOrd, V: ZvKind> {
    pub(crate) map: ZeroMap2dBorrowed<'l, K0, K1, V>,
    pub(crate) row: usize,
    of: PhantomData<&'a ()>,
}

impl<'l, 'a, K0: ZvOrd, K1: ZvOrd, V: ZvKind> Model for ZeroMap2dCursor<'l, 'a, K0, K1, V> {
    ghost use Rattle.std.specs.Prelude.{◌<◌, length};
    ghost use Rattle.zv_map2d.specs.Borrowed.{rows_in};
    ghost use Rattle.zv_map2d.specs.Views.{Row, row_seen};

    ghost Value = { Row };

    ghost view = { λ c. row_seen (rows_in c.map) c.row };

    ghost invariant = { λ c. c.row < length (rows_in c.map) };
}

impl<'b, K0: ZvOrd, K1: ZvOrd, V: ZvKind> ZeroMap2dBorrowed<'b, K0, K1, V> {
    ghost use Rattle.zv_map2d.specs.Borrowed.{rows_in};
    ghost use Rattle.zv_map2d.specs.Views.{row_seen};

    /// The row at a place.
    #[inline]
    pub(crate) fn cursor<'a>(&self, row: usize) -> ZeroMap2dCursor<'b, 'a, K0, K1, V>
        requires { row < length (rows_in self.now) }
        ensures { result ≡ row_seen (rows_in self.now) row }
    {
        ZeroMap2dCursor {
            map: *self,
            row,
            of: PhantomData,
        }
    }
}

impl<'l, 'a, K0: ZvOrd, K1: ZvOrd, V: ZvKind> ZeroMap2dCursor<'l, 'a, K0, K1, V> {
    ghost use Rattle.zv_map.specs.Iters.{left_of};

    /// The row's first key.
    pub fn key0(&self) -> VarRef<'l, K0>
        ensures { element_of result ≡ self.now.key }
    {
        self.map.first_key(self.row)
    }

    /// The row's pairs, in order.
    pub fn iter1(&self) -> Iter1<'l, K1, V>
        ensures { left_of result ≡ self.now.pairs }
    {
        self.map.pairs(self.row)
    }

    /// The row's pairs, in order.
    pub fn into_iter1(self) -> Iter1<'l, K1, V>
        ensures { left_of result ≡ self.entry.pairs }
    {
        self.iter1()
    }

    /// The value of the row's pair with a second key, if there is one, with each comparison counted
    /// as a step. It is one search.
    pub fn get1_counted<Q1: ZvOrdArg<K1>, L: Ledger>(
        &self,
        key1: &Q1,
        steps: &mut Steps<L>,
    ) -> Option<VarRef<'l, V>>
        requires { length (Q1.bytes key1.now) < 2 ^ 64 }
        ensures value { option_map element_of result
            ≡ look_up K1.cmp self.now.pairs (Q1.bytes key1.now) }
        ensures digits { AtMostDigits (steps.new - steps.old) (length self.now.pairs) }
        ensures counted { steps.old ≤ steps.new }
    {
        let Ok(pair) = self.map.pair_place_counted(self.row, key1, steps) else {
            return None;
        };
        self.map.value_at(self.row, pair)
    }

    /// The value of the row's pair with a second key, if there is one. It is one search.
    pub fn get1<Q1: ZvOrdArg<K1>>(&self, key1: &Q1) -> Option<VarRef<'l, V>>
        requires { length (Q1.bytes key1.now) < 2 ^ 64 }
        ensures { option_map element_of result ≡ look_up K1.cmp self.now.pairs (Q1.bytes key1.now) }
    {
        let Ok(pair) = self.map.pair_place(self.row, key1) else {
            return None;
        };
        self.map.value_at(self.row, pair)
    }

    /// The value of a pair of the row at whose second key the predicate answers `Equal`, found by
    /// halving: it has to answer `Less` before that key, and `Greater` after it.
    pub fn get1_by<P: FnMut(&[u8]) -> Ordering>(&self, predicate: P) -> Option<VarRef<'l, V>>
        requires { P.IsAlwaysCallable predicate }
        ensures equal { IfSome result
            (λ v. IsPicked P.FnMut predicate self.now.pairs (element_of v)) }
        ensures found { (answer : List ℕ → Ordering) → ComputesKey P.FnMut answer predicate →
            FoundBy answer self.now.pairs (option_map element_of result) }
    {
        let Ok(pair) = self.map.pair_place_by(self.row, predicate) else {
            return None;
        };
        self.map.value_at(self.row, pair)
    }

    /// Whether two rows stand at the same place of maps with the same pairs.
    pub fn same(&self, other: &Self) -> bool
        ensures { IsTrue result ↔ ((self.now.rows ≡ other.now.rows)
            × (self.now.place ≡ other.now.place)) }
    {
        self.row == other.row && self.map.same(other.map)
    }
}

impl<'l, 'a, K0: ZvOrd, K1: ZvOrd, V: AsULE> ZeroMap2dCursor<'l, 'a, K0, K1, V> {
    ghost use Rattle.zv_map.specs.Iters.{copied_values_left};

    /// The row's pairs, in order, their values copied out.
    pub fn iter1_copied(&self) -> Iter1Copied<'l, K1, V>
        ensures { copied_values_left (λ b. V.loaded (V.ULE.value b)) result
            ≡ map (λ p. (p.0, V.loaded (V.ULE.value p.1))) self.now.pairs }
    {
        self.iter1().copied_values()
    }

    /// The row's pairs, in order, their values copied out.
    pub fn into_iter1_copied(self) -> Iter1Copied<'l, K1, V>
        ensures { copied_values_left (λ b. V.loaded (V.ULE.value b)) result
            ≡ map (λ p. (p.0, V.loaded (V.ULE.value p.1))) self.entry.pairs }
    {
        self.iter1_copied()
    }

    /// The value of the row's pair with a second key, copied out.
    pub fn get1_copied<Q1: ZvOrdArg<K1>>(&self, key1: &Q1) -> Option<V>
        requires { length (Q1.bytes key1.now) < 2 ^ 64 }
        ensures value { result ≡ option_map (λ b. V.loaded (V.ULE.value b))
            (look_up K1.cmp self.now.pairs (Q1.bytes key1.now)) }
        ensures stored { option_map (λ v. V.ULE.chunk (V.stored v)) result
            ≡ look_up K1.cmp self.now.pairs (Q1.bytes key1.now) }
    {
        let value = self.get1(key1)?;
        Some(value.value())
    }

    /// The value of a pair of the row at whose second key the predicate answers `Equal`, as
    /// [`get1_by`](Self::get1_by) finds it, copied out.
    pub fn get1_copied_by<P: FnMut(&[u8]) -> Ordering>(&self, predicate: P) -> Option<V>
        requires { P.IsAlwaysCallable predicate }
        ensures equal { IfSome result
            (λ v. IsPicked P.FnMut predicate self.now.pairs (V.ULE.chunk (V.stored v))) }
        ensures found { (answer : List ℕ → Ordering) → ComputesKey P.FnMut answer predicate →
            FoundBy answer self.now.pairs (option_map (λ v. V.ULE.chunk (V.stored v)) result) }
    {
        let value = self.get1_by(predicate)?;
        Some(value.value())
    }
}
