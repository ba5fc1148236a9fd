// Reads of a map, which are those of a borrowed one.
ghost use Rattle.std.specs.Prelude.{◌≡◌, ℕ, ◌-◌, ◌^◌, ◌<◌, ◌≤◌, ◌↔◌, List, length, map, IfSome};
ghost use Rattle.std.specs.Prelude.{IsTrue, is_some, option_map};
ghost use Rattle.std.specs.Fn.{ComputesKey};
ghost use Rattle.std.specs.declared.cmp.Ordering.{Ordering};
ghost use Rattle.std.specs.declared.cmp.Ordering.TheVariants.{Equal};
ghost use Rattle.zv_ule.specs.Search.{AtMostDigits, ComesToEqual};
ghost use Rattle.zv_ule.specs.Views.{element_of};
ghost use Rattle.zv_map.specs.Maps.{look_up};
ghost use Rattle.zv_map2d.specs.Borrowed.{AreTaken, IsViewedIn, parts_in, rows_in};
ghost use Rattle.zv_map2d.specs.Bounds.{AtMostDigitsOf};
ghost use Rattle.zv_map2d.specs.Predicates.{FoundBy, IsPicked};
ghost use Rattle.zv_map2d.specs.RowIters.{rows_left};
ghost use Rattle.zv_map2d.specs.Rows.{find, row, row_of};
ghost use Rattle.zv_map2d.specs.Views.{parts_of, row_seen, rows_seen};

use crate::borrowed::ZeroMap2dBorrowed;
use crate::cursor::ZeroMap2dCursor;
use crate::map::Map2dOver;
use crate::rows::ZeroMap2dIter0;
use std::cmp::Ordering;
use std::sync::ledger::Ledger;
use zv_map::{ZeroVecSearch, ZvContainer};
use zv_ule::{AsULE, Steps, VarRef, ZvKind, ZvOrd, ZvOrdArg};

impl<
    'a,
    K0: ZvOrd,
    K1: ZvOrd,
    V: ZvKind,
    C0: ZvContainer<K0>,
    C1: ZvContainer<K1>,
    D: ZvContainer<V>,
> Map2dOver<'a, K0, K1, V, C0, C1, D> {
    /// The same map, of the same bytes, as views that live as long as the map is not changed.
    #[inline(always)]
    pub fn as_borrowed(&self) -> ZeroMap2dBorrowed<'_, K0, K1, V>
        ensures rows { rows_in result ≡ self.now.rows }
        ensures parts { parts_in result ≡ parts_of self.now }
        ensures layouts { IsViewedIn self.now result }
        ensures fits { AreTaken C0.has_layout C1.has_layout D.has_layout result }
    {
        ZeroMap2dBorrowed {
            keys0: self.keys0.zvl_as_borrowed(),
            joiner: self.joiner.as_slice(),
            keys1: self.keys1.zvl_as_borrowed(),
            values: self.values.zvl_as_borrowed(),
        }
    }

    /// The value of the pair of keys, if there is one.
    ///
    /// It searches the first keys and then one row's second keys, each by halving, and takes no
    /// memory.
    pub fn get_2d<Q0: ZvOrdArg<K0>, Q1: ZvOrdArg<K1>>(
        &self,
        key0: &Q0,
        key1: &Q1,
    ) -> Option<VarRef<'_, V>>
        requires key0 { length (Q0.bytes key0.now) < 2 ^ 64 }
        requires key1 { length (Q1.bytes key1.now) < 2 ^ 64 }
        ensures { option_map element_of result
            ≡ find K0.cmp K1.cmp self.now.rows (Q0.bytes key0.now) (Q1.bytes key1.now) }
    {
        self.as_borrowed().get_2d(key0, key1)
    }

    /// The value of the pair of keys, if there is one, with each comparison counted as a step: at
    /// most as many as the number of rows and the length of the found row have binary digits.
    pub fn get_2d_counted<Q0: ZvOrdArg<K0>, Q1: ZvOrdArg<K1>, L: Ledger>(
        &self,
        key0: &Q0,
        key1: &Q1,
        steps: &mut Steps<L>,
    ) -> Option<VarRef<'_, V>>
        requires key0 { length (Q0.bytes key0.now) < 2 ^ 64 }
        requires key1 { length (Q1.bytes key1.now) < 2 ^ 64 }
        ensures value { option_map element_of result
            ≡ find K0.cmp K1.cmp self.now.rows (Q0.bytes key0.now) (Q1.bytes key1.now) }
        ensures digits { AtMostDigitsOf (steps.new - steps.old) (length self.now.rows)
            (length (row K0.cmp self.now.rows (Q0.bytes key0.now))) }
        ensures counted { steps.old ≤ steps.new }
    {
        self.as_borrowed().get_2d_counted(key0, key1, steps)
    }

    /// The row of a first key, if there is one. It is one search.
    #[inline(always)]
    pub fn get0<'l, Q0: ZvOrdArg<K0>>(
        &'l self,
        key0: &Q0,
    ) -> Option<ZeroMap2dCursor<'l, 'a, K0, K1, V>>
        requires { length (Q0.bytes key0.now) < 2 ^ 64 }
        ensures row { option_map (λ c. (c.key, c.pairs)) result
            ≡ row_of K0.cmp self.now.rows (Q0.bytes key0.now) }
        ensures pairs { option_map (λ c. c.pairs) result
            ≡ look_up K0.cmp self.now.rows (Q0.bytes key0.now) }
        ensures key { IfSome result (λ c. K0.cmp c.key (Q0.bytes key0.now) ≡ Equal) }
        ensures seen { IfSome result (λ c. c ≡ row_seen self.now.rows c.place) }
    {
        let place = self.keys0.zvl_binary_search(key0);
        self.as_borrowed().row_there(place, key0)
    }

    /// The row of a first key, if there is one, with each comparison counted as a step: at most as
    /// many as the number of rows has binary digits.
    pub fn get0_counted<'l, Q0: ZvOrdArg<K0>, L: Ledger>(
        &'l self,
        key0: &Q0,
        steps: &mut Steps<L>,
    ) -> Option<ZeroMap2dCursor<'l, 'a, K0, K1, V>>
        requires { length (Q0.bytes key0.now) < 2 ^ 64 }
        ensures row { option_map (λ c. (c.key, c.pairs)) result
            ≡ row_of K0.cmp self.now.rows (Q0.bytes key0.now) }
        ensures pairs { option_map (λ c. c.pairs) result
            ≡ look_up K0.cmp self.now.rows (Q0.bytes key0.now) }
        ensures key { IfSome result (λ c. K0.cmp c.key (Q0.bytes key0.now) ≡ Equal) }
        ensures seen { IfSome result (λ c. c ≡ row_seen self.now.rows c.place) }
        ensures digits { AtMostDigits (steps.new - steps.old) (length self.now.rows) }
        ensures counted { steps.old ≤ steps.new }
    {
        self.as_borrowed().get0_counted(key0, steps)
    }

    /// Whether there is a row of a first key. It is one search.
    pub fn contains_key0<Q0: ZvOrdArg<K0>>(&self, key0: &Q0) -> bool
        requires { length (Q0.bytes key0.now) < 2 ^ 64 }
        ensures { result ≡ is_some (look_up K0.cmp self.now.rows (Q0.bytes key0.now)) }
    {
        self.as_borrowed().contains_key0(key0)
    }

    /// A row at whose first key the predicate answers `Equal`, found by halving: it has to answer
    /// `Less` before that key, and `Greater` after it.
    pub fn get0_by<'l, P: FnMut(&[u8]) -> Ordering>(
        &'l self,
        predicate: P,
    ) -> Option<ZeroMap2dCursor<'l, 'a, K0, K1, V>>
        requires { P.IsAlwaysCallable predicate }
        ensures seen { IfSome result (λ c. c ≡ row_seen self.now.rows c.place) }
        ensures within { IfSome result (λ c. c.place < length self.now.rows) }
        ensures key { IfSome result (λ c. ComesToEqual P.FnMut predicate c.key) }
        ensures answer { (answer : List ℕ → Ordering) → ComputesKey P.FnMut answer predicate →
            IfSome result (λ c. answer c.key ≡ Equal) }
        ensures equal { IfSome result (λ c. IsPicked P.FnMut predicate self.now.rows c.pairs) }
        ensures found { (answer : List ℕ → Ordering) → ComputesKey P.FnMut answer predicate →
            FoundBy answer self.now.rows (option_map (λ c. c.pairs) result) }
    {
        self.as_borrowed().get0_by(predicate)
    }

    /// The rows, in the order of their first keys.
    pub fn iter0<'l>(&'l self) -> ZeroMap2dIter0<'l, 'a, K0, K1, V>
        ensures rows { map (λ c. (c.key, c.pairs)) (rows_left result) ≡ self.now.rows }
        ensures seen { rows_left result ≡ rows_seen self.now.rows 0 (length self.now.rows) }
    {
        self.as_borrowed().iter0()
    }

    /// Whether another map has the same pairs, each element the same bytes.
    pub fn same(&self, other: ZeroMap2dBorrowed<'_, K0, K1, V>) -> bool
        ensures { IsTrue result ↔ (self.now.rows ≡ rows_in other.entry) }
    {
        self.as_borrowed().same(other)
    }
}

impl<
    'a,
    K0: ZvOrd,
    K1: ZvOrd,
    V: AsULE,
    C0: ZvContainer<K0>,
    C1: ZvContainer<K1>,
    D: ZvContainer<V>,
> Map2dOver<'a, K0, K1, V, C0, C1, D> {
    /// The value of the pair of keys, if there is one, copied out.
    pub fn get_copied_2d<Q0: ZvOrdArg<K0>, Q1: ZvOrdArg<K1>>(
        &self,
        key0: &Q0,
        key1: &Q1,
    ) -> Option<V>
        requires key0 { length (Q0.bytes key0.now) < 2 ^ 64 }
        requires key1 { length (Q1.bytes key1.now) < 2 ^ 64 }
        ensures value { result ≡ option_map (λ b. V.loaded (V.ULE.value b))
            (find K0.cmp K1.cmp self.now.rows (Q0.bytes key0.now) (Q1.bytes key1.now)) }
        ensures stored { option_map (λ v. V.ULE.chunk (V.stored v)) result
            ≡ find K0.cmp K1.cmp self.now.rows (Q0.bytes key0.now) (Q1.bytes key1.now) }
    {
        self.as_borrowed().get_copied_2d(key0, key1)
    }
}
