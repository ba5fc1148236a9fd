// Searches of a map over views, and what they find.
ghost use Rattle.std.specs.Prelude.{◌≡◌, ℕ, ◌-◌, ◌^◌, ◌<◌, ◌≤◌, IfSome, List, None, is_some, map};
ghost use Rattle.std.specs.Prelude.{length, option_map};
ghost use Rattle.std.specs.Fn.{ComputesKey};
ghost use Rattle.std.specs.List.Sorted.{IsSearchInRange};
ghost use Rattle.std.specs.Result.{MatchResult};
ghost use Rattle.std.specs.declared.cmp.Ordering.{Ordering};
ghost use Rattle.std.specs.declared.cmp.Ordering.TheVariants.{Equal};
ghost use Rattle.zv_ule.specs.Search.{AnsweredEqual, AtMostDigits, ComesToEqual, Found, IsGap};
ghost use Rattle.zv_ule.specs.Search.{compared};
ghost use Rattle.zv_ule.specs.Views.{element_of};
ghost use Rattle.zv_map.specs.Maps.{IsAt, keys_of, look_up};
ghost use Rattle.zv_map2d.specs.Appending.{is_above, is_above_key};
ghost use Rattle.zv_map2d.specs.Bounds.{AtMostDigitsOf};
ghost use Rattle.zv_map2d.specs.Places.{IsPlace, find_at};
ghost use Rattle.zv_map2d.specs.Predicates.{FoundBy, IsPicked};
ghost use Rattle.zv_map2d.specs.Rows.{find, firsts, row, row_at, row_of};
ghost use Rattle.zv_map2d.specs.Views.{row_seen};

use crate::borrowed::ZeroMap2dBorrowed;
use crate::cursor::ZeroMap2dCursor;
use crate::place::Place;
use std::cmp::Ordering;
use std::sync::ledger::Ledger;
use zv_map::{ZeroVecSearch, ZeroVecSearchBy};
use zv_ule::search::compare_with_element;
use zv_ule::{AsULE, Steps, VarRef, ZvKind, ZvOrd, ZvOrdArg};

impl<'a, K0: ZvOrd, K1: ZvOrd, V: ZvKind> ZeroMap2dBorrowed<'a, K0, K1, V> {
    ghost use Rattle.zv_map2d.specs.Borrowed.{rows_in};

    // ---- places

    /// The place of the first key's row, or where it would go.
    #[inline(always)]
    fn row_place<Q: ZvOrdArg<K0>>(&self, key: &Q) -> Result<usize, usize>
        requires { length (Q.bytes key.now) < 2 ^ 64 }
        ensures { MatchResult result
            (IsAt (compared K0.cmp (firsts (rows_in self.now)) (Q.bytes key.now)))
            (IsGap (compared K0.cmp (firsts (rows_in self.now)) (Q.bytes key.now))) }
    {
        self.keys0.zvl_binary_search(key)
    }

    /// The place of the first key's row, or where it would go, with each comparison counted as a
    /// step.
    #[inline(always)]
    fn row_place_counted<Q: ZvOrdArg<K0>, L: Ledger>(
        &self,
        key: &Q,
        steps: &mut Steps<L>,
    ) -> Result<usize, usize>
        requires { length (Q.bytes key.now) < 2 ^ 64 }
        ensures place { MatchResult result
            (IsAt (compared K0.cmp (firsts (rows_in self.now)) (Q.bytes key.now)))
            (IsGap (compared K0.cmp (firsts (rows_in self.now)) (Q.bytes key.now))) }
        ensures digits { AtMostDigits (steps.new - steps.old) (length (rows_in self.now)) }
        ensures counted { steps.old ≤ steps.new }
    {
        match self.keys0.zvl_search_counted(key, 0..self.rows(), steps) {
            Some(place) => place,
            None => unreachable!(),
        }
    }

    /// The place in the row of the pair with the second key, or where it would go.
    #[inline(always)]
    pub(crate) fn pair_place<Q: ZvOrdArg<K1>>(&self, row: usize, key: &Q) -> Result<usize, usize>
        requires row { row < length (rows_in self.now) }
        requires key { length (Q.bytes key.now) < 2 ^ 64 }
        ensures { MatchResult result
            (IsAt (compared K1.cmp (keys_of (row_at (rows_in self.now) row)) (Q.bytes key.now)))
            (IsGap (compared K1.cmp (keys_of (row_at (rows_in self.now) row))
            (Q.bytes key.now))) }
    {
        let start = self.row_start(row);
        let end = self.row_end(row);
        match self.keys1.zvl_binary_search_in_range(key, start..end) {
            Some(place) => place,
            None => unreachable!(),
        }
    }

    /// The place in the row of the pair with the second key, or where it would go, with each
    /// comparison counted as a step.
    #[inline(always)]
    pub(crate) fn pair_place_counted<Q: ZvOrdArg<K1>, L: Ledger>(
        &self,
        row: usize,
        key: &Q,
        steps: &mut Steps<L>,
    ) -> Result<usize, usize>
        requires row { row < length (rows_in self.now) }
        requires key { length (Q.bytes key.now) < 2 ^ 64 }
        ensures place { MatchResult result
            (IsAt (compared K1.cmp (keys_of (row_at (rows_in self.now) row)) (Q.bytes key.now)))
            (IsGap (compared K1.cmp (keys_of (row_at (rows_in self.now) row))
            (Q.bytes key.now))) }
        ensures digits { AtMostDigits (steps.new - steps.old)
            (length (row_at (rows_in self.now) row)) }
        ensures counted { steps.old ≤ steps.new }
    {
        let start = self.row_start(row);
        let end = self.row_end(row);
        match self.keys1.zvl_search_counted(key, start..end, steps) {
            Some(place) => place,
            None => unreachable!(),
        }
    }

    /// Where the pair of keys stands, or would stand.
    #[inline(always)]
    pub(crate) fn place<Q0: ZvOrdArg<K0>, Q1: ZvOrdArg<K1>>(&self, key0: &Q0, key1: &Q1) -> Place
        requires key0 { length (Q0.bytes key0.now) < 2 ^ 64 }
        requires key1 { length (Q1.bytes key1.now) < 2 ^ 64 }
        ensures { IsPlace K0.cmp K1.cmp (rows_in self.now) (Q0.bytes key0.now)
            (Q1.bytes key1.now) result }
    {
        match self.row_place(key0) {
            Ok(row) => match self.pair_place(row, key1) {
                Ok(pair) => Place::Pair { row, pair },
                Err(pair) => Place::InRow { row, pair },
            },
            Err(row) => Place::NewRow { row },
        }
    }

    /// A place in the row where the predicate answers `Equal` at the second key.
    pub(crate) fn pair_place_by<P: FnMut(&[u8]) -> Ordering>(
        &self,
        row: usize,
        predicate: P,
    ) -> Result<usize, usize>
        requires row { row < length (rows_in self.now) }
        requires predicate { P.IsAlwaysCallable predicate }
        ensures bound { IsSearchInRange result (length (row_at (rows_in self.now) row)) }
        ensures equal { AnsweredEqual P.FnMut predicate
            (keys_of (row_at (rows_in self.now) row)) result }
        ensures found { (answer : List ℕ → Ordering) → ComputesKey P.FnMut answer predicate →
            Found (map answer (keys_of (row_at (rows_in self.now) row))) result }
    {
        let start = self.row_start(row);
        let end = self.row_end(row);
        match self
            .keys1
            .zvl_binary_search_in_range_by(predicate, start..end)
        {
            Some(place) => place,
            None => unreachable!(),
        }
    }

    // ---- look-ups

    /// The value at the place of a pair of keys, if there is one.
    #[inline(always)]
    pub(crate) fn value_there<Q0: ZvOrdArg<K0>, Q1: ZvOrdArg<K1>>(
        &self,
        place: Place,
        _key0: &Q0,
        _key1: &Q1,
    ) -> Option<VarRef<'a, V>>
        requires { IsPlace K0.cmp K1.cmp (rows_in self.now) (Q0.bytes _key0.now)
            (Q1.bytes _key1.now) place }
        ensures { option_map element_of result
            ≡ find K0.cmp K1.cmp (rows_in self.now) (Q0.bytes _key0.now) (Q1.bytes _key1.now) }
    {
        match place {
            Place::Pair { row, pair } => self.value_at(row, pair),
            _ => None,
        }
    }

    /// The row at the place where a search for its first key ended, if there is one.
    #[inline(always)]
    pub(crate) fn row_there<'l, Q0: ZvOrdArg<K0>>(
        &self,
        place: Result<usize, usize>,
        _key0: &Q0,
    ) -> Option<ZeroMap2dCursor<'a, 'l, K0, K1, V>>
        requires { MatchResult place
            (IsAt (compared K0.cmp (firsts (rows_in self.now)) (Q0.bytes _key0.now)))
            (IsGap (compared K0.cmp (firsts (rows_in self.now)) (Q0.bytes _key0.now))) }
        ensures row { option_map (λ c. (c.key, c.pairs)) result
            ≡ row_of K0.cmp (rows_in self.now) (Q0.bytes _key0.now) }
        ensures pairs { option_map (λ c. c.pairs) result
            ≡ look_up K0.cmp (rows_in self.now) (Q0.bytes _key0.now) }
        ensures key { IfSome result (λ c. K0.cmp c.key (Q0.bytes _key0.now) ≡ Equal) }
        ensures seen { IfSome result (λ c. c ≡ row_seen (rows_in self.now) c.place) }
    {
        match place {
            Ok(row) => Some(self.cursor(row)),
            Err(_) => None,
        }
    }

    /// The value of the pair of keys, if there is one, with each comparison counted as a step.
    ///
    /// It searches the first keys and then one row's second keys, each by halving, and takes no
    /// memory.
    #[inline(always)]
    pub(crate) fn get_2d_counted<Q0: ZvOrdArg<K0>, Q1: ZvOrdArg<K1>, L: Ledger>(
        &self,
        key0: &Q0,
        key1: &Q1,
        steps: &mut Steps<L>,
    ) -> Option<VarRef<'a, V>>
        requires key0 { length (Q0.bytes key0.now) < 2 ^ 64 }
        requires key1 { length (Q1.bytes key1.now) < 2 ^ 64 }
        ensures value { option_map element_of result
            ≡ find K0.cmp K1.cmp (rows_in self.now) (Q0.bytes key0.now) (Q1.bytes key1.now) }
        ensures digits { AtMostDigitsOf (steps.new - steps.old) (length (rows_in self.now))
            (length (row K0.cmp (rows_in self.now) (Q0.bytes key0.now))) }
        ensures counted { steps.old ≤ steps.new }
    {
        let Ok(row) = self.row_place_counted(key0, steps) else {
            return None;
        };
        let Ok(pair) = self.pair_place_counted(row, key1, steps) else {
            return None;
        };
        self.value_at(row, pair)
    }

    /// The value of the pair of keys, if there is one.
    ///
    /// It searches the first keys and then one row's second keys, each by halving, and takes no
    /// memory.
    #[inline(always)]
    pub fn get_2d<Q0: ZvOrdArg<K0>, Q1: ZvOrdArg<K1>>(
        &self,
        key0: &Q0,
        key1: &Q1,
    ) -> Option<VarRef<'a, V>>
        requires key0 { length (Q0.bytes key0.now) < 2 ^ 64 }
        requires key1 { length (Q1.bytes key1.now) < 2 ^ 64 }
        ensures { option_map element_of result
            ≡ find K0.cmp K1.cmp (rows_in self.now) (Q0.bytes key0.now) (Q1.bytes key1.now) }
    {
        self.value_there(self.place(key0, key1), key0, key1)
    }

    /// The row of a first key, if there is one, with each comparison counted as a step.
    pub(crate) fn get0_counted<'l, Q0: ZvOrdArg<K0>, L: Ledger>(
        &self,
        key0: &Q0,
        steps: &mut Steps<L>,
    ) -> Option<ZeroMap2dCursor<'a, 'l, K0, K1, V>>
        requires { length (Q0.bytes key0.now) < 2 ^ 64 }
        ensures row { option_map (λ c. (c.key, c.pairs)) result
            ≡ row_of K0.cmp (rows_in self.now) (Q0.bytes key0.now) }
        ensures pairs { option_map (λ c. c.pairs) result
            ≡ look_up K0.cmp (rows_in self.now) (Q0.bytes key0.now) }
        ensures key { IfSome result (λ c. K0.cmp c.key (Q0.bytes key0.now) ≡ Equal) }
        ensures seen { IfSome result (λ c. c ≡ row_seen (rows_in self.now) c.place) }
        ensures digits { AtMostDigits (steps.new - steps.old) (length (rows_in self.now)) }
        ensures counted { steps.old ≤ steps.new }
    {
        let place = self.row_place_counted(key0, steps);
        self.row_there(place, key0)
    }

    /// The row of a first key, if there is one. It is one search.
    #[inline(always)]
    pub fn get0<'l, Q0: ZvOrdArg<K0>>(
        &self,
        key0: &Q0,
    ) -> Option<ZeroMap2dCursor<'a, 'l, K0, K1, V>>
        requires { length (Q0.bytes key0.now) < 2 ^ 64 }
        ensures row { option_map (λ c. (c.key, c.pairs)) result
            ≡ row_of K0.cmp (rows_in self.now) (Q0.bytes key0.now) }
        ensures pairs { option_map (λ c. c.pairs) result
            ≡ look_up K0.cmp (rows_in self.now) (Q0.bytes key0.now) }
        ensures key { IfSome result (λ c. K0.cmp c.key (Q0.bytes key0.now) ≡ Equal) }
        ensures seen { IfSome result (λ c. c ≡ row_seen (rows_in self.now) c.place) }
    {
        self.row_there(self.row_place(key0), key0)
    }

    /// Whether there is a row of a first key. It is one search.
    pub fn contains_key0<Q0: ZvOrdArg<K0>>(&self, key0: &Q0) -> bool
        requires { length (Q0.bytes key0.now) < 2 ^ 64 }
        ensures { result ≡ is_some (look_up K0.cmp (rows_in self.now) (Q0.bytes key0.now)) }
    {
        self.get0(key0).is_some()
    }

    /// A row at whose first key the predicate answers `Equal`, found by halving: it has to answer
    /// `Less` before that key, and `Greater` after it.
    pub fn get0_by<'l, P: FnMut(&[u8]) -> Ordering>(
        &self,
        predicate: P,
    ) -> Option<ZeroMap2dCursor<'a, 'l, K0, K1, V>>
        requires { P.IsAlwaysCallable predicate }
        ensures seen { IfSome result (λ c. c ≡ row_seen (rows_in self.now) c.place) }
        ensures within { IfSome result (λ c. c.place < length (rows_in self.now)) }
        ensures key { IfSome result (λ c. ComesToEqual P.FnMut predicate c.key) }
        ensures answer { (answer : List ℕ → Ordering) → ComputesKey P.FnMut answer predicate →
            IfSome result (λ c. answer c.key ≡ Equal) }
        ensures equal { IfSome result
            (λ c. IsPicked P.FnMut predicate (rows_in self.now) c.pairs) }
        ensures found { (answer : List ℕ → Ordering) → ComputesKey P.FnMut answer predicate →
            FoundBy answer (rows_in self.now) (option_map (λ c. c.pairs) result) }
    {
        let Ok(row) = self.keys0.zvl_binary_search_by(predicate) else {
            return None;
        };
        Some(self.cursor(row))
    }

    // ---- the end

    /// The place after the row's pairs, if the second key is above the last of them.
    fn end_of_row<Q1: ZvOrdArg<K1>>(&self, row: usize, key1: &Q1) -> Option<Place>
        requires row { row < length (rows_in self.now) }
        requires key1 { length (Q1.bytes key1.now) < 2 ^ 64 }
        ensures above { is_some result ≡ is_above_key K1.cmp
            (keys_of (row_at (rows_in self.now) row)) (Q1.bytes key1.now) }
        ensures place { IfSome result (λ place. place
            ≡ Place.InRow row (length (row_at (rows_in self.now) row))) }
    {
        let last = self.last_key_of(row);
        if compare_with_element(key1, &last).is_gt() {
            let pair = self.row_len(row);
            Some(Place::InRow { row, pair })
        } else {
            None
        }
    }

    /// The place after all pairs, if the pair of keys is above the last of them.
    pub(crate) fn end_place<Q0: ZvOrdArg<K0>, Q1: ZvOrdArg<K1>>(
        &self,
        key0: &Q0,
        key1: &Q1,
    ) -> Option<Place>
        requires key0 { length (Q0.bytes key0.now) < 2 ^ 64 }
        requires key1 { length (Q1.bytes key1.now) < 2 ^ 64 }
        ensures above { is_some result ≡ is_above K0.cmp K1.cmp (rows_in self.now)
            (Q0.bytes key0.now) (Q1.bytes key1.now) }
        ensures place { IfSome result (IsPlace K0.cmp K1.cmp (rows_in self.now)
            (Q0.bytes key0.now) (Q1.bytes key1.now)) }
        ensures new { IfSome result (λ place. find_at (rows_in self.now) place ≡ None) }
    {
        let rows = self.rows();
        let Some(last) = rows.checked_sub(1) else {
            return Some(Place::NewRow { row: 0 });
        };
        match compare_with_element(key0, &self.first_key(last)) {
            Ordering::Less => None,
            Ordering::Equal => self.end_of_row(last, key1),
            Ordering::Greater => Some(Place::NewRow { row: rows }),
        }
    }
}

impl<'a, K0: ZvOrd, K1: ZvOrd, V: AsULE> ZeroMap2dBorrowed<'a, K0, K1, V> {
    ghost use Rattle.zv_map2d.specs.Borrowed.{rows_in};

    /// The value of the pair of keys, if there is one, copied out.
    pub fn get_copied_2d<Q0: ZvOrdArg<K0>, Q1: ZvOrdArg<K1>>(
        &self,
        key0: &Q0,
        key1: &Q1,
    ) -> Option<V>
        requires key0 { length (Q0.bytes key0.now) < 2 ^ 64 }
        requires key1 { length (Q1.bytes key1.now) < 2 ^ 64 }
        ensures value { result ≡ option_map (λ b. V.loaded (V.ULE.value b))
            (find K0.cmp K1.cmp (rows_in self.now) (Q0.bytes key0.now) (Q1.bytes key1.now)) }
        ensures stored { option_map (λ v. V.ULE.chunk (V.stored v)) result
            ≡ find K0.cmp K1.cmp (rows_in self.now) (Q0.bytes key0.now) (Q1.bytes key1.now) }
    {
        let value = self.get_2d(key0, key1)?;
        Some(value.value())
    }
}
