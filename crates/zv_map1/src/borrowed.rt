// A view of a map.
ghost use Rattle.std.specs.Prelude.{◌≡◌, ⊤, ℕ, ◌==◌, ◌-◌, ◌^◌, ◌<◌, ◌≤◌, ◌↔◌, IsTrue, [], length};
ghost use Rattle.std.specs.Prelude.{map, zip};
ghost use Rattle.std.specs.Prelude.{is_some, option_map};
ghost use Rattle.std.specs.List.Sorted.{IsStrictlySortedBy, IsStrictlySortedBy-prop};
ghost use Rattle.zv_map.specs.Views.{bytes_of, list_of};
ghost use Rattle.std.specs.Result.{MatchResult};
ghost use Rattle.zv_map.specs.Maps.{IsAt};
ghost use Rattle.zv_ule.specs.Search.{AtMostDigits, IsGap, compared};
ghost use Rattle.zv_ule.specs.Views.{element_of};

use std::alloc::AllocError;
use std::cmp::Ordering;
use std::sync::ledger::Ledger;
use zv_map::{
    KvSlice, ZeroMapCopied, ZeroMapCopiedValues, ZeroMapIter, ZeroMapKeys, ZeroMapValues,
    ZeroVecLike, ZeroVecSearch, ZeroVecSearchBy,
};
use zv_ule::{AsULE, Steps, UsableKind, VarRef, ZvKind, ZvOrd, ZvOrdArg};

/// A view of a map: of its keys and of its values. It is copied freely, and what it gives lives as
/// long as the bytes.
pub struct ZeroMapBorrowed<'a, K: ZvOrd, V: ZvKind> {
    keys: KvSlice<'a, K>,
    values: KvSlice<'a, V>,
    pub ghost count: { length (list_of keys) ≡ length (list_of values) },
    pub ghost ascending: { IsStrictlySortedBy K.cmp
        (list_of keys) } by { IsStrictlySortedBy-prop _ _ },
}

impl<K: ZvOrd, V: ZvKind> Copy for ZeroMapBorrowed<'_, K, V> {}

impl<K: ZvOrd, V: ZvKind> Clone for ZeroMapBorrowed<'_, K, V> {
    ghost is_clone = { λ v w. w ≡ v };

    ghost is_infallible = { λ _. ⊤ };

    /// A copy, which takes no memory.
    #[inline]
    fn clone(&self) -> Result<Self, AllocError> {
        Ok(*self)
    }
}

/// The map of no pairs.
impl<K: ZvOrd + UsableKind, V: ZvKind + UsableKind> Default for ZeroMapBorrowed<'_, K, V> {
    ghost use Rattle.zv_map1.specs.Borrowed.{pairs_of};

    ghost is_default = { λ m. pairs_of m ≡ [] };

    #[inline]
    fn default() -> Self {
        ZeroMapBorrowed::new()
    }
}

impl<'a, K: ZvOrd, V: ZvKind> ZeroMapBorrowed<'a, K, V> {
    ghost use Rattle.zv_map.specs.Iters.{elements_left, left_of};
    ghost use Rattle.zv_map1.specs.Borrowed.{pairs_of};
    ghost use Rattle.zv_map1.specs.Searches.{IsFoundBy};
    ghost use Rattle.zv_map1.specs.Views.{keys_of, look_up, values_of};

    /// The map of no pairs.
    #[tactic(auto, using(crate::proofs::Zipped::none_ascends))]
    pub fn new() -> Self
        requires keys { IsTrue K.usable }
        requires values { IsTrue V.usable }
        ensures { pairs_of result ≡ [] }
    {
        ZeroMapBorrowed {
            keys: KvSlice::<'static, K>::zvl_new_borrowed(),
            values: KvSlice::<'static, V>::zvl_new_borrowed(),
        }
    }

    /// The map of keys that are known to ascend, and of as many values. It reads none of them.
    #[inline]
    pub fn of_valid(keys: KvSlice<'a, K>, values: KvSlice<'a, V>) -> Self
        requires count { length (list_of keys) ≡ length (list_of values) }
        requires ascending { IsStrictlySortedBy K.cmp (list_of keys) }
        ensures pairs { pairs_of result ≡ zip (list_of keys.entry) (list_of values.entry) }
        ensures keys { result.keys ≡ keys.entry }
        ensures values { result.values ≡ values.entry }
    {
        ZeroMapBorrowed { keys, values }
    }

    /// How many pairs there are. It reads a count.
    #[inline]
    #[tactic(auto, using(crate::proofs::Zipped::parts))]
    pub fn len(self) -> usize
        ensures { result ≡ length (pairs_of self.entry) }
    {
        self.keys.len()
    }

    /// Whether there is no pair.
    #[inline]
    pub fn is_empty(self) -> bool
        ensures { result ≡ (length (pairs_of self.entry) == 0) }
    {
        self.len() == 0
    }

    /// The keys' vector.
    #[inline]
    #[tactic(auto, using(crate::proofs::Zipped::parts))]
    pub fn keys(self) -> KvSlice<'a, K>
        ensures list { list_of result ≡ keys_of (pairs_of self.entry) }
        ensures same { result ≡ self.entry.keys }
    {
        self.keys
    }

    /// The values' vector.
    #[inline]
    #[tactic(auto, using(crate::proofs::Zipped::parts))]
    pub fn values(self) -> KvSlice<'a, V>
        ensures list { list_of result ≡ values_of (pairs_of self.entry) }
        ensures same { result ≡ self.entry.values }
    {
        self.values
    }

    /// The place of the key, or where it would go.
    #[inline(always)]
    pub(crate) fn place<Q: ZvOrdArg<K>>(self, key: &Q) -> Result<usize, usize>
        requires { length (Q.bytes key.now) < 2 ^ 64 }
        ensures { MatchResult result
            (IsAt (compared K.cmp (keys_of (pairs_of self.entry)) (Q.bytes key.now)))
            (IsGap (compared K.cmp (keys_of (pairs_of self.entry)) (Q.bytes key.now))) }
    {
        self.keys.zvl_binary_search(key)
    }

    /// The same, with each comparison counted as a step.
    #[tactic(auto, using(crate::proofs::Zipped::parts))]
    fn place_counted<Q: ZvOrdArg<K>, L: Ledger>(
        self,
        key: &Q,
        steps: &mut Steps<L>,
    ) -> Result<usize, usize>
        requires { length (Q.bytes key.now) < 2 ^ 64 }
        ensures place { MatchResult result
            (IsAt (compared K.cmp (keys_of (pairs_of self.entry)) (Q.bytes key.now)))
            (IsGap (compared K.cmp (keys_of (pairs_of self.entry)) (Q.bytes key.now))) }
        ensures digits { AtMostDigits (steps.new - steps.old) (length (pairs_of self.entry)) }
        ensures counted { steps.old ≤ steps.new }
    {
        let Some(place) = self.keys.zvl_search_counted(key, 0..self.keys.len(), steps) else {
            unreachable!();
        };
        place
    }

    /// The value of the key, if there is one. It is one search, and takes no memory.
    #[tactic(auto, using(crate::proofs::Found::found))]
    pub fn get<Q: ZvOrdArg<K>>(self, key: &Q) -> Option<VarRef<'a, V>>
        requires { length (Q.bytes key.now) < 2 ^ 64 }
        ensures { option_map element_of result
            ≡ look_up K.cmp (pairs_of self.entry) (Q.bytes key.now) }
    {
        let Ok(at) = self.place(key) else {
            return None;
        };
        self.values.get(at)
    }

    /// The value of the key, if there is one, with each comparison counted as a step: at most as
    /// many as the number of pairs has binary digits.
    #[tactic(auto, using(crate::proofs::Found::found))]
    pub fn get_counted<Q: ZvOrdArg<K>, L: Ledger>(
        self,
        key: &Q,
        steps: &mut Steps<L>,
    ) -> Option<VarRef<'a, V>>
        requires { length (Q.bytes key.now) < 2 ^ 64 }
        ensures value { option_map element_of result
            ≡ look_up K.cmp (pairs_of self.entry) (Q.bytes key.now) }
        ensures digits { AtMostDigits (steps.new - steps.old) (length (pairs_of self.entry)) }
        ensures counted { steps.old ≤ steps.new }
    {
        let Ok(at) = self.place_counted(key, steps) else {
            return None;
        };
        self.values.get(at)
    }

    /// Whether the key is there. It is one search.
    pub fn contains_key<Q: ZvOrdArg<K>>(self, key: &Q) -> bool
        requires { length (Q.bytes key.now) < 2 ^ 64 }
        ensures { result ≡ is_some (look_up K.cmp (pairs_of self.entry) (Q.bytes key.now)) }
    {
        self.get(key).is_some()
    }

    /// The value of a key that is found by a predicate, which says how a key lies to what is
    /// sought: `Less` is before it, `Equal` is it, `Greater` is after it. It is one search.
    pub fn get_by<P: FnMut(&[u8]) -> Ordering>(self, predicate: P) -> Option<VarRef<'a, V>>
        requires { P.IsAlwaysCallable predicate }
        ensures { IsFoundBy P.FnMut predicate (pairs_of self.entry)
            (option_map element_of result) }
    {
        let Ok(at) = self.keys.zvl_binary_search_by(predicate) else {
            return None;
        };
        self.values.get(at)
    }

    /// The pairs, in the order of the keys.
    #[inline]
    pub fn iter(self) -> ZeroMapIter<'a, K, V>
        ensures { left_of result ≡ pairs_of self.entry }
    {
        ZeroMapIter::new(self.keys, self.values)
    }

    /// The keys, in order.
    #[inline]
    pub fn iter_keys(self) -> ZeroMapKeys<'a, K>
        ensures { elements_left result ≡ keys_of (pairs_of self.entry) }
    {
        self.keys().iter()
    }

    /// The values, in the order of their keys.
    #[inline]
    pub fn iter_values(self) -> ZeroMapValues<'a, V>
        ensures { elements_left result ≡ values_of (pairs_of self.entry) }
    {
        self.values().iter()
    }

    /// Whether another map has the same pairs, each key and value by its bytes.
    pub fn same(self, other: ZeroMapBorrowed<'_, K, V>) -> bool
        ensures { IsTrue result ↔ (pairs_of self.entry ≡ pairs_of other.entry) }
    {
        self.keys.same(other.keys) && self.values.same(other.values)
    }
}

impl<'a, K: ZvOrd, V: AsULE> ZeroMapBorrowed<'a, K, V> {
    ghost use Rattle.zv_map.specs.Iters.{copied_values_left};
    ghost use Rattle.zv_map1.specs.Borrowed.{pairs_of};
    ghost use Rattle.zv_map1.specs.Searches.{IsCopiedBy};
    ghost use Rattle.zv_map1.specs.Views.{look_up};

    /// The value of the key, copied out.
    pub fn get_copied<Q: ZvOrdArg<K>>(self, key: &Q) -> Option<V>
        requires { length (Q.bytes key.now) < 2 ^ 64 }
        ensures { result ≡ option_map (λ b. V.loaded (V.ULE.value b))
            (look_up K.cmp (pairs_of self.entry) (Q.bytes key.now)) }
    {
        let value = self.get(key)?;
        Some(value.value())
    }

    /// The value of a key that is found by a predicate, copied out.
    pub fn get_copied_by<P: FnMut(&[u8]) -> Ordering>(self, predicate: P) -> Option<V>
        requires { P.IsAlwaysCallable predicate }
        ensures { IsCopiedBy P.FnMut predicate (pairs_of self.entry)
            (λ b. V.loaded (V.ULE.value b)) result }
    {
        let value = self.get_by(predicate)?;
        Some(value.value())
    }

    /// The pairs in order, the values copied out.
    #[inline]
    pub fn iter_copied_values(self) -> ZeroMapCopiedValues<'a, K, V>
        ensures { copied_values_left (λ b. V.loaded (V.ULE.value b)) result
            ≡ map (λ p. (p.0, V.loaded (V.ULE.value p.1))) (pairs_of self.entry) }
    {
        self.iter().copied_values()
    }
}

impl<'a, K: AsULE + ZvOrd, V: AsULE> ZeroMapBorrowed<'a, K, V> {
    ghost use Rattle.zv_map.specs.Iters.{copied_left};
    ghost use Rattle.zv_map1.specs.Borrowed.{pairs_of};

    /// The pairs in order, keys and values copied out.
    #[inline]
    pub fn iter_copied(self) -> ZeroMapCopied<'a, K, V>
        ensures { copied_left (λ b. K.loaded (K.ULE.value b)) (λ b. V.loaded (V.ULE.value b)) result
            ≡ map (λ p. (K.loaded (K.ULE.value p.0), V.loaded (V.ULE.value p.1)))
            (pairs_of self.entry) }
    {
        self.iter().copied()
    }
}
