// A map in one level, and its reads.
ghost use Rattle.std.specs.Prelude.{◌≡◌, ℕ, ◌==◌, ◌-◌, ◌^◌, ◌<◌, ◌≤◌, ◌↔◌, IsTrue, [], length};
ghost use Rattle.std.specs.Prelude.{map, true};
ghost use Rattle.std.specs.Prelude.{is_some, option_map};
ghost use Rattle.std.specs.List.{AllByRecursion};
ghost use Rattle.zv_map.specs.Iters.{copied_left, copied_values_left, elements_left, left_of};
ghost use Rattle.zv_map.specs.Maps.{IsMap};
ghost use Rattle.zv_map.specs.Views.{bytes_of, list_of};
ghost use Rattle.zv_ule.specs.Search.{AtMostDigits};
ghost use Rattle.zv_ule.specs.Views.{element_of};
ghost use Rattle.zv_map1.specs.Borrowed.{pairs_of};
ghost use Rattle.zv_map1.specs.Searches.{IsCopiedBy, IsFoundBy};
ghost use Rattle.zv_map1.specs.Views.{IsElementOf, keys_of, look_up, values_of};

pub mod casts;

use crate::borrowed::ZeroMapBorrowed;
use std::cmp::Ordering;
use std::marker::{Model, PhantomData};
use std::sync::ledger::Ledger;
use zv_map::laws::elements_are_valid;
use zv_map::{
    KvSlice, ZeroMapCopied, ZeroMapCopiedValues, ZeroMapIter, ZeroMapKV, ZeroMapKeys,
    ZeroMapValues, ZvContainer,
};
use zv_ule::{AsULE, Steps, VarRef, ZvKind, ZvOrd, ZvOrdArg};

/// A map in one level, over the containers of its keys and its values: the keys ascend strictly,
/// and each value stands at its key's place.
pub struct MapOver<K: ZvOrd, V: ZvKind, C: ZvContainer<K>, D: ZvContainer<V>> {
    pub(crate) keys: C,
    pub(crate) values: D,
    pub(crate) kinds: PhantomData<(K, V)>,
}

/// A map in one level whose keys and values are of these kinds, each kind in its own container. It
/// borrows the bytes that it was made of until a change, which makes the changed vectors its own.
pub type ZeroMap<'a, K, V> = MapOver<
    K,
    V,
    <K as ZeroMapKV<'a>>::Container,
    <V as ZeroMapKV<'a>>::Container,
>;

impl<K: ZvOrd, V: ZvKind, C: ZvContainer<K>, D: ZvContainer<V>> Model for MapOver<K, V, C, D> {
    ghost use Rattle.std.specs.Prelude.{zip};
    ghost use Rattle.zv_map.specs.Vectors.{vector_of};
    ghost use Rattle.zv_map1.specs.Views.{AreColumns, Map1};

    ghost Value = { Map1 };

    ghost view = { λ m. record {
      pairs = zip (C.list m.keys) (D.list m.values);
      keys = vector_of C.bytes C.layout C.spare C.owned C.ready m.keys;
      values = vector_of D.bytes D.layout D.spare D.owned D.ready m.values;
    } };

    ghost invariant = { λ m. AreColumns K.usable V.usable K.cmp (C.list m.keys)
        (D.list m.values) };
}

impl<K: ZvOrd, V: ZvKind, C: ZvContainer<K> + Drop, D: ZvContainer<V> + Drop> Drop
    for MapOver<K, V, C, D> {
    fn drop(self) {
        let MapOver {
            keys: _,
            values: _,
            kinds: _,
        } = self;
    }
}

impl<K: ZvOrd, V: ZvKind, C: ZvContainer<K>, D: ZvContainer<V>> MapOver<K, V, C, D> {
    /// How many pairs there are. It reads a count.
    #[inline]
    #[tactic(auto, using(crate::proofs::Zipped::parts))]
    pub fn len(&self) -> usize
        ensures { result ≡ length self.now.pairs }
    {
        self.keys.zvl_len()
    }

    /// Whether there is no pair.
    #[inline]
    pub fn is_empty(&self) -> bool
        ensures { result ≡ (length self.now.pairs == 0) }
    {
        self.len() == 0
    }

    /// The keys of a map are elements of their kind, and ascend. The call is for proofs: it does
    /// nothing to the map.
    #[inline]
    #[tactic(auto, using(crate::proofs::Zipped::parts))]
    pub fn in_order(&self)
        ensures ascending { IsMap K.cmp self.now.pairs }
        ensures keys { AllByRecursion (IsElementOf K.fault) (keys_of self.now.pairs) }
    {
        elements_are_valid(self.keys.zvl_as_borrowed());
    }

    /// The keys' vector.
    #[inline]
    #[tactic(auto, using(crate::proofs::Zipped::parts))]
    pub fn keys(&self) -> KvSlice<'_, K>
        ensures list { list_of result ≡ keys_of self.now.pairs }
        ensures bytes { bytes_of result ≡ self.now.keys.bytes }
    {
        self.keys.zvl_as_borrowed()
    }

    /// The values' vector.
    #[inline]
    #[tactic(auto, using(crate::proofs::Zipped::parts))]
    pub fn values(&self) -> KvSlice<'_, V>
        ensures list { list_of result ≡ values_of self.now.pairs }
        ensures bytes { bytes_of result ≡ self.now.values.bytes }
    {
        self.values.zvl_as_borrowed()
    }

    /// A view of the map.
    #[inline]
    pub fn as_borrowed(&self) -> ZeroMapBorrowed<'_, K, V>
        ensures pairs { pairs_of result ≡ self.now.pairs }
        ensures keys { bytes_of result.keys ≡ self.now.keys.bytes }
        ensures values { bytes_of result.values ≡ self.now.values.bytes }
        ensures layouts { (result.keys.layout ≡ self.now.keys.layout)
            × (result.values.layout ≡ self.now.values.layout) }
        ensures fits { (C.has_layout result.keys.layout ≡ true)
            × (D.has_layout result.values.layout ≡ true) }
    {
        ZeroMapBorrowed::of_valid(self.keys.zvl_as_borrowed(), self.values.zvl_as_borrowed())
    }

    /// The value of the key, if there is one. It is one search, and takes no memory.
    pub fn get<Q: ZvOrdArg<K>>(&self, key: &Q) -> Option<VarRef<'_, V>>
        requires { length (Q.bytes key.now) < 2 ^ 64 }
        ensures { option_map element_of result
            ≡ look_up K.cmp self.now.pairs (Q.bytes key.now) }
    {
        self.as_borrowed().get(key)
    }

    /// The value of the key, if there is one, with each comparison counted as a step: at most as
    /// many as the number of pairs has binary digits.
    pub fn get_counted<Q: ZvOrdArg<K>, L: Ledger>(
        &self,
        key: &Q,
        steps: &mut Steps<L>,
    ) -> Option<VarRef<'_, V>>
        requires { length (Q.bytes key.now) < 2 ^ 64 }
        ensures value { option_map element_of result
            ≡ look_up K.cmp self.now.pairs (Q.bytes key.now) }
        ensures digits { AtMostDigits (steps.new - steps.old) (length self.now.pairs) }
        ensures counted { steps.old ≤ steps.new }
    {
        self.as_borrowed().get_counted(key, steps)
    }

    /// Whether the key is there. It is one search.
    pub fn contains_key<Q: ZvOrdArg<K>>(&self, key: &Q) -> bool
        requires { length (Q.bytes key.now) < 2 ^ 64 }
        ensures { result ≡ is_some (look_up K.cmp self.now.pairs (Q.bytes key.now)) }
    {
        self.as_borrowed().contains_key(key)
    }

    /// The value of a key that is found by a predicate, which says how a key lies to what is
    /// sought: `Less` is before it, `Equal` is it, `Greater` is after it. It is one search.
    pub fn get_by<P: FnMut(&[u8]) -> Ordering>(&self, predicate: P) -> Option<VarRef<'_, V>>
        requires { P.IsAlwaysCallable predicate }
        ensures { IsFoundBy P.FnMut predicate self.now.pairs (option_map element_of result) }
    {
        self.as_borrowed().get_by(predicate)
    }

    /// The pairs, in the order of the keys.
    #[inline]
    pub fn iter(&self) -> ZeroMapIter<'_, K, V>
        ensures { left_of result ≡ self.now.pairs }
    {
        self.as_borrowed().iter()
    }

    /// The keys, in order.
    #[inline]
    pub fn iter_keys(&self) -> ZeroMapKeys<'_, K>
        ensures { elements_left result ≡ keys_of self.now.pairs }
    {
        self.keys().iter()
    }

    /// The values, in the order of their keys.
    #[inline]
    pub fn iter_values(&self) -> ZeroMapValues<'_, V>
        ensures { elements_left result ≡ values_of self.now.pairs }
    {
        self.values().iter()
    }

    /// Whether another map has the same pairs, each key and value by its bytes.
    pub fn same(&self, other: ZeroMapBorrowed<'_, K, V>) -> bool
        ensures { IsTrue result ↔ (self.now.pairs ≡ pairs_of other.entry) }
    {
        self.as_borrowed().same(other)
    }
}

impl<K: ZvOrd, V: AsULE, C: ZvContainer<K>, D: ZvContainer<V>> MapOver<K, V, C, D> {
    /// The value of the key, copied out.
    pub fn get_copied<Q: ZvOrdArg<K>>(&self, key: &Q) -> Option<V>
        requires { length (Q.bytes key.now) < 2 ^ 64 }
        ensures { result ≡ option_map (λ b. V.loaded (V.ULE.value b))
            (look_up K.cmp self.now.pairs (Q.bytes key.now)) }
    {
        self.as_borrowed().get_copied(key)
    }

    /// The value of a key that is found by a predicate, copied out.
    pub fn get_copied_by<P: FnMut(&[u8]) -> Ordering>(&self, predicate: P) -> Option<V>
        requires { P.IsAlwaysCallable predicate }
        ensures { IsCopiedBy P.FnMut predicate self.now.pairs (λ b. V.loaded (V.ULE.value b))
            result }
    {
        self.as_borrowed().get_copied_by(predicate)
    }

    /// The pairs in order, the values copied out.
    #[inline]
    pub fn iter_copied_values(&self) -> ZeroMapCopiedValues<'_, K, V>
        ensures { copied_values_left (λ b. V.loaded (V.ULE.value b)) result
            ≡ map (λ p. (p.0, V.loaded (V.ULE.value p.1))) self.now.pairs }
    {
        self.as_borrowed().iter_copied_values()
    }
}

impl<K: AsULE + ZvOrd, V: AsULE, C: ZvContainer<K>, D: ZvContainer<V>> MapOver<K, V, C, D> {
    /// The pairs in order, keys and values copied out.
    #[inline]
    pub fn iter_copied(&self) -> ZeroMapCopied<'_, K, V>
        ensures { copied_left (λ b. K.loaded (K.ULE.value b)) (λ b. V.loaded (V.ULE.value b)) result
            ≡ map (λ p. (K.loaded (K.ULE.value p.0), V.loaded (V.ULE.value p.1))) self.now.pairs }
    {
        self.as_borrowed().iter_copied()
    }
}
