// Hash tables.
ghost use Rattle.std.specs.Prelude.{◌≡◌, ℕ, ◌==◌, ◌+◌, ◌^◌, ◌<◌, ◌≤◌, ◌↔◌, length, zip, IsTrue};
ghost use Rattle.std.specs.Prelude.{IfOk, IfSome, Some, is_some, option_map, true};
ghost use Rattle.std.specs.Result.{result_err};
ghost use Rattle.zv_fixed.specs.Views.{bytes_of as displacement_bytes, values_in};
ghost use Rattle.zv_map.specs.Iters.{elements_left, left_of};
ghost use Rattle.zv_map.specs.Vectors.{fixed_vector, vector_of};
ghost use Rattle.zv_map.specs.Views.{bytes_of, list_of};
ghost use Rattle.zv_ule.specs.Views.{element_of};
ghost use Rattle.zv_hashmap.specs.Hashed.{key_hash};
ghost use Rattle.zv_hashmap.specs.Table.{AreHome, found, pairs_of, parts_fault, slot_of_hash};

use crate::error::HashPartsError;
use crate::key::{HashArg, HashBytes, compute_hash};
use std::marker::{Brand, Model, PhantomData};
use std::sync::ledger::{Blank, Ledger};
use zv_fixed::{ZeroSlice, ZeroVec};
use zv_hash::{compute_index, split_hash64};
use zv_map::{KvSlice, ZeroMapIter, ZeroMapKV, ZeroMapKeys, ZeroMapValues, ZvContainer};
use zv_ule::{Steps, VarRef, ZvKind, ZvOrdArg};

/// A hash table over the containers of its keys and its values: equally many displacements, keys
/// and values, fewer than 2^32. A key's hash and its bucket's displacement lead to one slot, and
/// what lies there is its key and value, or it has none.
///
/// A table that was made of parts may be any; then some of its keys may not be found
/// ([`verify`](Self::verify)).
pub struct HashMapOver<'a, K: HashBytes, V: ZvKind, C: ZvContainer<K>, D: ZvContainer<V>> {
    pub(crate) displacements: ZeroVec<'a, (u32, u32)>,
    pub(crate) keys: C,
    pub(crate) values: D,
    pub(crate) kinds: PhantomData<(K, V)>,
}

/// A hash table whose keys and values are of these kinds, each kind in its own container.
pub type ZeroHashMap<'a, K, V> = HashMapOver<
    'a,
    K,
    V,
    <K as ZeroMapKV<'a>>::Container,
    <V as ZeroMapKV<'a>>::Container,
>;

impl<'a, K: HashBytes, V: ZvKind, C: ZvContainer<K>, D: ZvContainer<V>> Model
    for HashMapOver<'a, K, V, C, D> {
    ghost use Rattle.zv_map.specs.Vectors.{fixed_vector, vector_of};
    ghost use Rattle.zv_hashmap.specs.Table.{AreTable, Table};

    ghost Value = { Table };

    ghost view = { λ m. record {
      displacements = m.displacements.values;
      keys = C.list m.keys;
      values = D.list m.values;
      displacement_vector =
          fixed_vector 8 m.displacements.bytes m.displacements.spare m.displacements.owned;
      key_vector = vector_of C.bytes C.layout C.spare C.owned C.ready m.keys;
      value_vector = vector_of D.bytes D.layout D.spare D.owned D.ready m.values;
    } };

    ghost invariant = { λ m. AreTable K.usable V.usable m.displacements.values (C.list m.keys)
        (D.list m.values) };
}

impl<'a, K: HashBytes, V: ZvKind, C: ZvContainer<K> + Drop, D: ZvContainer<V> + Drop> Drop
    for HashMapOver<'a, K, V, C, D> {
    fn drop(self) {
        let HashMapOver {
            displacements: _,
            keys: _,
            values: _,
            kinds: _,
        } = self;
    }
}

impl<'a, K: HashBytes, V: ZvKind, C: ZvContainer<K>, D: ZvContainer<V>> HashMapOver<
    'a,
    K,
    V,
    C,
    D,
> {
    /// How many keys there are. It reads a count.
    #[inline]
    pub fn len(&self) -> usize
        ensures { result ≡ length self.now.keys }
    {
        self.keys.zvl_len()
    }

    /// Whether there is no key.
    #[inline]
    pub fn is_empty(&self) -> bool
        ensures { result ≡ (length self.now.keys == 0) }
    {
        self.len() == 0
    }

    /// The displacements of the buckets, with their bytes.
    #[inline]
    pub fn displacements(&self) -> ZeroSlice<'_, (u32, u32)>
        ensures values { values_in result ≡ self.now.displacements }
        ensures bytes { displacement_bytes result ≡ self.now.displacement_vector.bytes }
        ensures count { length self.now.displacements ≡ length self.now.keys }
    {
        self.displacements.as_slice()
    }

    /// The keys, slot by slot, with their bytes.
    #[inline]
    pub fn keys(&self) -> KvSlice<'_, K>
        ensures list { list_of result ≡ self.now.keys }
        ensures bytes { bytes_of result ≡ self.now.key_vector.bytes }
        ensures few { length self.now.keys < 2 ^ 32 }
        ensures fits { C.has_layout result.layout ≡ true }
    {
        self.keys.zvl_as_borrowed()
    }

    /// The values, slot by slot, with their bytes.
    #[inline]
    pub fn values(&self) -> KvSlice<'_, V>
        ensures list { list_of result ≡ self.now.values }
        ensures bytes { bytes_of result ≡ self.now.value_vector.bytes }
        ensures count { length self.now.values ≡ length self.now.keys }
        ensures fits { D.has_layout result.layout ≡ true }
    {
        self.values.zvl_as_borrowed()
    }

    /// The pairs of a key and its value, slot by slot.
    #[inline]
    pub fn iter(&self) -> ZeroMapIter<'_, K, V>
        ensures { left_of result ≡ pairs_of self.now }
    {
        ZeroMapIter::new(self.keys.zvl_as_borrowed(), self.values.zvl_as_borrowed())
    }

    /// The keys, slot by slot.
    #[inline]
    pub fn iter_keys(&self) -> ZeroMapKeys<'_, K>
        ensures { elements_left result ≡ self.now.keys }
    {
        self.keys().iter()
    }

    /// The values, slot by slot.
    #[inline]
    pub fn iter_values(&self) -> ZeroMapValues<'_, V>
        ensures { elements_left result ≡ self.now.values }
    {
        self.values().iter()
    }

    /// The slot that a hash leads to.
    #[inline]
    fn slot(&self, hash: u64) -> Option<usize>
        ensures slot { result
            ≡ slot_of_hash self.now.displacements (length self.now.keys) hash }
        ensures within { IfSome result (λ s. s < length self.now.keys) }
    {
        let count = self.keys.zvl_len();
        if count == 0 {
            return None;
        }
        let (bucket, f0, f1) = split_hash64(hash, count);
        compute_index((f0, f1), self.displacements.at(bucket), count as u32)
    }

    /// The value of a key, if it has one. The key is compared with one stored key at most, and each
    /// comparison is a step. It takes no memory.
    #[inline]
    pub fn get_counted<Q: HashArg<K> + ZvOrdArg<K>, L: Ledger>(
        &self,
        key: &Q,
        steps: &mut Steps<L>,
    ) -> Option<VarRef<'_, V>>
        requires below { length (Q.bytes key.now) < 2 ^ 64 }
        ensures value { option_map element_of result
            ≡ found K.cmp K.hashed self.now (Q.bytes key.now) }
        ensures one { steps.new ≤ steps.old + 1 }
        ensures counted { steps.old ≤ steps.new }
    {
        let keys = self.keys.zvl_as_borrowed();
        let slot = self.slot(compute_hash::<K, Q>(key))?;
        let stored = keys.at(slot);
        if key.arg_compare(stored.as_bytes(), steps).is_ne() {
            return None;
        }
        self.values.zvl_get(slot)
    }

    /// The value of a key, uncounted.
    #[inline]
    fn get_from<Q: HashArg<K> + ZvOrdArg<K>, L: Ledger>(
        &self,
        key: &Q,
        blank: Blank,
    ) -> Option<VarRef<'_, V>>
        requires below { length (Q.bytes key.now) < 2 ^ 64 }
        requires name { blank.name ≡ L.name }
        requires parts { blank.parts ≡ L.parts }
        requires some { 0 < blank.parts }
        ensures { option_map element_of result
            ≡ found K.cmp K.hashed self.now (Q.bytes key.now) }
    {
        let mut steps = Steps::<L>::start(blank);
        self.get_counted(key, &mut steps)
    }

    /// The value of a key, if it has one. It takes no memory.
    #[inline]
    pub fn get<Q: HashArg<K> + ZvOrdArg<K>>(&self, key: &Q) -> Option<VarRef<'_, V>>
        requires below { length (Q.bytes key.now) < 2 ^ 64 }
        ensures { option_map element_of result
            ≡ found K.cmp K.hashed self.now (Q.bytes key.now) }
    {
        self.get_from::<Q, Brand>(key, Blank::new(1))
    }

    /// Whether a key has a value.
    #[inline]
    pub fn contains_key<Q: HashArg<K> + ZvOrdArg<K>>(&self, key: &Q) -> bool
        requires below { length (Q.bytes key.now) < 2 ^ 64 }
        ensures { result ≡ is_some (found K.cmp K.hashed self.now (Q.bytes key.now)) }
    {
        self.get(key).is_some()
    }

    /// Whether each stored key leads to the slot that it lies in, so that all are found.
    pub fn verify(&self) -> bool
        ensures { IsTrue result ↔ AreHome K.hashed self.now }
    {
        let keys = self.keys.zvl_as_borrowed();
        for slot in 0..keys.len() {
            if self.slot(compute_hash::<K, VarRef<'_, K>>(&keys.at(slot))) != Some(slot) {
                return false;
            }
        }
        true
    }

    /// The table of three vectors. Whether its keys are found is not looked at.
    ///
    /// # Errors
    /// `KeyValueCount` where keys and values are not equally many; else `DisplacementCount` where
    /// displacements and keys are not; else `TooMany` where there are 2^32 keys or more.
    pub fn from_parts(
        displacements: ZeroVec<'a, (u32, u32)>,
        keys: C,
        values: D,
    ) -> Result<Self, HashPartsError>
    where
        C: Drop,
        D: Drop,
        requires usable_keys { IsTrue K.usable }
        requires usable_values { IsTrue V.usable }
        ensures error { result_err result ≡ parts_fault (length displacements.entry.values)
            (length (C.list keys)) (length (D.list values)) }
        ensures displacements { IfOk result (λ t. t.displacements ≡ displacements.entry.values) }
        ensures keys { IfOk result (λ t. t.keys ≡ C.list keys) }
        ensures values { IfOk result (λ t. t.values ≡ D.list values) }
        ensures displacement_vector { IfOk result (λ t. t.displacement_vector ≡ fixed_vector 8
            displacements.entry.bytes displacements.entry.spare displacements.entry.owned) }
        ensures key_vector { IfOk result (λ t. t.key_vector
            ≡ vector_of C.bytes C.layout C.spare C.owned C.ready keys) }
        ensures value_vector { IfOk result (λ t. t.value_vector
            ≡ vector_of D.bytes D.layout D.spare D.owned D.ready values) }
    {
        if keys.zvl_len() != values.zvl_len() {
            return Err(HashPartsError::KeyValueCount);
        }
        if displacements.len() != keys.zvl_len() {
            return Err(HashPartsError::DisplacementCount);
        }
        if keys.zvl_len() > u32::MAX as usize {
            return Err(HashPartsError::TooMany);
        }
        Ok(HashMapOver {
            displacements,
            keys,
            values,
            kinds: PhantomData,
        })
    }
}
