// Hash tables that are built of pairs.
ghost use Rattle.std.specs.Prelude.{◌≡◌, ℕ, ◌<◌, ◌≤◌, ◌^◌, ◌&&◌, [], length, map, true, IfErr};
ghost use Rattle.std.specs.Prelude.{IfOk, IsPermutation, IsTrue, MatchOption, MatchResult, OnOk};
ghost use Rattle.std.specs.List.{All, range_with_len};
ghost use Rattle.std.specs.declared.cmp.Ordering.TheVariants.{Equal};
ghost use Rattle.zv_hash.specs.declared.error.HashError.{HashError};
ghost use Rattle.zv_map.specs.Keys.{nth};
ghost use Rattle.zv_map.specs.Maps.{keys_of, values_of};
ghost use Rattle.zv_map.specs.Permuted.{permuted};
ghost use Rattle.zv_map.specs.Views.{list_of};
ghost use Rattle.zv_map.specs.declared.error.MapError.TheVariants.{Memory as MapMemory};
ghost use Rattle.zv_owned.specs.Size.{takes_pushes};
ghost use Rattle.zv_hashmap.specs.Building.{AreApartBelow, IsByRule, IsNoTable, IsPlacement};
ghost use Rattle.zv_hashmap.specs.Building.{IsRepeat, IsTableOf, IsUnplaced, fit, refusal_of};
ghost use Rattle.zv_hashmap.specs.Hashed.{key_hash};

use crate::key::{HashBytes, compute_hash};
use crate::table::HashMapOver;
use std::alloc::{AllocError, Global};
use std::marker::PhantomData;
use zv_fixed::ZeroVec;
use zv_hash::{HashError, Placement, compute_displacements, first_repeat};
use zv_map::{KvSlice, MapError, MutableZeroVecLike, ZeroVecPermute};
use zv_ule::{VarRef, ZvArg, ZvKind};

/// The keys and the values of pairs in two lists, pushed pair by pair.
fn push_pairs<'a, K, V, C, D, A, B>(alloc: Global, pairs: &[(A, B)]) -> Result<(C, D), MapError>
where
    K: ZvKind,
    V: ZvKind,
    C: MutableZeroVecLike<'a, K>,
    D: MutableZeroVecLike<'a, V>,
    A: ZvArg<K>,
    B: ZvArg<V>,
    requires usable_keys { IsTrue K.usable }
    requires usable_values { IsTrue V.usable }
    requires keys_below { All (λ p. length (A.bytes p.0) < 2 ^ 64) pairs.now }
    requires values_below { All (λ p. length (B.bytes p.1) < 2 ^ 64) pairs.now }
    ensures keys { IfOk result (λ lists. C.list lists.0
        ≡ keys_of (map (λ p. (A.bytes p.0, B.bytes p.1)) pairs.now)) }
    ensures values { IfOk result (λ lists. D.list lists.1
        ≡ values_of (map (λ p. (A.bytes p.0, B.bytes p.1)) pairs.now)) }
    ensures rule { IsByRule (fit C.takes_insert D.takes_insert
        (map (λ p. (A.bytes p.0, B.bytes p.1)) pairs.now)) result }
{
    let mut keys = C::zvl_with_capacity(alloc, pairs.len())?;
    let mut values = D::zvl_with_capacity(alloc, pairs.len())?;
    for pair in pairs {
        keys.zvl_push(alloc, &pair.0)?;
        values.zvl_push(alloc, &pair.1)?;
    }
    Ok((keys, values))
}

/// The hash of each key.
fn hash_keys<K: HashBytes>(alloc: Global, keys: KvSlice<'_, K>) -> Result<Vec<u64>, AllocError>
    ensures { IfOk result (λ hashes. hashes.items ≡ map (key_hash K.hashed) (list_of keys.entry)) }
{
    let mut hashes = Vec::with_capacity(alloc, keys.len())?;
    for place in 0..keys.len() {
        hashes.push(compute_hash::<K, VarRef<'_, K>>(&keys.at(place)))?;
    }
    Ok(hashes)
}

/// An earlier place of the key at a place.
fn earlier_place<K: HashBytes>(keys: KvSlice<'_, K>, second: usize) -> Option<usize>
    requires { second < length (list_of keys) }
    ensures { let ks = list_of keys.entry in MatchOption result
        ((i : ℕ) → i < second → K.cmp (nth ks i) (nth ks second) ≡ Equal → ⊥)
        (λ first. (first < second) × (K.cmp (nth ks first) (nth ks second) ≡ Equal)) }
{
    let key = keys.at(second);
    for first in 0..second {
        if keys.at(first).same(key) {
            return Some(first);
        }
    }
    None
}

/// The least place from `start` on whose key stands at an earlier place, after that place.
fn repeat_from<K: HashBytes>(keys: KvSlice<'_, K>, start: usize) -> Option<(usize, usize)>
    requires apart { AreApartBelow K.cmp (list_of keys) start }
    requires within { start ≤ length (list_of keys) }
    ensures { let ks = list_of keys.entry in MatchOption result
        (AreApartBelow K.cmp ks (length ks)) (λ p. IsRepeat K.cmp ks p.0 p.1) }
{
    for second in start..keys.len() {
        if let Some(first) = earlier_place(keys, second) {
            return Some((first, second));
        }
    }
    None
}

/// The least place whose key stands at an earlier place, after that place. Keys are compared only
/// where two hashes are equal.
fn find_repeat<K: HashBytes>(
    alloc: Global,
    keys: KvSlice<'_, K>,
    hashes: &[u64],
) -> Result<Option<(usize, usize)>, AllocError>
    requires few { length hashes.now < 2 ^ 32 }
    requires hashes { hashes.now ≡ map (key_hash K.hashed) (list_of keys) }
    ensures { let ks = list_of keys.entry in IfOk result (λ found. MatchOption found
        (AreApartBelow K.cmp ks (length ks)) (λ p. IsRepeat K.cmp ks p.0 p.1)) }
{
    match first_repeat(alloc, hashes)? {
        Some(place) => Ok(repeat_from(keys, place)),
        None => Ok(None),
    }
}

/// Where keys go.
fn place_keys<K: HashBytes>(alloc: Global, keys: KvSlice<'_, K>) -> Result<Placement, HashError>
    requires { length (list_of keys) < 2 ^ 32 }
    ensures { let ks = list_of keys.entry in MatchResult result
        (λ p. IsPlacement K.cmp K.hashed ks p.displacements.items p.reverse_mapping.items)
        (IsUnplaced K.cmp K.hashed ks) }
{
    let hashes = hash_keys(alloc, keys)?;
    if let Some((first, second)) = find_repeat(alloc, keys, &hashes)? {
        return Err(HashError::Repeated { first, second });
    }
    compute_displacements(alloc, &hashes)
}

/// Puts the elements of two lists, which their size rules take, in another order. They are refused
/// only where an allocation fails, as the rules take them in any order.
fn permute_both<'a, K, V, C, D>(
    alloc: Global,
    keys: &mut C,
    values: &mut D,
    places: &[usize],
) -> Result<(), MapError>
where
    K: ZvKind,
    V: ZvKind,
    C: MutableZeroVecLike<'a, K>,
    D: MutableZeroVecLike<'a, V>,
    requires keys { IsPermutation (range_with_len 0 (length (C.list keys.old))) places.now }
    requires values { length (D.list values.old) ≡ length (C.list keys.old) }
    requires keys_taken { takes_pushes C.takes_insert [] (C.list keys.old) ≡ true }
    requires values_taken { takes_pushes D.takes_insert [] (D.list values.old) ≡ true }
    ensures keys { OnOk result (C.list keys.new ≡ permuted (C.list keys.old) places.now) }
    ensures values { OnOk result (D.list values.new ≡ permuted (D.list values.old) places.now) }
    ensures err { IfErr result (λ e. e ≡ MapMemory) }
{
    keys.zvl_permute(alloc, places)?;
    values.zvl_permute(alloc, places)
}

/// The refusal of a table for that of a list.
fn refusal_for(error: MapError) -> HashError
    ensures { result ≡ refusal_of error }
{
    match error {
        MapError::TooLarge => HashError::TooLarge,
        MapError::Memory => HashError::Memory,
    }
}

impl<
    'a,
    K: HashBytes,
    V: ZvKind,
    C: MutableZeroVecLike<'a, K> + Drop,
    D: MutableZeroVecLike<'a, V> + Drop,
> HashMapOver<'a, K, V, C, D> {
    /// The table of keys and values that go where a placement says.
    fn arrange(
        alloc: Global,
        mut keys: C,
        mut values: D,
        placement: Placement,
    ) -> Result<Self, HashError>
        requires usable_keys { IsTrue K.usable }
        requires usable_values { IsTrue V.usable }
        requires few { length (C.list keys) < 2 ^ 32 }
        requires places { IsPermutation (range_with_len 0 (length (C.list keys)))
            placement.reverse_mapping.items }
        requires displacements { length placement.displacements.items ≡ length (C.list keys) }
        requires values { length (D.list values) ≡ length (C.list keys) }
        requires keys_taken { takes_pushes C.takes_insert [] (C.list keys) ≡ true }
        requires values_taken { takes_pushes D.takes_insert [] (D.list values) ≡ true }
        ensures displacements { IfOk result (λ t. t.displacements ≡ placement.displacements.items) }
        ensures keys { IfOk result (λ t. t.keys
            ≡ permuted (C.list keys) placement.reverse_mapping.items) }
        ensures values { IfOk result (λ t. t.values
            ≡ permuted (D.list values) placement.reverse_mapping.items) }
        ensures err { IfErr result (λ e. e ≡ HashError.Memory) }
    {
        let places = &placement.reverse_mapping;
        let Ok(()) = permute_both(alloc, &mut keys, &mut values, places) else {
            return Err(HashError::Memory);
        };
        let Ok(displacements) = ZeroVec::alloc_from_slice(alloc, &placement.displacements) else {
            return Err(HashError::Memory);
        };
        Ok(HashMapOver {
            displacements,
            keys,
            values,
            kinds: PhantomData,
        })
    }

    /// The table of pairs of a key and a value. It holds them in the order of its slots, and has
    /// for each key, stored or not, what the pairs have.
    ///
    /// # Errors
    /// `TooMany` where there are 2^32 pairs or more; else `TooLarge` where the size rules refuse
    /// the keys or the values, pushed in their order; else `Repeated` where a key repeats; else
    /// `NoPlace` where a bucket is stuck. `Memory` may come at any point.
    ///
    /// # Cost
    /// Time about linear in the number of pairs where buckets soon find displacements.
    pub fn try_from_pairs<A: ZvArg<K>, B: ZvArg<V>>(
        alloc: Global,
        pairs: &[(A, B)],
    ) -> Result<Self, HashError>
        requires usable_keys { IsTrue K.usable }
        requires usable_values { IsTrue V.usable }
        requires keys_below { All (λ p. length (A.bytes p.0) < 2 ^ 64) pairs.now }
        requires values_below { All (λ p. length (B.bytes p.1) < 2 ^ 64) pairs.now }
        ensures { let given = map (λ p. (A.bytes p.0, B.bytes p.1)) pairs.now in
            let fits = fit C.takes_insert D.takes_insert given in MatchResult result
            (IsTableOf K.cmp K.hashed fits given) (IsNoTable K.cmp K.hashed fits given) }
    {
        if pairs.len() > u32::MAX as usize {
            return Err(HashError::TooMany);
        }
        let (keys, values) = match push_pairs::<K, V, C, D, A, B>(alloc, pairs) {
            Ok(lists) => lists,
            Err(error) => return Err(refusal_for(error)),
        };
        let placement = place_keys(alloc, keys.zvl_as_borrowed())?;
        Self::arrange(alloc, keys, values, placement)
    }
}
