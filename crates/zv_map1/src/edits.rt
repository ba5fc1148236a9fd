// Changes of a map's two vectors.
ghost use Rattle.std.specs.Prelude.{◌≡◌, ◌+◌, ◌^◌, ◌<◌, ◌≤◌, ◌&&◌, ◌||◌, IfErr, IfOk, OnErr, OnOk};
ghost use Rattle.std.specs.Prelude.{None, Some, is_ok, length, option_map, true};
ghost use Rattle.std.specs.List.{remove};
ghost use Rattle.std.specs.Result.{MatchResult};
ghost use Rattle.zv_map.specs.Maps.{IsAt};
ghost use Rattle.zv_map.specs.Refusals.{TooLargeUnless};
ghost use Rattle.zv_map.specs.Reserved.{IsTaken};
ghost use Rattle.zv_map.specs.declared.error.MapError.{MapError};
ghost use Rattle.zv_ule.specs.Search.{IsGap, compared};
ghost use Rattle.zv_map1.specs.Fits.{fits, pair_fits, rule_of};
ghost use Rattle.zv_map1.specs.Outcomes.{Inserts};
ghost use Rattle.zv_map1.specs.Room.{CanGrowBy, IsOwned, IsSameMap, KeepsOwned};
ghost use Rattle.zv_map1.specs.Views.{insert_entry, keys_of, look_up, nth, set_value_at, values_of};
ghost use Rattle.zv_map1.specs.Views.{without_key};

use crate::map::MapOver;
use std::alloc::Global;
use zv_map::{MapError, MutableZeroVecLike};
use zv_ule::{NoMemory, ZvArg, ZvKind, ZvOrd, ZvOrdArg};

/// The length of an element with its field. Memory has fewer than 2^64 bytes.
#[inline]
fn with_field(length: usize, field: usize) -> Result<usize, NoMemory>
    ensures { IfOk result (λ bytes. bytes ≡ length + field) }
{
    length.checked_add(field).ok_or(NoMemory)
}

impl<
    'a,
    K: ZvOrd,
    V: ZvKind,
    C: MutableZeroVecLike<'a, K> + Drop,
    D: MutableZeroVecLike<'a, V> + Drop,
> MapOver<K, V, C, D> {
    // ---- room

    /// Makes both vectors own their bytes, with so many to spare.
    fn reserve_bytes(&mut self, alloc: Global, keys: usize, values: usize) -> Result<(), NoMemory>
        ensures same { IsSameMap self.old self.new }
        ensures ok { OnOk result (CanGrowBy keys values self.new) }
    {
        self.keys.zvl_reserve_bytes(alloc, keys)?;
        self.values.zvl_reserve_bytes(alloc, values)
    }

    /// Makes room for a new pair.
    fn reserve_pair<Q: ZvArg<K>, R: ZvArg<V>>(
        &mut self,
        alloc: Global,
        key: &Q,
        value: &R,
    ) -> Result<(), NoMemory>
        requires key { length (Q.bytes key.now) < 2 ^ 64 }
        requires value { length (R.bytes value.now) < 2 ^ 64 }
        ensures same { IsSameMap self.old self.new }
        ensures ok { OnOk result (CanGrowBy (length (Q.bytes key.now) + C.field)
            (length (R.bytes value.now) + D.field) self.new) }
    {
        let (key_field, value_field) = (self.keys.zvl_field(), self.values.zvl_field());
        let keys = with_field(key.arg_len(), key_field)?;
        let values = with_field(value.arg_len(), value_field)?;
        self.reserve_bytes(alloc, keys, values)
    }

    // ---- new pairs

    /// The place of the key, or where it would go.
    fn place<Q: ZvOrdArg<K>>(&self, key: &Q) -> Result<usize, usize>
        requires { length (Q.bytes key.now) < 2 ^ 64 }
        ensures { MatchResult result
            (IsAt (compared K.cmp (keys_of self.now.pairs) (Q.bytes key.now)))
            (IsGap (compared K.cmp (keys_of self.now.pairs) (Q.bytes key.now))) }
    {
        self.as_borrowed().place(key)
    }

    /// Whether a new pair's key and value are taken by their lists.
    #[tactic(auto, using(crate::proofs::Zipped::parts))]
    fn takes_pair<Q: ZvArg<K>, R: ZvArg<V>>(&self, key: &Q, value: &R) -> bool
        requires key { length (Q.bytes key.now) < 2 ^ 64 }
        requires value { length (R.bytes value.now) < 2 ^ 64 }
        ensures { result ≡ pair_fits (rule_of C.takes_insert D.takes_insert D.takes_replace)
            self.now.pairs (Q.bytes key.now) (R.bytes value.now) }
    {
        self.keys.zvl_takes_insert(key.arg_len()) && self.values.zvl_takes_insert(value.arg_len())
    }

    /// Puts a new pair, which is taken, at its place in room that was made.
    #[tactic(auto, using(crate::proofs::Zipped::edited))]
    fn add_reserved<Q: ZvArg<K>, R: ZvArg<V>>(&mut self, at: usize, key: &Q, value: &R)
        requires key { length (Q.bytes key.now) < 2 ^ 64 }
        requires value { length (R.bytes value.now) < 2 ^ 64 }
        requires gap { IsGap (compared K.cmp (keys_of self.old.pairs) (Q.bytes key.now)) at }
        requires taken { IsTaken (pair_fits (rule_of C.takes_insert D.takes_insert D.takes_replace)
            self.old.pairs (Q.bytes key.now) (R.bytes value.now)) }
        requires room { CanGrowBy (length (Q.bytes key.now) + C.field)
            (length (R.bytes value.now) + D.field) self.old }
        ensures pairs { self.new.pairs ≡ insert_entry K.cmp self.old.pairs (Q.bytes key.now)
            (R.bytes value.now) }
        ensures owned { KeepsOwned self.old self.new }
    {
        self.keys.zvl_insert_reserved(at, key);
        self.values.zvl_insert_reserved(at, value);
    }

    /// Puts a new pair at its place. There is no value to give back.
    pub(crate) fn add<Q: ZvArg<K>, R: ZvArg<V>>(
        &mut self,
        alloc: Global,
        at: usize,
        key: &Q,
        value: &R,
    ) -> Result<Option<D::OwnedType>, MapError>
        requires key { length (Q.bytes key.now) < 2 ^ 64 }
        requires value { length (R.bytes value.now) < 2 ^ 64 }
        requires gap { IsGap (compared K.cmp (keys_of self.old.pairs) (Q.bytes key.now)) at }
        ensures { Inserts D.OwnedType.bytes self.old self.new
            (insert_entry K.cmp self.old.pairs (Q.bytes key.now) (R.bytes value.now)) None
            (pair_fits (rule_of C.takes_insert D.takes_insert D.takes_replace) self.old.pairs
            (Q.bytes key.now) (R.bytes value.now)) result }
    {
        if !self.takes_pair(key, value) {
            return Err(MapError::TooLarge);
        }
        self.reserve_pair(alloc, key, value)?;
        self.add_reserved(at, key, value);
        Ok(None)
    }

    // ---- values of keys that are there

    /// Gives the key at a place another value, and gives back the one that it had.
    #[tactic(auto, using(crate::proofs::Zipped::edited))]
    fn replace_value<R: ZvArg<V>>(
        &mut self,
        alloc: Global,
        at: usize,
        value: &R,
    ) -> Result<Option<D::OwnedType>, MapError>
        requires at { at < length self.old.pairs }
        requires value { length (R.bytes value.now) < 2 ^ 64 }
        ensures { Inserts D.OwnedType.bytes self.old self.new
            (set_value_at self.old.pairs at (R.bytes value.now))
            (Some (nth (values_of self.old.pairs) at))
            (D.takes_replace (values_of self.old.pairs) at (length (R.bytes value.now))) result }
    {
        let old = self.values.zvl_replace(alloc, at, value)?;
        Ok(Some(old))
    }

    /// Gives a key a value, and gives back the value that it had.
    ///
    /// # Errors
    /// `TooLarge` where the value, or a key that is not there yet, is refused by the size rule of
    /// its list. Nothing is changed then. `Memory` else: the pairs are the same, though the vectors
    /// may have become the map's own.
    ///
    /// # Cost
    /// One search. All memory is taken before the first change; each vector that changes then moves
    /// what stands behind the place.
    pub fn insert<Q: ZvOrdArg<K>, R: ZvArg<V>>(
        &mut self,
        alloc: Global,
        key: &Q,
        value: &R,
    ) -> Result<Option<D::OwnedType>, MapError>
        requires key { length (Q.bytes key.now) < 2 ^ 64 }
        requires value { length (R.bytes value.now) < 2 ^ 64 }
        ensures pairs { OnOk result (self.new.pairs ≡ insert_entry K.cmp self.old.pairs
            (Q.bytes key.now) (R.bytes value.now)) }
        ensures before { IfOk result (λ old. option_map D.OwnedType.bytes old
            ≡ look_up K.cmp self.old.pairs (Q.bytes key.now)) }
        ensures owned { OnOk result (KeepsOwned self.old self.new) }
        ensures err { OnErr result (IsSameMap self.old self.new) }
        ensures unchanged { IfErr result (λ e. (e ≡ MapError.Memory → ⊥) → self.new ≡ self.old) }
        ensures refused { TooLargeUnless
            (fits (rule_of C.takes_insert D.takes_insert D.takes_replace) K.cmp self.old.pairs
            (Q.bytes key.now) (R.bytes value.now)) result }
    {
        match self.place(key) {
            Ok(at) => self.replace_value(alloc, at, value),
            Err(at) => self.add(alloc, at, key, value),
        }
    }

    // ---- removals

    /// Takes the pair at a place out of vectors that own their bytes.
    #[tactic(auto, using(crate::proofs::Zipped::edited))]
    fn remove_at(&mut self, at: usize)
        requires at { at < length self.old.pairs }
        requires owned { IsOwned self.old }
        ensures pairs { self.new.pairs ≡ remove self.old.pairs at }
        ensures owned { KeepsOwned self.old self.new }
    {
        self.keys.zvl_discard(at);
        self.values.zvl_discard(at);
    }

    /// Makes both vectors own their bytes.
    fn make_owned(&mut self, alloc: Global) -> Result<(), NoMemory>
        ensures same { IsSameMap self.old self.new }
        ensures owned { OnOk result (IsOwned self.new) }
    {
        self.reserve_bytes(alloc, 0, 0)
    }

    /// Takes the pair at a place out, and gives back its value.
    #[tactic(auto, using(crate::proofs::Zipped::parts))]
    fn take_out(&mut self, alloc: Global, at: usize) -> Result<D::OwnedType, NoMemory>
        requires { at < length self.old.pairs }
        ensures pairs { OnOk result (self.new.pairs ≡ remove self.old.pairs at) }
        ensures before { IfOk result (λ old. D.OwnedType.bytes old
            ≡ nth (values_of self.old.pairs) at) }
        ensures owned { OnOk result (KeepsOwned self.old self.new) }
        ensures err { OnErr result (IsSameMap self.old self.new) }
    {
        let old = self.values.zvl_get_owned(alloc, at)?;
        self.make_owned(alloc)?;
        self.remove_at(at);
        Ok(old)
    }

    /// Takes a key out, and gives back the value that it had. After `NoMemory` the map is the same,
    /// though its vectors may have become its own. Where the key isn't there, nothing is done.
    ///
    /// # Cost
    /// One search. All memory is taken before the first change; each vector then moves what stands
    /// behind the place.
    pub fn remove<Q: ZvOrdArg<K>>(
        &mut self,
        alloc: Global,
        key: &Q,
    ) -> Result<Option<D::OwnedType>, NoMemory>
        requires { length (Q.bytes key.now) < 2 ^ 64 }
        ensures pairs { OnOk result (self.new.pairs ≡ without_key K.cmp self.old.pairs
            (Q.bytes key.now)) }
        ensures before { IfOk result (λ old. option_map D.OwnedType.bytes old
            ≡ look_up K.cmp self.old.pairs (Q.bytes key.now)) }
        ensures owned { OnOk result (KeepsOwned self.old self.new) }
        ensures absent { look_up K.cmp self.old.pairs (Q.bytes key.now) ≡ None →
            (is_ok result ≡ true) × (self.new ≡ self.old) }
        ensures err { OnErr result (IsSameMap self.old self.new) }
    {
        let Ok(at) = self.place(key) else {
            return Ok(None);
        };
        let old = self.take_out(alloc, at)?;
        Ok(Some(old))
    }
}
