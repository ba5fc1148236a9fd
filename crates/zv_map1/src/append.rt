// Pairs that are put at the end of a map, and maps that are made of pairs in any order.
ghost use Rattle.std.specs.Prelude.{◌≡◌, ◌^◌, ◌<◌, ◌&&◌, ◌||◌, [], length, not, IsTrue, IfErr};
ghost use Rattle.std.specs.Prelude.{IfOk, IfSome, OnErr, OnOk, is_some, option_map};
ghost use Rattle.std.specs.List.{All};
ghost use Rattle.zv_map.specs.Refusals.{TooLargeUnless};
ghost use Rattle.zv_map.specs.declared.error.MapError.{MapError};
ghost use Rattle.zv_map1.specs.Appends.{appended, is_above};
ghost use Rattle.zv_map1.specs.Building.{TooLargeOrMemory, all_fit, insert_all, written};
ghost use Rattle.zv_map1.specs.Fits.{fits, pair_fits, rule_of};
ghost use Rattle.zv_map1.specs.Room.{IsSameMap, KeepsOwned};
ghost use Rattle.zv_map1.specs.Views.{insert_entry, keys_of, look_up};
ghost use Rattle.zv_ule.specs.Search.{IsGap, compared};

use crate::map::MapOver;
use std::alloc::Global;
use zv_map::{MapError, MutableZeroVecLike, ZeroVecSearch, ZvContainer};
use zv_owned::Encoded;
use zv_ule::{EncodeAsVarULE, VarULE, ZvArg, ZvKind, ZvOrd, ZvOrdArg};

impl<K: ZvOrd, V: ZvKind, C: ZvContainer<K>, D: ZvContainer<V>> MapOver<K, V, C, D> {
    /// Whether the key is above the last one, or there is none.
    #[tactic(auto, using(crate::proofs::Appended::ends))]
    fn is_above<Q: ZvOrdArg<K>>(&self, key: &Q) -> bool
        requires { length (Q.bytes key.now) < 2 ^ 64 }
        ensures above { result ≡ is_above K.cmp self.now.pairs (Q.bytes key.now) }
        ensures gap { IsTrue result → IsGap
            (compared K.cmp (keys_of self.now.pairs) (Q.bytes key.now)) (length self.now.pairs) }
    {
        let last = self.keys.zvl_len().saturating_sub(1);
        match self.keys.zvl_get(last) {
            Some(element) => C::t_cmp_get(key, &element).is_gt(),
            None => true,
        }
    }
}

impl<
    'a,
    K: ZvOrd,
    V: ZvKind,
    C: MutableZeroVecLike<'a, K> + Drop,
    D: MutableZeroVecLike<'a, V> + Drop,
> MapOver<K, V, C, D> {
    /// Puts a pair at the end, or hands it back exactly where its key isn't above the last one.
    ///
    /// # Errors
    /// As [`insert`](Self::insert), where the pair isn't handed back.
    ///
    /// # Cost
    /// One comparison. No element is moved where all have one width; where they have any lengths,
    /// each is moved by a field's width, since the fields stand before them.
    #[tactic(auto, using(crate::proofs::Appended::appended_is))]
    pub fn try_append<'b, Q: ZvOrdArg<K>, R: ZvArg<V>>(
        &mut self,
        alloc: Global,
        key: &'b Q,
        value: &'b R,
    ) -> Result<Option<(&'b Q, &'b R)>, MapError>
        requires key { length (Q.bytes key.now) < 2 ^ 64 }
        requires value { length (R.bytes value.now) < 2 ^ 64 }
        ensures pairs { OnOk result (self.new.pairs ≡ appended K.cmp self.old.pairs
            (Q.bytes key.now) (R.bytes value.now)) }
        ensures back { IfOk result (λ o. is_some o
            ≡ not (is_above K.cmp self.old.pairs (Q.bytes key.now))) }
        ensures same { IfOk result (λ o. IfSome o (λ p. (p.0.now ≡ key.now)
            × (p.1.now ≡ value.now))) }
        ensures kept { IfOk result (λ o. IfSome o (λ _. self.new ≡ self.old)) }
        ensures owned { OnOk result (KeepsOwned self.old self.new) }
        ensures err { OnErr result (IsSameMap self.old self.new) }
        ensures unchanged { IfErr result (λ e. (e ≡ MapError.Memory → ⊥) → self.new ≡ self.old) }
        ensures refused { TooLargeUnless
            (not (is_above K.cmp self.old.pairs (Q.bytes key.now)) || pair_fits
            (rule_of C.takes_insert D.takes_insert D.takes_replace) self.old.pairs
            (Q.bytes key.now) (R.bytes value.now)) result }
    {
        if !self.is_above(key) {
            return Ok(Some((key, value)));
        }
        let _ = self.add(alloc, self.len(), key, value)?;
        Ok(None)
    }

    /// Gives a key a value, at the end where the key is above all, and gives back the value that it
    /// had.
    ///
    /// # Errors
    /// As [`insert`](Self::insert).
    ///
    /// # Cost
    /// One comparison and the moves of [`try_append`](Self::try_append) where the key is above all,
    /// else one comparison more than `insert`.
    #[tactic(auto, using(crate::proofs::Appended::none_above))]
    pub fn append_or_insert<Q: ZvOrdArg<K>, R: ZvArg<V>>(
        &mut self,
        alloc: Global,
        key: &Q,
        value: &R,
    ) -> Result<Option<D::OwnedType>, MapError>
        requires key { length (Q.bytes key.now) < 2 ^ 64 }
        requires value { length (R.bytes value.now) < 2 ^ 64 }
        ensures pairs { OnOk result (self.new.pairs ≡ insert_entry K.cmp self.old.pairs
            (Q.bytes key.now) (R.bytes value.now)) }
        ensures before { IfOk result (λ old. option_map D.OwnedType.bytes old
            ≡ look_up K.cmp self.old.pairs (Q.bytes key.now)) }
        ensures owned { OnOk result (KeepsOwned self.old self.new) }
        ensures err { OnErr result (IsSameMap self.old self.new) }
        ensures unchanged { IfErr result (λ e. (e ≡ MapError.Memory → ⊥) → self.new ≡ self.old) }
        ensures refused { TooLargeUnless
            (fits (rule_of C.takes_insert D.takes_insert D.takes_replace) K.cmp self.old.pairs
            (Q.bytes key.now) (R.bytes value.now)) result }
    {
        if self.is_above(key) {
            self.add(alloc, self.len(), key, value)
        } else {
            self.insert(alloc, key, value)
        }
    }

    /// The map of pairs in any order, with the last value given for each key.
    ///
    /// # Errors
    /// `TooLarge` exactly where inserting the pairs one after another would be refused, unless
    /// memory was wanted before.
    ///
    /// # Cost
    /// A pair whose key is above all before it costs one comparison, any other one an insertion.
    #[tactic(auto, using(std::proofs::lemmas::List::drop_more))]
    pub fn try_from_pairs<A: ZvOrdArg<K>, B: ZvArg<V>>(
        alloc: Global,
        pairs: &[(A, B)],
    ) -> Result<Self, MapError>
        requires usable_keys { IsTrue K.usable }
        requires usable_values { IsTrue V.usable }
        requires keys { All (λ p. length (A.bytes p.0) < 2 ^ 64) pairs.now }
        requires values { All (λ p. length (B.bytes p.1) < 2 ^ 64) pairs.now }
        ensures pairs { IfOk result (λ m. m.pairs
            ≡ insert_all K.cmp [] (written A.bytes B.bytes pairs.now)) }
        ensures refused { TooLargeOrMemory
            (all_fit (rule_of C.takes_insert D.takes_insert D.takes_replace) K.cmp []
            (written A.bytes B.bytes pairs.now)) result }
    {
        let mut map = Self::new();
        for pair in pairs {
            let _ = map.append_or_insert(alloc, &pair.0, &pair.1)?;
        }
        Ok(map)
    }
}

impl<
    'a,
    K: ZvOrd,
    V: VarULE,
    C: MutableZeroVecLike<'a, K> + Drop,
    D: MutableZeroVecLike<'a, V> + Drop,
> MapOver<K, V, C, D> {
    /// Gives a key a value by the value's spelling, and gives back the value that it had.
    ///
    /// # Errors
    /// As [`insert`](Self::insert), and `TooLarge` also where the value has no spelling.
    pub fn insert_var_v<Q: ZvOrdArg<K>, E: EncodeAsVarULE<V>>(
        &mut self,
        alloc: Global,
        key: &Q,
        value: &E,
    ) -> Result<Option<D::OwnedType>, MapError>
        requires key { length (Q.bytes key.now) < 2 ^ 64 }
        ensures pairs { OnOk result (self.new.pairs ≡ insert_entry K.cmp self.old.pairs
            (Q.bytes key.now) (E.spelling value.now)) }
        ensures before { IfOk result (λ old. option_map D.OwnedType.bytes old
            ≡ look_up K.cmp self.old.pairs (Q.bytes key.now)) }
        ensures owned { OnOk result (KeepsOwned self.old self.new) }
        ensures err { OnErr result (IsSameMap self.old self.new) }
        ensures unchanged { IfErr result (λ e. (e ≡ MapError.Memory → ⊥) → self.new ≡ self.old) }
        ensures refused { TooLargeUnless (E.fits value.now &&
            fits (rule_of C.takes_insert D.takes_insert D.takes_replace) K.cmp self.old.pairs
            (Q.bytes key.now) (E.spelling value.now)) result }
    {
        let _usable = self.values();
        let Some(spelled) = Encoded::new(value) else {
            return Err(MapError::TooLarge);
        };
        self.insert(alloc, key, &spelled)
    }
}
