// Searches for a pair of keys, and what is put and taken out where they end.
ghost use Rattle.std.specs.Prelude.{◌≡◌, ◌&&◌, ◌^◌, ◌<◌, IfErr, IfOk, None, OnErr, OnOk, is_none};
ghost use Rattle.std.specs.Prelude.{is_ok, is_some, length, option_map, true};
ghost use Rattle.zv_ule.specs.Views.{element_of};
ghost use Rattle.zv_map2d.specs.Fits.{fits, pair_fits, rule_of};
ghost use Rattle.zv_map2d.specs.Places.{IsPlace};
ghost use Rattle.zv_map2d.specs.Refusals.{RefusedUnless, is_full};
ghost use Rattle.zv_map2d.specs.Room.{HasRoomFor, IsOwned, IsSameMap, KeepsOwned, SpendsFor};
ghost use Rattle.zv_map2d.specs.Rows.{del, find, put};

use crate::error::Map2dError;
use crate::map::Map2dOver;
use crate::place::Place;
use std::alloc::Global;
use zv_map::{MutableZeroVecLike, TooLarge};
use zv_ule::{NoMemory, VarRef, ZvArg, ZvKind, ZvOrd, ZvOrdArg};

impl<
    'a,
    K0: ZvOrd,
    K1: ZvOrd,
    V: ZvKind,
    C0: MutableZeroVecLike<'a, K0> + Drop,
    C1: MutableZeroVecLike<'a, K1> + Drop,
    D: MutableZeroVecLike<'a, V> + Drop,
> Map2dOver<'a, K0, K1, V, C0, C1, D> {
    // ---- places

    /// The place of a pair of keys, at which it can be read and changed with no other search.
    ///
    /// It searches the first keys and then one row's second keys, each by halving, and takes no
    /// memory.
    pub fn find_place<Q0: ZvOrdArg<K0>, Q1: ZvOrdArg<K1>>(&self, key0: &Q0, key1: &Q1) -> Place
        requires key0 { length (Q0.bytes key0.now) < 2 ^ 64 }
        requires key1 { length (Q1.bytes key1.now) < 2 ^ 64 }
        ensures { IsPlace K0.cmp K1.cmp self.now.rows (Q0.bytes key0.now) (Q1.bytes key1.now)
            result }
    {
        self.as_borrowed().place(key0, key1)
    }

    /// The value at the place of a pair of keys, if there is one.
    pub fn value_at<Q0: ZvOrdArg<K0>, Q1: ZvOrdArg<K1>>(
        &self,
        place: Place,
        key0: &Q0,
        key1: &Q1,
    ) -> Option<VarRef<'_, V>>
        requires { IsPlace K0.cmp K1.cmp self.now.rows (Q0.bytes key0.now) (Q1.bytes key1.now)
            place }
        ensures { option_map element_of result
            ≡ find K0.cmp K1.cmp self.now.rows (Q0.bytes key0.now) (Q1.bytes key1.now) }
    {
        self.as_borrowed().value_there(place, key0, key1)
    }

    /// Whether a new pair's key and value are taken by their lists.
    fn takes_pair<Q1: ZvArg<K1>, R: ZvArg<V>>(&self, key1: &Q1, value: &R) -> bool
        requires key1 { length (Q1.bytes key1.now) < 2 ^ 64 }
        requires value { length (R.bytes value.now) < 2 ^ 64 }
        ensures { result ≡ pair_fits
            (rule_of C0.takes_insert C1.takes_insert D.takes_insert D.takes_replace)
            self.now.rows (Q1.bytes key1.now) (R.bytes value.now) }
    {
        self.keys1.zvl_takes_insert(key1.arg_len()) && self.values.zvl_takes_insert(value.arg_len())
    }

    /// Whether a value fits at the place of its keys, as [`would_take`](Self::would_take) says.
    pub fn takes_at<Q0: ZvOrdArg<K0>, Q1: ZvOrdArg<K1>, R: ZvArg<V>>(
        &self,
        place: Place,
        key0: &Q0,
        key1: &Q1,
        value: &R,
    ) -> bool
        requires place { IsPlace K0.cmp K1.cmp self.now.rows (Q0.bytes key0.now)
            (Q1.bytes key1.now) place }
        requires key0 { length (Q0.bytes key0.now) < 2 ^ 64 }
        requires key1 { length (Q1.bytes key1.now) < 2 ^ 64 }
        requires value { length (R.bytes value.now) < 2 ^ 64 }
        ensures { result ≡ fits
            (rule_of C0.takes_insert C1.takes_insert D.takes_insert D.takes_replace)
            K0.cmp K1.cmp self.now.rows
            (Q0.bytes key0.now) (Q1.bytes key1.now) (R.bytes value.now) }
    {
        match place {
            Place::Pair { row, pair } => {
                let at = self.pair_start(row, pair);
                self.values.zvl_takes_replace(at, value.arg_len())
            }
            Place::InRow { row: _, pair: _ } => self.takes_pair(key1, value),
            Place::NewRow { row: _ } => {
                self.keys0.zvl_takes_insert(key0.arg_len()) && self.takes_pair(key1, value)
            }
        }
    }

    /// Whether a value fits: in place of the one that the pair has, or with the keys that are not
    /// there yet, by the size rules of the vectors.
    pub fn would_take<Q0: ZvOrdArg<K0>, Q1: ZvOrdArg<K1>, R: ZvArg<V>>(
        &self,
        key0: &Q0,
        key1: &Q1,
        value: &R,
    ) -> bool
        requires key0 { length (Q0.bytes key0.now) < 2 ^ 64 }
        requires key1 { length (Q1.bytes key1.now) < 2 ^ 64 }
        requires value { length (R.bytes value.now) < 2 ^ 64 }
        ensures { result ≡ fits
            (rule_of C0.takes_insert C1.takes_insert D.takes_insert D.takes_replace)
            K0.cmp K1.cmp self.now.rows
            (Q0.bytes key0.now) (Q1.bytes key1.now) (R.bytes value.now) }
    {
        self.takes_at(self.find_place(key0, key1), key0, key1, value)
    }

    // ---- puts

    /// Gives a pair of keys a value, in room that was made for it, and says whether the pair was
    /// there.
    ///
    /// # Errors
    /// [`TooLarge`] where the value doesn't fit. The map is unchanged then.
    ///
    /// # Cost
    /// Two searches. Of each vector that changes it moves what stands behind the place; it takes no
    /// memory.
    pub fn put_reserved<Q0: ZvOrdArg<K0>, Q1: ZvOrdArg<K1>, R: ZvArg<V>>(
        &mut self,
        key0: &Q0,
        key1: &Q1,
        value: &R,
    ) -> Result<bool, TooLarge>
        requires key0 { length (Q0.bytes key0.now) < 2 ^ 64 }
        requires key1 { length (Q1.bytes key1.now) < 2 ^ 64 }
        requires value { length (R.bytes value.now) < 2 ^ 64 }
        requires room { HasRoomFor C0.field C1.field D.field (length (Q0.bytes key0.now))
            (length (Q1.bytes key1.now)) (length (R.bytes value.now)) 1 self.old }
        ensures rows { OnOk result (self.new.rows ≡ put K0.cmp K1.cmp self.old.rows
            (Q0.bytes key0.now) (Q1.bytes key1.now) (R.bytes value.now)) }
        ensures found { IfOk result (λ found. found ≡ is_some (find K0.cmp K1.cmp self.old.rows
            (Q0.bytes key0.now) (Q1.bytes key1.now))) }
        ensures err { OnErr result (self.new ≡ self.old) }
        ensures refused { is_ok result ≡ fits
            (rule_of C0.takes_insert C1.takes_insert D.takes_insert D.takes_replace)
            K0.cmp K1.cmp self.old.rows
            (Q0.bytes key0.now) (Q1.bytes key1.now) (R.bytes value.now) }
        ensures spends { SpendsFor C0.field C1.field D.field (length (Q0.bytes key0.now))
            (length (Q1.bytes key1.now)) (length (R.bytes value.now)) 1 self.old self.new }
    {
        let place = self.find_place(key0, key1);
        if !self.takes_at(place, key0, key1, value) {
            return Err(TooLarge);
        }
        self.put_at(place, key0, key1, value);
        Ok(place.is_pair())
    }

    /// Gives a pair of keys a value at their place, and gives back the value that it had.
    pub(crate) fn insert_at<Q0: ZvOrdArg<K0>, Q1: ZvOrdArg<K1>, R: ZvArg<V>>(
        &mut self,
        alloc: Global,
        place: Place,
        key0: &Q0,
        key1: &Q1,
        value: &R,
    ) -> Result<Option<D::OwnedType>, Map2dError>
        requires place { IsPlace K0.cmp K1.cmp self.old.rows (Q0.bytes key0.now)
            (Q1.bytes key1.now) place }
        requires key0 { length (Q0.bytes key0.now) < 2 ^ 64 }
        requires key1 { length (Q1.bytes key1.now) < 2 ^ 64 }
        requires value { length (R.bytes value.now) < 2 ^ 64 }
        ensures rows { OnOk result (self.new.rows ≡ put K0.cmp K1.cmp self.old.rows
            (Q0.bytes key0.now) (Q1.bytes key1.now) (R.bytes value.now)) }
        ensures before { IfOk result (λ old. option_map D.OwnedType.bytes old
            ≡ find K0.cmp K1.cmp self.old.rows (Q0.bytes key0.now) (Q1.bytes key1.now)) }
        ensures stays { OnOk result (KeepsOwned self.old self.new) }
        ensures err { OnErr result (IsSameMap self.old self.new) }
        ensures unchanged { IfErr result (λ e. (e ≡ Map2dError.Memory → ⊥) → self.new ≡ self.old) }
        ensures refused { RefusedUnless
            (fits (rule_of C0.takes_insert C1.takes_insert D.takes_insert D.takes_replace)
            K0.cmp K1.cmp self.old.rows
            (Q0.bytes key0.now) (Q1.bytes key1.now) (R.bytes value.now))
            (is_none (find K0.cmp K1.cmp self.old.rows (Q0.bytes key0.now) (Q1.bytes key1.now))
            && is_full self.old.rows) result }
    {
        if let Place::Pair { row, pair } = place {
            let at = self.pair_start(row, pair);
            let old = self.values.zvl_replace(alloc, at, value)?;
            return Ok(Some(old));
        }
        if !self.takes_at(place, key0, key1, value) {
            return Err(Map2dError::TooLarge);
        }
        self.reserve_for(alloc, key0.arg_len(), key1.arg_len(), value.arg_len(), 1)?;
        self.put_at(place, key0, key1, value);
        Ok(None)
    }

    /// Gives a pair of keys a value, and gives back the value that it had.
    ///
    /// # Errors
    /// `TooLarge` where the value, or for a new pair a key that is not there yet, is refused by the
    /// size rule of its list; then `TooMany` where a new pair meets a map of 2^32 - 1 pairs; then
    /// `Memory`. The map is unchanged after the first two, and the same after `Memory`, though its
    /// vectors may have become its own.
    ///
    /// # Cost
    /// Two searches. All memory is taken before the first change; each vector that changes then
    /// moves what stands behind the place.
    pub fn insert<Q0: ZvOrdArg<K0>, Q1: ZvOrdArg<K1>, R: ZvArg<V>>(
        &mut self,
        alloc: Global,
        key0: &Q0,
        key1: &Q1,
        value: &R,
    ) -> Result<Option<D::OwnedType>, Map2dError>
        requires key0 { length (Q0.bytes key0.now) < 2 ^ 64 }
        requires key1 { length (Q1.bytes key1.now) < 2 ^ 64 }
        requires value { length (R.bytes value.now) < 2 ^ 64 }
        ensures rows { OnOk result (self.new.rows ≡ put K0.cmp K1.cmp self.old.rows
            (Q0.bytes key0.now) (Q1.bytes key1.now) (R.bytes value.now)) }
        ensures before { IfOk result (λ old. option_map D.OwnedType.bytes old
            ≡ find K0.cmp K1.cmp self.old.rows (Q0.bytes key0.now) (Q1.bytes key1.now)) }
        ensures stays { OnOk result (KeepsOwned self.old self.new) }
        ensures err { OnErr result (IsSameMap self.old self.new) }
        ensures unchanged { IfErr result (λ e. (e ≡ Map2dError.Memory → ⊥) → self.new ≡ self.old) }
        ensures refused { RefusedUnless
            (fits (rule_of C0.takes_insert C1.takes_insert D.takes_insert D.takes_replace)
            K0.cmp K1.cmp self.old.rows
            (Q0.bytes key0.now) (Q1.bytes key1.now) (R.bytes value.now))
            (is_none (find K0.cmp K1.cmp self.old.rows (Q0.bytes key0.now) (Q1.bytes key1.now))
            && is_full self.old.rows) result }
    {
        let place = self.find_place(key0, key1);
        self.insert_at(alloc, place, key0, key1, value)
    }

    // ---- removals

    /// Takes a pair of keys out, with its row where that was its only pair, and says whether it was
    /// there. It takes no memory, and lowers no vector's room.
    pub fn discard<Q0: ZvOrdArg<K0>, Q1: ZvOrdArg<K1>>(&mut self, key0: &Q0, key1: &Q1) -> bool
        requires key0 { length (Q0.bytes key0.now) < 2 ^ 64 }
        requires key1 { length (Q1.bytes key1.now) < 2 ^ 64 }
        requires owned { IsOwned self.old }
        ensures rows { self.new.rows
            ≡ del K0.cmp K1.cmp self.old.rows (Q0.bytes key0.now) (Q1.bytes key1.now) }
        ensures found { result ≡ is_some (find K0.cmp K1.cmp self.old.rows
            (Q0.bytes key0.now) (Q1.bytes key1.now)) }
        ensures spends { SpendsFor C0.field C1.field D.field 0 0 0 0 self.old self.new }
    {
        let place = self.find_place(key0, key1);
        self.discard_at(place, key0, key1)
    }

    /// Takes a pair of keys out, with its row where that was its only pair, and gives back the
    /// value that it had. After `NoMemory` the map is the same, though its vectors may have become
    /// its own. Where the pair isn't there, nothing is done.
    ///
    /// # Cost
    /// Two searches. All memory is taken before the first change; each vector that changes then
    /// moves what stands behind the place.
    pub fn remove<Q0: ZvOrdArg<K0>, Q1: ZvOrdArg<K1>>(
        &mut self,
        alloc: Global,
        key0: &Q0,
        key1: &Q1,
    ) -> Result<Option<D::OwnedType>, NoMemory>
        requires key0 { length (Q0.bytes key0.now) < 2 ^ 64 }
        requires key1 { length (Q1.bytes key1.now) < 2 ^ 64 }
        ensures rows { OnOk result (self.new.rows
            ≡ del K0.cmp K1.cmp self.old.rows (Q0.bytes key0.now) (Q1.bytes key1.now)) }
        ensures before { IfOk result (λ old. option_map D.OwnedType.bytes old
            ≡ find K0.cmp K1.cmp self.old.rows (Q0.bytes key0.now) (Q1.bytes key1.now)) }
        ensures stays { OnOk result (KeepsOwned self.old self.new) }
        ensures absent { find K0.cmp K1.cmp self.old.rows (Q0.bytes key0.now) (Q1.bytes key1.now)
            ≡ None → (is_ok result ≡ true) × (self.new ≡ self.old) }
        ensures err { OnErr result (IsSameMap self.old self.new) }
    {
        let view = self.as_borrowed();
        let place = view.place(key0, key1);
        let Place::Pair { row, pair } = place else {
            return Ok(None);
        };
        let at = view.pair_start(row, pair);
        let old = self.values.zvl_get_owned(alloc, at)?;
        self.make_owned(alloc)?;
        self.discard_at(place, key0, key1);
        Ok(Some(old))
    }
}
