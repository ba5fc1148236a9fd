// Pairs at the end of a map, and maps that are made of pairs.
ghost use Rattle.std.specs.Prelude.{◌≡◌, ◌⊎◌, ◌&&◌, ◌^◌, ◌<◌, [], false, true, not, IfErr, IfOk};
ghost use Rattle.std.specs.Prelude.{IfSome, IsOk, None, OnErr, OnOk, IsTrue, Some, cond, is_none};
ghost use Rattle.std.specs.Prelude.{is_some, length};
ghost use Rattle.std.specs.List.{All};
ghost use Rattle.zv_map2d.specs.Appending.{first_refusal, is_above, put_all, written};
ghost use Rattle.zv_map2d.specs.Fits.{fits, rule_of};
ghost use Rattle.zv_map2d.specs.Refusals.{RefusedUnless, is_full};
ghost use Rattle.zv_map2d.specs.Room.{IsSameMap};
ghost use Rattle.zv_map2d.specs.Rows.{find, put};

use crate::error::Map2dError;
use crate::map::Map2dOver;
use std::alloc::Global;
use zv_map::MutableZeroVecLike;
use zv_ule::{ZvArg, ZvKind, ZvOrd, ZvOrdArg};

impl<
    'a,
    K0: ZvOrd,
    K1: ZvOrd,
    V: ZvKind,
    C0: MutableZeroVecLike<'a, K0> + Drop,
    C1: MutableZeroVecLike<'a, K1> + Drop,
    D: MutableZeroVecLike<'a, V> + Drop,
> Map2dOver<'a, K0, K1, V, C0, C1, D> {
    /// Gives a pair of keys that is above the last pair a value, and hands back what was given
    /// where it isn't above. It compares with the last keys alone.
    ///
    /// # Errors
    /// Those of [`insert`](Self::insert), and none where what was given is handed back.
    pub fn try_append<'b, Q0: ZvOrdArg<K0>, Q1: ZvOrdArg<K1>, R: ZvArg<V>>(
        &mut self,
        alloc: Global,
        key0: &'b Q0,
        key1: &'b Q1,
        value: &'b R,
    ) -> Result<Option<(&'b Q0, &'b Q1, &'b R)>, Map2dError>
        requires key0 { length (Q0.bytes key0.now) < 2 ^ 64 }
        requires key1 { length (Q1.bytes key1.now) < 2 ^ 64 }
        requires value { length (R.bytes value.now) < 2 ^ 64 }
        ensures rows { OnOk result (self.new.rows ≡ cond
            (is_above K0.cmp K1.cmp self.old.rows (Q0.bytes key0.now) (Q1.bytes key1.now))
            (put K0.cmp K1.cmp self.old.rows
            (Q0.bytes key0.now) (Q1.bytes key1.now) (R.bytes value.now))
            self.old.rows) }
        ensures back { IfOk result (λ back. is_some back ≡ not
            (is_above K0.cmp K1.cmp self.old.rows (Q0.bytes key0.now) (Q1.bytes key1.now))) }
        ensures given { IfOk result (λ back. IfSome back (λ t. (t.0.now ≡ key0.now)
            × (t.1.now ≡ key1.now) × (t.2.now ≡ value.now))) }
        ensures same { IfOk result (λ back. IfSome back (λ _. self.new ≡ self.old)) }
        ensures new { is_above K0.cmp K1.cmp self.old.rows (Q0.bytes key0.now) (Q1.bytes key1.now)
            ≡ true → find K0.cmp K1.cmp self.old.rows (Q0.bytes key0.now) (Q1.bytes key1.now)
            ≡ None }
        ensures err { OnErr result (IsSameMap self.old self.new) }
        ensures unchanged { IfErr result (λ e. (e ≡ Map2dError.Memory → ⊥) → self.new ≡ self.old) }
        ensures accepted { is_above K0.cmp K1.cmp self.old.rows
            (Q0.bytes key0.now) (Q1.bytes key1.now) ≡ false → IsOk result }
        ensures refused { is_above K0.cmp K1.cmp self.old.rows
            (Q0.bytes key0.now) (Q1.bytes key1.now) ≡ true → RefusedUnless
            (fits (rule_of C0.takes_insert C1.takes_insert D.takes_insert D.takes_replace)
            K0.cmp K1.cmp self.old.rows
            (Q0.bytes key0.now) (Q1.bytes key1.now) (R.bytes value.now))
            (is_full self.old.rows) result }
    {
        let Some(place) = self.as_borrowed().end_place(key0, key1) else {
            return Ok(Some((key0, key1, value)));
        };
        let _ = self.insert_at(alloc, place, key0, key1, value)?;
        Ok(None)
    }

    /// Gives a pair of keys a value, after all pairs where it is above the last of them.
    fn put<Q0: ZvOrdArg<K0>, Q1: ZvOrdArg<K1>, R: ZvArg<V>>(
        &mut self,
        alloc: Global,
        key0: &Q0,
        key1: &Q1,
        value: &R,
    ) -> Result<Option<D::OwnedType>, Map2dError>
        requires key0 { length (Q0.bytes key0.now) < 2 ^ 64 }
        requires key1 { length (Q1.bytes key1.now) < 2 ^ 64 }
        requires value { length (R.bytes value.now) < 2 ^ 64 }
        ensures rows { OnOk result (self.new.rows ≡ put K0.cmp K1.cmp self.old.rows
            (Q0.bytes key0.now) (Q1.bytes key1.now) (R.bytes value.now)) }
        ensures refused { RefusedUnless
            (fits (rule_of C0.takes_insert C1.takes_insert D.takes_insert D.takes_replace)
            K0.cmp K1.cmp self.old.rows
            (Q0.bytes key0.now) (Q1.bytes key1.now) (R.bytes value.now))
            (is_none (find K0.cmp K1.cmp self.old.rows (Q0.bytes key0.now) (Q1.bytes key1.now))
            && is_full self.old.rows) result }
    {
        match self.as_borrowed().end_place(key0, key1) {
            Some(place) => self.insert_at(alloc, place, key0, key1, value),
            None => self.insert(alloc, key0, key1, value),
        }
    }

    /// The map of pairs of keys with their values, of which the last for a pair of keys counts.
    /// Triples in the order of their keys are appended, one after another, without a search.
    ///
    /// # Errors
    /// That of the first insertion, in turn, that is refused; or `Memory`.
    pub fn try_from_triples<A: ZvOrdArg<K0>, B: ZvOrdArg<K1>, C: ZvArg<V>>(
        alloc: Global,
        triples: &[(A, B, C)],
    ) -> Result<Self, Map2dError>
        requires usable0 { IsTrue K0.usable }
        requires usable1 { IsTrue K1.usable }
        requires usable { IsTrue V.usable }
        requires keys0 { All (λ t. length (A.bytes t.0) < 2 ^ 64) triples.now }
        requires keys1 { All (λ t. length (B.bytes t.1) < 2 ^ 64) triples.now }
        requires values { All (λ t. length (C.bytes t.2) < 2 ^ 64) triples.now }
        ensures rows { IfOk result (λ m. m.rows ≡ put_all K0.cmp K1.cmp []
            (written A.bytes B.bytes C.bytes triples.now)) }
        ensures accepted { OnOk result (first_refusal
            (rule_of C0.takes_insert C1.takes_insert D.takes_insert D.takes_replace)
            K0.cmp K1.cmp [] (written A.bytes B.bytes C.bytes triples.now) ≡ None) }
        ensures refused { IfErr result (λ e. (e ≡ Map2dError.Memory) ⊎ (first_refusal
            (rule_of C0.takes_insert C1.takes_insert D.takes_insert D.takes_replace)
            K0.cmp K1.cmp [] (written A.bytes B.bytes C.bytes triples.now) ≡ Some e)) }
    {
        let mut map = Self::new();
        for triple in triples {
            let _ = map.put(alloc, &triple.0, &triple.1, &triple.2)?;
        }
        Ok(map)
    }
}
