// Changes at the place of a pair of keys, in the vectors' own memory.
ghost use Rattle.std.specs.Prelude.{◌≡◌, ℕ, ◌+◌, ◌-◌, ◌^◌, ◌<◌, ◌≤◌, is_some, length, true};
ghost use Rattle.std.specs.Prelude.{slice_index};
ghost use Rattle.zv_map.specs.Reserved.{IsTaken};
ghost use Rattle.zv_map2d.specs.Fits.{fits, rule_of};
ghost use Rattle.zv_map2d.specs.Places.{IsPlace};
ghost use Rattle.zv_map2d.specs.Room.{HasRoomFor, IsOwned, SpendsFor};
ghost use Rattle.zv_map2d.specs.Rows.{before, del, find, put, row_at, shift_from};

use crate::map::Map2dOver;
use crate::place::Place;
use zv_fixed::ZeroVec;
use zv_map::MutableZeroVecLike;
use zv_ule::{ZvArg, ZvKind, ZvOrd, ZvOrdArg};

/// Makes each number from a place on `more` more and `less` less. It takes no memory.
fn shift(ends: &mut ZeroVec<'_, u32>, from: usize, more: u32, less: u32)
    requires owned { ends.old.owned ≡ true }
    requires below { (k : ℕ) → k < length ends.old.values →
        more ≤ 4294967295 - slice_index ends.old.values k }
    requires above { (k : ℕ) → from ≤ k → k < length ends.old.values →
        less ≤ slice_index ends.old.values k }
    ensures values { ends.new.values ≡ shift_from more less from ends.old.values }
    ensures owned { ends.new.owned ≡ true }
    ensures spare { ends.new.spare ≡ ends.old.spare }
{
    for row in from..ends.len() {
        let end = ends.at(row);
        ends.set_owned(row, end + more - less);
    }
}

impl<
    'a,
    K0: ZvOrd,
    K1: ZvOrd,
    V: ZvKind,
    C0: MutableZeroVecLike<'a, K0> + Drop,
    C1: MutableZeroVecLike<'a, K1> + Drop,
    D: MutableZeroVecLike<'a, V> + Drop,
> Map2dOver<'a, K0, K1, V, C0, C1, D> {
    /// The place among all pairs of a pair of the row, or of the row's end.
    #[inline(always)]
    pub(crate) fn pair_start(&self, row: usize, pair: usize) -> usize
        requires row { row < length self.now.rows }
        requires pair { pair ≤ length (row_at self.now.rows row) }
        ensures { result ≡ before self.now.rows row + pair }
    {
        self.as_borrowed().pair_start(row, pair)
    }

    /// Gives a pair of keys a value, which fits, at their place, in room that was made for it.
    ///
    /// # Cost
    /// Of each vector that changes it moves what stands behind the place; it takes no memory.
    pub fn put_at<Q0: ZvOrdArg<K0>, Q1: ZvOrdArg<K1>, R: ZvArg<V>>(
        &mut self,
        place: Place,
        key0: &Q0,
        key1: &Q1,
        value: &R,
    )
        requires place { IsPlace K0.cmp K1.cmp self.old.rows (Q0.bytes key0.now)
            (Q1.bytes key1.now) place }
        requires key0 { length (Q0.bytes key0.now) < 2 ^ 64 }
        requires key1 { length (Q1.bytes key1.now) < 2 ^ 64 }
        requires value { length (R.bytes value.now) < 2 ^ 64 }
        requires fits { IsTaken (fits
            (rule_of C0.takes_insert C1.takes_insert D.takes_insert D.takes_replace)
            K0.cmp K1.cmp self.old.rows
            (Q0.bytes key0.now) (Q1.bytes key1.now) (R.bytes value.now)) }
        requires room { HasRoomFor C0.field C1.field D.field (length (Q0.bytes key0.now))
            (length (Q1.bytes key1.now)) (length (R.bytes value.now)) 1 self.old }
        ensures rows { self.new.rows ≡ put K0.cmp K1.cmp self.old.rows
            (Q0.bytes key0.now) (Q1.bytes key1.now) (R.bytes value.now) }
        ensures spends { SpendsFor C0.field C1.field D.field (length (Q0.bytes key0.now))
            (length (Q1.bytes key1.now)) (length (R.bytes value.now)) 1 self.old self.new }
    {
        match place {
            Place::Pair { row, pair } => {
                let at = self.pair_start(row, pair);
                self.values.zvl_replace_reserved(at, value);
            }
            Place::InRow { row, pair } => {
                let at = self.pair_start(row, pair);
                self.keys1.zvl_insert_reserved(at, key1);
                self.values.zvl_insert_reserved(at, value);
                shift(&mut self.joiner, row, 1, 0);
            }
            Place::NewRow { row } => {
                let at = self.as_borrowed().row_start(row);
                self.keys0.zvl_insert_reserved(row, key0);
                self.keys1.zvl_insert_reserved(at, key1);
                self.values.zvl_insert_reserved(at, value);
                shift(&mut self.joiner, row, 1, 0);
                self.joiner.insert_owned(row, at as u32 + 1);
            }
        }
    }

    /// Takes the pair at the place of its keys out, with its row where that was its only pair, and
    /// says whether it was there. It takes no memory, and lowers no vector's room.
    pub fn discard_at<Q0: ZvOrdArg<K0>, Q1: ZvOrdArg<K1>>(
        &mut self,
        place: Place,
        key0: &Q0,
        key1: &Q1,
    ) -> bool
        requires place { IsPlace K0.cmp K1.cmp self.old.rows (Q0.bytes key0.now)
            (Q1.bytes key1.now) place }
        requires owned { IsOwned self.old }
        ensures rows { self.new.rows
            ≡ del K0.cmp K1.cmp self.old.rows (Q0.bytes key0.now) (Q1.bytes key1.now) }
        ensures found { result ≡ is_some (find K0.cmp K1.cmp self.old.rows
            (Q0.bytes key0.now) (Q1.bytes key1.now)) }
        ensures spends { SpendsFor C0.field C1.field D.field 0 0 0 0 self.old self.new }
    {
        let view = self.as_borrowed();
        let Place::Pair { row, pair } = place else {
            return false;
        };
        let at = view.pair_start(row, pair);
        let single = view.row_len(row) == 1;
        self.keys1.zvl_discard(at);
        self.values.zvl_discard(at);
        shift(&mut self.joiner, row, 0, 1);
        if single {
            self.keys0.zvl_discard(row);
            let _ = self.joiner.remove_owned(row);
        }
        true
    }
}
