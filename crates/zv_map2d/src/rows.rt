// The rows of a map, one after another.
ghost use Rattle.std.specs.Prelude.{◌≡◌, ℕ, ◌≤◌, ◌-◌, length, map, IfSome, Some};
ghost use Rattle.std.specs.Iterator.{YieldsFirst, YieldsLast, UpTo, item_count};
ghost use Rattle.std.specs.Iterator.SizeHint.{IsWithinCount};
ghost use Rattle.zv_map2d.specs.Borrowed.{rows_in};
ghost use Rattle.zv_map2d.specs.Views.{rows_seen};

use crate::borrowed::ZeroMap2dBorrowed;
use crate::cursor::ZeroMap2dCursor;
use std::marker::PhantomData;
use zv_ule::{ZvKind, ZvOrd};

/// The rows of a map that are left to come, in the order of their first keys.
#[derive(Drop)]
pub struct ZeroMap2dIter0<'l, 'a, K0: ZvOrd, K1: ZvOrd, V: ZvKind> {
    map: ZeroMap2dBorrowed<'l, K0, K1, V>,
    next: usize,
    end: usize,
    of: PhantomData<&'a ()>,
    pub ghost order: { next ≤ end },
    pub ghost within: { end ≤ length (rows_in map) },
}

impl<'b, K0: ZvOrd, K1: ZvOrd, V: ZvKind> ZeroMap2dBorrowed<'b, K0, K1, V> {
    ghost use Rattle.zv_map2d.specs.RowIters.{rows_left};

    /// The rows, in the order of their first keys.
    pub fn iter0<'a>(&self) -> ZeroMap2dIter0<'b, 'a, K0, K1, V>
        ensures rows { map (λ c. (c.key, c.pairs)) (rows_left result) ≡ rows_in self.now }
        ensures seen { rows_left result ≡ rows_seen (rows_in self.now) 0
            (length (rows_in self.now)) }
    {
        ZeroMap2dIter0 {
            map: *self,
            next: 0,
            end: self.rows(),
            of: PhantomData,
        }
    }
}

impl<'l, 'a, K0: ZvOrd, K1: ZvOrd, V: ZvKind> Iterator for ZeroMap2dIter0<'l, 'a, K0, K1, V> {
    ghost use Rattle.zv_map2d.specs.RowIters.{rows_left};

    type Item = ZeroMap2dCursor<'l, 'a, K0, K1, V>;

    ghost next_gives = { YieldsFirst rows_left };

    ghost remaining = { item_count rows_left };

    #[inline]
    fn next(&mut self) -> Option<ZeroMap2dCursor<'l, 'a, K0, K1, V>> {
        let row = self.next;
        if row == self.end {
            return None;
        }
        self.next = row + 1;
        Some(self.map.cursor(row))
    }

    #[inline]
    #[tactic(auto, using(crate::proofs::RowIters::seen_count))]
    fn size_hint(&self) -> (usize, Option<usize>)
        ensures lower { IsWithinCount result.0 (item_count rows_left self.now) }
        ensures upper { IfSome result.1 (UpTo (item_count rows_left self.now)) }
        ensures exact { result ≡ (length (rows_left self.now), Some (length (rows_left self.now))) }
    {
        let len = self.end - self.next;
        (len, Some(len))
    }
}

impl<K0: ZvOrd, K1: ZvOrd, V: ZvKind> DoubleEndedIterator for ZeroMap2dIter0<'_, '_, K0, K1, V> {
    ghost use Rattle.zv_map2d.specs.RowIters.{rows_left};

    ghost next_back_gives = { YieldsLast rows_left };

    #[inline]
    fn next_back(&mut self) -> Option<Self::Item> {
        if self.next == self.end {
            return None;
        }
        self.end -= 1;
        Some(self.map.cursor(self.end))
    }
}

impl<K0: ZvOrd, K1: ZvOrd, V: ZvKind> ExactSizeIterator for ZeroMap2dIter0<'_, '_, K0, K1, V> {
    #[inline]
    #[tactic(auto, using(crate::proofs::RowIters::seen_count))]
    fn len(&self) -> usize {
        self.end - self.next
    }
}
