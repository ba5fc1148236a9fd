// The pairs of two views, with values of one width copied out.
ghost use Rattle.std.specs.Prelude.{◌≡◌, length, map, IfSome, Some};
ghost use Rattle.std.specs.Iterator.{UpTo, YieldsFirst, YieldsFirstBy, YieldsLast, YieldsLastBy};
ghost use Rattle.std.specs.Iterator.{item_count};
ghost use Rattle.std.specs.Iterator.SizeHint.{IsWithinCount};

use crate::iter::ZeroMapIter;
use zv_ule::{AsULE, VarRef, ZvKind};

// ---- keys and values

/// The pairs that are left to come, keys and values copied out.
#[derive(Drop)]
pub struct ZeroMapCopied<'l, K: AsULE, V: AsULE> {
    pairs: ZeroMapIter<'l, K, V>,
}

impl<'l, K: AsULE, V: AsULE> ZeroMapIter<'l, K, V> {
    ghost use Rattle.zv_map.specs.Iters.{copied_left, left_of};

    /// The same pairs, keys and values copied out.
    #[inline]
    pub fn copied(self) -> ZeroMapCopied<'l, K, V>
        ensures { copied_left (λ b. K.loaded (K.ULE.value b)) (λ b. V.loaded (V.ULE.value b)) result
            ≡ map (λ p. (K.loaded (K.ULE.value p.0), V.loaded (V.ULE.value p.1)))
            (left_of self.entry) }
    {
        ZeroMapCopied { pairs: self }
    }
}

impl<K: AsULE, V: AsULE> Iterator for ZeroMapCopied<'_, K, V> {
    ghost use Rattle.zv_map.specs.Iters.{copied_left, left_of};

    type Item = (K, V);

    ghost next_gives = { YieldsFirst
        (copied_left (λ b. K.loaded (K.ULE.value b)) (λ b. V.loaded (V.ULE.value b))) };

    ghost remaining = { item_count
        (copied_left (λ b. K.loaded (K.ULE.value b)) (λ b. V.loaded (V.ULE.value b))) };

    #[inline]
    fn next(&mut self) -> Option<(K, V)> {
        let (key, value) = self.pairs.next()?;
        Some((key.value(), value.value()))
    }

    #[inline]
    fn size_hint(&self) -> (usize, Option<usize>)
        ensures lower { IsWithinCount result.0 (item_count
            (copied_left (λ b. K.loaded (K.ULE.value b))
            (λ b. V.loaded (V.ULE.value b))) self.now) }
        ensures upper { IfSome result.1 (UpTo (item_count
            (copied_left (λ b. K.loaded (K.ULE.value b))
            (λ b. V.loaded (V.ULE.value b))) self.now)) }
        ensures exact { result
            ≡ (length (left_of self.now.pairs), Some (length (left_of self.now.pairs))) }
    {
        self.pairs.size_hint()
    }
}

impl<K: AsULE, V: AsULE> DoubleEndedIterator for ZeroMapCopied<'_, K, V> {
    ghost use Rattle.zv_map.specs.Iters.{copied_left};

    ghost next_back_gives = { YieldsLast
        (copied_left (λ b. K.loaded (K.ULE.value b)) (λ b. V.loaded (V.ULE.value b))) };

    #[inline]
    fn next_back(&mut self) -> Option<(K, V)> {
        let (key, value) = self.pairs.next_back()?;
        Some((key.value(), value.value()))
    }
}

impl<K: AsULE, V: AsULE> ExactSizeIterator for ZeroMapCopied<'_, K, V> {
    #[inline]
    fn len(&self) -> usize {
        self.pairs.len()
    }
}

// ---- values alone

/// The pairs that are left to come, each key where it lies and its value copied out.
#[derive(Drop)]
pub struct ZeroMapCopiedValues<'l, K: ZvKind, V: AsULE> {
    pairs: ZeroMapIter<'l, K, V>,
}

impl<'l, K: ZvKind, V: AsULE> ZeroMapIter<'l, K, V> {
    ghost use Rattle.zv_map.specs.Iters.{copied_values_left, left_of};

    /// The same pairs, the values copied out.
    #[inline]
    pub fn copied_values(self) -> ZeroMapCopiedValues<'l, K, V>
        ensures { copied_values_left (λ b. V.loaded (V.ULE.value b)) result
            ≡ map (λ p. (p.0, V.loaded (V.ULE.value p.1))) (left_of self.entry) }
    {
        ZeroMapCopiedValues { pairs: self }
    }
}

impl<'l, K: ZvKind, V: AsULE> Iterator for ZeroMapCopiedValues<'l, K, V> {
    ghost use Rattle.zv_map.specs.Iters.{copied_value_of, copied_values_left, left_of};

    type Item = (VarRef<'l, K>, V);

    ghost next_gives = { YieldsFirstBy copied_value_of
        (copied_values_left (λ b. V.loaded (V.ULE.value b))) };

    ghost remaining = { item_count
        (copied_values_left (λ b. V.loaded (V.ULE.value b))) };

    #[inline]
    fn next(&mut self) -> Option<(VarRef<'l, K>, V)> {
        let (key, value) = self.pairs.next()?;
        Some((key, value.value()))
    }

    #[inline]
    fn size_hint(&self) -> (usize, Option<usize>)
        ensures lower { IsWithinCount result.0 (item_count
            (copied_values_left (λ b. V.loaded (V.ULE.value b))) self.now) }
        ensures upper { IfSome result.1 (UpTo (item_count
            (copied_values_left (λ b. V.loaded (V.ULE.value b))) self.now)) }
        ensures exact { result ≡
            (length (left_of self.now.pairs), Some (length (left_of self.now.pairs))) }
    {
        self.pairs.size_hint()
    }
}

impl<K: ZvKind, V: AsULE> DoubleEndedIterator for ZeroMapCopiedValues<'_, K, V> {
    ghost use Rattle.zv_map.specs.Iters.{copied_value_of, copied_values_left};

    ghost next_back_gives = { YieldsLastBy copied_value_of
        (copied_values_left (λ b. V.loaded (V.ULE.value b))) };

    #[inline]
    fn next_back(&mut self) -> Option<Self::Item> {
        let (key, value) = self.pairs.next_back()?;
        Some((key, value.value()))
    }
}

impl<K: ZvKind, V: AsULE> ExactSizeIterator for ZeroMapCopiedValues<'_, K, V> {
    #[inline]
    fn len(&self) -> usize {
        self.pairs.len()
    }
}
