// The elements of a view, and the pairs of two views, in order.
#![tactic(auto, using(crate::proofs::Ranges::pairs))]

ghost use Rattle.std.specs.Prelude.{◌≡◌, ⊤, ℕ, ◌+◌, ◌<◌, ◌≤◌, length, take, zip, slice_range};
ghost use Rattle.std.specs.Prelude.{IfSome, Some};
ghost use Rattle.std.specs.Iterator.{UpTo, YieldsFirstBy, YieldsLastBy};
ghost use Rattle.std.specs.Iterator.{item_count};
ghost use Rattle.std.specs.Iterator.SizeHint.{IsWithinCount};
ghost use Rattle.std.specs.List.{concat};
ghost use Rattle.zv_map.specs.Keys.{nth};
ghost use Rattle.zv_map.specs.Views.{list_of};

use crate::view::KvSlice;
use std::alloc::AllocError;
use zv_ule::{VarRef, ZvKind};

// ---- a view as it is walked over

/// A view, how many elements it has, and their bytes: what each step of a walk over it needs. The
/// iterators ask for them once.
struct KvComponents<'l, T: ZvKind> {
    list: KvSlice<'l, T>,
    len: usize,
    bytes: &'l [u8],
    pub ghost count: { len ≡ length (list_of list) },
    pub ghost joined: { bytes.now ≡ concat (list_of list) },
}

impl<T: ZvKind> Copy for KvComponents<'_, T> {}

impl<T: ZvKind> Clone for KvComponents<'_, T> {
    ghost is_clone = { λ v w. w ≡ v };

    ghost is_infallible = { λ _. ⊤ };

    /// A copy, which takes no memory.
    #[inline]
    fn clone(&self) -> Result<Self, AllocError> {
        Ok(*self)
    }
}

impl<'l, T: ZvKind> KvComponents<'l, T> {
    ghost use Rattle.zv_ule.specs.Views.{element_of};

    /// Where the element at a place ends among the bytes of all elements.
    #[tactic(auto, using(crate::proofs::Pieces::last))]
    #[inline]
    fn end_of(self, index: usize) -> usize
        requires { index < length (list_of self.list) }
        ensures { result ≡ length (concat (take (index + 1) (list_of self.entry.list))) }
    {
        let next = index + 1;
        if next == self.len {
            self.bytes.len()
        } else {
            self.list.inner_offset(next)
        }
    }

    /// The element at a place, and where it ends, where it is known where it starts. Of a list
    /// whose elements have any lengths it reads one start.
    #[inline]
    fn element_from(self, index: usize, start: usize) -> (VarRef<'l, T>, usize)
        requires place { index < length (list_of self.list) }
        requires start { start ≡ length (concat (take index (list_of self.list))) }
        ensures element { element_of result.0 ≡ nth (list_of self.entry.list) index }
        ensures end { result.1 ≡ length (concat (take (index + 1) (list_of self.entry.list))) }
    {
        let end = self.end_of(index);
        (VarRef::of_valid(&self.bytes[start..end]), end)
    }
}

// ---- the elements of one view

/// The elements of a view that are left to come, in order. It reads each where it lies, and each
/// start once.
#[derive(Drop)]
pub struct KvSliceIter<'l, T: ZvKind> {
    list: KvSlice<'l, T>,
    len: usize,
    bytes: &'l [u8],
    next: usize,
    start: usize,
    end: usize,
    pub ghost count: { len ≡ length (list_of list) },
    pub ghost joined: { bytes.now ≡ concat (list_of list) },
    pub ghost order: { next ≤ end },
    pub ghost within: { end ≤ length (list_of list) },
    pub ghost starts: { start ≡ length (concat (take next (list_of list))) },
}

/// The keys of a map, in order.
pub type ZeroMapKeys<'l, K> = KvSliceIter<'l, K>;

/// The values of a map, in the order of their keys.
pub type ZeroMapValues<'l, V> = KvSliceIter<'l, V>;

impl<'l, T: ZvKind> KvSlice<'l, T> {
    ghost use Rattle.zv_map.specs.Iters.{elements_left};

    /// The elements, in order.
    #[inline]
    pub fn iter(self) -> KvSliceIter<'l, T>
        ensures { elements_left result ≡ list_of self.entry }
    {
        let len = self.len();
        KvSliceIter {
            list: self,
            len,
            bytes: self.elements_bytes(),
            next: 0,
            start: 0,
            end: len,
        }
    }
}

impl<'l, T: ZvKind> Iterator for KvSliceIter<'l, T> {
    ghost use Rattle.zv_ule.specs.Views.{element_of};
    ghost use Rattle.zv_map.specs.Iters.{elements_left};

    type Item = VarRef<'l, T>;

    ghost next_gives = { YieldsFirstBy element_of elements_left };

    ghost remaining = { item_count elements_left };

    #[inline]
    fn next(&mut self) -> Option<VarRef<'l, T>> {
        let at = self.next;
        if at == self.end {
            return None;
        }
        let parts = KvComponents {
            list: self.list,
            len: self.len,
            bytes: self.bytes,
        };
        let (element, start) = parts.element_from(at, self.start);
        self.next = at + 1;
        self.start = start;
        Some(element)
    }

    #[inline]
    fn size_hint(&self) -> (usize, Option<usize>)
        ensures lower { IsWithinCount result.0 (item_count elements_left self.now) }
        ensures upper { IfSome result.1 (UpTo (item_count elements_left self.now)) }
        ensures exact { result
            ≡ (length (elements_left self.now), Some (length (elements_left self.now))) }
    {
        let len = self.end - self.next;
        (len, Some(len))
    }
}

impl<T: ZvKind> DoubleEndedIterator for KvSliceIter<'_, T> {
    ghost use Rattle.zv_ule.specs.Views.{element_of};
    ghost use Rattle.zv_map.specs.Iters.{elements_left};

    ghost next_back_gives = { YieldsLastBy element_of elements_left };

    #[inline]
    fn next_back(&mut self) -> Option<Self::Item> {
        if self.next == self.end {
            return None;
        }
        self.end -= 1;
        Some(self.list.at(self.end))
    }
}

impl<T: ZvKind> ExactSizeIterator for KvSliceIter<'_, T> {
    #[inline]
    fn len(&self) -> usize {
        self.end - self.next
    }
}

// ---- the pairs of two views

/// The pairs of a key and its value that are left to come, in the order of the keys. It reads each
/// where it lies, and each start once.
#[derive(Drop)]
pub struct ZeroMapIter<'l, K: ZvKind, V: ZvKind> {
    keys: KvSlice<'l, K>,
    key_count: usize,
    key_bytes: &'l [u8],
    values: KvSlice<'l, V>,
    value_count: usize,
    value_bytes: &'l [u8],
    next: usize,
    key_start: usize,
    value_start: usize,
    end: usize,
    pub ghost counted_keys: { key_count ≡ length (list_of keys) },
    pub ghost joined_keys: { key_bytes.now ≡ concat (list_of keys) },
    pub ghost counted_values: { value_count ≡ length (list_of values) },
    pub ghost joined_values: { value_bytes.now ≡ concat (list_of values) },
    pub ghost order: { next ≤ end },
    pub ghost keys_within: { end ≤ length (list_of keys) },
    pub ghost values_within: { end ≤ length (list_of values) },
    pub ghost key_starts: { key_start ≡ length (concat (take next (list_of keys))) },
    pub ghost value_starts: { value_start ≡ length (concat (take next (list_of values))) },
}

impl<'l, K: ZvKind, V: ZvKind> ZeroMapIter<'l, K, V> {
    ghost use Rattle.zv_map.specs.Iters.{left_of};

    /// The pairs of the keys and the values from the place `start` up to `end`.
    #[inline]
    pub fn between(keys: KvSlice<'l, K>, values: KvSlice<'l, V>, start: usize, end: usize) -> Self
        requires order { start ≤ end }
        requires keys { end ≤ length (list_of keys) }
        requires values { end ≤ length (list_of values) }
        ensures { left_of result
            ≡ zip (slice_range (list_of keys.entry) start end)
            (slice_range (list_of values.entry) start end) }
    {
        ZeroMapIter {
            keys,
            key_count: keys.len(),
            key_bytes: keys.elements_bytes(),
            values,
            value_count: values.len(),
            value_bytes: values.elements_bytes(),
            next: start,
            key_start: keys.offset(start),
            value_start: values.offset(start),
            end,
        }
    }

    /// The pairs of all keys and values, which are equally many.
    #[inline]
    pub fn new(keys: KvSlice<'l, K>, values: KvSlice<'l, V>) -> Self
        requires { length (list_of keys) ≡ length (list_of values) }
        ensures { left_of result ≡ zip (list_of keys.entry) (list_of values.entry) }
    {
        Self::between(keys, values, 0, keys.len())
    }
}

impl<'l, K: ZvKind, V: ZvKind> Iterator for ZeroMapIter<'l, K, V> {
    ghost use Rattle.zv_map.specs.Iters.{left_of, pair_of};

    type Item = (VarRef<'l, K>, VarRef<'l, V>);

    ghost next_gives = { YieldsFirstBy pair_of left_of };

    ghost remaining = { item_count left_of };

    #[inline]
    fn next(&mut self) -> Option<(VarRef<'l, K>, VarRef<'l, V>)> {
        let at = self.next;
        if at == self.end {
            return None;
        }
        let keys = KvComponents {
            list: self.keys,
            len: self.key_count,
            bytes: self.key_bytes,
        };
        let values = KvComponents {
            list: self.values,
            len: self.value_count,
            bytes: self.value_bytes,
        };
        let (key, key_start) = keys.element_from(at, self.key_start);
        let (value, value_start) = values.element_from(at, self.value_start);
        self.next = at + 1;
        self.key_start = key_start;
        self.value_start = value_start;
        Some((key, value))
    }

    #[inline]
    fn size_hint(&self) -> (usize, Option<usize>)
        ensures lower { IsWithinCount result.0 (item_count left_of self.now) }
        ensures upper { IfSome result.1 (UpTo (item_count left_of self.now)) }
        ensures exact { result ≡ (length (left_of self.now), Some (length (left_of self.now))) }
    {
        let len = self.end - self.next;
        (len, Some(len))
    }
}

impl<K: ZvKind, V: ZvKind> DoubleEndedIterator for ZeroMapIter<'_, K, V> {
    ghost use Rattle.zv_map.specs.Iters.{left_of, pair_of};

    ghost next_back_gives = { YieldsLastBy pair_of left_of };

    #[inline]
    fn next_back(&mut self) -> Option<Self::Item> {
        if self.next == self.end {
            return None;
        }
        self.end -= 1;
        Some((self.keys.at(self.end), self.values.at(self.end)))
    }
}

impl<K: ZvKind, V: ZvKind> ExactSizeIterator for ZeroMapIter<'_, K, V> {
    #[inline]
    fn len(&self) -> usize {
        self.end - self.next
    }
}
