// Changes of a list, and the room for them.
ghost use Rattle.std.specs.Prelude.{◌≡◌, ◌+◌, ◌^◌, ◌<◌, ◌≤◌, [], ◌∷◌, ◌++◌};
ghost use Rattle.std.specs.Prelude.{length, take, insert, remove, slice_index_or, slice_range};
ghost use Rattle.std.specs.Prelude.{slice_set, MatchOption, IfNone};
ghost use Rattle.std.specs.Prelude.{true, false, Some, None, IsTrue, IfOk, IsOk, OnOk, OnErr};
ghost use Rattle.std.specs.List.{slice_get};
ghost use Rattle.zv_ule.specs.Chunks.{chunks_of};
ghost use Rattle.zv_ule.specs.Fixed.{is_width};
ghost use Rattle.zv_fixed.specs.Vectors.{KeepsMemory};

use super::ZeroVec;
use crate::chunks::start_of;
use crate::cow_bytes::CowBytes;
use std::alloc::Global;
use std::marker::PhantomData;
use zv_ule::{AsULE, NoMemory, ULE, ZvArg};

impl<'a, T: AsULE> ZeroVec<'a, T> {
    /// How many bytes the list can grow by without memory: none where it borrows its bytes.
    #[inline]
    pub fn spare(&self) -> usize
        ensures spare { result ≡ self.now.spare }
        ensures none { self.now.owned ≡ false → result ≡ 0 }
    {
        self.cow.spare()
    }

    /// Makes the list own its bytes. It takes no memory where it owns them.
    #[inline]
    pub fn make_owned(&mut self, alloc: Global) -> Result<(), NoMemory>
        ensures values { self.new.values ≡ self.old.values }
        ensures bytes { self.new.bytes ≡ self.old.bytes }
        ensures owned { OnOk result (self.new.owned ≡ true) }
        ensures err { OnErr result (self.new ≡ self.old) }
        ensures fits { self.old.owned ≡ true → IsOk result }
        ensures spare { self.old.spare ≤ self.new.spare }
        ensures in_place { self.old.owned ≡ true → self.new.spare ≡ self.old.spare }
    {
        self.reserve_bytes(alloc, 0)
    }

    /// Makes the list own its bytes, with room for `n` more. It takes no memory where it owns them
    /// and has the room.
    pub fn reserve_bytes(&mut self, alloc: Global, n: usize) -> Result<(), NoMemory>
        ensures values { self.new.values ≡ self.old.values }
        ensures bytes { self.new.bytes ≡ self.old.bytes }
        ensures room { OnOk result (n ≤ self.new.spare) }
        ensures owned { OnOk result (self.new.owned ≡ true) }
        ensures err { OnErr result (self.new ≡ self.old) }
        ensures fits { n ≤ self.old.spare → self.old.owned ≡ true → IsOk result }
        ensures spare { self.old.spare ≤ self.new.spare }
        ensures in_place { n ≤ self.old.spare → self.old.owned ≡ true →
            self.new.spare ≡ self.old.spare }
    {
        self.cow.reserve(alloc, n)
    }
}

// What a value is stored as is one chunk, which is read as the value. The call does nothing when it
// runs.
#[inline]
fn one_chunk<T: AsULE>(value: &T)
    requires { IsTrue (is_width T.ULE.width) }
    ensures back { T.loaded (T.ULE.value (T.ULE.chunk (T.stored value.now))) ≡ value.now }
    ensures long { length (T.ULE.chunk (T.stored value.now)) < 2 ^ 64 }
{
    let _ = value.to_unaligned();
}

/// The bodies of the changes. Each comes in two forms: with an allocator, and with none where the
/// list owns its bytes and has the room.
impl<'a, T: AsULE> ZeroVec<'a, T> {
    #[inline]
    fn insert_with<Q: ZvArg<T>>(
        &mut self,
        alloc: Option<Global>,
        index: usize,
        value: &Q,
    ) -> Result<(), NoMemory>
        requires below { length (Q.bytes value.now) < 2 ^ 64 }
        requires place { index ≤ length (chunks_of T.ULE.width self.old.bytes) }
        ensures ok { OnOk result (chunks_of T.ULE.width self.new.bytes
            ≡ insert (chunks_of T.ULE.width self.old.bytes) index (Q.bytes value.now)) }
        ensures values { OnOk result (self.new.values
            ≡ insert self.old.values index (T.loaded (T.ULE.value (Q.bytes value.now)))) }
        ensures owned { OnOk result (self.new.owned ≡ true) }
        ensures err { OnErr result (self.new ≡ self.old) }
        ensures fits { T.ULE.width ≤ self.old.spare → self.old.owned ≡ true → IsOk result }
        ensures spare { self.old.spare ≤ self.new.spare + T.ULE.width }
        ensures spends { T.ULE.width ≤ self.old.spare → self.old.owned ≡ true →
            self.old.spare ≡ self.new.spare + T.ULE.width }
        ensures long { length (Q.bytes value.now) ≡ T.ULE.width }
    {
        let start = start_of::<T::ULE>(self.cow.bytes(), index);
        self.cow.insert::<T, Q>(alloc, start, value)
    }

    #[inline]
    fn set_with<Q: ZvArg<T>>(
        &mut self,
        alloc: Option<Global>,
        index: usize,
        value: &Q,
    ) -> Result<(), NoMemory>
        requires below { length (Q.bytes value.now) < 2 ^ 64 }
        requires place { index < length (chunks_of T.ULE.width self.old.bytes) }
        ensures ok { OnOk result (chunks_of T.ULE.width self.new.bytes
            ≡ slice_set (chunks_of T.ULE.width self.old.bytes) index (Q.bytes value.now)) }
        ensures values { OnOk result (self.new.values
            ≡ slice_set self.old.values index (T.loaded (T.ULE.value (Q.bytes value.now)))) }
        ensures owned { OnOk result (self.new.owned ≡ true) }
        ensures err { OnErr result (self.new ≡ self.old) }
        ensures fits { self.old.owned ≡ true → IsOk result }
        ensures spare { self.old.spare ≤ self.new.spare }
        ensures in_place { self.old.owned ≡ true → self.new.spare ≡ self.old.spare }
    {
        let start = start_of::<T::ULE>(self.cow.bytes(), index);
        let end = start + value.arg_len();
        self.cow.set::<T, Q>(alloc, start, end, value)
    }

    #[inline]
    fn cut_with(&mut self, alloc: Option<Global>, index: usize) -> Result<(), NoMemory>
        requires { index < length self.old.values }
        ensures ok { OnOk result (self.new.values ≡ remove self.old.values index) }
        ensures chunks { OnOk result (chunks_of T.ULE.width self.new.bytes
            ≡ remove (chunks_of T.ULE.width self.old.bytes) index) }
        ensures owned { OnOk result (self.new.owned ≡ true) }
        ensures err { OnErr result (self.new ≡ self.old) }
        ensures fits { self.old.owned ≡ true → IsOk result }
        ensures spare { self.old.spare ≤ self.new.spare }
        ensures frees { self.old.owned ≡ true → self.new.spare ≡ self.old.spare + T.ULE.width }
    {
        self.all_read();
        let start = start_of::<T::ULE>(self.cow.bytes(), index);
        let end = start + <T::ULE as ULE>::size();
        self.cow.remove(alloc, start, end)
    }
}

impl<'a, T: AsULE> ZeroVec<'a, T> {
    /// Puts a value before the one at a place, or after all. A list that owns its bytes moves those
    /// behind, and asks for memory only where less than a chunk is left; one that borrows them
    /// copies them once.
    #[inline]
    pub fn insert(&mut self, alloc: Global, index: usize, value: T) -> Result<(), NoMemory>
        requires { index ≤ length self.old.values }
        ensures ok { OnOk result (self.new.values ≡ insert self.old.values index value) }
        ensures owned { OnOk result (self.new.owned ≡ true) }
        ensures err { OnErr result (self.new ≡ self.old) }
        ensures fits { T.ULE.width ≤ self.old.spare → self.old.owned ≡ true → IsOk result }
        ensures spare { self.old.spare ≤ self.new.spare + T.ULE.width }
        ensures spends { T.ULE.width ≤ self.old.spare → self.old.owned ≡ true →
            self.old.spare ≡ self.new.spare + T.ULE.width }
    {
        self.all_read();
        one_chunk(&value);
        self.insert_arg(alloc, index, &value)
    }

    /// Puts a value after all. Memory is taken for several at once, so that it is seldom asked for
    /// once the list owns its bytes.
    #[inline]
    pub fn push(&mut self, alloc: Global, value: T) -> Result<(), NoMemory>
        ensures ok { OnOk result (self.new.values ≡ self.old.values ++ value ∷ []) }
        ensures owned { OnOk result (self.new.owned ≡ true) }
        ensures err { OnErr result (self.new ≡ self.old) }
        ensures fits { T.ULE.width ≤ self.old.spare → self.old.owned ≡ true → IsOk result }
        ensures spare { self.old.spare ≤ self.new.spare + T.ULE.width }
        ensures spends { T.ULE.width ≤ self.old.spare → self.old.owned ≡ true →
            self.old.spare ≡ self.new.spare + T.ULE.width }
    {
        self.insert(alloc, self.len(), value)
    }

    /// Puts a value in place of the one at a place. A list that owns its bytes writes over the old
    /// ones and takes no memory; one that borrows them copies them once.
    #[inline]
    pub fn set(&mut self, alloc: Global, index: usize, value: T) -> Result<(), NoMemory>
        requires { index < length self.old.values }
        ensures ok { OnOk result (self.new.values ≡ slice_set self.old.values index value) }
        ensures owned { OnOk result (self.new.owned ≡ true) }
        ensures err { OnErr result (self.new ≡ self.old) }
        ensures fits { self.old.owned ≡ true → IsOk result }
        ensures spare { self.old.spare ≤ self.new.spare }
        ensures in_place { self.old.owned ≡ true → self.new.spare ≡ self.old.spare }
    {
        self.all_read();
        one_chunk(&value);
        self.set_arg(alloc, index, &value)
    }

    /// Puts the element that an argument stands for before the value at a place, or after all, as
    /// `insert` does. Its bytes are written straight into their place.
    pub fn insert_arg<Q: ZvArg<T>>(
        &mut self,
        alloc: Global,
        index: usize,
        value: &Q,
    ) -> Result<(), NoMemory>
        requires below { length (Q.bytes value.now) < 2 ^ 64 }
        requires place { index ≤ length (chunks_of T.ULE.width self.old.bytes) }
        ensures ok { OnOk result (chunks_of T.ULE.width self.new.bytes
            ≡ insert (chunks_of T.ULE.width self.old.bytes) index (Q.bytes value.now)) }
        ensures values { OnOk result (self.new.values
            ≡ insert self.old.values index (T.loaded (T.ULE.value (Q.bytes value.now)))) }
        ensures owned { OnOk result (self.new.owned ≡ true) }
        ensures err { OnErr result (self.new ≡ self.old) }
        ensures fits { T.ULE.width ≤ self.old.spare → self.old.owned ≡ true → IsOk result }
        ensures spare { self.old.spare ≤ self.new.spare + T.ULE.width }
        ensures spends { T.ULE.width ≤ self.old.spare → self.old.owned ≡ true →
            self.old.spare ≡ self.new.spare + T.ULE.width }
    {
        self.insert_with(Some(alloc), index, value)
    }

    /// Puts the element that an argument stands for in place of the value at a place, as `set`
    /// does. Its bytes are written straight into their place.
    pub fn set_arg<Q: ZvArg<T>>(
        &mut self,
        alloc: Global,
        index: usize,
        value: &Q,
    ) -> Result<(), NoMemory>
        requires below { length (Q.bytes value.now) < 2 ^ 64 }
        requires place { index < length (chunks_of T.ULE.width self.old.bytes) }
        ensures ok { OnOk result (chunks_of T.ULE.width self.new.bytes
            ≡ slice_set (chunks_of T.ULE.width self.old.bytes) index (Q.bytes value.now)) }
        ensures values { OnOk result (self.new.values
            ≡ slice_set self.old.values index (T.loaded (T.ULE.value (Q.bytes value.now)))) }
        ensures owned { OnOk result (self.new.owned ≡ true) }
        ensures err { OnErr result (self.new ≡ self.old) }
        ensures fits { self.old.owned ≡ true → IsOk result }
        ensures spare { self.old.spare ≤ self.new.spare }
        ensures in_place { self.old.owned ≡ true → self.new.spare ≡ self.old.spare }
    {
        self.set_with(Some(alloc), index, value)
    }

    /// Takes the value at a place out of the list and gives it. A list that owns its bytes moves
    /// those behind and takes no memory; one that borrows them copies the others once.
    pub fn remove(&mut self, alloc: Global, index: usize) -> Result<T, NoMemory>
        requires { index < length self.old.values }
        ensures removed { IfOk result (λ v. slice_get self.old.values index ≡ Some v) }
        ensures ok { OnOk result (self.new.values ≡ remove self.old.values index) }
        ensures chunk { IfOk result (λ v. T.ULE.chunk (T.stored v)
            ≡ slice_index_or (chunks_of T.ULE.width self.old.bytes) index []) }
        ensures chunks { OnOk result (chunks_of T.ULE.width self.new.bytes
            ≡ remove (chunks_of T.ULE.width self.old.bytes) index) }
        ensures owned { OnOk result (self.new.owned ≡ true) }
        ensures err { OnErr result (self.new ≡ self.old) }
        ensures fits { self.old.owned ≡ true → IsOk result }
        ensures spare { self.old.spare ≤ self.new.spare }
        ensures frees { self.old.owned ≡ true → self.new.spare ≡ self.old.spare + T.ULE.width }
    {
        let value = self.at(index);
        self.cut_with(Some(alloc), index)?;
        Ok(value)
    }

    /// Keeps the values from one place up to another.
    fn keep(&mut self, start: usize, end: usize)
        requires order { start ≤ end }
        requires within { end ≤ length self.old.values }
        ensures values { self.new.values ≡ slice_range self.old.values start end }
        ensures owned { self.new.owned ≡ self.old.owned }
        ensures spare { self.old.spare ≤ self.new.spare }
        ensures memory { KeepsMemory self.old self.new }
    {
        self.all_read();
        let from = start_of::<T::ULE>(self.cow.bytes(), start);
        let to = start_of::<T::ULE>(self.cow.bytes(), end);
        self.cow.keep(from, to);
    }

    /// Takes the first value out of the list and gives it, or `None` where there is none. The list
    /// borrows or owns its bytes as before, and takes no memory.
    pub fn take_first(&mut self) -> Option<T>
        ensures taken { MatchOption result (self.old.values ≡ [])
            (λ v. self.old.values ≡ v ∷ self.new.values) }
        ensures none { IfNone result (self.new ≡ self.old) }
        ensures owned { self.new.owned ≡ self.old.owned }
        ensures spare { self.old.spare ≤ self.new.spare }
        ensures memory { KeepsMemory self.old self.new }
    {
        if self.is_empty() {
            return None;
        }
        let first = self.at(0);
        self.keep(1, self.len());
        Some(first)
    }

    /// Takes the last value out of the list and gives it, or `None` where there is none. The list
    /// borrows or owns its bytes as before, and takes no memory.
    pub fn take_last(&mut self) -> Option<T>
        ensures taken { MatchOption result (self.old.values ≡ [])
            (λ v. self.old.values ≡ self.new.values ++ v ∷ []) }
        ensures none { IfNone result (self.new ≡ self.old) }
        ensures owned { self.new.owned ≡ self.old.owned }
        ensures spare { self.old.spare ≤ self.new.spare }
        ensures memory { KeepsMemory self.old self.new }
    {
        let index = self.len().checked_sub(1)?;
        let last = self.at(index);
        self.keep(0, index);
        Some(last)
    }

    /// The list of the first `max` values, or of all where there are fewer. It borrows or owns its
    /// bytes as before, and takes no memory.
    pub fn truncated(mut self, max: usize) -> Self
        ensures values { result.values ≡ take max self.entry.values }
        ensures owned { result.owned ≡ self.entry.owned }
        ensures spare { self.entry.spare ≤ result.spare }
        ensures memory { KeepsMemory self.entry result }
    {
        let len = self.len().min(max);
        self.keep(0, len);
        self
    }

    /// Takes all values out of the list, which then borrows no bytes. Its memory is freed.
    #[inline]
    pub fn clear(&mut self)
        ensures values { self.new.values ≡ [] }
        ensures bytes { self.new.bytes ≡ [] }
        ensures owned { self.new.owned ≡ false }
        ensures spare { self.new.spare ≡ 0 }
    {
        self.cow = CowBytes::Borrowed(&[]);
    }

    /// Takes all values out of the list. A list that owns its bytes keeps its memory.
    #[inline]
    pub fn remove_all(&mut self)
        ensures values { self.new.values ≡ [] }
        ensures bytes { self.new.bytes ≡ [] }
        ensures owned { self.new.owned ≡ self.old.owned }
        ensures spare { self.old.spare ≤ self.new.spare }
        ensures memory { KeepsMemory self.old self.new }
    {
        self.cow.clear();
    }
}

/// Changes of a list that owns its bytes and has the room. They take no memory.
impl<'a, T: AsULE> ZeroVec<'a, T> {
    /// Puts a value before the one at a place, or after all, in the list's own bytes.
    #[inline]
    pub fn insert_owned(&mut self, index: usize, value: T)
        requires place { index ≤ length self.old.values }
        requires owned { self.old.owned ≡ true }
        requires room { T.ULE.width ≤ self.old.spare }
        ensures values { self.new.values ≡ insert self.old.values index value }
        ensures owned { self.new.owned ≡ true }
        ensures spare { self.old.spare ≡ self.new.spare + T.ULE.width }
    {
        self.all_read();
        one_chunk(&value);
        let _ = self.insert_with(None, index, &value);
    }

    /// Puts a value in place of the one at a place, in the list's own bytes.
    #[inline]
    pub fn set_owned(&mut self, index: usize, value: T)
        requires place { index < length self.old.values }
        requires owned { self.old.owned ≡ true }
        ensures values { self.new.values ≡ slice_set self.old.values index value }
        ensures owned { self.new.owned ≡ true }
        ensures spare { self.new.spare ≡ self.old.spare }
    {
        self.all_read();
        one_chunk(&value);
        self.set_owned_arg(index, &value);
    }

    /// Takes the value at a place out of the list's own bytes and gives it.
    #[inline]
    pub fn remove_owned(&mut self, index: usize) -> T
        requires place { index < length self.old.values }
        requires owned { self.old.owned ≡ true }
        ensures removed { slice_get self.old.values index ≡ Some result }
        ensures values { self.new.values ≡ remove self.old.values index }
        ensures chunk { T.ULE.chunk (T.stored result)
            ≡ slice_index_or (chunks_of T.ULE.width self.old.bytes) index [] }
        ensures chunks { chunks_of T.ULE.width self.new.bytes
            ≡ remove (chunks_of T.ULE.width self.old.bytes) index }
        ensures owned { self.new.owned ≡ true }
        ensures spare { self.new.spare ≡ self.old.spare + T.ULE.width }
    {
        let value = self.at(index);
        let _ = self.cut_with(None, index);
        value
    }

    /// Puts the element that an argument stands for before the value at a place, or after all, as
    /// `insert_owned` does.
    #[inline]
    pub fn insert_owned_arg<Q: ZvArg<T>>(&mut self, index: usize, value: &Q)
        requires below { length (Q.bytes value.now) < 2 ^ 64 }
        requires place { index ≤ length (chunks_of T.ULE.width self.old.bytes) }
        requires owned { self.old.owned ≡ true }
        requires room { length (Q.bytes value.now) ≤ self.old.spare }
        ensures chunks { chunks_of T.ULE.width self.new.bytes
            ≡ insert (chunks_of T.ULE.width self.old.bytes) index (Q.bytes value.now) }
        ensures values { self.new.values
            ≡ insert self.old.values index (T.loaded (T.ULE.value (Q.bytes value.now))) }
        ensures owned { self.new.owned ≡ true }
        ensures spare { self.old.spare ≡ self.new.spare + length (Q.bytes value.now) }
    {
        let _ = self.insert_with(None, index, value);
    }

    /// Puts the element that an argument stands for in place of the value at a place, as
    /// `set_owned` does.
    #[inline]
    pub fn set_owned_arg<Q: ZvArg<T>>(&mut self, index: usize, value: &Q)
        requires below { length (Q.bytes value.now) < 2 ^ 64 }
        requires place { index < length (chunks_of T.ULE.width self.old.bytes) }
        requires owned { self.old.owned ≡ true }
        ensures chunks { chunks_of T.ULE.width self.new.bytes
            ≡ slice_set (chunks_of T.ULE.width self.old.bytes) index (Q.bytes value.now) }
        ensures values { self.new.values
            ≡ slice_set self.old.values index (T.loaded (T.ULE.value (Q.bytes value.now))) }
        ensures owned { self.new.owned ≡ true }
        ensures spare { self.new.spare ≡ self.old.spare }
    {
        let _ = self.set_with(None, index, value);
    }
}
