// Changes of a list that is borrowed, or owns its bytes.
ghost use Rattle.std.specs.Prelude.{◌≡◌, ◌+◌, ◌-◌, ◌^◌, ◌<◌, ◌≤◌, [], length, set, None, Some};
ghost use Rattle.std.specs.Prelude.{slice_index_or, IsTrue, OnOk, OnErr, IsOk, true};
ghost use Rattle.std.specs.List.{insert, remove};
ghost use Rattle.zv_var.specs.Format.{enc};
ghost use Rattle.zv_owned.specs.Changes.{HasPlace, IsBelow, OnMemory, changed, takes_change};
ghost use Rattle.zv_owned.specs.Owned.{TooLargeUnless};
ghost use Rattle.zv_owned.specs.Size.{takes_insert, takes_replace};

use super::VarZeroVec;
use crate::change::Change;
use crate::error::VecError;
use crate::owned::VarZeroVecOwned;
use crate::size::growth_of;
use std::alloc::Global;
use zv_ule::{NoMemory, VarZeroVecFormat, ZvArg, ZvKind};

impl<'a, T: ZvKind, F: VarZeroVecFormat> VarZeroVec<'a, T, F> {
    ghost use Rattle.zv_owned.specs.Vectors.{vector_bytes, vector_list, vector_owned, vector_spare};

    /// Makes a change at a place. The list is owned then.
    ///
    /// # Errors
    /// As [`VarZeroVecOwned::insert`] and [`VarZeroVecOwned::replace`].
    fn splice_arg<Q: ZvArg<T>>(
        &mut self,
        alloc: Global,
        index: usize,
        change: Change<'_, Q>,
    ) -> Result<(), VecError>
        requires place { HasPlace Q.bytes change (length (vector_list self.old)) index }
        requires below { IsBelow Q.bytes change }
        ensures ok { OnOk result (vector_list self.new ≡
            changed Q.bytes change.entry (vector_list self.old) index) }
        ensures bytes { OnOk result (vector_bytes self.new ≡ enc F.W (vector_list self.new)) }
        ensures owned { OnOk result (vector_owned self.new ≡ true) }
        // where it is refused
        ensures err { OnErr result (self.new ≡ self.old) }
        ensures refused { TooLargeUnless
            (takes_change Q.bytes F.W change.entry (vector_list self.old) index) result }
        ensures succeeds { IsTrue (vector_owned self.old) → OnMemory result
            (length (vector_bytes self.old) + vector_spare self.old <
            length (enc F.W (changed Q.bytes change.entry (vector_list self.old) index))) }
    {
        let more = growth_of(self.as_slice(), index, &change).ok_or(VecError::TooLarge)?;
        match self.slot.as_owned() {
            Some(owned) => owned.make(index, change)?,
            None => {
                let mut copy = VarZeroVecOwned::with_copy(alloc, self.view, more)?;
                copy.make(index, change)?;
                self.slot.owned = Some(copy);
            }
        }
        Ok(())
    }

    /// Puts what is written for a value before the element at a place, or at the end. The list is
    /// owned then.
    ///
    /// # Errors
    /// As [`VarZeroVecOwned::insert`].
    #[inline]
    pub fn insert_arg<Q: ZvArg<T>>(
        &mut self,
        alloc: Global,
        index: usize,
        value: &Q,
    ) -> Result<(), VecError>
        requires place { index ≤ length (vector_list self.old) }
        requires below { length (Q.bytes value.now) < 2 ^ 64 }
        ensures ok { OnOk result (vector_list self.new ≡
            insert (vector_list self.old) index (Q.bytes value.now)) }
        ensures bytes { OnOk result (vector_bytes self.new ≡ enc F.W (vector_list self.new)) }
        ensures owned { OnOk result (vector_owned self.new ≡ true) }
        // where it is refused
        ensures err { OnErr result (self.new ≡ self.old) }
        ensures refused { TooLargeUnless (takes_insert F.W (vector_list self.old)
            (length (Q.bytes value.now))) result }
    {
        self.splice_arg(alloc, index, Change::Insert(value))
    }

    /// Puts what is written for a value in place of the element at a place. The list is owned then.
    ///
    /// # Errors
    /// As [`VarZeroVecOwned::replace`].
    #[inline]
    pub fn replace_arg<Q: ZvArg<T>>(
        &mut self,
        alloc: Global,
        index: usize,
        value: &Q,
    ) -> Result<(), VecError>
        requires place { index < length (vector_list self.old) }
        requires below { length (Q.bytes value.now) < 2 ^ 64 }
        ensures ok { OnOk result (vector_list self.new ≡
            set (vector_list self.old) index (Q.bytes value.now)) }
        ensures bytes { OnOk result (vector_bytes self.new ≡ enc F.W (vector_list self.new)) }
        ensures owned { OnOk result (vector_owned self.new ≡ true) }
        // where it is refused
        ensures err { OnErr result (self.new ≡ self.old) }
        ensures refused { TooLargeUnless (takes_replace F.W (vector_list self.old)
            (length (slice_index_or (vector_list self.old) index []))
            (length (Q.bytes value.now))) result }
    {
        self.splice_arg(alloc, index, Change::Replace(value))
    }

    /// Takes out the element at a place. The list is owned then.
    ///
    /// # Errors
    /// [`NoMemory`] at most where the list is borrowed, and then it stays so.
    pub fn remove(&mut self, alloc: Global, index: usize) -> Result<(), NoMemory>
        requires place { index < length (vector_list self.old) }
        ensures ok { OnOk result (vector_list self.new ≡ remove (vector_list self.old) index) }
        ensures bytes { OnOk result (vector_bytes self.new ≡ enc F.W (vector_list self.new)) }
        ensures owned { OnOk result (vector_owned self.new ≡ true) }
        // where it is refused
        ensures err { OnErr result (self.new ≡ self.old) }
        ensures succeeds { IsTrue (vector_owned self.old) → IsOk result }
        ensures memory { IsTrue (vector_owned self.old) → vector_spare self.new ≡
            length (vector_bytes self.old) + vector_spare self.old
            - length (vector_bytes self.new) }
    {
        match self.slot.as_owned() {
            Some(owned) => owned.remove(index),
            None => {
                let mut owned = VarZeroVecOwned::from_slice(alloc, self.view)?;
                owned.remove(index);
                self.slot.owned = Some(owned);
            }
        }
        Ok(())
    }

    /// Puts what is written for a value before the element at a place, or at the end, in the room
    /// that an owned list has, as [`VarZeroVecOwned::insert_reserved`].
    #[inline]
    pub fn insert_reserved<Q: ZvArg<T>>(&mut self, index: usize, value: &Q)
        requires owned { IsTrue (vector_owned self.old) }
        requires place { index ≤ length (vector_list self.old) }
        requires fits { takes_insert F.W (vector_list self.old)
            (length (Q.bytes value.now)) ≡ true }
        requires room { length (Q.bytes value.now) + F.W ≤ vector_spare self.old }
        ensures list { vector_list self.new ≡
            insert (vector_list self.old) index (Q.bytes value.now) }
        ensures bytes { vector_bytes self.new ≡ enc F.W (vector_list self.new) }
        ensures owned { vector_owned self.new ≡ true }
        // what it takes
        ensures keeps_room { vector_spare self.old ≤
            vector_spare self.new + (length (Q.bytes value.now) + F.W) }
        ensures memory { vector_spare self.new ≡ length (vector_bytes self.old)
            + vector_spare self.old - length (vector_bytes self.new) }
    {
        if let Some(owned) = self.slot.as_owned() {
            owned.insert_reserved(index, value);
        }
    }

    /// Puts what is written for a value in place of the element at a place, in the room that an
    /// owned list has, as [`VarZeroVecOwned::replace_reserved`].
    #[inline]
    pub fn replace_reserved<Q: ZvArg<T>>(&mut self, index: usize, value: &Q)
        requires owned { IsTrue (vector_owned self.old) }
        requires place { index < length (vector_list self.old) }
        requires fits { takes_replace F.W (vector_list self.old)
            (length (slice_index_or (vector_list self.old) index []))
            (length (Q.bytes value.now)) ≡ true }
        requires room { length (Q.bytes value.now) + F.W ≤ vector_spare self.old }
        ensures list { vector_list self.new ≡
            set (vector_list self.old) index (Q.bytes value.now) }
        ensures bytes { vector_bytes self.new ≡ enc F.W (vector_list self.new) }
        ensures owned { vector_owned self.new ≡ true }
        // what it takes
        ensures keeps_room { vector_spare self.old ≤
            vector_spare self.new + (length (Q.bytes value.now) + F.W) }
        ensures memory { vector_spare self.new ≡ length (vector_bytes self.old)
            + vector_spare self.old - length (vector_bytes self.new) }
    {
        if let Some(owned) = self.slot.as_owned() {
            owned.replace_reserved(index, value);
        }
    }

    /// Takes out the element at a place of an owned list. It takes no memory.
    #[inline]
    pub fn remove_reserved(&mut self, index: usize)
        requires owned { IsTrue (vector_owned self.old) }
        requires place { index < length (vector_list self.old) }
        ensures list { vector_list self.new ≡ remove (vector_list self.old) index }
        ensures bytes { vector_bytes self.new ≡ enc F.W (vector_list self.new) }
        ensures owned { vector_owned self.new ≡ true }
        // what it takes
        ensures keeps_room { vector_spare self.old ≤ vector_spare self.new }
        ensures memory { vector_spare self.new ≡ length (vector_bytes self.old)
            + vector_spare self.old - length (vector_bytes self.new) }
    {
        if let Some(owned) = self.slot.as_owned() {
            owned.remove(index);
        }
    }
}
