// Changes of an owned list.
ghost use Rattle.std.specs.Prelude.{IsOk, ◌≡◌, ◌∷◌, ◌++◌, ◌&&◌, ◌+◌, ◌^◌, ◌<◌, ◌≤◌, [], length};
ghost use Rattle.std.specs.Prelude.{set, slice_index_or, OnOk, OnErr, List, ◌-◌, true};
ghost use Rattle.std.specs.List.{insert, remove};
ghost use Rattle.zv_var.specs.Format.{enc};
ghost use Rattle.zv_owned.specs.Changes.{HasPlace, OnMemory, changed, growth, takes_change};
ghost use Rattle.zv_owned.specs.Owned.{KeepsMemory, TooLargeUnless};
ghost use Rattle.zv_owned.specs.Size.{takes_insert, takes_replace};

use super::VarZeroVecOwned;
use crate::change::Change;
use crate::encoded::Encoded;
use crate::error::VecError;
use crate::size::{takes_insert, takes_replace};
use crate::splice::splice;
use std::marker::Brand;
use std::sync::ledger::{Blank, Ledger};
use zv_ule::{EncodeAsVarULE, NoMemory, Steps, VarRef, VarZeroVecFormat, ZvArg, ZvKind};

impl<T: ZvKind, F: VarZeroVecFormat> VarZeroVecOwned<T, F> {
    /// Makes a change that the size rule takes, uncounted.
    #[inline]
    fn make_from<Q: ZvArg<T>, L: Ledger>(
        &mut self,
        index: usize,
        change: Change<'_, Q>,
        blank: Blank,
    ) -> Result<(), NoMemory>
        requires place { HasPlace Q.bytes change (length self.old.list) index }
        requires fits { takes_change Q.bytes F.W change self.old.list index ≡ true }
        requires name { blank.name ≡ L.name }
        requires parts { blank.parts ≡ L.parts }
        requires some { 0 < blank.parts }
        ensures list { OnOk result (self.new.list ≡
            changed Q.bytes change.entry self.old.list index) }
        ensures bytes { OnOk result (self.new.bytes ≡ enc F.W self.new.list) }
        // where it is refused
        ensures err { OnErr result (self.new ≡ self.old) }
        ensures succeeds { OnErr result (length self.old.bytes + self.old.spare <
            length (enc F.W (changed Q.bytes change.entry self.old.list index))) }
        ensures reserved { growth Q.bytes F.W change.entry ≤ self.old.spare → IsOk result }
        // what it takes
        ensures memory { OnOk result (KeepsMemory self.old self.new) }
        ensures growth { OnOk result (self.old.spare ≤
            self.new.spare + growth Q.bytes F.W change.entry) }
    {
        let mut steps = Steps::<L>::start(blank);
        splice::<T, F, Q, L>(&mut self.shelf, index, change, &mut steps)
    }

    /// Makes a change that the size rule takes.
    #[inline]
    pub(crate) fn make<Q: ZvArg<T>>(
        &mut self,
        index: usize,
        change: Change<'_, Q>,
    ) -> Result<(), NoMemory>
        requires place { HasPlace Q.bytes change (length self.old.list) index }
        requires fits { takes_change Q.bytes F.W change self.old.list index ≡ true }
        ensures list { OnOk result (self.new.list ≡
            changed Q.bytes change.entry self.old.list index) }
        ensures bytes { OnOk result (self.new.bytes ≡ enc F.W self.new.list) }
        // where it is refused
        ensures err { OnErr result (self.new ≡ self.old) }
        ensures succeeds { OnErr result (length self.old.bytes + self.old.spare <
            length (enc F.W (changed Q.bytes change.entry self.old.list index))) }
        ensures reserved { growth Q.bytes F.W change.entry ≤ self.old.spare → IsOk result }
        // what it takes
        ensures memory { OnOk result (KeepsMemory self.old self.new) }
        ensures growth { OnOk result (self.old.spare ≤
            self.new.spare + growth Q.bytes F.W change.entry) }
    {
        self.make_from::<Q, Brand>(index, change, Blank::new(1))
    }

    /// Puts what is written for a value before the element at a place, or at the end.
    ///
    /// # Errors
    /// As [`insert`](Self::insert).
    #[inline]
    pub fn insert_arg<Q: ZvArg<T>>(&mut self, index: usize, value: &Q) -> Result<(), VecError>
        requires place { index ≤ length self.old.list }
        requires below { length (Q.bytes value.now) < 2 ^ 64 }
        ensures ok { OnOk result (self.new.list ≡ insert self.old.list index (Q.bytes value.now)) }
        ensures bytes { OnOk result (self.new.bytes ≡ enc F.W self.new.list) }
        // where it is refused
        ensures err { OnErr result (self.new ≡ self.old) }
        ensures refused { TooLargeUnless (takes_insert F.W self.old.list
            (length (Q.bytes value.now))) result }
        ensures succeeds { OnMemory result (length self.old.bytes + self.old.spare <
            length (enc F.W (insert self.old.list index (Q.bytes value.now)))) }
        ensures memory { OnOk result (KeepsMemory self.old self.new) }
    {
        if !takes_insert::<T, F, F>(self.as_slice(), value.arg_len()) {
            return Err(VecError::TooLarge);
        }
        self.make(index, Change::Insert(value))?;
        Ok(())
    }

    /// Puts what is written for a value in place of the element at a place.
    ///
    /// # Errors
    /// As [`replace`](Self::replace).
    #[inline]
    pub fn replace_arg<Q: ZvArg<T>>(&mut self, index: usize, value: &Q) -> Result<(), VecError>
        requires place { index < length self.old.list }
        requires below { length (Q.bytes value.now) < 2 ^ 64 }
        ensures ok { OnOk result (self.new.list ≡ set self.old.list index (Q.bytes value.now)) }
        ensures bytes { OnOk result (self.new.bytes ≡ enc F.W self.new.list) }
        // where it is refused
        ensures err { OnErr result (self.new ≡ self.old) }
        ensures refused { TooLargeUnless (takes_replace F.W self.old.list
            (length (slice_index_or self.old.list index []))
            (length (Q.bytes value.now))) result }
        ensures succeeds { OnMemory result (length self.old.bytes + self.old.spare <
            length (enc F.W (set self.old.list index (Q.bytes value.now)))) }
        ensures memory { OnOk result (KeepsMemory self.old self.new) }
    {
        if !takes_replace::<T, F, F>(self.as_slice(), index, value.arg_len()) {
            return Err(VecError::TooLarge);
        }
        self.make(index, Change::Replace(value))?;
        Ok(())
    }

    /// Puts what is written for a value before the element at a place, or at the end, in the room
    /// that there is. It takes no memory, does not ask the size rule, and is never refused.
    #[inline]
    pub fn insert_reserved<Q: ZvArg<T>>(&mut self, index: usize, value: &Q)
        requires place { index ≤ length self.old.list }
        requires fits { takes_insert F.W self.old.list (length (Q.bytes value.now)) ≡ true }
        requires room { length (Q.bytes value.now) + F.W ≤ self.old.spare }
        ensures list { self.new.list ≡ insert self.old.list index (Q.bytes value.now) }
        ensures bytes { self.new.bytes ≡ enc F.W self.new.list }
        // what it takes
        ensures keeps_room { self.old.spare ≤ self.new.spare + (length (Q.bytes value.now) + F.W) }
        ensures memory { KeepsMemory self.old self.new }
    {
        let _ = self.make(index, Change::Insert(value));
    }

    /// Puts what is written for a value in place of the element at a place, as
    /// [`insert_reserved`](Self::insert_reserved).
    #[inline]
    pub fn replace_reserved<Q: ZvArg<T>>(&mut self, index: usize, value: &Q)
        requires place { index < length self.old.list }
        requires fits { takes_replace F.W self.old.list
            (length (slice_index_or self.old.list index []))
            (length (Q.bytes value.now)) ≡ true }
        requires room { length (Q.bytes value.now) + F.W ≤ self.old.spare }
        ensures list { self.new.list ≡ set self.old.list index (Q.bytes value.now) }
        ensures bytes { self.new.bytes ≡ enc F.W self.new.list }
        // what it takes
        ensures keeps_room { self.old.spare ≤ self.new.spare + (length (Q.bytes value.now) + F.W) }
        ensures memory { KeepsMemory self.old self.new }
    {
        let _ = self.make(index, Change::Replace(value));
    }

    /// Takes out the element at a place. It takes no memory, and is never refused.
    #[inline]
    pub fn remove(&mut self, index: usize)
        requires place { index < length self.old.list }
        ensures list { self.new.list ≡ remove self.old.list index }
        ensures bytes { self.new.bytes ≡ enc F.W self.new.list }
        ensures keeps_room { self.old.spare ≤ self.new.spare }
        ensures memory { KeepsMemory self.old self.new }
    {
        let _ = self.make::<VarRef<'_, T>>(index, Change::Remove);
    }

    /// Puts a value's spelling before the element at a place, or at the end.
    ///
    /// # Errors
    /// [`VecError::TooLarge`] exactly where the value has no spelling or the size rule does not
    /// take it, and otherwise [`VecError::Memory`]. The list is as it was after either.
    #[inline]
    pub fn insert<A: EncodeAsVarULE<T>>(
        &mut self,
        index: usize,
        element: &A,
    ) -> Result<(), VecError>
        requires place { index ≤ length self.old.list }
        ensures ok { OnOk result (self.new.list ≡
            insert self.old.list index (A.spelling element.now)) }
        ensures bytes { OnOk result (self.new.bytes ≡ enc F.W self.new.list) }
        // where it is refused
        ensures err { OnErr result (self.new ≡ self.old) }
        ensures refused { TooLargeUnless (A.fits element.now && takes_insert F.W self.old.list
            (length (A.spelling element.now))) result }
        ensures succeeds { OnMemory result (length self.old.bytes + self.old.spare <
            length (enc F.W (insert self.old.list index (A.spelling element.now)))) }
        ensures memory { OnOk result (KeepsMemory self.old self.new) }
    {
        let value = Encoded::for_list(self.as_slice(), element).ok_or(VecError::TooLarge)?;
        self.insert_arg(index, &value)
    }

    /// Puts a value's spelling at the end, as [`insert`](Self::insert).
    #[inline]
    #[tactic(auto, using(std::proofs::lemmas::List::Edits::insert_end))]
    pub fn push<A: EncodeAsVarULE<T>>(&mut self, element: &A) -> Result<(), VecError>
        ensures ok { OnOk result (self.new.list ≡ self.old.list ++ A.spelling element.now ∷ []) }
        ensures bytes { OnOk result (self.new.bytes ≡ enc F.W self.new.list) }
        // where it is refused
        ensures err { OnErr result (self.new ≡ self.old) }
        ensures refused { TooLargeUnless (A.fits element.now && takes_insert F.W self.old.list
            (length (A.spelling element.now))) result }
        ensures succeeds { OnMemory result (length self.old.bytes + self.old.spare <
            length (enc F.W (self.old.list ++ A.spelling element.now ∷ []))) }
        ensures memory { OnOk result (KeepsMemory self.old self.new) }
    {
        let end = self.len();
        self.insert(end, element)
    }

    /// Puts a value's spelling in place of the element at a place.
    ///
    /// # Errors
    /// As [`insert`](Self::insert). A spelling that is no longer than the element is taken in any
    /// list, if it is below `F::MAX` bytes.
    #[inline]
    pub fn replace<A: EncodeAsVarULE<T>>(
        &mut self,
        index: usize,
        element: &A,
    ) -> Result<(), VecError>
        requires place { index < length self.old.list }
        ensures ok { OnOk result (self.new.list ≡
            set self.old.list index (A.spelling element.now)) }
        ensures bytes { OnOk result (self.new.bytes ≡ enc F.W self.new.list) }
        // where it is refused
        ensures err { OnErr result (self.new ≡ self.old) }
        ensures refused { TooLargeUnless (A.fits element.now && takes_replace F.W self.old.list
            (length (slice_index_or self.old.list index []))
            (length (A.spelling element.now))) result }
        ensures succeeds { OnMemory result (length self.old.bytes + self.old.spare <
            length (enc F.W (set self.old.list index (A.spelling element.now)))) }
        ensures memory { OnOk result (KeepsMemory self.old self.new) }
    {
        let value = Encoded::for_list(self.as_slice(), element).ok_or(VecError::TooLarge)?;
        self.replace_arg(index, &value)
    }
}
