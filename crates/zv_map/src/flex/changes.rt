// Changes of a list with fields of two bytes or of four.
ghost use Rattle.std.specs.Prelude.{◌≡◌, ◌+◌, ◌<◌, ◌≤◌, ◌||◌, ◌^◌, length, not, set, true, OnErr};
ghost use Rattle.std.specs.Prelude.{OnOk};
ghost use Rattle.std.specs.List.{insert, remove};
ghost use Rattle.zv_owned.specs.Size.{takes_insert, takes_replace};
ghost use Rattle.zv_map.specs.Keys.{nth};

use super::FlexVec;
use std::alloc::Global;
use zv_ule::{NoMemory, ZvArg, ZvKind};

impl<'a, T: ZvKind> FlexVec<'a, T> {
    ghost use Rattle.zv_map.specs.Flexes.{flex_list, flex_owned, flex_roomy, flex_spare, flex_wide};

    /// Whether an element of `len` bytes can join the list in the form that it has.
    #[inline]
    fn fits_insert(&self, len: usize) -> bool
        ensures { result ≡ (flex_wide self.now || takes_insert 2 (flex_list self.now) len) }
    {
        match self {
            FlexVec::Narrow(v) => v.takes_insert(len),
            FlexVec::Wide(_) => true,
        }
    }

    /// Whether an element of `len` bytes can stand in place of another in the form that the list
    /// has.
    #[inline]
    fn fits_replace(&self, index: usize, len: usize) -> bool
        requires { index < length (flex_list self.now) }
        ensures { result ≡ (flex_wide self.now || takes_replace 2 (flex_list self.now)
            (length (nth (flex_list self.now) index)) len) }
    {
        match self {
            FlexVec::Narrow(v) => v.takes_replace(index, len),
            FlexVec::Wide(_) => true,
        }
    }

    /// Puts what is written for a value before the element at a place, or at the end, in the room
    /// that there is. The list is made wide first where the narrow form doesn't take it.
    pub fn insert_reserved<Q: ZvArg<T>>(&mut self, index: usize, value: &Q)
        requires owned { flex_owned self.old ≡ true }
        requires place { index ≤ length (flex_list self.old) }
        requires taken { takes_insert 4 (flex_list self.old) (length (Q.bytes value.now)) ≡ true }
        requires room { length (Q.bytes value.now) + 4 ≤ flex_spare self.old }
        requires below { length (Q.bytes value.now) < 2 ^ 64 }
        ensures list { flex_list self.new ≡ insert (flex_list self.old) index (Q.bytes value.now) }
        ensures wide { flex_wide self.new ≡ (flex_wide self.old ||
            not (takes_insert 2 (flex_list self.old) (length (Q.bytes value.now)))) }
        // what it takes
        ensures roomy { flex_roomy self.new ≡ true }
        ensures keeps_room { flex_spare self.old ≤
            flex_spare self.new + (length (Q.bytes value.now) + 4) }
    {
        let fits = self.fits_insert(value.arg_len());
        self.trim();
        self.widen_unless(fits);
        match self {
            FlexVec::Narrow(v) => v.insert_reserved(index, value),
            FlexVec::Wide(v) => v.insert_reserved(index, value),
        }
    }

    /// Puts what is written for a value in place of the element at a place, as
    /// [`insert_reserved`](Self::insert_reserved).
    pub fn replace_reserved<Q: ZvArg<T>>(&mut self, index: usize, value: &Q)
        requires owned { flex_owned self.old ≡ true }
        requires place { index < length (flex_list self.old) }
        requires taken { takes_replace 4 (flex_list self.old)
            (length (nth (flex_list self.old) index)) (length (Q.bytes value.now)) ≡ true }
        requires room { length (Q.bytes value.now) + 4 ≤ flex_spare self.old }
        requires below { length (Q.bytes value.now) < 2 ^ 64 }
        ensures list { flex_list self.new ≡ set (flex_list self.old) index (Q.bytes value.now) }
        ensures wide { flex_wide self.new ≡ (flex_wide self.old ||
            not (takes_replace 2 (flex_list self.old)
            (length (nth (flex_list self.old) index)) (length (Q.bytes value.now)))) }
        // what it takes
        ensures roomy { flex_roomy self.new ≡ true }
        ensures keeps_room { flex_spare self.old ≤
            flex_spare self.new + (length (Q.bytes value.now) + 4) }
    {
        let fits = self.fits_replace(index, value.arg_len());
        self.trim();
        self.widen_unless(fits);
        match self {
            FlexVec::Narrow(v) => v.replace_reserved(index, value),
            FlexVec::Wide(v) => v.replace_reserved(index, value),
        }
    }

    /// Takes out the element at a place of an owned list, and keeps the form. It takes no memory.
    pub fn remove_reserved(&mut self, index: usize)
        requires owned { flex_owned self.old ≡ true }
        requires place { index < length (flex_list self.old) }
        ensures list { flex_list self.new ≡ remove (flex_list self.old) index }
        ensures wide { flex_wide self.new ≡ flex_wide self.old }
        ensures owned { flex_owned self.new ≡ true }
        // what it takes
        ensures roomy { flex_roomy self.old ≡ true → flex_roomy self.new ≡ true }
        ensures keeps_room { flex_spare self.old ≤ flex_spare self.new }
    {
        self.trim();
        match self {
            FlexVec::Narrow(v) => v.remove_reserved(index),
            FlexVec::Wide(v) => v.remove_reserved(index),
        }
    }

    /// Takes out the element at a place, and keeps the form. The list is owned then.
    ///
    /// # Errors
    /// [`NoMemory`] at most where the list is borrowed, and then it stays so.
    pub fn remove(&mut self, alloc: Global, index: usize) -> Result<(), NoMemory>
        requires { index < length (flex_list self.old) }
        ensures ok { OnOk result (flex_list self.new ≡ remove (flex_list self.old) index) }
        ensures owned { OnOk result (flex_owned self.new ≡ true) }
        ensures wide { flex_wide self.new ≡ flex_wide self.old }
        ensures roomy { flex_roomy self.old ≡ true → flex_roomy self.new ≡ true }
        ensures err { OnErr result (self.new ≡ self.old) }
    {
        self.make_owned(alloc)?;
        self.remove_reserved(index);
        Ok(())
    }
}
