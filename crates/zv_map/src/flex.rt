// A list with fields of two bytes or of four.
ghost use Rattle.std.specs.Prelude.{◌≡◌, ◌+◌, ◌<◌, ◌≤◌, ◌||◌, ◌&&◌, [], length, not, true, false};
ghost use Rattle.std.specs.Prelude.{Option, IsTrue, IfOk, OnErr, OnOk, if◌then◌else◌};
ghost use Rattle.std.specs.List.{slice_get};
ghost use Rattle.std.specs.Option.{option_map};
ghost use Rattle.std.specs.Result.{result_err};
ghost use Rattle.zv_ule.specs.Views.{element_of};
ghost use Rattle.zv_var.specs.Format.{elements, list_fault};
ghost use Rattle.zv_var.specs.Nested.{slice_fault};
ghost use Rattle.zv_owned.specs.Size.{size, takes_insert, takes_pushes, takes_replace};
ghost use Rattle.zv_owned.specs.Widths.{wide};
ghost use Rattle.zv_map.specs.Keys.{nth};

mod changes;
mod container;
pub mod kind;

use std::alloc::Global;
use zv_owned::vector::VarZeroVec;
use zv_ule::{Index16, Index32, NoMemory, UleError, UsableKind, VarRef, ZvKind};

/// A list of elements of any lengths, whose count and starts have two bytes each, its narrow form,
/// or four, its wide form.
///
/// It takes what a list with fields of four bytes takes. A change that doesn't fit the narrow form
/// makes the list wide first. It stays so until [`settle`](Self::settle), which chooses the form by
/// the list alone: narrow up to 65,535 bytes.
#[derive(Drop)]
pub enum FlexVec<'a, T: ZvKind> {
    /// With fields of two bytes.
    Narrow(VarZeroVec<'a, T, Index16>),
    /// With fields of four bytes.
    Wide(VarZeroVec<'a, T, Index32>),
}

/// The list of no elements, as [`FlexVec::new`].
impl<T: ZvKind + UsableKind> Default for FlexVec<'_, T> {
    ghost use Rattle.zv_map.specs.Flexes.{flex_bytes, flex_list, flex_owned, flex_wide};

    ghost is_default = { λ v. (flex_list v ≡ []) × (flex_bytes v ≡ []) × (flex_owned v ≡ false)
        × (flex_wide v ≡ false) };

    #[inline]
    fn default() -> Self {
        FlexVec::new()
    }
}

impl<'a, T: ZvKind> FlexVec<'a, T> {
    ghost use Rattle.zv_map.specs.Flexes.{IsExact, flex_bytes, flex_capacity, flex_list};
    ghost use Rattle.zv_map.specs.Flexes.{flex_owned, flex_roomy, flex_spare, flex_wide};

    /// The list of no elements, narrow and borrowed. It takes no memory.
    #[inline]
    pub fn new() -> Self
        requires { IsTrue T.usable }
        ensures list { flex_list result ≡ [] }
        ensures bytes { flex_bytes result ≡ [] }
        ensures owned { flex_owned result ≡ false }
        ensures wide { flex_wide result ≡ false }
    {
        FlexVec::Narrow(VarZeroVec::new())
    }

    /// The list that bytes are in the wide form or in the narrow one, borrowed.
    ///
    /// # Errors
    /// As [`VarZeroVec::parse_bytes`] in that form.
    pub fn parse_bytes(wide: bool, bytes: &'a [u8]) -> Result<Self, UleError>
        requires { IsTrue T.usable }
        ensures error { result_err result ≡
            slice_fault (list_fault (if wide then 4 else 2) T.fault bytes.now) }
        ensures list { IfOk result (λ v. flex_list v ≡
            elements (if wide then 4 else 2) bytes.now) }
        ensures bytes { IfOk result (λ v. flex_bytes v ≡ bytes.now) }
        ensures owned { IfOk result (λ v. flex_owned v ≡ false) }
        ensures wide { IfOk result (λ v. flex_wide v ≡ wide) }
    {
        if wide {
            Ok(FlexVec::Wide(VarZeroVec::parse_bytes(bytes)?))
        } else {
            Ok(FlexVec::Narrow(VarZeroVec::parse_bytes(bytes)?))
        }
    }

    /// Whether the list is in the wide form.
    #[inline]
    pub fn is_wide(&self) -> bool
        ensures { result ≡ flex_wide self.now }
    {
        matches!(self, FlexVec::Wide(_))
    }

    /// Whether the list owns its bytes.
    #[inline]
    pub fn is_owned(&self) -> bool
        ensures { result ≡ flex_owned self.now }
    {
        match self {
            FlexVec::Narrow(v) => v.is_owned(),
            FlexVec::Wide(v) => v.is_owned(),
        }
    }

    /// The list's bytes.
    #[inline]
    pub fn as_bytes(&self) -> &[u8]
        ensures { result.now ≡ flex_bytes self.now }
    {
        match self {
            FlexVec::Narrow(v) => v.as_bytes(),
            FlexVec::Wide(v) => v.as_bytes(),
        }
    }

    /// How many elements there are.
    #[inline]
    pub fn len(&self) -> usize
        ensures { result ≡ length (flex_list self.now) }
    {
        match self {
            FlexVec::Narrow(v) => v.len(),
            FlexVec::Wide(v) => v.len(),
        }
    }

    /// The element at a place, counted from 0, or `None` from the end on.
    #[inline]
    pub fn get(&self, index: usize) -> Option<VarRef<'_, T>>
        ensures { option_map element_of result ≡ slice_get (flex_list self.now) index }
    {
        match self {
            FlexVec::Narrow(v) => v.get(index),
            FlexVec::Wide(v) => v.get(index),
        }
    }

    /// Whether the narrow form would be longer than 65,535 bytes.
    #[inline]
    #[tactic(auto, using(zv_owned::proofs::Sizes::size_of))]
    fn needs_wide(&self) -> bool
        ensures { result ≡ wide (flex_list self.now) }
    {
        let narrow = match self {
            FlexVec::Narrow(v) => v.size_in::<Index16>(),
            FlexVec::Wide(v) => v.size_in::<Index16>(),
        };
        narrow > 65_535
    }

    /// How many bytes the list is written as in the wide form.
    #[inline]
    fn wide_size(&self) -> usize
        ensures { result ≡ size 4 (flex_list self.now) }
    {
        match self {
            FlexVec::Narrow(v) => v.size_in::<Index32>(),
            FlexVec::Wide(v) => v.size_in::<Index32>(),
        }
    }

    /// How many bytes the list's memory holds.
    #[inline]
    fn capacity(&self) -> usize
        ensures { result ≡ flex_capacity self.now }
    {
        match self {
            FlexVec::Narrow(v) => v.capacity(),
            FlexVec::Wide(v) => v.capacity(),
        }
    }

    /// Whether the list owns its bytes, in memory that holds its wide form.
    #[inline]
    pub fn is_roomy(&self) -> bool
        ensures { result ≡ flex_roomy self.now }
    {
        self.is_owned() && self.wide_size() <= self.capacity()
    }

    /// How many bytes the list's memory holds beyond its wide form: none where it is borrowed.
    #[inline]
    pub fn spare(&self) -> usize
        ensures { result ≡ flex_spare self.now }
    {
        if self.is_owned() {
            self.capacity().saturating_sub(self.wide_size())
        } else {
            0
        }
    }

    /// Whether the size rule takes an element of `len` bytes beside the list's own.
    #[inline]
    pub fn takes_insert(&self, len: usize) -> bool
        ensures { result ≡ takes_insert 4 (flex_list self.now) len }
    {
        match self {
            FlexVec::Narrow(v) => v.takes_insert_in::<Index32>(len),
            FlexVec::Wide(v) => v.takes_insert(len),
        }
    }

    /// Whether the size rule takes an element of `len` bytes in place of the one at a place.
    #[inline]
    pub fn takes_replace(&self, index: usize, len: usize) -> bool
        requires { index < length (flex_list self.now) }
        ensures { result ≡ takes_replace 4 (flex_list self.now)
            (length (nth (flex_list self.now) index)) len }
    {
        match self {
            FlexVec::Narrow(v) => v.takes_replace_in::<Index32>(index, len),
            FlexVec::Wide(v) => v.takes_replace(index, len),
        }
    }

    /// Whether the size rule takes the list's elements one after another into an empty list.
    #[inline]
    pub fn takes_elements(&self) -> bool
        ensures { result ≡ takes_pushes (takes_insert 4) [] (flex_list self.now) }
    {
        match self {
            FlexVec::Narrow(v) => v.takes_elements_in::<Index32>(),
            FlexVec::Wide(v) => v.takes_elements(),
        }
    }

    /// Takes out every element, and keeps the form. It takes no memory. A list that is owned stays
    /// so, and keeps what it has.
    #[inline]
    pub fn clear(&mut self)
        ensures list { flex_list self.new ≡ [] }
        ensures bytes { flex_bytes self.new ≡ [] }
        ensures owned { flex_owned self.new ≡ flex_owned self.old }
        ensures wide { flex_wide self.new ≡ flex_wide self.old }
        ensures roomy { flex_roomy self.new ≡ flex_owned self.old }
        ensures spare { flex_spare self.old ≤ flex_spare self.new }
    {
        match self {
            FlexVec::Narrow(v) => v.clear(),
            FlexVec::Wide(v) => v.clear(),
        }
    }

    /// Makes the list own its bytes: one that is borrowed is copied, byte for byte.
    ///
    /// # Errors
    /// [`NoMemory`] at most where the list is borrowed, and then it stays so.
    #[inline]
    pub fn make_owned(&mut self, alloc: Global) -> Result<(), NoMemory>
        ensures list { flex_list self.new ≡ flex_list self.old }
        ensures bytes { flex_bytes self.new ≡ flex_bytes self.old }
        ensures wide { flex_wide self.new ≡ flex_wide self.old }
        ensures owned { OnOk result (flex_owned self.new ≡ true) }
        ensures roomy { flex_roomy self.old ≡ true → flex_roomy self.new ≡ true }
        ensures err { OnErr result (self.new ≡ self.old) }
    {
        match self {
            FlexVec::Narrow(v) => v.make_owned(alloc),
            FlexVec::Wide(v) => v.make_owned(alloc),
        }
    }

    /// Makes the list own its bytes, in memory that holds its wide form and `n` bytes more.
    ///
    /// # Errors
    /// [`NoMemory`]; the list is then as it was.
    pub fn reserve_bytes(&mut self, alloc: Global, n: usize) -> Result<(), NoMemory>
        ensures list { flex_list self.new ≡ flex_list self.old }
        ensures bytes { flex_bytes self.new ≡ flex_bytes self.old }
        ensures wide { flex_wide self.new ≡ flex_wide self.old }
        ensures owned { OnOk result (flex_owned self.new ≡ true) }
        ensures roomy { OnOk result (flex_roomy self.new ≡ true) }
        ensures room { OnOk result (n ≤ flex_spare self.new) }
        ensures keeps_room { flex_spare self.old ≤ flex_spare self.new }
        ensures err { OnErr result (self.new ≡ self.old) }
    {
        let wider = self.wide_size().saturating_sub(self.as_bytes().len());
        let n = n.checked_add(wider).ok_or(NoMemory)?;
        match self {
            FlexVec::Narrow(v) => v.reserve_bytes(alloc, n),
            FlexVec::Wide(v) => v.reserve_bytes(alloc, n),
        }
    }

    /// A list with the same bytes in the same form, borrowed from the same place or owned as this
    /// one is. It takes memory only where it is owned.
    pub fn clone(&self, alloc: Global) -> Result<Self, NoMemory>
        ensures list { IfOk result (λ v. flex_list v ≡ flex_list self.now) }
        ensures bytes { IfOk result (λ v. flex_bytes v ≡ flex_bytes self.now) }
        ensures wide { IfOk result (λ v. flex_wide v ≡ flex_wide self.now) }
        ensures owned { IfOk result (λ v. flex_owned v ≡ flex_owned self.now) }
    {
        match self {
            FlexVec::Narrow(v) => Ok(FlexVec::Narrow(v.clone(alloc)?)),
            FlexVec::Wide(v) => Ok(FlexVec::Wide(v.clone(alloc)?)),
        }
    }

    /// Leaves out the bytes that follow a count of 0. It takes no memory.
    fn trim(&mut self)
        ensures list { flex_list self.new ≡ flex_list self.old }
        ensures exact { IsExact self.new }
        ensures wide { flex_wide self.new ≡ flex_wide self.old }
        ensures owned { flex_owned self.new ≡ flex_owned self.old }
        ensures roomy { flex_roomy self.old ≡ true → flex_roomy self.new ≡ true }
        ensures spare { flex_spare self.old ≤ flex_spare self.new }
    {
        match self {
            FlexVec::Narrow(v) => v.trim(),
            FlexVec::Wide(v) => v.trim(),
        }
    }

    /// Makes the list wide in its memory, unless something fits it as it is.
    fn widen_unless(&mut self, fits: bool)
        requires roomy { flex_roomy self.old ≡ true }
        requires exact { IsExact self.old }
        ensures list { flex_list self.new ≡ flex_list self.old }
        ensures exact { IsExact self.new }
        ensures wide { flex_wide self.new ≡ (flex_wide self.old || not fits) }
        ensures roomy { flex_roomy self.new ≡ true }
        ensures spare { flex_spare self.old ≤ flex_spare self.new }
    {
        if fits {
            return;
        }
        if let FlexVec::Narrow(v) = self {
            if let Some(owned) = v.take_owned() {
                *self = match owned.widen() {
                    Ok(owned) => FlexVec::Wide(VarZeroVec::new_owned(owned)),
                    Err(owned) => FlexVec::Narrow(VarZeroVec::new_owned(owned)),
                };
            }
        }
    }

    /// Makes a wide list narrow in its memory, if it can be.
    fn narrow_if_short(&mut self)
        requires roomy { flex_roomy self.old ≡ true }
        requires exact { IsExact self.old }
        ensures list { flex_list self.new ≡ flex_list self.old }
        ensures exact { IsExact self.new }
        ensures wide { flex_wide self.new ≡ (flex_wide self.old && wide (flex_list self.old)) }
        ensures roomy { flex_roomy self.new ≡ true }
        ensures spare { flex_spare self.old ≤ flex_spare self.new }
    {
        if let FlexVec::Wide(v) = self {
            if let Some(owned) = v.take_owned() {
                *self = match owned.narrow() {
                    Ok(owned) => FlexVec::Narrow(VarZeroVec::new_owned(owned)),
                    Err(owned) => FlexVec::Wide(VarZeroVec::new_owned(owned)),
                };
            }
        }
    }

    /// Puts the list into the form that it needs: wide exactly where the narrow one would be longer
    /// than 65,535 bytes. It takes no memory, and moves the bytes only where the form changes.
    pub fn settle(&mut self)
        requires roomy { flex_roomy self.old ≡ true }
        ensures list { flex_list self.new ≡ flex_list self.old }
        ensures wide { flex_wide self.new ≡ wide (flex_list self.old) }
        ensures bytes { IsExact self.new }
        ensures roomy { flex_roomy self.new ≡ true }
        ensures spare { flex_spare self.old ≤ flex_spare self.new }
    {
        self.trim();
        if self.needs_wide() {
            self.widen_unless(false);
        } else {
            self.narrow_if_short();
        }
    }
}
