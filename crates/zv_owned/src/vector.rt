// A list in a format that is borrowed, or owns its bytes.
ghost use Rattle.std.specs.Prelude.{◌≡◌, ◌+◌, [], Option, None, Some, IsTrue, IfOk, IfSome, IsOk};
ghost use Rattle.std.specs.Prelude.{true, false, is_some, not, ◌==◌, ◌<◌, length, slice_index_or};
ghost use Rattle.std.specs.Prelude.{◌*◌, ◌≤◌, OnOk, OnErr};
ghost use Rattle.std.specs.Option.{option_map};
ghost use Rattle.std.specs.Result.{result_err};
ghost use Rattle.zv_var.specs.Format.{elements, list_fault};
ghost use Rattle.zv_var.specs.Nested.{slice_fault};
ghost use Rattle.zv_var.specs.Views.{bytes_of, list_of, parts_of};
ghost use Rattle.std.specs.List.{slice_get};
ghost use Rattle.zv_ule.specs.Views.{element_of};
ghost use Rattle.zv_var.specs.Iters.{left_of};
ghost use Rattle.zv_owned.specs.Size.{takes_insert, takes_pushes, takes_replace};

mod changes;
mod conversions;
mod formats;
mod slot;

use crate::owned::{VarZeroVecOwned, room_for};
use crate::size::{takes_elements, takes_insert, takes_replace};
use slot::Slot;
use std::alloc::Global;
use zv_ule::{
    Index16, Index32, NoMemory, UleError, UsableKind, VarBox, VarRef, VarZeroVecFormat, ZvKind,
};
use zv_var::components::VarZeroVecComponents;
use zv_var::iter::VarZeroSliceIter;
use zv_var::slice::VarZeroSlice;

/// A list of elements of any lengths: a view of bytes, or bytes of its own.
///
/// It is borrowed until the first change, which makes it owned, and then stays so. The form of the
/// bytes, and what a change leaves, are as for [`VarZeroSlice`] and [`VarZeroVecOwned`].
#[derive(Drop)]
pub struct VarZeroVec<'a, T: ZvKind, F: VarZeroVecFormat> {
    view: VarZeroSlice<'a, T, F>,
    slot: Slot<T, F>,
}

/// A list whose count and starts have two bytes each.
pub type VarZeroVec16<'a, T> = VarZeroVec<'a, T, Index16>;

/// A list whose count and starts have four bytes each.
pub type VarZeroVec32<'a, T> = VarZeroVec<'a, T, Index32>;

/// The list of no elements, as [`VarZeroVec::new`].
impl<T: ZvKind + UsableKind, F: VarZeroVecFormat> Default for VarZeroVec<'_, T, F> {
    ghost use Rattle.zv_owned.specs.Vectors.{vector_bytes, vector_list, vector_owned, vector_spare};

    ghost is_default = { λ v. (vector_list v ≡ []) × (vector_owned v ≡ false)
        × (vector_bytes v ≡ []) × (vector_spare v ≡ 0) };

    #[inline]
    fn default() -> Self {
        VarZeroVec::new()
    }
}

impl<'a, T: ZvKind, F: VarZeroVecFormat> VarZeroVec<'a, T, F> {
    ghost use Rattle.std.specs.Borrow.{sem};
    ghost use Rattle.zv_owned.specs.Lending.{LendsMade, LendsOwned};
    ghost use Rattle.zv_owned.specs.Vectors.{vector_bytes, vector_list, vector_owned, vector_spare};

    /// The list of no elements, borrowed. It takes no memory.
    #[inline]
    pub fn new() -> Self
        requires { IsTrue T.usable }
        ensures list { vector_list result ≡ [] }
        ensures bytes { vector_bytes result ≡ [] }
        ensures owned { vector_owned result ≡ false }
        ensures spare { vector_spare result ≡ 0 }
    {
        VarZeroVec::new_borrowed(VarZeroSlice::of_valid(&[]))
    }

    /// A list that is read where it lies.
    #[inline]
    pub fn new_borrowed(view: VarZeroSlice<'a, T, F>) -> Self
        ensures list { vector_list result ≡ list_of view.entry }
        ensures bytes { vector_bytes result ≡ bytes_of view.entry }
        ensures owned { vector_owned result ≡ false }
        ensures spare { vector_spare result ≡ 0 }
    {
        VarZeroVec {
            view,
            slot: Slot { owned: None },
        }
    }

    /// A list that owns its bytes.
    #[inline]
    pub fn new_owned(owned: VarZeroVecOwned<T, F>) -> Self
        ensures list { vector_list result ≡ owned.list }
        ensures bytes { vector_bytes result ≡ owned.bytes }
        ensures spare { vector_spare result ≡ owned.spare }
        ensures owned { vector_owned result ≡ true }
    {
        // `as_slice` is called for what it says of the kind: it is usable, also for no bytes.
        owned.as_slice();
        VarZeroVec {
            view: VarZeroSlice::of_valid(&[]),
            slot: Slot { owned: Some(owned) },
        }
    }

    /// The list that bytes are in the format, borrowed.
    ///
    /// # Errors
    /// As [`VarZeroSlice::parse_bytes`].
    pub fn parse_bytes(bytes: &'a [u8]) -> Result<Self, UleError>
        requires { IsTrue T.usable }
        ensures error { result_err result ≡ slice_fault (list_fault F.W T.fault bytes.now) }
        ensures list { IfOk result (λ v. vector_list v ≡ elements F.W bytes.now) }
        ensures bytes { IfOk result (λ v. vector_bytes v ≡ bytes.now) }
        ensures owned { IfOk result (λ v. vector_owned v ≡ false) }
    {
        let view = VarZeroSlice::parse_bytes(bytes)?;
        Ok(VarZeroVec::new_borrowed(view))
    }

    /// Whether the list owns its bytes.
    #[inline]
    pub fn is_owned(&self) -> bool
        ensures { result ≡ vector_owned self.now }
    {
        self.slot.owned.is_some()
    }

    /// The list, read in place.
    #[inline]
    pub fn as_slice(&self) -> VarZeroSlice<'_, T, F>
        ensures bytes { bytes_of result ≡ vector_bytes self.now }
        ensures list { list_of result ≡ vector_list self.now }
    {
        match &self.slot.owned {
            Some(owned) => owned.as_slice(),
            None => self.view,
        }
    }

    /// The list's bytes.
    #[inline]
    pub fn as_bytes(&self) -> &[u8]
        ensures bytes { result.now ≡ vector_bytes self.now }
        ensures spells { list_fault F.W T.fault result.now ≡ None }
    {
        self.as_slice().as_bytes()
    }

    /// The list, its count read.
    #[inline]
    pub fn as_components(&self) -> VarZeroVecComponents<'_, T, F>
        ensures parts { parts_of result ≡ vector_list self.now }
    {
        self.as_slice().components()
    }

    /// How many elements there are.
    #[inline]
    pub fn len(&self) -> usize
        ensures { result ≡ length (vector_list self.now) }
    {
        self.as_slice().len()
    }

    /// Whether there is no element.
    #[inline]
    pub fn is_empty(&self) -> bool
        ensures { result ≡ (length (vector_list self.now) == 0) }
    {
        self.as_slice().is_empty()
    }

    /// The element at a place, counted from 0, or `None` from the end on. It reads the count and
    /// two starts, whatever the length of the list.
    #[inline]
    pub fn get(&self, idx: usize) -> Option<VarRef<'_, T>>
        ensures { option_map element_of result ≡ slice_get (vector_list self.now) idx }
    {
        self.as_slice().get(idx)
    }

    /// The elements, in order.
    #[inline]
    pub fn iter(&self) -> VarZeroSliceIter<'_, T, F>
        ensures { left_of result ≡ vector_list self.now }
    {
        self.as_slice().iter()
    }

    /// The elements, each copied into a box. It checks none of them again.
    #[inline]
    pub fn to_vec(&self, alloc: Global) -> Result<Vec<VarBox<T>>, NoMemory>
        ensures { IfOk result (λ v. v.items ≡ vector_list self.now) }
    {
        self.as_slice().to_vec(alloc)
    }

    /// Whether the size rule of [`VarZeroVecOwned`] takes an element of `len` bytes beside the
    /// list's own.
    #[inline]
    pub fn takes_insert(&self, len: usize) -> bool
        ensures { result ≡ takes_insert F.W (vector_list self.now) len }
    {
        takes_insert::<T, F, F>(self.as_slice(), len)
    }

    /// Whether the size rule of [`VarZeroVecOwned`] takes the list's elements one after another
    /// into an empty list, which it then does in any order. It reads the list's length and size.
    #[inline]
    pub fn takes_elements(&self) -> bool
        ensures { result ≡ takes_pushes (takes_insert F.W) [] (vector_list self.now) }
    {
        takes_elements::<T, F, F>(self.as_slice())
    }

    /// Whether the size rule of [`VarZeroVecOwned`] takes an element of `len` bytes in place of the
    /// one at a place.
    #[inline]
    pub fn takes_replace(&self, index: usize, len: usize) -> bool
        requires { index < length (vector_list self.now) }
        ensures { result ≡ takes_replace F.W (vector_list self.now)
            (length (slice_index_or (vector_list self.now) index [])) len }
    {
        takes_replace::<T, F, F>(self.as_slice(), index, len)
    }

    /// How many bytes the list can grow by without memory: none where it is borrowed.
    #[inline]
    pub fn spare(&self) -> usize
        ensures { result ≡ vector_spare self.now }
    {
        match &self.slot.owned {
            Some(owned) => owned.spare(),
            None => 0,
        }
    }

    /// Makes room for `n` bytes more. A list that is borrowed is copied first, byte for byte, into
    /// memory that has the room.
    ///
    /// # Errors
    /// [`NoMemory`] at most where the list is borrowed or `n` is above the spare.
    #[inline]
    pub fn reserve_bytes(&mut self, alloc: Global, n: usize) -> Result<(), NoMemory>
        ensures list { vector_list self.new ≡ vector_list self.old }
        ensures bytes { vector_bytes self.new ≡ vector_bytes self.old }
        ensures owned { OnOk result (vector_owned self.new ≡ true) }
        ensures ok { OnOk result (n ≤ vector_spare self.new) }
        // where it is refused
        ensures err { OnErr result (self.new ≡ self.old) }
        ensures succeeds { IsTrue (vector_owned self.old) → n ≤ vector_spare self.old →
            IsOk result }
        ensures keeps_room { vector_spare self.old ≤ vector_spare self.new }
        ensures in_place { IsTrue (vector_owned self.old) → n ≤ vector_spare self.old →
            vector_spare self.new ≡ vector_spare self.old }
    {
        self.slot.reserve(alloc, self.view, n)
    }

    /// Makes room for `additional` elements more, of four bytes each, as
    /// [`reserve_bytes`](Self::reserve_bytes).
    pub fn reserve(&mut self, alloc: Global, additional: usize) -> Result<(), NoMemory>
        ensures list { vector_list self.new ≡ vector_list self.old }
        ensures bytes { vector_bytes self.new ≡ vector_bytes self.old }
        ensures owned { OnOk result (vector_owned self.new ≡ true) }
        ensures ok { OnOk result (additional * (F.W + 4) ≤ vector_spare self.new) }
        // where it is refused
        ensures err { OnErr result (self.new ≡ self.old) }
        ensures succeeds { IsTrue (vector_owned self.old) →
            additional * (F.W + 4) ≤ vector_spare self.old → IsOk result }
        ensures keeps_room { vector_spare self.old ≤ vector_spare self.new }
    {
        // `spare` is called for its clause that the spare is below 2^64: so is what it covers.
        let _spare = self.spare();
        let n = room_for::<F>(additional)?;
        self.reserve_bytes(alloc, n)
    }

    /// Makes the list own its bytes: one that is borrowed is copied, byte for byte.
    ///
    /// # Errors
    /// [`NoMemory`] at most where the list is borrowed, and then it stays so.
    #[inline]
    pub fn make_owned(&mut self, alloc: Global) -> Result<(), NoMemory>
        ensures list { vector_list self.new ≡ vector_list self.old }
        ensures bytes { vector_bytes self.new ≡ vector_bytes self.old }
        ensures owned { OnOk result (vector_owned self.new ≡ true) }
        // where it is refused
        ensures err { OnErr result (self.new ≡ self.old) }
        ensures succeeds { IsTrue (vector_owned self.old) → IsOk result }
        ensures keeps_room { vector_spare self.old ≤ vector_spare self.new }
        ensures in_place { IsTrue (vector_owned self.old) →
            vector_spare self.new ≡ vector_spare self.old }
    {
        self.reserve_bytes(alloc, 0)
    }

    /// The list of no elements, with room for `capacity` elements of four bytes each. It is
    /// borrowed, and takes no memory, where `capacity` is 0.
    pub fn with_capacity(alloc: Global, capacity: usize) -> Result<Self, NoMemory>
        requires { IsTrue T.usable }
        ensures list { IfOk result (λ v. vector_list v ≡ []) }
        ensures bytes { IfOk result (λ v. vector_bytes v ≡ []) }
        ensures owned { IfOk result (λ v. vector_owned v ≡ not (capacity == 0)) }
        // where it is refused
        ensures succeeds { capacity ≡ 0 → IsOk result }
        ensures spare { IfOk result (λ v. capacity * (F.W + 4) ≤ vector_spare v) }
    {
        let mut list = VarZeroVec::new();
        if capacity > 0 {
            list.reserve(alloc, capacity)?;
        }
        Ok(list)
    }

    /// Takes out every element. It takes no memory. A list that is owned stays so, and keeps what
    /// it has; one that is borrowed is then a view of no bytes.
    #[inline]
    pub fn clear(&mut self)
        ensures list { vector_list self.new ≡ [] }
        ensures bytes { vector_bytes self.new ≡ [] }
        ensures owned { vector_owned self.new ≡ vector_owned self.old }
        ensures keeps_room { vector_spare self.old ≤ vector_spare self.new }
        ensures memory { IsTrue (vector_owned self.old) →
            vector_spare self.new ≡ length (vector_bytes self.old) + vector_spare self.old }
    {
        match self.slot.as_owned() {
            Some(owned) => owned.clear(),
            None => self.view = VarZeroSlice::of_valid(&[]),
        }
    }

    /// The view, where the list is borrowed. It lives as long as the bytes, and so longer than the
    /// vector may.
    #[inline]
    pub fn as_maybe_borrowed(&self) -> Option<VarZeroSlice<'a, T, F>>
        ensures some { is_some result ≡ not (vector_owned self.now) }
        ensures list { IfSome result (λ s. list_of s ≡ vector_list self.now) }
        ensures bytes { IfSome result (λ s. bytes_of s ≡ vector_bytes self.now) }
    {
        if self.is_owned() {
            None
        } else {
            Some(self.view)
        }
    }

    /// The owned list, to be changed, where the list is owned. It takes no memory.
    #[inline]
    pub fn as_owned(&mut self) -> Option<&mut VarZeroVecOwned<T, F>>
        ensures* lends { sem 𝓛 (LendsOwned T.row F.row F.Index.row F.Len.row
            T.ZvKind F.VarZeroVecFormat F.Index.IntegerULE.own F.Index.ULE
            F.Len.IntegerULE.own F.Len.ULE self.entry result) }
        ensures value { option_map (λ v. v.now) result ≡ self.old.slot }
    {
        self.slot.as_owned()
    }

    /// The owned list, to be changed. A list that is borrowed is copied first, byte for byte.
    ///
    /// # Errors
    /// [`NoMemory`] at most where the list is borrowed, and then it stays so.
    pub fn make_mut(&mut self, alloc: Global) -> Result<&mut VarZeroVecOwned<T, F>, NoMemory>
        ensures* lends { sem 𝓛 (LendsMade T.row F.row F.Index.row F.Len.row
            T.ZvKind F.VarZeroVecFormat F.Index.IntegerULE.own F.Index.ULE
            F.Len.IntegerULE.own F.Len.ULE self.entry result) }
        ensures list { IfOk result (λ v. v.now.list ≡ vector_list self.old) }
        ensures bytes { IfOk result (λ v. v.now.bytes ≡ vector_bytes self.old) }
        ensures keeps_room { IfOk result (λ v. vector_spare self.old ≤ v.now.spare) }
        ensures in_place { IsTrue (vector_owned self.old) →
            IfOk result (λ v. v.now.spare ≡ vector_spare self.old) }
        ensures succeeds { IsTrue (vector_owned self.old) → IsOk result }
    {
        if let Err(e) = self.slot.reserve(alloc, self.view, 0) {
            return Err(e);
        }
        match self.slot.as_owned() {
            Some(owned) => Ok(owned),
            None => Err(NoMemory),
        }
    }
}
