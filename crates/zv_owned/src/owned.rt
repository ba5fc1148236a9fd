// A list in a format that owns its bytes.
ghost use Rattle.std.specs.Prelude.{◌≡◌, ◌==◌, ◌<◌, [], length, slice_index_or, Option, None};
ghost use Rattle.std.specs.Prelude.{IsTrue, IfOk, Some, ◌||◌, false, is_some, map, ◌+◌, ◌^◌, ◌≤◌};
ghost use Rattle.std.specs.Prelude.{IsOk, OnOk, OnErr, ◌*◌};
ghost use Rattle.std.specs.List.{slice_get};
ghost use Rattle.std.specs.Option.{option_map};
ghost use Rattle.zv_ule.specs.Views.{element_of};
ghost use Rattle.zv_var.specs.Format.{enc, elements, list_fault};
ghost use Rattle.zv_var.specs.Iters.{left_of};
ghost use Rattle.zv_var.specs.Serialize.{serialized_len};
ghost use Rattle.zv_var.specs.Views.{bytes_of, list_of, parts_of};
ghost use Rattle.zv_owned.specs.Owned.{TooLargeUnless};
ghost use Rattle.zv_owned.specs.Size.{takes_insert, takes_replace};

mod changes;
mod counted;
mod widths;

pub use crate::change::Change;
use crate::error::VecError;
use crate::shelf::Shelf;
use crate::size::{takes_insert, takes_replace};
use crate::vector::VarZeroVec;
use std::alloc::Global;
use std::marker::{Model, PhantomData};
use zv_ule::{EncodeAsVarULE, NoMemory, VarBox, VarRef, VarZeroVecFormat, ZvKind};
use zv_var::components::VarZeroVecComponents;
use zv_var::iter::VarZeroSliceIter;
use zv_var::serialize::get_serializable_bytes_non_empty;
use zv_var::slice::VarZeroSlice;

/// A list of elements of any lengths that owns its bytes, which are in the form that
/// [`VarZeroSlice`] reads.
///
/// After a change the bytes are the encoding of the changed list, whatever they were before: a list
/// that was given in other bytes of the same list is written as any other.
///
/// A change is made in the memory that the bytes lie in, and asks for more only where the bytes
/// grow by more than the spare. It moves what stands after the place, and writes the starts there.
///
/// # The size rule
/// An element is below `F::MAX` bytes. One that joins a list that is not empty must leave the whole
/// encoding within `F::MAX` bytes. One that stands in place of another must do so too, unless it is
/// no longer than the other. So a list may keep a last element that is longer than the rule allows,
/// if it was given with it.
#[derive(Drop)]
pub struct VarZeroVecOwned<T: ZvKind, F: VarZeroVecFormat> {
    shelf: Shelf,
    of: PhantomData<(T, F)>,
}

impl<T: ZvKind, F: VarZeroVecFormat> Model for VarZeroVecOwned<T, F> {
    ghost use Rattle.std.specs.Prelude.{◌≡◌, None, IsTrue};
    ghost use Rattle.zv_var.specs.Format.{elements, list_fault};
    ghost use Rattle.zv_owned.specs.Owned.{Owned};

    ghost Value = { Owned };

    ghost view = { λ v. record {
      list = elements F.W v.shelf.bytes;
      bytes = v.shelf.bytes;
      spare = v.shelf.spare;
    } };

    ghost invariant = { λ v. IsTrue T.usable × (list_fault F.W T.fault v.shelf.bytes ≡ None) };
}

impl<T: ZvKind, F: VarZeroVecFormat> VarZeroVecOwned<T, F> {
    ghost use Rattle.zv_owned.specs.Vectors.{vector_bytes, vector_list, vector_owned};

    /// The list of no elements, which is no bytes. It takes no memory.
    #[inline]
    pub fn new(alloc: Global) -> Self
        requires { IsTrue T.usable }
        ensures list { result.list ≡ [] }
        ensures bytes { result.bytes ≡ [] }
        ensures spare { result.spare ≡ 0 }
    {
        VarZeroVecOwned {
            shelf: Shelf::new(alloc),
            of: PhantomData,
        }
    }

    /// A copy of a list, byte for byte. It checks nothing.
    #[inline]
    pub fn from_slice(alloc: Global, slice: VarZeroSlice<'_, T, F>) -> Result<Self, NoMemory>
        ensures list { IfOk result (λ v. v.list ≡ list_of slice.entry) }
        ensures bytes { IfOk result (λ v. v.bytes ≡ bytes_of slice.entry) }
    {
        VarZeroVecOwned::with_copy(alloc, slice, 0)
    }

    /// A copy of a list, byte for byte, with a spare of `more` bytes.
    pub(crate) fn with_copy(
        alloc: Global,
        slice: VarZeroSlice<'_, T, F>,
        more: usize,
    ) -> Result<Self, NoMemory>
        ensures list { IfOk result (λ v. v.list ≡ list_of slice.entry) }
        ensures bytes { IfOk result (λ v. v.bytes ≡ bytes_of slice.entry) }
        ensures spare { IfOk result (λ v. v.spare ≡ more) }
    {
        let shelf = Shelf::with_copy(alloc, slice.as_bytes(), more)?;
        Ok(VarZeroVecOwned {
            shelf,
            of: PhantomData,
        })
    }

    /// The list of values' spellings.
    ///
    /// # Errors
    /// [`VecError::TooLarge`] exactly where a value has no spelling, or the starts and the
    /// spellings together reach `F::MAX`, or all the bytes reach 2^32; and otherwise
    /// [`VecError::Memory`].
    pub fn try_from_elements<A: EncodeAsVarULE<T>>(
        alloc: Global,
        elements: &[A],
    ) -> Result<Self, VecError>
        requires { IsTrue T.usable }
        ensures list { IfOk result (λ v. v.list ≡ map A.spelling elements.now) }
        ensures bytes { IfOk result (λ v. v.bytes ≡ enc F.W (map A.spelling elements.now)) }
        ensures refused { TooLargeUnless (length elements.now == 0 ||
            is_some (serialized_len A.fits A.spelling F.W elements.now)) result }
    {
        if elements.is_empty() {
            return Ok(VarZeroVecOwned::new(alloc));
        }
        match get_serializable_bytes_non_empty::<T, A, F>(alloc, elements)? {
            Some(bytes) => Ok(VarZeroVecOwned {
                shelf: Shelf::from_bytes(bytes),
                of: PhantomData,
            }),
            None => Err(VecError::TooLarge),
        }
    }

    /// The list, read in place.
    #[inline]
    pub fn as_slice(&self) -> VarZeroSlice<'_, T, F>
        ensures bytes { bytes_of result ≡ self.now.bytes }
        ensures list { list_of result ≡ self.now.list }
    {
        VarZeroSlice::of_valid(self.shelf.bytes())
    }

    /// The list, borrowed.
    #[inline]
    pub fn as_varzerovec(&self) -> VarZeroVec<'_, T, F>
        ensures list { vector_list result ≡ self.now.list }
        ensures bytes { vector_bytes result ≡ self.now.bytes }
        ensures owned { vector_owned result ≡ false }
    {
        VarZeroVec::new_borrowed(self.as_slice())
    }

    /// The list's bytes.
    #[inline]
    pub fn as_bytes(&self) -> &[u8]
        ensures bytes { result.now ≡ self.now.bytes }
        ensures spells { list_fault F.W T.fault result.now ≡ None }
    {
        self.shelf.bytes()
    }

    /// The list, its count read.
    #[inline]
    pub fn as_components(&self) -> VarZeroVecComponents<'_, T, F>
        ensures parts { parts_of result ≡ self.now.list }
    {
        self.as_slice().components()
    }

    /// How many elements there are.
    #[inline]
    pub fn len(&self) -> usize
        ensures { result ≡ length self.now.list }
    {
        self.as_slice().len()
    }

    /// Whether there is no element.
    #[inline]
    pub fn is_empty(&self) -> bool
        ensures { result ≡ (length self.now.list == 0) }
    {
        self.as_slice().is_empty()
    }

    /// The element at a place, counted from 0, or `None` from the end on. It reads the count and
    /// two starts, whatever the length of the list.
    #[inline]
    pub fn get(&self, idx: usize) -> Option<VarRef<'_, T>>
        ensures { option_map element_of result ≡ slice_get self.now.list idx }
    {
        self.as_slice().get(idx)
    }

    /// The elements, in order.
    #[inline]
    pub fn iter(&self) -> VarZeroSliceIter<'_, T, F>
        ensures { left_of result ≡ self.now.list }
    {
        self.as_slice().iter()
    }

    /// The elements, each copied into a box. It checks none of them again.
    #[inline]
    pub fn to_vec(&self, alloc: Global) -> Result<Vec<VarBox<T>>, NoMemory>
        ensures { IfOk result (λ v. v.items ≡ self.now.list) }
    {
        self.as_slice().to_vec(alloc)
    }

    /// Whether the size rule takes an element of `len` bytes beside the list's own.
    #[inline]
    pub fn takes_insert(&self, len: usize) -> bool
        ensures { result ≡ takes_insert F.W self.now.list len }
    {
        takes_insert::<T, F, F>(self.as_slice(), len)
    }

    /// Whether the size rule takes an element of `len` bytes in place of the one at a place.
    #[inline]
    pub fn takes_replace(&self, index: usize, len: usize) -> bool
        requires { index < length self.now.list }
        ensures { result ≡ takes_replace F.W self.now.list
            (length (slice_index_or self.now.list index [])) len }
    {
        takes_replace::<T, F, F>(self.as_slice(), index, len)
    }

    /// How many bytes the list can grow by without memory.
    #[inline]
    pub fn spare(&self) -> usize
        ensures { result ≡ self.now.spare }
    {
        self.shelf.spare()
    }

    /// How many bytes the list can have without memory.
    #[inline]
    pub fn capacity(&self) -> usize
        ensures { result ≡ length self.now.bytes + self.now.spare }
    {
        self.shelf.capacity()
    }

    /// Makes room for `n` bytes more. After [`NoMemory`] the list is as it was.
    #[inline]
    pub fn reserve_bytes(&mut self, n: usize) -> Result<(), NoMemory>
        ensures list { self.new.list ≡ self.old.list }
        ensures bytes { self.new.bytes ≡ self.old.bytes }
        ensures ok { OnOk result (n ≤ self.new.spare) }
        // where it is refused
        ensures err { OnErr result (self.new ≡ self.old) }
        ensures succeeds { n ≤ self.old.spare → IsOk result }
        ensures keeps_room { self.old.spare ≤ self.new.spare }
        ensures in_place { n ≤ self.old.spare → self.new.spare ≡ self.old.spare }
    {
        self.shelf.reserve(n)
    }

    /// Makes room for `additional` elements more, of four bytes each. After [`NoMemory`] the list
    /// is as it was.
    pub fn reserve(&mut self, additional: usize) -> Result<(), NoMemory>
        ensures list { self.new.list ≡ self.old.list }
        ensures bytes { self.new.bytes ≡ self.old.bytes }
        ensures ok { OnOk result (additional * (F.W + 4) ≤ self.new.spare) }
        // where it is refused
        ensures err { OnErr result (self.new ≡ self.old) }
        ensures succeeds { additional * (F.W + 4) ≤ self.old.spare → IsOk result }
        ensures keeps_room { self.old.spare ≤ self.new.spare }
    {
        // `spare` is called for its clause that the spare is below 2^64: so is what it covers.
        let _spare = self.spare();
        let n = room_for::<F>(additional)?;
        self.reserve_bytes(n)
    }

    /// The list of no elements, with room for `capacity` elements of four bytes each. It takes no
    /// memory where `capacity` is 0.
    pub fn with_capacity(alloc: Global, capacity: usize) -> Result<Self, NoMemory>
        requires { IsTrue T.usable }
        ensures list { IfOk result (λ v. v.list ≡ []) }
        ensures bytes { IfOk result (λ v. v.bytes ≡ []) }
        ensures spare { IfOk result (λ v. capacity * (F.W + 4) ≤ v.spare) }
        ensures succeeds { capacity ≡ 0 → IsOk result }
    {
        let mut list = VarZeroVecOwned::new(alloc);
        list.reserve(capacity)?;
        Ok(list)
    }

    /// Takes out every element. It takes no memory, and keeps what it has.
    #[inline]
    pub fn clear(&mut self)
        ensures list { self.new.list ≡ [] }
        ensures bytes { self.new.bytes ≡ [] }
        ensures memory { self.new.spare ≡ length self.old.bytes + self.old.spare }
    {
        self.shelf.clear();
    }

    /// The list's bytes, in the memory that they lie in.
    #[inline]
    pub fn into_bytes(self) -> Vec<u8>
        ensures bytes { result.items ≡ self.bytes }
        ensures spells { list_fault F.W T.fault self.bytes ≡ None }
    {
        let VarZeroVecOwned { shelf, of: _ } = self;
        shelf.into_bytes()
    }

    /// A list of its own with the same bytes.
    #[inline]
    pub fn clone(&self) -> Result<Self, NoMemory>
        ensures list { IfOk result (λ v. v.list ≡ self.now.list) }
        ensures bytes { IfOk result (λ v. v.bytes ≡ self.now.bytes) }
    {
        VarZeroVecOwned::from_slice(self.shelf.allocator(), self.as_slice())
    }
}

/// How many bytes so many elements of four bytes each take, with their fields.
#[inline]
pub(crate) fn room_for<F: VarZeroVecFormat>(count: usize) -> Result<usize, NoMemory>
    ensures ok { IfOk result (λ n. n ≡ count * (F.W + 4)) }
    ensures err { OnErr result (2 ^ 64 ≤ count * (F.W + 4)) }
{
    count.checked_mul(F::W + 4).ok_or(NoMemory)
}
