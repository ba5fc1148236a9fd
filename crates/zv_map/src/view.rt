// Views of containers.
#![tactic(auto, using(crate::proofs::FixedLists::chunk_places))]

ghost use Rattle.std.specs.Prelude.{◌≡◌, ⊤, ℕ, ◌+◌, ◌%◌, ◌==◌, ◌<◌, ◌≤◌, ◌↔◌, List, [], length};
ghost use Rattle.std.specs.Prelude.{IsTrue, None, Option, take};
ghost use Rattle.std.specs.List.{concat, slice_get};
ghost use Rattle.std.specs.Option.{option_map};
ghost use Rattle.zv_ule.specs.Chunks.{chunks_of, first_fault};
ghost use Rattle.zv_ule.specs.Fixed.{is_width};
ghost use Rattle.zv_ule.specs.Views.{element_of};
ghost use Rattle.zv_var.specs.Views.{list_of as elements_in};
ghost use Rattle.zv_map.specs.Layouts.{list_in, spells_in, encoding_in};
ghost use Rattle.zv_map.specs.Keys.{nth};
ghost use Rattle.zv_map.specs.declared.view.Layout.TheVariants.{Fixed};

use crate::vecs::ZeroVecLike;
use std::alloc::AllocError;
use std::marker::PhantomData;
use zv_ule::{Index16, Index32, VarRef, VarZeroVecFormat, ZvKind};
use zv_var::slice::VarZeroSlice;

/// How the bytes of a container spell its list.
#[derive(Clone, Copy, Debug, PartialEq, Eq)]
pub enum Layout {
    /// The elements one after another, each of so many bytes.
    Fixed(usize),
    /// The format with fields of two bytes.
    Index16,
    /// The format with fields of four bytes.
    Index32,
}

impl Layout {
    ghost use Rattle.zv_map.specs.Layouts.{field_width};

    /// The width of a field in bytes, and 0 where the layout has no fields.
    #[inline]
    pub fn field_width(self) -> usize
        ensures { result ≡ field_width self }
    {
        match self {
            Layout::Fixed(_) => 0,
            Layout::Index16 => Index16::W,
            Layout::Index32 => Index32::W,
        }
    }
}

/// The bytes of a container and their layout, without their kind.
#[derive(Clone, Copy, Debug)]
pub struct RawView<'b> {
    /// The bytes of the list, as the container keeps them.
    pub bytes: &'b [u8],
    /// How they spell a list.
    pub layout: Layout,
}

/// A view of a container's list, whatever its layout. It is copied freely, lives as long as the
/// bytes, and no call on it checks them again.
pub struct KvSlice<'b, T: ZvKind> {
    bytes: &'b [u8],
    layout: Layout,
    of: PhantomData<T>,
    pub ghost usable: { IsTrue T.usable },
    pub ghost spells: { IsTrue (spells_in layout T.fault bytes.now) },
}

impl<T: ZvKind> Copy for KvSlice<'_, T> {}

impl<T: ZvKind> Clone for KvSlice<'_, T> {
    ghost is_clone = { λ v w. w ≡ v };

    ghost is_infallible = { λ _. ⊤ };

    /// A copy, which takes no memory.
    #[inline]
    fn clone(&self) -> Result<Self, AllocError> {
        Ok(*self)
    }
}

/// How many chunks of the width there are.
#[inline]
fn chunk_count(bytes: &[u8], width: usize) -> usize
    requires { IsTrue (is_width width) }
    ensures { result ≡ length (chunks_of width bytes.now) }
{
    bytes.len() / width
}

/// The chunk at a place.
#[inline]
fn chunk_at(bytes: &[u8], width: usize, index: usize) -> &[u8]
    requires width { IsTrue (is_width width) }
    requires within { index < length (chunks_of width bytes.now) }
    ensures { result.now ≡ nth (chunks_of width bytes.now) index }
{
    let (_, rest) = bytes.split_at(index * width);
    let (chunk, _) = rest.split_at(width);
    chunk
}

/// Where the chunk at a place starts, or where the last one ends.
#[inline]
#[tactic(auto, using(crate::proofs::FixedLists::chunk_starts))]
fn chunk_start(_bytes: &[u8], width: usize, index: usize) -> usize
    requires width { IsTrue (is_width width) }
    requires within { index ≤ length (chunks_of width _bytes.now) }
    ensures { result ≡ length (concat (take index (chunks_of width _bytes.now))) }
{
    index * width
}

/// The chunks one after another, which are all bytes.
#[inline]
#[tactic(auto, using(crate::specs::Laws::fixed_written))]
fn joined_chunks<T: ZvKind>(bytes: &[u8], _width: usize) -> &[u8]
    requires { IsTrue (spells_in (Fixed _width) T.fault bytes.now) }
    ensures { result.now ≡ concat (chunks_of _width bytes.now) }
{
    bytes
}

/// The chunk at a place, as an element.
#[inline]
fn element_at<T: ZvKind>(bytes: &[u8], width: usize, index: usize) -> VarRef<'_, T>
    requires usable { IsTrue T.usable }
    requires width { IsTrue (is_width width) }
    requires good { first_fault T.fault (chunks_of width bytes.now) ≡ None }
    requires within { index < length (chunks_of width bytes.now) }
    ensures { element_of result ≡ nth (chunks_of width bytes.now) index }
{
    VarRef::of_valid(chunk_at(bytes, width, index))
}

/// The chunk at a place, as an element, or `None` from the end on.
#[inline]
fn chunk_element<T: ZvKind>(bytes: &[u8], width: usize, index: usize) -> Option<VarRef<'_, T>>
    requires usable { IsTrue T.usable }
    requires width { IsTrue (is_width width) }
    requires good { first_fault T.fault (chunks_of width bytes.now) ≡ None }
    ensures { option_map element_of result ≡ slice_get (chunks_of width bytes.now) index }
{
    if index < chunk_count(bytes, width) {
        Some(element_at(bytes, width, index))
    } else {
        None
    }
}

/// The element at a place of a list of elements of any lengths.
#[inline]
fn element_in<'b, T: ZvKind, F: VarZeroVecFormat>(
    list: VarZeroSlice<'b, T, F>,
    index: usize,
) -> VarRef<'b, T>
    requires { index < length (elements_in list) }
    ensures { element_of result ≡ nth (elements_in list.entry) index }
{
    match list.get(index) {
        Some(element) => element,
        None => unreachable!(),
    }
}

/// The bytes of a list that has an element, which are all that it is written as.
#[inline]
fn encoding_of<T: ZvKind>(_layout: Layout, bytes: &[u8]) -> &[u8]
    requires spells { IsTrue (spells_in _layout T.fault bytes.now) }
    requires some { 0 < length (list_in _layout bytes.now) }
    ensures { result.now ≡ encoding_in _layout (list_in _layout bytes.now) }
{
    bytes
}

impl<'b, T: ZvKind> KvSlice<'b, T> {
    ghost use Rattle.zv_map.specs.Views.{bytes_of, list_of};

    /// The list that bytes are known to spell. It reads none of them.
    #[inline]
    pub fn of_valid(raw: RawView<'b>) -> Self
        requires usable { IsTrue T.usable }
        requires spells { IsTrue (spells_in raw.layout T.fault raw.bytes.now) }
        ensures bytes { bytes_of result ≡ raw.entry.bytes.now }
        ensures layout { result.layout ≡ raw.entry.layout }
    {
        KvSlice {
            bytes: raw.bytes,
            layout: raw.layout,
            of: PhantomData,
        }
    }

    /// The same bytes and layout, without their kind.
    #[inline]
    pub fn raw(self) -> RawView<'b>
        ensures bytes { result.bytes.now ≡ bytes_of self.entry }
        ensures layout { result.layout ≡ self.entry.layout }
        ensures spells { IsTrue (spells_in result.layout T.fault result.bytes.now) }
    {
        RawView {
            bytes: self.bytes,
            layout: self.layout,
        }
    }

    /// The bytes that the list is read from, as they were given.
    #[inline]
    pub fn bytes(self) -> &'b [u8]
        ensures bytes { result.now ≡ bytes_of self.entry }
        ensures spells { IsTrue (spells_in self.entry.layout T.fault result.now) }
    {
        self.bytes
    }

    /// How the bytes spell the list.
    #[inline]
    pub fn layout(self) -> Layout
        ensures { result ≡ self.entry.layout }
    {
        self.layout
    }

    /// How many elements there are.
    #[inline]
    pub fn len(self) -> usize
        ensures { result ≡ length (list_of self.entry) }
    {
        match self.layout {
            Layout::Fixed(width) => chunk_count(self.bytes, width),
            Layout::Index16 => VarZeroSlice::<T, Index16>::of_valid(self.bytes).len(),
            Layout::Index32 => VarZeroSlice::<T, Index32>::of_valid(self.bytes).len(),
        }
    }

    /// Whether there is no element.
    #[inline]
    pub fn is_empty(self) -> bool
        ensures { result ≡ (length (list_of self.entry) == 0) }
    {
        self.len() == 0
    }

    /// The element at a place, counted from 0, or `None` from the end on. It lives as long as the
    /// bytes.
    #[inline]
    pub fn get(self, index: usize) -> Option<VarRef<'b, T>>
        ensures { option_map element_of result ≡ slice_get (list_of self.entry) index }
    {
        match self.layout {
            Layout::Fixed(width) => chunk_element(self.bytes, width, index),
            Layout::Index16 => VarZeroSlice::<T, Index16>::of_valid(self.bytes).get(index),
            Layout::Index32 => VarZeroSlice::<T, Index32>::of_valid(self.bytes).get(index),
        }
    }

    /// The element at a place that is within the list. It lives as long as the bytes.
    #[inline]
    pub fn at(self, index: usize) -> VarRef<'b, T>
        requires { index < length (list_of self) }
        ensures { element_of result ≡ nth (list_of self.entry) index }
    {
        match self.layout {
            Layout::Fixed(width) => element_at(self.bytes, width, index),
            Layout::Index16 => {
                element_in(VarZeroSlice::<T, Index16>::of_valid(self.bytes), index)
            }
            Layout::Index32 => {
                element_in(VarZeroSlice::<T, Index32>::of_valid(self.bytes), index)
            }
        }
    }

    /// Where the element at a place starts among the bytes of all elements, and for the place after
    /// the last one where that one ends.
    #[inline]
    pub fn offset(self, index: usize) -> usize
        requires { index ≤ length (list_of self) }
        ensures { result ≡ length (concat (take index (list_of self.entry))) }
    {
        match self.layout {
            Layout::Fixed(width) => chunk_start(self.bytes, width, index),
            Layout::Index16 => VarZeroSlice::<T, Index16>::of_valid(self.bytes).offset(index),
            Layout::Index32 => VarZeroSlice::<T, Index32>::of_valid(self.bytes).offset(index),
        }
    }

    /// Where the element at a place starts among the bytes of all elements, for an element that is
    /// not the first. Of a list whose elements have any lengths it reads that start alone, where
    /// [`offset`](Self::offset) reads the count too.
    #[inline]
    pub fn inner_offset(self, index: usize) -> usize
        requires later { 0 < index }
        requires place { index < length (list_of self) }
        ensures { result ≡ length (concat (take index (list_of self.entry))) }
    {
        match self.layout {
            Layout::Fixed(width) => chunk_start(self.bytes, width, index),
            Layout::Index16 => {
                VarZeroSlice::<T, Index16>::of_valid(self.bytes).inner_offset(index)
            }
            Layout::Index32 => {
                VarZeroSlice::<T, Index32>::of_valid(self.bytes).inner_offset(index)
            }
        }
    }

    /// The bytes of all elements, one after another.
    #[inline]
    pub fn elements_bytes(self) -> &'b [u8]
        ensures { result.now ≡ concat (list_of self.entry) }
    {
        match self.layout {
            Layout::Fixed(width) => joined_chunks::<T>(self.bytes, width),
            Layout::Index16 => VarZeroSlice::<T, Index16>::of_valid(self.bytes).elements_bytes(),
            Layout::Index32 => VarZeroSlice::<T, Index32>::of_valid(self.bytes).elements_bytes(),
        }
    }

    /// The bytes that the list is written as in the view's layout: all of them, but none where the
    /// list is empty.
    #[inline]
    pub fn encoding(self) -> &'b [u8]
        ensures { result.now ≡ encoding_in self.entry.layout (list_of self.entry) }
    {
        if self.is_empty() {
            &[]
        } else {
            encoding_of::<T>(self.layout, self.bytes)
        }
    }

    /// Whether two lists have the same elements, each the same bytes, whatever their layouts.
    pub fn same(self, other: KvSlice<'_, T>) -> bool
        ensures { IsTrue result ↔ (list_of self.entry ≡ list_of other.entry) }
    {
        let len = self.len();
        if other.len() != len {
            return false;
        }
        for index in 0..len {
            if self.at(index).as_bytes() != other.at(index).as_bytes() {
                return false;
            }
        }
        true
    }
}

impl<T: ZvKind> ZeroVecLike<T> for KvSlice<'_, T> {
    ghost use Rattle.zv_map.specs.Views.{bytes_of, list_of};

    ghost list = { λ v. list_in v.layout v.bytes.now };

    ghost bytes = { λ v. v.bytes.now };

    ghost layout = { λ v. v.layout };

    #[inline]
    fn zvl_new_borrowed() -> KvSlice<'static, T>
        requires { IsTrue T.usable }
        ensures list { list_of result ≡ [] }
        ensures bytes { bytes_of result ≡ [] }
    {
        KvSlice {
            bytes: &[],
            layout: Layout::Index16,
            of: PhantomData,
        }
    }

    #[inline]
    fn zvl_as_borrowed(&self) -> KvSlice<'_, T> {
        *self
    }

    #[inline]
    fn zvl_len(&self) -> usize {
        self.len()
    }

    #[inline]
    fn zvl_get(&self, index: usize) -> Option<VarRef<'_, T>> {
        self.get(index)
    }
}
