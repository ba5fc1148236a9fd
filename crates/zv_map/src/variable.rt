// The container of elements of any length.
ghost use Rattle.std.specs.Prelude.{◌≡◌, ℕ, ◌==◌, ◌+◌, ◌<◌, List, [], length, refl, None, IsTrue};
ghost use Rattle.std.specs.Prelude.{IfOk};
ghost use Rattle.zv_ule.specs.Views.{element_of};
ghost use Rattle.zv_var.specs.Format.{elements, list_fault};
ghost use Rattle.zv_var.specs.Nested.{slice_fault};
ghost use Rattle.zv_var.specs.Views.{bytes_of as slice_bytes, list_of as slice_list};
ghost use Rattle.zv_owned.specs.Size.{takes_insert, takes_replace};
ghost use Rattle.zv_owned.specs.Vectors.{vector_list, vector_bytes, vector_owned, vector_spare};
ghost use Rattle.zv_map.specs.Layouts.{field_width, list_in, spells_in};
ghost use Rattle.zv_map.specs.Keys.{nth};
ghost use Rattle.zv_map.specs.declared.view.Layout.{Layout};
ghost use Rattle.zv_map.specs.declared.view.Layout.TheVariants.{Index16 as LayoutIndex16};
ghost use Rattle.zv_map.specs.declared.view.Layout.TheVariants.{Index32 as LayoutIndex32};

use crate::error::{MapError, TooLarge};
use crate::vecs::{MutableZeroVecLike, ZeroVecLike, ZvContainer};
use crate::view::{KvSlice, Layout, RawView};
use std::alloc::Global;
use zv_owned::vector::VarZeroVec;
use zv_owned::{VarZeroVecOwned, VecError};
use zv_ule::{
    Index16, Index32, NoMemory, UleError, VarBox, VarRef, VarZeroVecFormat, ZvArg, ZvKind,
};
use zv_var::slice::VarZeroSlice;

/// A format whose lists are viewed in a layout of their own.
pub trait MapFormat: VarZeroVecFormat {
    /// The layout of lists in the format.
    const LAYOUT: Layout;

    ghost LAYOUT: { Layout };

    /// The layout's fields are as wide as the format's.
    ghost layout_width: { field_width LAYOUT ≡ Self.W };
}

impl MapFormat for Index16 {
    const LAYOUT: Layout = Layout::Index16;

    ghost LAYOUT = { LayoutIndex16 };

    ghost layout_width = { refl };
}

impl MapFormat for Index32 {
    const LAYOUT: Layout = Layout::Index32;

    ghost LAYOUT = { LayoutIndex32 };

    ghost layout_width = { refl };
}

/// The bytes of a list in the format, with its layout.
#[inline]
fn raw_view<'b, T: ZvKind, F: MapFormat>(list: VarZeroSlice<'b, T, F>) -> RawView<'b>
    ensures bytes { result.bytes.now ≡ slice_bytes list.entry }
    ensures layout { result.layout ≡ F.LAYOUT }
    ensures list { list_in result.layout result.bytes.now ≡ slice_list list.entry }
    ensures usable { IsTrue T.usable }
    ensures spells { IsTrue (spells_in result.layout T.fault result.bytes.now) }
{
    RawView {
        bytes: list.as_bytes(),
        layout: F::LAYOUT,
    }
}

/// The list in the format of a view whose layout is the format's.
#[inline]
fn slice_of<'b, T: ZvKind, F: MapFormat>(view: RawView<'b>) -> VarZeroSlice<'b, T, F>
    requires usable { IsTrue T.usable }
    requires layout { field_width view.layout ≡ F.W }
    requires spells { IsTrue (spells_in view.layout T.fault view.bytes.now) }
    ensures bytes { slice_bytes result ≡ view.entry.bytes.now }
    ensures list { slice_list result ≡ list_in view.entry.layout view.entry.bytes.now }
{
    VarZeroSlice::of_valid(view.bytes)
}

impl<'a, T: ZvKind, F: MapFormat> ZeroVecLike<T> for VarZeroVec<'a, T, F> {
    ghost use Rattle.zv_map.specs.Views.{bytes_of, list_of};

    ghost list = { vector_list };

    ghost bytes = { vector_bytes };

    ghost layout = { λ _. F.LAYOUT };

    #[inline]
    fn zvl_new_borrowed() -> KvSlice<'static, T>
        requires { IsTrue T.usable }
        ensures list { list_of result ≡ [] }
        ensures bytes { bytes_of result ≡ [] }
    {
        KvSlice::<'static, T>::zvl_new_borrowed()
    }

    #[inline]
    fn zvl_as_borrowed(&self) -> KvSlice<'_, T> {
        KvSlice::of_valid(raw_view(self.as_slice()))
    }

    #[inline]
    fn zvl_len(&self) -> usize {
        self.len()
    }

    #[inline]
    fn zvl_get(&self, index: usize) -> Option<VarRef<'_, T>> {
        self.get(index)
    }
}

impl<'a, T: ZvKind, F: MapFormat> ZvContainer<T> for VarZeroVec<'a, T, F> {
    ghost use Rattle.zv_owned.proofs.Pushes.{any_order};
    ghost use Rattle.zv_map.specs.Laws.{layout_has};

    type OwnedType = VarBox<T>;

    ghost spare = { vector_spare };

    ghost owned = { vector_owned };

    ghost ready = { vector_owned };

    ghost field = { F.W };

    ghost element_room = { F.W + 4 };

    ghost takes_insert = { takes_insert F.W };

    ghost takes_replace = { λ xs i n. takes_replace F.W xs (length (nth xs i)) n };

    ghost has_layout = { λ layout. field_width layout == F.W };

    ghost settled = { λ _. F.LAYOUT };

    ghost parse_fault = { λ bytes. slice_fault (list_fault F.W T.fault bytes) };

    ghost parse_list = { elements F.W };

    ghost parse_layout = { F.LAYOUT };

    #[inline]
    fn zvl_new() -> Self {
        VarZeroVec::new()
    }

    #[inline]
    fn zvl_is_owned(&self) -> bool {
        self.is_owned()
    }

    #[inline]
    fn zvl_field(&self) -> usize {
        F::W
    }

    #[inline]
    fn zvl_element_room(&self) -> usize {
        F::W + 4
    }

    #[inline]
    fn zvl_get_owned(&self, alloc: Global, index: usize) -> Result<VarBox<T>, NoMemory> {
        self.zvl_as_borrowed().at(index).to_boxed(alloc)
    }

    #[inline]
    fn zvl_takes_insert(&self, len: usize) -> bool {
        self.takes_insert(len)
    }

    #[inline]
    fn zvl_takes_replace(&self, index: usize, len: usize) -> bool {
        self.takes_replace(index, len)
    }

    #[inline]
    fn zvl_takes_elements(&self) -> bool {
        self.takes_elements()
    }

    #[inline]
    fn zvl_clear(&mut self) {
        self.clear();
    }

    #[inline]
    fn zvl_is_roomy(&self) -> bool {
        self.is_owned()
    }

    #[inline]
    fn zvl_settle(&mut self) {}

    #[inline]
    fn zvl_make_owned(&mut self, alloc: Global) -> Result<(), NoMemory> {
        self.make_owned(alloc)
    }

    #[inline]
    fn zvl_reserve_bytes(&mut self, alloc: Global, n: usize) -> Result<(), NoMemory> {
        self.reserve_bytes(alloc, n)
    }

    fn zvl_write_elements(
        &mut self,
        alloc: Global,
        elements: &[VarRef<'_, T>],
    ) -> Result<bool, NoMemory> {
        match VarZeroVecOwned::try_from_elements(alloc, elements) {
            Ok(owned) => {
                *self = VarZeroVec::new_owned(owned);
                Ok(true)
            }
            Err(VecError::TooLarge) => Ok(false),
            Err(VecError::Memory) => Err(NoMemory),
        }
    }

    #[inline]
    fn zvl_insert_reserved<Q: ZvArg<T>>(&mut self, index: usize, value: &Q) {
        self.insert_reserved(index, value);
    }

    #[inline]
    fn zvl_replace_reserved<Q: ZvArg<T>>(&mut self, index: usize, value: &Q) {
        self.replace_reserved(index, value);
    }

    fn zvl_put_reserved<Q: ZvArg<T>>(
        &mut self,
        index: usize,
        replace: bool,
        value: &Q,
    ) -> Result<(), TooLarge> {
        let len = value.arg_len();
        if replace {
            if !self.takes_replace(index, len) {
                return Err(TooLarge);
            }
            self.replace_reserved(index, value);
        } else {
            if !self.takes_insert(len) {
                return Err(TooLarge);
            }
            self.insert_reserved(index, value);
        }
        Ok(())
    }

    #[inline]
    fn zvl_discard(&mut self, index: usize) {
        self.remove_reserved(index);
    }

    ghost small_field = { F.width_small };

    ghost ready_owned = { λ v h. h };

    ghost owned_ready = { λ v h _. h };

    ghost any_order = { any_order F.W F.width_positive F.field_small };

    ghost own_layout = { λ _. layout_has F.LAYOUT F.W F.layout_width };
}

impl<'a, T: ZvKind, F: MapFormat> MutableZeroVecLike<'a, T> for VarZeroVec<'a, T, F> {
    #[inline]
    fn zvl_with_capacity(alloc: Global, capacity: usize) -> Result<Self, NoMemory> {
        VarZeroVec::with_capacity(alloc, capacity)
    }

    #[inline]
    fn zvl_parse(bytes: &'a [u8]) -> Result<Self, UleError> {
        VarZeroVec::parse_bytes(bytes)
    }

    #[inline]
    fn zvl_from_borrowed(b: RawView<'a>) -> Option<Self> {
        if b.bytes.is_empty() {
            return Some(VarZeroVec::new());
        }
        if b.layout.field_width() != F::W {
            return None;
        }
        Some(VarZeroVec::new_borrowed(slice_of(b)))
    }

    #[inline]
    fn zvl_as_borrowed_inner(&self) -> Option<RawView<'a>> {
        let view = self.as_maybe_borrowed()?;
        Some(raw_view(view))
    }

    #[inline]
    fn zvl_clone(&self, alloc: Global) -> Result<Self, NoMemory> {
        self.clone(alloc)
    }

    #[inline]
    fn zvl_insert<Q: ZvArg<T>>(
        &mut self,
        alloc: Global,
        index: usize,
        value: &Q,
    ) -> Result<(), MapError> {
        self.insert_arg(alloc, index, value)?;
        Ok(())
    }

    #[inline]
    fn zvl_push<Q: ZvArg<T>>(&mut self, alloc: Global, value: &Q) -> Result<(), MapError> {
        self.zvl_insert(alloc, self.zvl_len(), value)
    }

    fn zvl_replace<Q: ZvArg<T>>(
        &mut self,
        alloc: Global,
        index: usize,
        value: &Q,
    ) -> Result<VarBox<T>, MapError> {
        if !self.takes_replace(index, value.arg_len()) {
            return Err(MapError::TooLarge);
        }
        let old = self.zvl_get_owned(alloc, index)?;
        self.replace_arg(alloc, index, value)?;
        Ok(old)
    }

    fn zvl_remove(&mut self, alloc: Global, index: usize) -> Result<VarBox<T>, NoMemory> {
        let old = self.zvl_get_owned(alloc, index)?;
        self.remove(alloc, index)?;
        Ok(old)
    }
}
