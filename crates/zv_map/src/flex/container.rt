// A list with fields of two bytes or of four as the container of a map.
ghost use Rattle.std.specs.Prelude.{◌≡◌, [], length, IsTrue};
ghost use Rattle.zv_var.specs.Format.{elements, list_fault};
ghost use Rattle.zv_var.specs.Nested.{slice_fault};
ghost use Rattle.zv_owned.specs.Size.{takes_insert, takes_replace};
ghost use Rattle.zv_map.specs.Flexes.{flex_bytes, flex_layout, flex_list, flex_owned, flex_roomy};
ghost use Rattle.zv_map.specs.Flexes.{flex_settled, flex_spare, has_fields};
ghost use Rattle.zv_map.specs.Keys.{nth};
ghost use Rattle.zv_map.specs.declared.view.Layout.TheVariants.{Index16 as LayoutIndex16};

use crate::error::{MapError, TooLarge};
use crate::flex::FlexVec;
use crate::vecs::{MutableZeroVecLike, ZeroVecLike, ZvContainer};
use crate::view::{KvSlice, Layout, RawView};
use std::alloc::Global;
use zv_owned::vector::VarZeroVec;
use zv_ule::{
    Index16, Index32, NoMemory, UleError, VarBox, VarRef, VarZeroVecFormat, ZvArg, ZvKind,
};

impl<'a, T: ZvKind> ZeroVecLike<T> for FlexVec<'a, T> {
    ghost use Rattle.zv_map.specs.Views.{bytes_of, list_of};

    ghost list = { flex_list };

    ghost bytes = { flex_bytes };

    ghost layout = { flex_layout };

    #[inline]
    fn zvl_new_borrowed() -> KvSlice<'static, T>
        requires { IsTrue T.usable }
        ensures list { list_of result ≡ [] }
        ensures bytes { bytes_of result ≡ [] }
    {
        KvSlice::<'static, T>::zvl_new_borrowed()
    }

    #[inline]
    fn zvl_as_borrowed(&self) -> KvSlice<'_, T> {
        match self {
            FlexVec::Narrow(v) => v.zvl_as_borrowed(),
            FlexVec::Wide(v) => v.zvl_as_borrowed(),
        }
    }

    #[inline]
    fn zvl_len(&self) -> usize {
        self.len()
    }

    #[inline]
    fn zvl_get(&self, index: usize) -> Option<VarRef<'_, T>> {
        self.get(index)
    }
}

impl<'a, T: ZvKind> ZvContainer<T> for FlexVec<'a, T> {
    ghost use Rattle.zv_owned.proofs.Pushes.{any_order};
    ghost use Rattle.zv_map.specs.FlexLaws.{four_small, own_fields, room_is_ready, roomy_is_owned};
    ghost use Rattle.zv_map.specs.FlexLaws.{four_fits, four_positive};

    type OwnedType = VarBox<T>;

    ghost spare = { flex_spare };

    ghost owned = { flex_owned };

    ghost ready = { flex_roomy };

    ghost field = { 4 };

    ghost element_room = { 8 };

    ghost takes_insert = { takes_insert 4 };

    ghost takes_replace = { λ xs i n. takes_replace 4 xs (length (nth xs i)) n };

    ghost has_layout = { has_fields };

    ghost settled = { flex_settled };

    ghost parse_fault = { λ bytes. slice_fault (list_fault 2 T.fault bytes) };

    ghost parse_list = { elements 2 };

    ghost parse_layout = { LayoutIndex16 };

    #[inline]
    fn zvl_new() -> Self {
        FlexVec::new()
    }

    #[inline]
    fn zvl_is_owned(&self) -> bool {
        self.is_owned()
    }

    #[inline]
    fn zvl_field(&self) -> usize {
        Index32::W
    }

    #[inline]
    fn zvl_element_room(&self) -> usize {
        Index32::W + 4
    }

    #[inline]
    fn zvl_get_owned(&self, alloc: Global, index: usize) -> Result<VarBox<T>, NoMemory> {
        match self {
            FlexVec::Narrow(v) => v.zvl_get_owned(alloc, index),
            FlexVec::Wide(v) => v.zvl_get_owned(alloc, index),
        }
    }

    #[inline]
    fn zvl_takes_insert(&self, len: usize) -> bool {
        self.takes_insert(len)
    }

    #[inline]
    fn zvl_takes_replace(&self, index: usize, len: usize) -> bool {
        self.takes_replace(index, len)
    }

    #[inline]
    fn zvl_takes_elements(&self) -> bool {
        self.takes_elements()
    }

    #[inline]
    fn zvl_clear(&mut self) {
        self.clear();
    }

    #[inline]
    fn zvl_is_roomy(&self) -> bool {
        self.is_roomy()
    }

    #[inline]
    fn zvl_settle(&mut self) {
        self.settle();
    }

    #[inline]
    fn zvl_make_owned(&mut self, alloc: Global) -> Result<(), NoMemory> {
        self.make_owned(alloc)
    }

    #[inline]
    fn zvl_reserve_bytes(&mut self, alloc: Global, n: usize) -> Result<(), NoMemory> {
        self.reserve_bytes(alloc, n)
    }

    fn zvl_write_elements(
        &mut self,
        alloc: Global,
        elements: &[VarRef<'_, T>],
    ) -> Result<bool, NoMemory> {
        let mut narrow = VarZeroVec::<'a, T, Index16>::new();
        if narrow.zvl_write_elements(alloc, elements)? {
            *self = FlexVec::Narrow(narrow);
            return Ok(true);
        }
        let mut wide = VarZeroVec::<'a, T, Index32>::new();
        if wide.zvl_write_elements(alloc, elements)? {
            *self = FlexVec::Wide(wide);
            return Ok(true);
        }
        Ok(false)
    }

    #[inline]
    fn zvl_insert_reserved<Q: ZvArg<T>>(&mut self, index: usize, value: &Q) {
        self.insert_reserved(index, value);
    }

    #[inline]
    fn zvl_replace_reserved<Q: ZvArg<T>>(&mut self, index: usize, value: &Q) {
        self.replace_reserved(index, value);
    }

    fn zvl_put_reserved<Q: ZvArg<T>>(
        &mut self,
        index: usize,
        replace: bool,
        value: &Q,
    ) -> Result<(), TooLarge> {
        let len = value.arg_len();
        if replace {
            if !self.takes_replace(index, len) {
                return Err(TooLarge);
            }
            self.replace_reserved(index, value);
        } else {
            if !self.takes_insert(len) {
                return Err(TooLarge);
            }
            self.insert_reserved(index, value);
        }
        Ok(())
    }

    #[inline]
    fn zvl_discard(&mut self, index: usize) {
        self.remove_reserved(index);
    }

    ghost small_field = { four_small };

    ghost ready_owned = { roomy_is_owned };

    ghost owned_ready = { room_is_ready };

    ghost any_order = { any_order 4 four_positive four_fits };

    ghost own_layout = { own_fields };
}

impl<'a, T: ZvKind> MutableZeroVecLike<'a, T> for FlexVec<'a, T> {
    fn zvl_with_capacity(alloc: Global, capacity: usize) -> Result<Self, NoMemory> {
        let mut list = FlexVec::new();
        if capacity > 0 {
            list.zvl_reserve(alloc, capacity)?;
        }
        Ok(list)
    }

    #[inline]
    fn zvl_parse(bytes: &'a [u8]) -> Result<Self, UleError> {
        FlexVec::parse_bytes(false, bytes)
    }

    #[inline]
    fn zvl_from_borrowed(b: RawView<'a>) -> Option<Self> {
        match b.layout {
            Layout::Index32 => Some(FlexVec::Wide(VarZeroVec::zvl_from_borrowed(b)?)),
            _ => Some(FlexVec::Narrow(VarZeroVec::zvl_from_borrowed(b)?)),
        }
    }

    #[inline]
    fn zvl_as_borrowed_inner(&self) -> Option<RawView<'a>> {
        match self {
            FlexVec::Narrow(v) => v.zvl_as_borrowed_inner(),
            FlexVec::Wide(v) => v.zvl_as_borrowed_inner(),
        }
    }

    #[inline]
    fn zvl_clone(&self, alloc: Global) -> Result<Self, NoMemory> {
        self.clone(alloc)
    }

    fn zvl_insert<Q: ZvArg<T>>(
        &mut self,
        alloc: Global,
        index: usize,
        value: &Q,
    ) -> Result<(), MapError> {
        let len = value.arg_len();
        if !self.takes_insert(len) {
            return Err(MapError::TooLarge);
        }
        let room = len.checked_add(Index32::W).ok_or(NoMemory)?;
        self.reserve_bytes(alloc, room)?;
        self.insert_reserved(index, value);
        Ok(())
    }

    #[inline]
    fn zvl_push<Q: ZvArg<T>>(&mut self, alloc: Global, value: &Q) -> Result<(), MapError> {
        self.zvl_insert(alloc, self.zvl_len(), value)
    }

    fn zvl_replace<Q: ZvArg<T>>(
        &mut self,
        alloc: Global,
        index: usize,
        value: &Q,
    ) -> Result<VarBox<T>, MapError> {
        let len = value.arg_len();
        if !self.takes_replace(index, len) {
            return Err(MapError::TooLarge);
        }
        let old = self.zvl_get_owned(alloc, index)?;
        let room = len.checked_add(Index32::W).ok_or(NoMemory)?;
        self.reserve_bytes(alloc, room)?;
        self.replace_reserved(index, value);
        Ok(old)
    }

    fn zvl_remove(&mut self, alloc: Global, index: usize) -> Result<VarBox<T>, NoMemory> {
        let old = self.zvl_get_owned(alloc, index)?;
        self.remove(alloc, index)?;
        Ok(old)
    }
}
