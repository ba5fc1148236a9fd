// The container of elements of one width.
ghost use Rattle.std.specs.Prelude.{◌≡◌, ℕ, ◌<◌, List, [], length, IsTrue, refl, true};
ghost use Rattle.zv_ule.specs.Chunks.{chunks_fault, chunks_of};
ghost use Rattle.zv_map.specs.Layouts.{is_fixed};
ghost use Rattle.zv_map.specs.Keys.{nth};
ghost use Rattle.zv_map.specs.declared.view.Layout.TheVariants.{Fixed};

use crate::error::{MapError, TooLarge};
use crate::vecs::{MutableZeroVecLike, ZeroVecLike, ZvContainer};
use crate::view::{KvSlice, Layout, RawView};
use std::alloc::Global;
use zv_fixed::slice::ZeroSlice;
use zv_fixed::vector::ZeroVec;
use zv_ule::{AsULE, NoMemory, ULE, UleError, VarRef, ZvArg, chunk_at, load};

impl<'a, T: AsULE> ZeroVecLike<T> for ZeroVec<'a, T> {
    ghost use Rattle.zv_map.specs.Views.{bytes_of, list_of};

    ghost list = { λ v. chunks_of T.ULE.width v.bytes };

    ghost bytes = { λ v. v.bytes };

    ghost layout = { λ v. Fixed T.ULE.width };

    #[inline]
    fn zvl_new_borrowed() -> KvSlice<'static, T>
        requires { IsTrue T.usable }
        ensures list { list_of result ≡ [] }
        ensures bytes { bytes_of result ≡ [] }
    {
        KvSlice::<'static, T>::zvl_new_borrowed()
    }

    #[inline]
    fn zvl_as_borrowed(&self) -> KvSlice<'_, T> {
        self.all_read();
        let raw = RawView {
            bytes: self.as_bytes(),
            layout: Layout::Fixed(<T::ULE as ULE>::size()),
        };
        KvSlice::of_valid(raw)
    }

    #[inline]
    fn zvl_len(&self) -> usize {
        self.all_read();
        self.len()
    }

    #[inline]
    fn zvl_get(&self, index: usize) -> Option<VarRef<'_, T>> {
        self.zvl_as_borrowed().get(index)
    }
}

/// The value of the element at a place.
#[inline]
fn value_at<T: AsULE>(list: &ZeroVec<'_, T>, index: usize) -> T
    requires { index < length (chunks_of T.ULE.width list.now.bytes) }
    ensures { T.ULE.chunk (T.stored result) ≡ nth (chunks_of T.ULE.width list.now.bytes) index }
{
    list.all_read();
    load::<T>(chunk_at::<T::ULE>(list.as_bytes(), index))
}

impl<'a, T: AsULE> ZvContainer<T> for ZeroVec<'a, T> {
    ghost use Rattle.std.proofs.Common.{arith};
    ghost use Rattle.zv_owned.proofs.Pushes.{always_taken};
    ghost use Rattle.zv_map.specs.Laws.{is_fixed_self};

    type OwnedType = T;

    ghost spare = { λ v. v.spare };

    ghost owned = { λ v. v.owned };

    ghost ready = { λ v. v.owned };

    ghost field = { 0 };

    ghost element_room = { T.ULE.width };

    ghost takes_insert = { λ _ _. true };

    ghost takes_replace = { λ _ _ _. true };

    ghost has_layout = { is_fixed T.ULE.width };

    ghost settled = { λ _. Fixed T.ULE.width };

    ghost parse_fault = { chunks_fault T.ULE.TY T.ULE.width T.ULE.chunk_fault };

    ghost parse_list = { chunks_of T.ULE.width };

    ghost parse_layout = { Fixed T.ULE.width };

    #[inline]
    fn zvl_new() -> Self {
        ZeroVec::new()
    }

    #[inline]
    fn zvl_is_owned(&self) -> bool {
        self.is_owned()
    }

    #[inline]
    fn zvl_field(&self) -> usize {
        0
    }

    #[inline]
    fn zvl_element_room(&self) -> usize {
        self.all_read();
        <T::ULE as ULE>::size()
    }

    #[inline]
    fn zvl_get_owned(&self, _alloc: Global, index: usize) -> Result<T, NoMemory> {
        Ok(value_at(self, index))
    }

    #[inline]
    fn zvl_takes_insert(&self, _len: usize) -> bool {
        true
    }

    #[inline]
    fn zvl_takes_replace(&self, _index: usize, _len: usize) -> bool {
        true
    }

    #[inline]
    #[tactic(auto, using(zv_owned::proofs::Pushes::always_taken))]
    fn zvl_takes_elements(&self) -> bool {
        true
    }

    #[inline]
    fn zvl_clear(&mut self) {
        self.remove_all();
    }

    #[inline]
    fn zvl_is_roomy(&self) -> bool {
        self.is_owned()
    }

    #[inline]
    fn zvl_settle(&mut self) {}

    #[inline]
    fn zvl_make_owned(&mut self, alloc: Global) -> Result<(), NoMemory> {
        self.make_owned(alloc)
    }

    #[inline]
    fn zvl_reserve_bytes(&mut self, alloc: Global, n: usize) -> Result<(), NoMemory> {
        self.reserve_bytes(alloc, n)
    }

    #[inline]
    fn zvl_insert_reserved<Q: ZvArg<T>>(&mut self, index: usize, value: &Q) {
        self.insert_owned_arg(index, value);
    }

    #[inline]
    fn zvl_replace_reserved<Q: ZvArg<T>>(&mut self, index: usize, value: &Q) {
        self.set_owned_arg(index, value);
    }

    #[inline]
    fn zvl_put_reserved<Q: ZvArg<T>>(
        &mut self,
        index: usize,
        replace: bool,
        value: &Q,
    ) -> Result<(), TooLarge> {
        if replace {
            self.zvl_replace_reserved(index, value);
        } else {
            self.zvl_insert_reserved(index, value);
        }
        Ok(())
    }

    #[inline]
    fn zvl_discard(&mut self, index: usize) {
        self.all_read();
        let _ = self.remove_owned(index);
    }

    ghost small_field = { Prim.omega arith };

    ghost ready_owned = { λ v h. h };

    ghost owned_ready = { λ v h _. h };

    ghost any_order = { λ xs ys _ _. always_taken [] ys };

    ghost own_layout = { λ _. is_fixed_self T.ULE.width };
}

impl<'a, T: AsULE> MutableZeroVecLike<'a, T> for ZeroVec<'a, T> {
    #[inline]
    fn zvl_with_capacity(alloc: Global, capacity: usize) -> Result<Self, NoMemory> {
        if capacity == 0 {
            return Ok(ZeroVec::new());
        }
        ZeroVec::with_capacity(alloc, capacity)
    }

    #[inline]
    fn zvl_parse(bytes: &'a [u8]) -> Result<Self, UleError> {
        ZeroVec::parse_bytes(bytes)
    }

    #[inline]
    fn zvl_from_borrowed(b: RawView<'a>) -> Option<Self> {
        if b.bytes.is_empty() {
            return Some(ZeroVec::new());
        }
        match b.layout {
            Layout::Fixed(width) if width == <T::ULE as ULE>::size() => {
                Some(ZeroVec::new_borrowed(ZeroSlice::of_valid(b.bytes)))
            }
            _ => None,
        }
    }

    #[inline]
    fn zvl_as_borrowed_inner(&self) -> Option<RawView<'a>> {
        self.all_read();
        let view = self.as_maybe_borrowed()?;
        Some(RawView {
            bytes: view.as_bytes(),
            layout: Layout::Fixed(<T::ULE as ULE>::size()),
        })
    }

    #[inline]
    fn zvl_clone(&self, alloc: Global) -> Result<Self, NoMemory> {
        self.clone(alloc)
    }

    #[inline]
    fn zvl_insert<Q: ZvArg<T>>(
        &mut self,
        alloc: Global,
        index: usize,
        value: &Q,
    ) -> Result<(), MapError> {
        self.insert_arg(alloc, index, value)?;
        Ok(())
    }

    #[inline]
    fn zvl_push<Q: ZvArg<T>>(&mut self, alloc: Global, value: &Q) -> Result<(), MapError> {
        self.zvl_insert(alloc, self.zvl_len(), value)
    }

    #[inline]
    fn zvl_replace<Q: ZvArg<T>>(
        &mut self,
        alloc: Global,
        index: usize,
        value: &Q,
    ) -> Result<T, MapError> {
        let old = value_at(self, index);
        self.set_arg(alloc, index, value)?;
        Ok(old)
    }

    #[inline]
    fn zvl_remove(&mut self, alloc: Global, index: usize) -> Result<T, NoMemory> {
        self.all_read();
        self.remove(alloc, index)
    }
}
