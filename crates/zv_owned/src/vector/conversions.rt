// What a list that is borrowed, or owns its bytes, becomes, and what becomes one.
ghost use Rattle.std.specs.Prelude.{[], IfSome, IfNone, OnSome, ◌≡◌, ◌==◌, ◌≤◌, length, IsTrue};
ghost use Rattle.std.specs.Prelude.{IfOk, IsOk, true, false, ◌||◌, is_some, map, not};
ghost use Rattle.zv_var.specs.Format.{elements, enc};
ghost use Rattle.zv_var.specs.Serialize.{serialized_len};
ghost use Rattle.zv_var.specs.Views.{bytes_of, list_of};
ghost use Rattle.zv_owned.specs.Owned.{TooLargeUnless};

use super::VarZeroVec;
use crate::error::VecError;
use crate::owned::VarZeroVecOwned;
use std::alloc::Global;
use zv_ule::{EncodeAsVarULE, NoMemory, VarZeroVecFormat, ZvKind};
use zv_var::slice::VarZeroSlice;

impl<'a, T: ZvKind, F: VarZeroVecFormat> VarZeroVec<'a, T, F> {
    ghost use Rattle.zv_owned.specs.Vectors.{vector_bytes, vector_list, vector_owned, vector_spare};

    /// The owned list, with its bytes and its spare as they are, or `None` where the vector is
    /// borrowed. The list of no elements is left, borrowed, or the vector as it was.
    /// [`new_owned`](Self::new_owned) is the way back.
    #[inline]
    pub fn take_owned(&mut self) -> Option<VarZeroVecOwned<T, F>>
        ensures some { is_some result ≡ vector_owned self.old }
        ensures list { IfSome result (λ v. v.list ≡ vector_list self.old) }
        ensures bytes { IfSome result (λ v. v.bytes ≡ vector_bytes self.old) }
        ensures spare { IfSome result (λ v. v.spare ≡ vector_spare self.old) }
        // the vector that is left
        ensures borrowed { vector_owned self.new ≡ false }
        ensures left { OnSome result (vector_list self.new ≡ []) }
        ensures left_bytes { OnSome result (vector_bytes self.new ≡ []) }
        ensures none { IfNone result (self.new ≡ self.old) }
    {
        let owned = self.slot.owned.take()?;
        self.view = VarZeroSlice::of_valid(&[]);
        Some(owned)
    }

    /// The list as one that owns its bytes. It takes memory only where it is borrowed.
    pub fn into_owned(self, alloc: Global) -> Result<VarZeroVec<'static, T, F>, NoMemory>
        ensures list { IfOk result (λ v. vector_list v ≡ vector_list self.entry) }
        ensures bytes { IfOk result (λ v. vector_bytes v ≡ vector_bytes self.entry) }
        ensures owned { IfOk result (λ v. vector_owned v ≡ true) }
        ensures keeps_room { IfOk result (λ v. vector_spare self.entry ≤ vector_spare v) }
        ensures in_place { IsTrue (vector_owned self.entry) →
            IfOk result (λ v. vector_spare v ≡ vector_spare self.entry) }
        ensures succeeds { IsTrue (vector_owned self.entry) → IsOk result }
    {
        let owned = self.slot.into_list(alloc, self.view)?;
        Ok(VarZeroVec::new_owned(owned))
    }

    /// The list's bytes. It takes memory only where they are borrowed.
    pub fn into_bytes(self, alloc: Global) -> Result<Vec<u8>, NoMemory>
        ensures bytes { IfOk result (λ v. v.items ≡ vector_bytes self.entry) }
        ensures succeeds { IsTrue (vector_owned self.entry) → IsOk result }
    {
        let owned = self.slot.into_list(alloc, self.view)?;
        Ok(owned.into_bytes())
    }

    /// A list with the same bytes, borrowed from the same place or owned as this one is. It takes
    /// memory only where it is owned.
    pub fn clone(&self, alloc: Global) -> Result<Self, NoMemory>
        ensures list { IfOk result (λ v. vector_list v ≡ vector_list self.now) }
        ensures bytes { IfOk result (λ v. vector_bytes v ≡ vector_bytes self.now) }
        ensures owned { IfOk result (λ v. vector_owned v ≡ vector_owned self.now) }
        ensures succeeds { vector_owned self.now ≡ false → IsOk result }
    {
        if self.is_owned() {
            let owned = VarZeroVecOwned::from_slice(alloc, self.as_slice())?;
            return Ok(VarZeroVec::new_owned(owned));
        }
        Ok(VarZeroVec::new_borrowed(self.view))
    }
}

impl<T: ZvKind, F: VarZeroVecFormat> VarZeroVec<'static, T, F> {
    ghost use Rattle.zv_owned.specs.Vectors.{vector_bytes, vector_list, vector_owned};

    /// The list of values' spellings. It owns its bytes, and is borrowed where there is no value.
    ///
    /// # Errors
    /// As [`VarZeroVecOwned::try_from_elements`].
    pub fn try_from_elements<A: EncodeAsVarULE<T>>(
        alloc: Global,
        elements: &[A],
    ) -> Result<Self, VecError>
        requires { IsTrue T.usable }
        ensures list { IfOk result (λ v. vector_list v ≡ map A.spelling elements.now) }
        ensures bytes { IfOk result (λ v. vector_bytes v ≡ enc F.W (map A.spelling elements.now)) }
        ensures owned { IfOk result (λ v. vector_owned v ≡ not (length elements.now == 0)) }
        ensures refused { TooLargeUnless (length elements.now == 0 ||
            is_some (serialized_len A.fits A.spelling F.W elements.now)) result }
    {
        if elements.is_empty() {
            return Ok(VarZeroVec::new());
        }
        let owned = VarZeroVecOwned::try_from_elements(alloc, elements)?;
        Ok(VarZeroVec::new_owned(owned))
    }
}

impl<'a, T: ZvKind, F: VarZeroVecFormat> From<VarZeroSlice<'a, T, F>> for VarZeroVec<'a, T, F> {
    ghost use Rattle.zv_owned.specs.Vectors.{vector_bytes, vector_list, vector_owned};

    ghost from_gives = { λ view v. (vector_list v ≡ list_of view)
        × (vector_bytes v ≡ bytes_of view) × (vector_owned v ≡ false) };

    /// As [`VarZeroVec::new_borrowed`].
    #[inline]
    fn from(view: VarZeroSlice<'a, T, F>) -> Self {
        VarZeroVec::new_borrowed(view)
    }
}

impl<'a, T: ZvKind, F: VarZeroVecFormat> From<VarZeroVecOwned<T, F>> for VarZeroVec<'a, T, F> {
    ghost use Rattle.zv_owned.specs.Vectors.{vector_bytes, vector_list, vector_owned, vector_spare};

    ghost from_gives = { λ owned v. (vector_list v ≡ owned.list) × (vector_bytes v ≡ owned.bytes)
        × (vector_spare v ≡ owned.spare) × (vector_owned v ≡ true) };

    /// As [`VarZeroVec::new_owned`].
    #[inline]
    fn from(owned: VarZeroVecOwned<T, F>) -> Self {
        VarZeroVec::new_owned(owned)
    }
}
