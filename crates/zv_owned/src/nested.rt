// Lists that own their bytes, or may, as elements of other lists: each is written as its own bytes.
ghost use Rattle.std.specs.Prelude.{true};

use crate::owned::VarZeroVecOwned;
use crate::vector::VarZeroVec;
use zv_ule::{EncodeAsVarULE, VarZeroVecFormat, ZvKind};
use zv_var::VarZeroSliceULE;

impl<T: ZvKind, F: VarZeroVecFormat> EncodeAsVarULE<VarZeroSliceULE<T, F>>
    for VarZeroVecOwned<T, F> {
    ghost fits = { λ _. true };

    ghost spelling = { λ v. v.bytes };

    #[inline]
    fn encode_var_ule_fits(&self) -> bool {
        true
    }

    #[inline]
    fn encode_var_ule_len(&self) -> usize {
        self.as_bytes().len()
    }

    #[inline]
    fn encode_var_ule_write(&self, dst: &mut [u8]) {
        dst.copy_from_slice(self.as_bytes());
    }
}

impl<T: ZvKind, F: VarZeroVecFormat> EncodeAsVarULE<VarZeroSliceULE<T, F>>
    for VarZeroVec<'_, T, F> {
    ghost use Rattle.zv_owned.specs.Vectors.{vector_bytes};

    ghost fits = { λ _. true };

    ghost spelling = { vector_bytes };

    #[inline]
    fn encode_var_ule_fits(&self) -> bool {
        true
    }

    #[inline]
    fn encode_var_ule_len(&self) -> usize {
        self.as_bytes().len()
    }

    #[inline]
    fn encode_var_ule_write(&self, dst: &mut [u8]) {
        dst.copy_from_slice(self.as_bytes());
    }
}
