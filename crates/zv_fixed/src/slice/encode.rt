// Lists of values that are written as elements of other lists.
ghost use Rattle.std.specs.Prelude.{◌*◌, ◌^◌, true, nat_lt, length, flat_map};

use crate::slice::{ZeroSlice, ZeroSliceULE};
use crate::values::{all_stored, store_all};
use crate::vector::ZeroVec;
use zv_ule::{AsULE, EncodeAsVarULE, ULE};

impl<T: AsULE> EncodeAsVarULE<ZeroSliceULE<T>> for &[T] {
    ghost fits = { λ s. nat_lt (length s.now * T.ULE.width) (2 ^ 64) };

    ghost spelling = { λ s. flat_map (λ v. T.ULE.chunk (T.stored v)) s.now };

    #[inline]
    fn encode_var_ule_fits(&self) -> bool {
        self.len().checked_mul(<T::ULE as ULE>::size()).is_some()
    }

    #[inline]
    fn encode_var_ule_len(&self) -> usize {
        all_stored(*self);
        self.len() * <T::ULE as ULE>::size()
    }

    #[inline]
    fn encode_var_ule_write(&self, dst: &mut [u8]) {
        all_stored(*self);
        store_all(*self, dst);
    }
}

impl<T: AsULE> EncodeAsVarULE<ZeroSliceULE<T>> for Vec<T> {
    ghost fits = { λ v. nat_lt (length v.items * T.ULE.width) (2 ^ 64) };

    ghost spelling = { λ v. flat_map (λ x. T.ULE.chunk (T.stored x)) v.items };

    #[inline]
    fn encode_var_ule_fits(&self) -> bool {
        EncodeAsVarULE::<ZeroSliceULE<T>>::encode_var_ule_fits(&self.as_slice())
    }

    #[inline]
    fn encode_var_ule_len(&self) -> usize {
        EncodeAsVarULE::<ZeroSliceULE<T>>::encode_var_ule_len(&self.as_slice())
    }

    #[inline]
    fn encode_var_ule_write(&self, dst: &mut [u8]) {
        EncodeAsVarULE::<ZeroSliceULE<T>>::encode_var_ule_write(&self.as_slice(), dst);
    }
}

impl<T: AsULE> EncodeAsVarULE<ZeroSliceULE<T>> for ZeroSlice<'_, T> {
    ghost use Rattle.zv_fixed.specs.Views.{bytes_of};

    ghost fits = { λ _. true };

    ghost spelling = { bytes_of };

    #[inline]
    fn encode_var_ule_fits(&self) -> bool {
        true
    }

    #[inline]
    fn encode_var_ule_len(&self) -> usize {
        self.as_bytes().len()
    }

    #[inline]
    fn encode_var_ule_write(&self, dst: &mut [u8]) {
        dst.copy_from_slice(self.as_bytes());
    }
}

impl<T: AsULE> EncodeAsVarULE<ZeroSliceULE<T>> for ZeroVec<'_, T> {
    ghost fits = { λ _. true };

    ghost spelling = { λ v. v.bytes };

    #[inline]
    fn encode_var_ule_fits(&self) -> bool {
        true
    }

    #[inline]
    fn encode_var_ule_len(&self) -> usize {
        self.as_bytes().len()
    }

    #[inline]
    fn encode_var_ule_write(&self, dst: &mut [u8]) {
        dst.copy_from_slice(self.as_bytes());
    }
}
