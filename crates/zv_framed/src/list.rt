// The framed form of vectors: one part.
ghost use Rattle.std.specs.Prelude.{◌≡◌, ◌∷◌, [], None, false};
ghost use Rattle.std.specs.List.{flat_map};
ghost use Rattle.std.specs.Option.{option_map};
ghost use Rattle.zv_ule.specs.Chunks.{chunks_fault, values_of};
ghost use Rattle.zv_var.specs.Format.{elements, enc, list_fault};
ghost use Rattle.zv_var.specs.Nested.{slice_fault};
ghost use Rattle.zv_var.specs.Views.{list_of};
ghost use Rattle.zv_owned.specs.Vectors.{vector_bytes, vector_list, vector_owned};
ghost use Rattle.zv_map.specs.Keys.{nth};
ghost use Rattle.zv_framed.specs.declared.error.FormError.TheVariants.{Part};

use crate::error::FormError;
use crate::form::{Framed, FramedForm};
use crate::frame::{cut_one, frame_parts};
use std::alloc::Global;
use zv_fixed::ZeroVec;
use zv_owned::vector::VarZeroVec;
use zv_ule::{AsULE, NoMemory, VarZeroVecFormat, ZvKind};
use zv_var::slice::VarZeroSlice;

impl<'a, T: AsULE> FramedForm for ZeroVec<'a, T> {
    ghost count = { 1 };

    ghost usable = { T.usable };

    ghost parts = { λ v. flat_map (λ x. T.ULE.chunk (T.stored x)) v.values ∷ [] };

    ghost fault = { λ ps. option_map Part
        (chunks_fault T.ULE.TY T.ULE.width T.ULE.chunk_fault (nth ps 0)) };

    ghost IsRead = { λ ps v.
        (v.values ≡ values_of T.ULE.width (λ b. T.loaded (T.ULE.value b)) (nth ps 0))
        × (v.bytes ≡ nth ps 0) × (v.owned ≡ false) };

    ghost IsSame = { λ v w. w.values ≡ v.values };
}

impl<'a, T: AsULE> Framed<'a> for ZeroVec<'a, T> {
    fn to_framed_bytes(&self, alloc: Global) -> Result<Vec<u8>, NoMemory> {
        frame_parts(alloc, &[self.as_slice().as_bytes()])
    }

    fn parse_framed(bytes: &'a [u8]) -> Result<Self, FormError> {
        let part = cut_one(bytes).ok_or(FormError::Frame)?;
        Ok(ZeroVec::parse_bytes(part)?)
    }
}

/// The bytes that a list is written as in a frame: all of them, but none where it is empty.
#[inline]
fn list_part<'b, T: ZvKind, F: VarZeroVecFormat>(list: VarZeroSlice<'b, T, F>) -> &'b [u8]
    ensures written { result.now ≡ enc F.W (list_of list.entry) }
    ensures sound { list_fault F.W T.fault result.now ≡ None }
    ensures elements { elements F.W result.now ≡ list_of list.entry }
{
    if list.is_empty() {
        &[]
    } else {
        list.as_bytes()
    }
}

impl<'a, T: ZvKind, F: VarZeroVecFormat> FramedForm for VarZeroVec<'a, T, F> {
    ghost count = { 1 };

    ghost usable = { T.usable };

    ghost parts = { λ v. enc F.W (vector_list v) ∷ [] };

    ghost fault = { λ ps. option_map Part (slice_fault (list_fault F.W T.fault (nth ps 0))) };

    ghost IsRead = { λ ps v. (vector_list v ≡ elements F.W (nth ps 0))
        × (vector_bytes v ≡ nth ps 0) × (vector_owned v ≡ false) };

    ghost IsSame = { λ v w. vector_list w ≡ vector_list v };
}

impl<'a, T: ZvKind, F: VarZeroVecFormat> Framed<'a> for VarZeroVec<'a, T, F> {
    fn to_framed_bytes(&self, alloc: Global) -> Result<Vec<u8>, NoMemory> {
        frame_parts(alloc, &[list_part(self.as_slice())])
    }

    fn parse_framed(bytes: &'a [u8]) -> Result<Self, FormError> {
        let part = cut_one(bytes).ok_or(FormError::Frame)?;
        Ok(VarZeroVec::parse_bytes(part)?)
    }
}
