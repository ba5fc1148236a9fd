// Slices of values of fixed width.
ghost use Rattle.std.specs.Prelude.{◌≡◌, ◌*◌, ◌/◌, ◌<◌, length, Option, Some, None, flat_map};
ghost use Rattle.std.specs.Prelude.{slice_get};
ghost use Rattle.zv_ule.specs.Chunks.{chunks_fault, values_of};
ghost use Rattle.zv_ule.specs.Fixed.{is_width};
ghost use Rattle.zv_ule.specs.declared.error.TyName.TheVariants.{Slice};
ghost use Rattle.zv_ule.specs.Views.{element_of};

use crate::chunks::{chunk_at, count_of};
use crate::element::{ULE, all_known, write_all};
use crate::error::{TyName, UleError};
use crate::kind::ZvKind;
use crate::kinds::argument::ZvArg;
use crate::kinds::view::VarRef;
use std::marker::PhantomData;

/// The kind of slices of a type of fixed width: the elements are the byte strings whose length is a
/// multiple of the width and whose chunks are all good. The error of any other is the type's own:
/// `InvalidLength` of the type, or the error of the first bad chunk.
pub struct SliceULE<U: ULE> {
    of: PhantomData<U>,
}

impl<U: ULE> ZvKind for SliceULE<U> {
    const TY: TyName = TyName::Slice;

    ghost TY = { Slice };

    ghost usable = { is_width U.width };

    ghost fault = { chunks_fault U.TY U.width U.chunk_fault };

    #[inline]
    fn check(bytes: &[u8]) -> Result<(), UleError> {
        U::validate_bytes(bytes)
    }

    #[inline]
    #[tactic(auto, using(crate::proofs::ChunkFaults::plain_bytes))]
    fn is_sound_everywhere(_bytes: &[u8]) -> bool {
        U::is_plain() && U::size() == 1
    }
}

impl<U: ULE> SliceULE<U> {
    /// How many values the slice has: its number of bytes by the width.
    #[inline]
    pub fn len(view: VarRef<'_, Self>) -> usize
        ensures { result ≡ length (values_of U.width U.value (element_of view.entry)) }
    {
        count_of::<U>(view.as_bytes())
    }

    /// The value at a place, or `None` past the end. It reads one chunk.
    #[inline]
    pub fn get(view: VarRef<'_, Self>, index: usize) -> Option<U>
        ensures { result ≡ slice_get (values_of U.width U.value (element_of view.entry)) index }
    {
        if index < SliceULE::<U>::len(view) {
            Some(U::read_chunk(chunk_at::<U>(view.as_bytes(), index)))
        } else {
            None
        }
    }
}

impl<U: ULE> ZvArg<SliceULE<U>> for &[U] {
    ghost bytes = { λ s. flat_map U.chunk s.now };

    #[inline]
    fn arg_len(&self) -> usize {
        all_known(*self);
        self.len() * U::size()
    }

    #[inline]
    fn arg_write(&self, out: &mut [u8]) {
        all_known(*self);
        write_all(*self, out);
    }
}
