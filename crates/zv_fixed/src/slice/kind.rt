// Lists of values of fixed width, as elements of other lists.
ghost use Rattle.std.specs.Prelude.{◌≡◌};
ghost use Rattle.zv_ule.specs.Chunks.{chunks_fault};
ghost use Rattle.zv_ule.specs.Views.{element_of};
ghost use Rattle.zv_ule.specs.declared.error.TyName.TheVariants.{ZeroSlice as SliceName};

use crate::slice::ZeroSlice;
use std::marker::PhantomData;
use zv_ule::{AsULE, SliceULE, TyName, ULE, UleError, UsableKind, VarRef, VarULE, ZvKind};

/// The kind of lists of values of fixed width: the elements are the byte strings that
/// [`ZeroSlice::parse_bytes`] takes, and the error of any other is its.
pub struct ZeroSliceULE<T: AsULE> {
    of: PhantomData<T>,
}

impl<T: AsULE> ZvKind for ZeroSliceULE<T> {
    const TY: TyName = TyName::ZeroSlice;

    ghost TY = { SliceName };

    ghost usable = { T.usable };

    ghost fault = { chunks_fault T.ULE.TY T.ULE.width T.ULE.chunk_fault };

    #[inline]
    fn check(bytes: &[u8]) -> Result<(), UleError> {
        <T::ULE as ULE>::validate_bytes(bytes)
    }

    #[inline]
    fn is_sound_everywhere(bytes: &[u8]) -> bool {
        SliceULE::<T::ULE>::is_sound_everywhere(bytes)
    }
}

impl<T: AsULE> VarULE for ZeroSliceULE<T> {}

impl<T: AsULE + UsableKind> UsableKind for ZeroSliceULE<T> {
    ghost is_usable = { T.is_usable };
}

impl<T: AsULE> ZeroSliceULE<T> {
    ghost use Rattle.zv_fixed.specs.Views.{bytes_of};

    /// The list that an element is. It reads no byte.
    #[inline]
    pub fn as_zeroslice<'b>(view: VarRef<'b, Self>) -> ZeroSlice<'b, T>
        ensures { bytes_of result ≡ element_of view.entry }
    {
        ZeroSlice::of_valid(view.as_bytes())
    }
}

impl<'a, T: AsULE> ZeroSlice<'a, T> {
    ghost use Rattle.zv_fixed.specs.Views.{bytes_of};

    /// The list as an element. It reads no byte.
    #[inline]
    pub fn as_view(self) -> VarRef<'a, ZeroSliceULE<T>>
        ensures { element_of result ≡ bytes_of self.entry }
    {
        VarRef::of_valid(self.bytes)
    }
}
