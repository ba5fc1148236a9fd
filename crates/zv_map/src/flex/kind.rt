// The kinds whose container is a list with fields of two bytes or of four.
ghost use Rattle.std.specs.Prelude.{◌≡◌, string_bytes, flat_map, ◌<◌};
ghost use Rattle.zv_ule.specs.Views.{element_of};

use crate::flex::FlexVec;
use crate::vecs::ZeroMapKV;
use std::cmp::Ordering;
use std::marker::PhantomData;
use std::sync::ledger::Ledger;
use zv_ule::{
    SliceULE, Steps, StrULE, TyName, ULE, UleError, UsableKind, VarRef, VarULE, ZvArg, ZvKind,
    ZvOrd, ZvOrdArg,
};

/// The elements of a kind, of any length, whose lists are kept in a [`FlexVec`]: such a list has
/// no end at 64 KB. All that the kind says of an element holds.
pub struct FlexULE<K: VarULE> {
    of: PhantomData<K>,
}

impl<K: VarULE> ZvKind for FlexULE<K> {
    const TY: TyName = K::TY;

    ghost TY = { K.TY };

    ghost usable = { K.usable };

    ghost fault = { K.fault };

    #[inline]
    fn check(bytes: &[u8]) -> Result<(), UleError> {
        K::check(bytes)
    }

    ghost boundary = { K.boundary };

    #[inline]
    fn is_sound_everywhere(bytes: &[u8]) -> bool {
        K::is_sound_everywhere(bytes)
    }

    #[inline]
    fn is_sound_between_boundaries(bytes: &[u8]) -> bool {
        K::is_sound_between_boundaries(bytes)
    }

    #[inline]
    fn is_boundary(bytes: &[u8], at: usize) -> bool {
        K::is_boundary(bytes, at)
    }
}

impl<K: VarULE> VarULE for FlexULE<K> {}

impl<K: VarULE + ZvOrd> ZvOrd for FlexULE<K> {
    ghost cmp = { K.cmp };

    #[inline]
    fn compare<L: Ledger>(a: &[u8], b: &[u8], steps: &mut Steps<L>) -> Ordering {
        K::compare(a, b, steps)
    }

    ghost total = { K.total };
}

impl<K: VarULE + UsableKind> UsableKind for FlexULE<K> {
    ghost is_usable = { K.is_usable };
}

impl<'a, K: VarULE> ZeroMapKV<'a> for FlexULE<K> {
    type Container = FlexVec<'a, FlexULE<K>>;
}

impl<K: VarULE> FlexULE<K> {
    /// The same element as one of the kind.
    #[inline]
    pub fn plain<'b>(view: VarRef<'b, FlexULE<K>>) -> VarRef<'b, K>
        ensures { element_of result ≡ element_of view.entry }
    {
        VarRef::of_valid(view.as_bytes())
    }

    /// The same element as one of this kind.
    #[inline]
    pub fn of_plain<'b>(view: VarRef<'b, K>) -> VarRef<'b, FlexULE<K>>
        ensures { element_of result ≡ element_of view.entry }
    {
        VarRef::of_valid(view.as_bytes())
    }
}

impl ZvArg<FlexULE<StrULE>> for &str {
    ghost bytes = { λ s. s.now };

    #[inline]
    fn arg_len(&self) -> usize {
        ZvArg::<StrULE>::arg_len(self)
    }

    #[inline]
    fn arg_write(&self, out: &mut [u8]) {
        ZvArg::<StrULE>::arg_write(self, out);
    }
}

impl ZvOrdArg<FlexULE<StrULE>> for &str {
    #[inline]
    fn arg_compare<L: Ledger>(&self, element: &[u8], steps: &mut Steps<L>) -> Ordering {
        ZvOrdArg::<StrULE>::arg_compare(self, element, steps)
    }
}

impl ZvArg<FlexULE<StrULE>> for String {
    ghost bytes = { λ s. string_bytes s };

    #[inline]
    fn arg_len(&self) -> usize {
        ZvArg::<StrULE>::arg_len(self)
    }

    #[inline]
    fn arg_write(&self, out: &mut [u8]) {
        ZvArg::<StrULE>::arg_write(self, out);
    }
}

impl ZvOrdArg<FlexULE<StrULE>> for String {
    #[inline]
    fn arg_compare<L: Ledger>(&self, element: &[u8], steps: &mut Steps<L>) -> Ordering {
        ZvOrdArg::<StrULE>::arg_compare(self, element, steps)
    }
}

impl<U: ULE> ZvArg<FlexULE<SliceULE<U>>> for &[U] {
    ghost bytes = { λ s. flat_map U.chunk s.now };

    #[inline]
    fn arg_len(&self) -> usize {
        ZvArg::<SliceULE<U>>::arg_len(self)
    }

    #[inline]
    fn arg_write(&self, out: &mut [u8]) {
        ZvArg::<SliceULE<U>>::arg_write(self, out);
    }
}

impl<U: ULE + Ord> ZvOrdArg<FlexULE<SliceULE<U>>> for &[U] {
    #[inline]
    fn arg_compare<L: Ledger>(&self, element: &[u8], steps: &mut Steps<L>) -> Ordering {
        ZvOrdArg::<SliceULE<U>>::arg_compare(self, element, steps)
    }
}
