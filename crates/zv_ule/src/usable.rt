// Kinds whose widths are known to be usable.
ghost use Rattle.std.specs.Prelude.{IsTrue, refl};
ghost use Rattle.zv_ule.specs.Widths.{IsWithin};
ghost use Rattle.zv_ule.specs.laws.Widths.{behind_tag, joined, short, usable_kind, usable_within};

use crate::element::{AsULE, ULE};
use crate::fixed::niche::{NicheBytes, NichedOption};
use crate::kind::ZvKind;
use crate::kinds::slices::SliceULE;
use crate::kinds::text::StrULE;
use std::num::{NonZeroI8, NonZeroU8};

/// A kind that is usable by its type alone. What can take no condition, as `Default`, asks for it;
/// other calls ask for the kind's `usable`, which every kind has.
pub trait UsableKind: ZvKind {
    ghost is_usable: { IsTrue Self.usable };
}

/// A type whose values take at most 16 bytes, so that also tuples and options of it are usable by
/// their types alone.
pub trait ShortKind: AsULE {
    ghost is_short: { IsWithin 16 Self.ULE.width };
}

impl<T: ShortKind> UsableKind for T {
    ghost is_usable = { usable_kind T.kind (usable_within T.is_short refl) };
}

impl ShortKind for u8 {
    ghost is_short = { short refl };
}

impl ShortKind for i8 {
    ghost is_short = { short refl };
}

impl ShortKind for u16 {
    ghost is_short = { short refl };
}

impl ShortKind for i16 {
    ghost is_short = { short refl };
}

impl ShortKind for u32 {
    ghost is_short = { short refl };
}

impl ShortKind for i32 {
    ghost is_short = { short refl };
}

impl ShortKind for u64 {
    ghost is_short = { short refl };
}

impl ShortKind for i64 {
    ghost is_short = { short refl };
}

impl ShortKind for u128 {
    ghost is_short = { short refl };
}

impl ShortKind for i128 {
    ghost is_short = { short refl };
}

impl ShortKind for bool {
    ghost is_short = { short refl };
}

impl ShortKind for char {
    ghost is_short = { short refl };
}

impl ShortKind for NonZeroU8 {
    ghost is_short = { short refl };
}

impl ShortKind for NonZeroI8 {
    ghost is_short = { short refl };
}

impl UsableKind for StrULE {
    ghost is_usable = { refl };
}

impl UsableKind for SliceULE<u8> {
    ghost is_usable = { refl };
}

impl<T: ShortKind> UsableKind for Option<T> {
    ghost is_usable = { usable_within (behind_tag T.is_short) refl };
}

impl<T: ShortKind, const N: usize> UsableKind for NichedOption<T, N>
where
    T::ULE: NicheBytes<N>,
{
    ghost is_usable = { usable_within T.is_short refl };
}

impl<A: ShortKind, B: ShortKind> UsableKind for (A, B) {
    ghost is_usable = { usable_within (joined A.is_short B.is_short) refl };
}

impl<A: ShortKind, B: ShortKind, C: ShortKind> UsableKind for (A, B, C) {
    ghost is_usable = { usable_within (joined A.is_short (joined B.is_short C.is_short)) refl };
}

impl<A: ShortKind, B: ShortKind, C: ShortKind, D: ShortKind> UsableKind for (A, B, C, D) {
    ghost is_usable = { usable_within
        (joined A.is_short (joined B.is_short (joined C.is_short D.is_short))) refl };
}

impl<A: ShortKind, B: ShortKind, C: ShortKind, D: ShortKind, E: ShortKind> UsableKind
    for (A, B, C, D, E) {
    ghost is_usable = { usable_within (joined A.is_short (joined B.is_short
        (joined C.is_short (joined D.is_short E.is_short)))) refl };
}

impl<A: ShortKind, B: ShortKind, C: ShortKind, D: ShortKind, E: ShortKind, F: ShortKind> UsableKind
    for (A, B, C, D, E, F) {
    ghost is_usable = { usable_within (joined A.is_short (joined B.is_short (joined C.is_short
        (joined D.is_short (joined E.is_short F.is_short))))) refl };
}
