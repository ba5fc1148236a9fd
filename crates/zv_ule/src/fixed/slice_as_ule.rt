// Slices of values that lie in memory as they are stored.
ghost use Rattle.std.specs.Prelude.{◌≡◌, Bool, true, false, IfSome, is_some, flat_map};

use crate::element::AsULE;
use std::num::NonZeroU8;

/// A type whose values, on a machine that is little-endian, lie in memory as they are stored. It is
/// a marker, and nothing rests on it.
pub trait EqULE: AsULE {}

impl EqULE for u8 {}

impl EqULE for u16 {}

impl EqULE for u32 {}

impl EqULE for u64 {}

impl EqULE for u128 {}

impl EqULE for i8 {}

impl EqULE for i16 {}

impl EqULE for i32 {}

impl EqULE for i64 {}

impl EqULE for i128 {}

impl EqULE for bool {}

impl EqULE for NonZeroU8 {}

impl<const N: usize> EqULE for [u8; N] {}

impl<const N: usize> EqULE for [u16; N] {}

impl<const N: usize> EqULE for [u32; N] {}

impl<const N: usize> EqULE for [u64; N] {}

/// A type whose slices may be seen as the bytes that they are stored as, with no copy. Where a
/// number has more than one byte that would depend on the machine, so only a slice of `u8` is.
pub trait SliceAsULE: AsULE {
    /// Whether a slice is seen as bytes.
    ghost is_seen: { Bool } = { false };

    /// The bytes that a slice is stored as, where they need no copy.
    fn slice_to_unaligned(slice: &[Self]) -> Option<&[u8]>
        ensures seen { is_some result ≡ is_seen }
        ensures same { IfSome result (λ bytes. bytes.now
            ≡ flat_map (λ v. Self.ULE.chunk (Self.stored v)) slice.now) };
}

impl SliceAsULE for u8 {
    ghost is_seen = { true };

    #[inline]
    fn slice_to_unaligned(slice: &[u8]) -> Option<&[u8]> {
        Some(slice)
    }
}

impl SliceAsULE for u16 {
    #[inline]
    fn slice_to_unaligned(_slice: &[u16]) -> Option<&[u8]> {
        None
    }
}

impl SliceAsULE for u32 {
    #[inline]
    fn slice_to_unaligned(_slice: &[u32]) -> Option<&[u8]> {
        None
    }
}

impl SliceAsULE for u64 {
    #[inline]
    fn slice_to_unaligned(_slice: &[u64]) -> Option<&[u8]> {
        None
    }
}

impl SliceAsULE for u128 {
    #[inline]
    fn slice_to_unaligned(_slice: &[u128]) -> Option<&[u8]> {
        None
    }
}

impl SliceAsULE for i8 {
    #[inline]
    fn slice_to_unaligned(_slice: &[i8]) -> Option<&[u8]> {
        None
    }
}

impl SliceAsULE for i16 {
    #[inline]
    fn slice_to_unaligned(_slice: &[i16]) -> Option<&[u8]> {
        None
    }
}

impl SliceAsULE for i32 {
    #[inline]
    fn slice_to_unaligned(_slice: &[i32]) -> Option<&[u8]> {
        None
    }
}

impl SliceAsULE for i64 {
    #[inline]
    fn slice_to_unaligned(_slice: &[i64]) -> Option<&[u8]> {
        None
    }
}

impl SliceAsULE for i128 {
    #[inline]
    fn slice_to_unaligned(_slice: &[i128]) -> Option<&[u8]> {
        None
    }
}

impl SliceAsULE for bool {
    #[inline]
    fn slice_to_unaligned(_slice: &[bool]) -> Option<&[u8]> {
        None
    }
}

impl SliceAsULE for NonZeroU8 {
    #[inline]
    fn slice_to_unaligned(_slice: &[NonZeroU8]) -> Option<&[u8]> {
        None
    }
}

impl<const N: usize> SliceAsULE for [u8; N] {
    #[inline]
    fn slice_to_unaligned(_slice: &[[u8; N]]) -> Option<&[u8]> {
        None
    }
}

impl<const N: usize> SliceAsULE for [u16; N] {
    #[inline]
    fn slice_to_unaligned(_slice: &[[u16; N]]) -> Option<&[u8]> {
        None
    }
}

impl<const N: usize> SliceAsULE for [u32; N] {
    #[inline]
    fn slice_to_unaligned(_slice: &[[u32; N]]) -> Option<&[u8]> {
        None
    }
}

impl<const N: usize> SliceAsULE for [u64; N] {
    #[inline]
    fn slice_to_unaligned(_slice: &[[u64; N]]) -> Option<&[u8]> {
        None
    }
}
