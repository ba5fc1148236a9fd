// What a number of two bytes or more is stored as.
ghost use Rattle.std.specs.Prelude.{None, true, ◌<◌, ◌^◌, ◌≡◌};
ghost use Rattle.zv_ule.specs.Bytes.{IsRaw};
ghost use Rattle.zv_ule.specs.laws.Spellings.{raw_spelling};
ghost use Rattle.zv_ule.specs.declared.error.TyName.{TyName};

use crate::element::ULE;
use crate::error::{TyName, UleError};

/// What a number of `N` bytes is stored as, for `N` of 2, 4, 8 or 16: its bytes, the lowest first,
/// a signed number in two's complement. Values order by their bytes as they lie, so it isn't the
/// order of the numbers.
#[derive(Clone, Copy, Debug, PartialEq, Eq, PartialOrd, Ord, Hash)]
pub struct RawBytesULE<const N: usize>(pub [u8; N]);

/// A width that numbers have: 2, 4, 8 or 16 bytes.
pub trait RawWidth<const N: usize> {
    /// What errors call the numbers of that width.
    const NAME: TyName;

    ghost NAME: { TyName };

    /// A number has a byte.
    ghost positive: { 0 < N };

    /// The width is one that lists take.
    ghost narrow: { N < 2 ^ 32 };
}

impl<const N: usize> ULE for RawBytesULE<N>
where
    RawBytesULE<N>: RawWidth<N>,
{
    const TY: TyName = <RawBytesULE<N> as RawWidth<N>>::NAME;

    ghost TY = { ⟦<RawBytesULE<N> as RawWidth<N>>⟧.NAME };

    ghost width = { N };

    ghost chunk_fault = { λ _. None };

    ghost is_value = { λ v. IsRaw N v.0 };

    ghost chunk = { λ v. v.0 };

    ghost value = { λ b. record { 0 = b } };

    #[inline]
    fn known(self) {}

    #[inline]
    fn size() -> usize {
        N
    }

    #[inline]
    fn check_chunk(_bytes: &[u8]) -> Result<(), UleError> {
        Ok(())
    }

    #[inline]
    fn is_plain() -> bool {
        true
    }

    #[inline]
    fn read_chunk(bytes: &[u8]) -> Self {
        let mut stored = [0; N];
        stored.copy_from_slice(bytes);
        RawBytesULE(stored)
    }

    #[inline]
    fn write_chunk(self, out: &mut [u8]) {
        out.copy_from_slice(&self.0);
    }

    ghost spelling = { raw_spelling N };
}

impl<const N: usize> RawBytesULE<N> {
    /// The bytes, the lowest first.
    #[inline]
    pub fn as_bytes(&self) -> &[u8]
        ensures { result.now ≡ self.now.0 }
    {
        &self.0
    }
}

impl<const N: usize> From<[u8; N]> for RawBytesULE<N> {
    ghost from_gives = { λ bytes r. r.0 ≡ bytes };

    #[inline]
    fn from(bytes: [u8; N]) -> Self {
        RawBytesULE(bytes)
    }
}
