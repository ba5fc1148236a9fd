// Arrays of stored numbers.
ghost use Rattle.std.specs.Prelude.{◌≡◌, ◌*◌, ◌<◌, flat_map, length, None};
ghost use Rattle.std.specs.List.{AllByRecursion};
ghost use Rattle.zv_ule.specs.laws.ArraySpellings.{array_spelling};
ghost use Rattle.zv_ule.specs.Bytes.{IsRaw};
ghost use Rattle.zv_ule.specs.Chunks.{chunks_of, first_fault, values_of};
ghost use Rattle.zv_ule.specs.laws.Spellings.{raw_spelling};
ghost use Rattle.zv_ule.specs.declared.error.TyName.TheVariants.{Array};

use crate::element::{ULE, all_known, write_all};
use crate::error::{TyName, UleError};
use crate::fixed::arrays::elements::{are_plain, read_all};
use crate::fixed::raw_bytes::{RawBytesULE, RawWidth};

/// `N` stored numbers of `M` bytes, one after another, for an `N` of at least 1.
impl<const M: usize, const N: usize> ULE for [RawBytesULE<M>; N]
where
    RawBytesULE<M>: RawWidth<M>,
{
    const TY: TyName = TyName::Array;

    ghost TY = { Array };

    ghost width = { N * M };

    ghost chunk_fault = { λ b. first_fault (λ _. None) (chunks_of M b) };

    ghost is_value = { λ v. (length v ≡ N) × AllByRecursion (λ u. IsRaw M u.0) v };

    ghost chunk = { flat_map (λ u. u.0) };

    ghost value = { values_of M (λ b. record { 0 = b }) };

    #[inline]
    fn known(self) {
        all_known(&self[..]);
    }

    #[inline]
    fn size() -> usize {
        N * M
    }

    #[inline]
    fn check_chunk(bytes: &[u8]) -> Result<(), UleError> {
        RawBytesULE::<M>::check_chunks(bytes)
    }

    #[inline]
    fn is_plain() -> bool {
        are_plain::<RawBytesULE<M>>()
    }

    #[inline]
    fn is_good_chunk(bytes: &[u8]) -> bool {
        RawBytesULE::<M>::are_good_chunks(bytes)
    }

    #[inline]
    fn read_chunk(bytes: &[u8]) -> Self {
        let mut out = [RawBytesULE([0; M]); N];
        read_all(bytes, &mut out);
        out
    }

    #[inline]
    fn write_chunk(self, out: &mut [u8]) {
        write_all(&self[..], out);
    }

    ghost spelling = { array_spelling N ⟦<RawBytesULE<M> as RawWidth<M>>⟧.positive
        (raw_spelling M) };
}
