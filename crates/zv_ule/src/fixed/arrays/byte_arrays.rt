// Arrays of bytes.
ghost use Rattle.std.specs.Prelude.{◌<◌, refl, None};
ghost use Rattle.std.specs.Cmp.{nat_cmp_total};
ghost use Rattle.std.proofs.lemmas.Cmp.{lists_total};
ghost use Rattle.zv_ule.specs.Bytes.{IsRaw};
ghost use Rattle.zv_ule.specs.Fixed.{is_width};
ghost use Rattle.zv_ule.specs.Kinds.{one_fault};
ghost use Rattle.zv_ule.specs.laws.Spellings.{bytes_spelling, same_twin};
ghost use Rattle.zv_ule.specs.declared.error.TyName.TheVariants.{Array};

use crate::element::{AsULE, ULE, check_one};
use crate::error::{TyName, UleError};
use crate::kind::{ZvKind, ZvOrd, compare_stored, compare_with};
use crate::kinds::argument::ZvOrdArg;
use crate::steps::Steps;
use std::cmp::Ordering;
use std::sync::ledger::Ledger;

/// `N` bytes as they lie, for an `N` of at least 1.
impl<const N: usize> ULE for [u8; N] {
    const TY: TyName = TyName::Array;

    ghost TY = { Array };

    ghost width = { N };

    ghost chunk_fault = { λ _. None };

    ghost is_value = { IsRaw N };

    ghost chunk = { λ v. v };

    ghost value = { λ b. b };

    #[inline]
    fn known(self) {}

    #[inline]
    fn size() -> usize {
        N
    }

    #[inline]
    fn check_chunk(_bytes: &[u8]) -> Result<(), UleError> {
        Ok(())
    }

    #[inline]
    fn is_plain() -> bool {
        true
    }

    #[inline]
    fn read_chunk(bytes: &[u8]) -> Self {
        let mut out = [0; N];
        out.copy_from_slice(bytes);
        out
    }

    #[inline]
    fn write_chunk(self, out: &mut [u8]) {
        out.copy_from_slice(&self);
    }

    ghost spelling = { bytes_spelling N };
}

impl<const N: usize> ZvKind for [u8; N] {
    const TY: TyName = TyName::Array;

    ghost TY = { Array };

    ghost usable = { is_width N };

    ghost fault = { one_fault Array N (λ _. None) };

    #[inline]
    fn check(bytes: &[u8]) -> Result<(), UleError> {
        check_one::<[u8; N]>(bytes)
    }
}

impl<const N: usize> AsULE for [u8; N] {
    type ULE = [u8; N];

    ghost is_value = { IsRaw N };

    ghost stored = { λ v. v };

    ghost loaded = { λ u. u };

    #[inline]
    fn to_unaligned(self) -> [u8; N] {
        self
    }

    #[inline]
    fn from_unaligned(unaligned: [u8; N]) -> Self {
        unaligned
    }

    ghost kind = { record { widths = refl; errors = λ _. refl } };

    ghost name = { refl };

    ghost twin = { same_twin };
}

impl<const N: usize> ZvOrd for [u8; N] {
    ghost cmp = { ⟦<[u8; N] as Ord>⟧.cmp };

    #[inline]
    fn compare<L: Ledger>(a: &[u8], b: &[u8], steps: &mut Steps<L>) -> Ordering {
        compare_stored::<[u8; N], L>(a, b, steps)
    }

    ghost total = { lists_total nat_cmp_total };
}

impl<const N: usize> ZvOrdArg<[u8; N]> for [u8; N] {
    #[inline]
    fn arg_compare<L: Ledger>(&self, element: &[u8], steps: &mut Steps<L>) -> Ordering {
        compare_with::<[u8; N], L>(element, self, steps)
    }
}
