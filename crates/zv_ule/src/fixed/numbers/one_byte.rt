// Numbers of one byte.
ghost use Rattle.std.specs.Cmp.{int_cmp_total, nat_cmp_total, on_total};
ghost use Rattle.std.specs.Int.{cast_signed, cast_unsigned, w8};
ghost use Rattle.std.specs.Ordering.{int_cmp, nat_cmp, on};
ghost use Rattle.std.specs.Prelude.{FitsSigned, None, [], refl, slice_index, true, ◌<◌, ◌^◌, ◌∷◌};
ghost use Rattle.zv_ule.specs.Kinds.{one_fault};
ghost use Rattle.zv_ule.specs.laws.Spellings.{byte_spelling, same_twin};
ghost use Rattle.zv_ule.specs.laws.Twins.{signed_byte_spelling};
ghost use Rattle.zv_ule.specs.declared.error.TyName.{TyName};
ghost use Rattle.zv_ule.specs.declared.error.TyName.TheVariants.{I8, U8};

use crate::element::{AsULE, ULE, check_one};
use crate::error::{TyName, UleError};
use crate::kind::{ZvKind, ZvOrd, compare_stored, compare_with};
use crate::kinds::argument::ZvOrdArg;
use crate::steps::Steps;
use std::cmp::Ordering;
use std::sync::ledger::Ledger;

impl ULE for u8 {
    const TY: TyName = TyName::U8;

    ghost TY = { U8 };

    ghost width = { 1 };

    ghost chunk_fault = { λ _. None };

    ghost is_value = { λ v. v < 2 ^ 8 };

    ghost chunk = { λ v. v ∷ [] };

    ghost value = { λ b. slice_index b 0 };

    #[inline]
    fn known(self) {}

    #[inline]
    fn size() -> usize {
        1
    }

    #[inline]
    fn check_chunk(_bytes: &[u8]) -> Result<(), UleError> {
        Ok(())
    }

    #[inline]
    fn is_plain() -> bool {
        true
    }

    #[inline]
    fn read_chunk(bytes: &[u8]) -> u8 {
        bytes[0]
    }

    #[inline]
    fn write_chunk(self, out: &mut [u8]) {
        out[0] = self;
    }

    ghost spelling = { byte_spelling };
}

impl AsULE for u8 {
    type ULE = u8;

    ghost is_value = { λ v. v < 2 ^ 8 };

    ghost stored = { λ v. v };

    ghost loaded = { λ u. u };

    #[inline]
    fn to_unaligned(self) -> u8 {
        self
    }

    #[inline]
    fn from_unaligned(unaligned: u8) -> u8 {
        unaligned
    }

    ghost kind = { record { widths = refl; errors = λ _. refl } };

    ghost name = { refl };

    ghost twin = { same_twin };
}

impl ZvKind for u8 {
    const TY: TyName = TyName::U8;

    ghost TY = { U8 };

    ghost usable = { true };

    ghost fault = { one_fault U8 1 (λ _. None) };

    #[inline]
    fn check(bytes: &[u8]) -> Result<(), UleError> {
        check_one::<u8>(bytes)
    }
}

impl ZvOrd for u8 {
    ghost cmp = { on (λ b. slice_index b 0) nat_cmp };

    #[inline]
    fn compare<L: Ledger>(a: &[u8], b: &[u8], steps: &mut Steps<L>) -> Ordering {
        compare_stored::<u8, L>(a, b, steps)
    }

    ghost total = { on_total (λ b. slice_index b 0) nat_cmp_total };
}

impl ZvOrdArg<u8> for u8 {
    #[inline]
    fn arg_compare<L: Ledger>(&self, element: &[u8], steps: &mut Steps<L>) -> Ordering {
        compare_with::<u8, L>(element, self, steps)
    }
}

impl ULE for i8 {
    const TY: TyName = TyName::I8;

    ghost TY = { I8 };

    ghost width = { 1 };

    ghost chunk_fault = { λ _. None };

    ghost is_value = { λ v. FitsSigned w8 v };

    ghost chunk = { λ v. cast_unsigned w8 v ∷ [] };

    ghost value = { λ b. cast_signed w8 (slice_index b 0) };

    #[inline]
    fn known(self) {}

    #[inline]
    fn size() -> usize {
        1
    }

    #[inline]
    fn check_chunk(_bytes: &[u8]) -> Result<(), UleError> {
        Ok(())
    }

    #[inline]
    fn is_plain() -> bool {
        true
    }

    #[inline]
    fn read_chunk(bytes: &[u8]) -> i8 {
        bytes[0].cast_signed()
    }

    #[inline]
    fn write_chunk(self, out: &mut [u8]) {
        out[0] = self.cast_unsigned();
    }

    ghost spelling = { signed_byte_spelling };
}

impl ZvKind for i8 {
    const TY: TyName = TyName::I8;

    ghost TY = { I8 };

    ghost usable = { true };

    ghost fault = { one_fault I8 1 (λ _. None) };

    #[inline]
    fn check(bytes: &[u8]) -> Result<(), UleError> {
        check_one::<i8>(bytes)
    }
}

impl AsULE for i8 {
    type ULE = i8;

    ghost is_value = { λ v. FitsSigned w8 v };

    ghost stored = { λ v. v };

    ghost loaded = { λ u. u };

    #[inline]
    fn to_unaligned(self) -> i8 {
        self
    }

    #[inline]
    fn from_unaligned(unaligned: i8) -> i8 {
        unaligned
    }

    ghost kind = { record { widths = refl; errors = λ _. refl } };

    ghost name = { refl };

    ghost twin = { same_twin };
}

impl ZvOrd for i8 {
    ghost cmp = { on (λ b. cast_signed w8 (slice_index b 0)) int_cmp };

    #[inline]
    fn compare<L: Ledger>(a: &[u8], b: &[u8], steps: &mut Steps<L>) -> Ordering {
        compare_stored::<i8, L>(a, b, steps)
    }

    ghost total = { on_total (λ b. cast_signed w8 (slice_index b 0)) int_cmp_total };
}

impl ZvOrdArg<i8> for i8 {
    #[inline]
    fn arg_compare<L: Ledger>(&self, element: &[u8], steps: &mut Steps<L>) -> Ordering {
        compare_with::<i8, L>(element, self, steps)
    }
}
