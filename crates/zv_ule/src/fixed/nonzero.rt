// Numbers of one byte other than 0.
ghost use Rattle.std.specs.Prelude.{◌<◌, ◌^◌, [], ◌∷◌, refl, true, slice_index, FitsSigned};
ghost use Rattle.std.specs.Cmp.{on_total, nat_cmp_total, int_cmp_total};
ghost use Rattle.std.specs.Int.{w8, cast_signed, cast_unsigned};
ghost use Rattle.std.specs.Ordering.{on, nat_cmp, int_cmp};
ghost use Rattle.zv_ule.specs.Kinds.{one_fault};
ghost use Rattle.zv_ule.specs.NonZero.{non_zero_fault, non_zero_of, non_zero_value};
ghost use Rattle.zv_ule.specs.NonZero.{non_zero_spelling, signed_non_zero_of, signed_non_zero_twin};
ghost use Rattle.zv_ule.specs.laws.Spellings.{same_twin};
ghost use Rattle.zv_ule.specs.declared.error.TyName.TheVariants.{NonZeroU8 as NonZeroU8Name};

use crate::element::{AsULE, ULE, check_one};
use crate::error::{TyName, UleError};
use crate::kind::{ZvKind, ZvOrd, compare_stored, compare_with};
use crate::kinds::argument::ZvOrdArg;
use crate::steps::Steps;
use std::cmp::Ordering;
use std::num::{NonZeroI8, NonZeroU8};
use std::sync::ledger::Ledger;

impl ULE for NonZeroU8 {
    const TY: TyName = TyName::NonZeroU8;

    ghost TY = { NonZeroU8Name };

    ghost width = { 1 };

    ghost chunk_fault = { non_zero_fault };

    ghost is_value = { λ v. v.value < 2 ^ 8 };

    ghost chunk = { λ v. v.value ∷ [] };

    ghost value = { non_zero_value };

    #[inline]
    fn known(self) {
        let _ = self.get();
    }

    #[inline]
    fn size() -> usize {
        1
    }

    #[inline]
    fn check_chunk(bytes: &[u8]) -> Result<(), UleError> {
        match bytes[0] {
            0 => Err(UleError::parse(TyName::NonZeroU8)),
            _ => Ok(()),
        }
    }

    #[inline]
    fn is_good_chunk(bytes: &[u8]) -> bool {
        bytes[0] != 0
    }

    #[inline]
    fn read_chunk(bytes: &[u8]) -> Self {
        unsafe { NonZeroU8::new_unchecked(bytes[0]) }
    }

    #[inline]
    fn write_chunk(self, out: &mut [u8]) {
        out[0] = self.get();
    }

    ghost spelling = { non_zero_spelling };
}

impl ZvKind for NonZeroU8 {
    const TY: TyName = TyName::NonZeroU8;

    ghost TY = { NonZeroU8Name };

    ghost usable = { true };

    ghost fault = { one_fault NonZeroU8Name 1 non_zero_fault };

    #[inline]
    fn check(bytes: &[u8]) -> Result<(), UleError> {
        check_one::<NonZeroU8>(bytes)
    }
}

impl AsULE for NonZeroU8 {
    type ULE = NonZeroU8;

    ghost is_value = { λ v. v.value < 2 ^ 8 };

    ghost stored = { λ v. v };

    ghost loaded = { λ u. u };

    #[inline]
    fn to_unaligned(self) -> NonZeroU8 {
        self.known();
        self
    }

    #[inline]
    fn from_unaligned(unaligned: NonZeroU8) -> NonZeroU8 {
        unaligned
    }

    ghost kind = { record { widths = refl; errors = λ _. refl } };

    ghost name = { refl };

    ghost twin = { same_twin };
}

impl ZvOrd for NonZeroU8 {
    ghost cmp = { on (λ b. slice_index b 0) nat_cmp };

    #[inline]
    fn compare<L: Ledger>(a: &[u8], b: &[u8], steps: &mut Steps<L>) -> Ordering {
        compare_stored::<NonZeroU8, L>(a, b, steps)
    }

    ghost total = { on_total (λ b. slice_index b 0) nat_cmp_total };
}

impl ZvOrdArg<NonZeroU8> for NonZeroU8 {
    #[inline]
    fn arg_compare<L: Ledger>(&self, element: &[u8], steps: &mut Steps<L>) -> Ordering {
        compare_with::<NonZeroU8, L>(element, self, steps)
    }
}

impl ZvKind for NonZeroI8 {
    const TY: TyName = TyName::NonZeroU8;

    ghost TY = { NonZeroU8Name };

    ghost usable = { true };

    ghost fault = { one_fault NonZeroU8Name 1 non_zero_fault };

    #[inline]
    fn check(bytes: &[u8]) -> Result<(), UleError> {
        check_one::<NonZeroU8>(bytes)
    }
}

impl AsULE for NonZeroI8 {
    type ULE = NonZeroU8;

    ghost is_value = { λ v. FitsSigned w8 v.value };

    ghost stored = { λ v. non_zero_of (cast_unsigned w8 v.value) };

    ghost loaded = { λ u. signed_non_zero_of (cast_signed w8 u.value) };

    #[inline]
    fn to_unaligned(self) -> NonZeroU8 {
        self.cast_unsigned()
    }

    #[inline]
    fn from_unaligned(unaligned: NonZeroU8) -> NonZeroI8 {
        unaligned.cast_signed()
    }

    ghost kind = { record { widths = refl; errors = λ _. refl } };

    ghost name = { refl };

    ghost twin = { signed_non_zero_twin };
}

impl ZvOrd for NonZeroI8 {
    ghost cmp = { on (λ b. cast_signed w8 (slice_index b 0)) int_cmp };

    #[inline]
    fn compare<L: Ledger>(a: &[u8], b: &[u8], steps: &mut Steps<L>) -> Ordering {
        compare_stored::<NonZeroI8, L>(a, b, steps)
    }

    ghost total = { on_total (λ b. cast_signed w8 (slice_index b 0)) int_cmp_total };
}

impl ZvOrdArg<NonZeroI8> for NonZeroI8 {
    #[inline]
    fn arg_compare<L: Ledger>(&self, element: &[u8], steps: &mut Steps<L>) -> Ordering {
        compare_with::<NonZeroI8, L>(element, self, steps)
    }
}
