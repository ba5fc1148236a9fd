// Numbers of eight bytes.
ghost use Rattle.std.proofs.Common.{lit<};
ghost use Rattle.std.specs.Cmp.{int_cmp_total, nat_cmp_total, on_total};
ghost use Rattle.std.specs.Int.{cast_signed, cast_unsigned, from_le_bytes, to_le_bytes, w64};
ghost use Rattle.std.specs.Ordering.{int_cmp, nat_cmp, on};
ghost use Rattle.std.specs.Prelude.{FitsSigned, None, map, refl, true, ◌<◌, ◌^◌, ◌≡◌};
ghost use Rattle.zv_ule.specs.Kinds.{one_fault};
ghost use Rattle.zv_ule.specs.laws.Twins.{number_twin, sign_twin};
ghost use Rattle.zv_ule.specs.laws.Spellings.{then_twin};
ghost use Rattle.zv_ule.specs.declared.error.TyName.{TyName};
ghost use Rattle.zv_ule.specs.declared.error.TyName.TheVariants.{RawBytes8};

use crate::element::{AsULE, ULE, check_one};
use crate::error::{TyName, UleError};
use crate::fixed::raw_bytes::{RawBytesULE, RawWidth};
use crate::kind::{ZvKind, ZvOrd, compare_stored, compare_with};
use crate::kinds::argument::ZvOrdArg;
use crate::steps::Steps;
use std::cmp::Ordering;
use std::sync::ledger::Ledger;

impl RawWidth<8> for RawBytesULE<8> {
    const NAME: TyName = TyName::RawBytes8;

    ghost NAME = { RawBytes8 };

    ghost positive = { lit< tt };

    ghost narrow = { lit< tt };
}

impl RawBytesULE<8> {
    /// The number, as an unsigned one.
    #[inline]
    pub fn as_unsigned_int(&self) -> u64
        ensures { result ≡ from_le_bytes w64 self.now.0 }
    {
        u64::from_le_bytes(self.0)
    }

    /// The number, as a signed one in two's complement.
    #[inline]
    pub fn as_signed_int(&self) -> i64
        ensures { result ≡ cast_signed w64 (from_le_bytes w64 self.now.0) }
    {
        self.as_unsigned_int().cast_signed()
    }

    /// The bytes of an unsigned number, as `from_unsigned`.
    #[inline]
    pub fn from_aligned(value: u64) -> Self
        ensures { result.0 ≡ to_le_bytes w64 value }
    {
        RawBytesULE(value.to_le_bytes())
    }

    /// The bytes of an unsigned number.
    #[inline]
    pub fn from_unsigned(v: u64) -> Self
        ensures { result.0 ≡ to_le_bytes w64 v }
    {
        RawBytesULE(v.to_le_bytes())
    }

    /// The bytes of a signed number, in two's complement.
    #[inline]
    pub fn from_signed(v: i64) -> Self
        ensures { result.0 ≡ to_le_bytes w64 (cast_unsigned w64 v) }
    {
        RawBytesULE(v.cast_unsigned().to_le_bytes())
    }

    /// The bytes of each number of an array.
    #[inline]
    pub fn from_array<const L: usize>(arr: [u64; L]) -> [RawBytesULE<8>; L]
        ensures { result ≡ map (λ v. record { 0 = to_le_bytes w64 v }) arr.entry }
    {
        arr.to_unaligned()
    }
}

impl From<u64> for RawBytesULE<8> {
    ghost from_gives = { λ v r. r.0 ≡ to_le_bytes w64 v };

    #[inline]
    fn from(value: u64) -> Self {
        RawBytesULE::<8>::from_unsigned(value)
    }
}

impl From<i64> for RawBytesULE<8> {
    ghost from_gives = { λ v r. r.0 ≡ to_le_bytes w64 (cast_unsigned w64 v) };

    #[inline]
    fn from(value: i64) -> Self {
        RawBytesULE::<8>::from_signed(value)
    }
}

impl ZvKind for u64 {
    const TY: TyName = TyName::RawBytes8;

    ghost TY = { RawBytes8 };

    ghost usable = { true };

    ghost fault = { one_fault RawBytes8 8 (λ _. None) };

    #[inline]
    fn check(bytes: &[u8]) -> Result<(), UleError> {
        check_one::<RawBytesULE<8>>(bytes)
    }
}

impl AsULE for u64 {
    type ULE = RawBytesULE<8>;

    ghost is_value = { λ v. v < 2 ^ 64 };

    ghost stored = { λ v. record { 0 = to_le_bytes w64 v } };

    ghost loaded = { λ u. from_le_bytes w64 u.0 };

    #[inline]
    fn to_unaligned(self) -> RawBytesULE<8> {
        RawBytesULE(self.to_le_bytes())
    }

    #[inline]
    fn from_unaligned(unaligned: RawBytesULE<8>) -> u64 {
        u64::from_le_bytes(unaligned.0)
    }

    ghost kind = { record { widths = refl; errors = λ _. refl } };

    ghost name = { refl };

    ghost twin = { number_twin 7 };
}

impl ZvOrd for u64 {
    ghost cmp = { on (λ b. from_le_bytes w64 b) nat_cmp };

    #[inline]
    fn compare<L: Ledger>(a: &[u8], b: &[u8], steps: &mut Steps<L>) -> Ordering {
        compare_stored::<u64, L>(a, b, steps)
    }

    ghost total = { on_total (λ b. from_le_bytes w64 b) nat_cmp_total };
}

impl ZvOrdArg<u64> for u64 {
    #[inline]
    fn arg_compare<L: Ledger>(&self, element: &[u8], steps: &mut Steps<L>) -> Ordering {
        compare_with::<u64, L>(element, self, steps)
    }
}

impl ZvKind for i64 {
    const TY: TyName = TyName::RawBytes8;

    ghost TY = { RawBytes8 };

    ghost usable = { true };

    ghost fault = { one_fault RawBytes8 8 (λ _. None) };

    #[inline]
    fn check(bytes: &[u8]) -> Result<(), UleError> {
        check_one::<RawBytesULE<8>>(bytes)
    }
}

impl AsULE for i64 {
    type ULE = RawBytesULE<8>;

    ghost is_value = { λ v. FitsSigned w64 v };

    ghost stored = { λ v. record { 0 = to_le_bytes w64 (cast_unsigned w64 v) } };

    ghost loaded = { λ u. cast_signed w64 (from_le_bytes w64 u.0) };

    #[inline]
    fn to_unaligned(self) -> RawBytesULE<8> {
        RawBytesULE(self.cast_unsigned().to_le_bytes())
    }

    #[inline]
    fn from_unaligned(unaligned: RawBytesULE<8>) -> i64 {
        u64::from_le_bytes(unaligned.0).cast_signed()
    }

    ghost kind = { record { widths = refl; errors = λ _. refl } };

    ghost name = { refl };

    ghost twin = { then_twin (sign_twin w64) (number_twin 7) };
}

impl ZvOrd for i64 {
    ghost cmp = { on (λ b. cast_signed w64 (from_le_bytes w64 b)) int_cmp };

    #[inline]
    fn compare<L: Ledger>(a: &[u8], b: &[u8], steps: &mut Steps<L>) -> Ordering {
        compare_stored::<i64, L>(a, b, steps)
    }

    ghost total = { on_total (λ b. cast_signed w64 (from_le_bytes w64 b)) int_cmp_total };
}

impl ZvOrdArg<i64> for i64 {
    #[inline]
    fn arg_compare<L: Ledger>(&self, element: &[u8], steps: &mut Steps<L>) -> Ordering {
        compare_with::<i64, L>(element, self, steps)
    }
}
