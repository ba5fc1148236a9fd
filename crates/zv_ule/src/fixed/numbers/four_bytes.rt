// Numbers of four bytes.
ghost use Rattle.std.proofs.Common.{lit<};
ghost use Rattle.std.specs.Cmp.{int_cmp_total, nat_cmp_total, on_total};
ghost use Rattle.std.specs.Int.{cast_signed, cast_unsigned, from_le_bytes, to_le_bytes, w32};
ghost use Rattle.std.specs.Ordering.{int_cmp, nat_cmp, on};
ghost use Rattle.std.specs.Prelude.{FitsSigned, None, map, refl, true, ◌<◌, ◌^◌, ◌≡◌};
ghost use Rattle.zv_ule.specs.Kinds.{one_fault};
ghost use Rattle.zv_ule.specs.laws.Twins.{u32_twin, sign_twin};
ghost use Rattle.zv_ule.specs.laws.Spellings.{then_twin};
ghost use Rattle.zv_ule.specs.declared.error.TyName.{TyName};
ghost use Rattle.zv_ule.specs.declared.error.TyName.TheVariants.{RawBytes4};

use crate::element::{AsULE, ULE, check_one};
use crate::error::{TyName, UleError};
use crate::fixed::raw_bytes::{RawBytesULE, RawWidth};
use crate::kind::{ZvKind, ZvOrd, compare_stored, compare_with};
use crate::kinds::argument::ZvOrdArg;
use crate::steps::Steps;
use std::cmp::Ordering;
use std::sync::ledger::Ledger;

impl RawWidth<4> for RawBytesULE<4> {
    const NAME: TyName = TyName::RawBytes4;

    ghost NAME = { RawBytes4 };

    ghost positive = { lit< tt };

    ghost narrow = { lit< tt };
}

impl RawBytesULE<4> {
    /// The number, as an unsigned one.
    #[inline]
    pub fn as_unsigned_int(&self) -> u32
        ensures { result ≡ from_le_bytes w32 self.now.0 }
    {
        u32::from_le_bytes(self.0)
    }

    /// The number, as a signed one in two's complement.
    #[inline]
    pub fn as_signed_int(&self) -> i32
        ensures { result ≡ cast_signed w32 (from_le_bytes w32 self.now.0) }
    {
        self.as_unsigned_int().cast_signed()
    }

    /// The bytes of an unsigned number, as `from_unsigned`.
    #[inline]
    pub fn from_aligned(value: u32) -> Self
        ensures { result.0 ≡ to_le_bytes w32 value }
    {
        RawBytesULE(value.to_le_bytes())
    }

    /// The bytes of an unsigned number.
    #[inline]
    pub fn from_unsigned(v: u32) -> Self
        ensures { result.0 ≡ to_le_bytes w32 v }
    {
        RawBytesULE(v.to_le_bytes())
    }

    /// The bytes of a signed number, in two's complement.
    #[inline]
    pub fn from_signed(v: i32) -> Self
        ensures { result.0 ≡ to_le_bytes w32 (cast_unsigned w32 v) }
    {
        RawBytesULE(v.cast_unsigned().to_le_bytes())
    }

    /// The bytes of each number of an array.
    #[inline]
    pub fn from_array<const L: usize>(arr: [u32; L]) -> [RawBytesULE<4>; L]
        ensures { result ≡ map (λ v. record { 0 = to_le_bytes w32 v }) arr.entry }
    {
        arr.to_unaligned()
    }
}

impl From<u32> for RawBytesULE<4> {
    ghost from_gives = { λ v r. r.0 ≡ to_le_bytes w32 v };

    #[inline]
    fn from(value: u32) -> Self {
        RawBytesULE::<4>::from_unsigned(value)
    }
}

impl From<i32> for RawBytesULE<4> {
    ghost from_gives = { λ v r. r.0 ≡ to_le_bytes w32 (cast_unsigned w32 v) };

    #[inline]
    fn from(value: i32) -> Self {
        RawBytesULE::<4>::from_signed(value)
    }
}

impl AsULE for u32 {
    type ULE = RawBytesULE<4>;

    ghost is_value = { λ v. v < 2 ^ 32 };

    ghost stored = { λ v. record { 0 = to_le_bytes w32 v } };

    ghost loaded = { λ u. from_le_bytes w32 u.0 };

    #[inline]
    fn to_unaligned(self) -> RawBytesULE<4> {
        RawBytesULE(self.to_le_bytes())
    }

    #[inline]
    fn from_unaligned(unaligned: RawBytesULE<4>) -> u32 {
        u32::from_le_bytes(unaligned.0)
    }

    ghost kind = { record { widths = refl; errors = λ _. refl } };

    ghost name = { refl };

    ghost twin = { u32_twin };
}

impl ZvKind for u32 {
    const TY: TyName = TyName::RawBytes4;

    ghost TY = { RawBytes4 };

    ghost usable = { true };

    ghost fault = { one_fault RawBytes4 4 (λ _. None) };

    #[inline]
    fn check(bytes: &[u8]) -> Result<(), UleError> {
        check_one::<RawBytesULE<4>>(bytes)
    }
}

impl ZvOrd for u32 {
    ghost cmp = { on (λ b. from_le_bytes w32 b) nat_cmp };

    #[inline]
    fn compare<L: Ledger>(a: &[u8], b: &[u8], steps: &mut Steps<L>) -> Ordering {
        compare_stored::<u32, L>(a, b, steps)
    }

    ghost total = { on_total (λ b. from_le_bytes w32 b) nat_cmp_total };
}

impl ZvOrdArg<u32> for u32 {
    #[inline]
    fn arg_compare<L: Ledger>(&self, element: &[u8], steps: &mut Steps<L>) -> Ordering {
        compare_with::<u32, L>(element, self, steps)
    }
}

impl ZvKind for i32 {
    const TY: TyName = TyName::RawBytes4;

    ghost TY = { RawBytes4 };

    ghost usable = { true };

    ghost fault = { one_fault RawBytes4 4 (λ _. None) };

    #[inline]
    fn check(bytes: &[u8]) -> Result<(), UleError> {
        check_one::<RawBytesULE<4>>(bytes)
    }
}

impl AsULE for i32 {
    type ULE = RawBytesULE<4>;

    ghost is_value = { λ v. FitsSigned w32 v };

    ghost stored = { λ v. record { 0 = to_le_bytes w32 (cast_unsigned w32 v) } };

    ghost loaded = { λ u. cast_signed w32 (from_le_bytes w32 u.0) };

    #[inline]
    fn to_unaligned(self) -> RawBytesULE<4> {
        RawBytesULE(self.cast_unsigned().to_le_bytes())
    }

    #[inline]
    fn from_unaligned(unaligned: RawBytesULE<4>) -> i32 {
        u32::from_le_bytes(unaligned.0).cast_signed()
    }

    ghost kind = { record { widths = refl; errors = λ _. refl } };

    ghost name = { refl };

    ghost twin = { then_twin (sign_twin w32) u32_twin };
}

impl ZvOrd for i32 {
    ghost cmp = { on (λ b. cast_signed w32 (from_le_bytes w32 b)) int_cmp };

    #[inline]
    fn compare<L: Ledger>(a: &[u8], b: &[u8], steps: &mut Steps<L>) -> Ordering {
        compare_stored::<i32, L>(a, b, steps)
    }

    ghost total = { on_total (λ b. cast_signed w32 (from_le_bytes w32 b)) int_cmp_total };
}

impl ZvOrdArg<i32> for i32 {
    #[inline]
    fn arg_compare<L: Ledger>(&self, element: &[u8], steps: &mut Steps<L>) -> Ordering {
        compare_with::<i32, L>(element, self, steps)
    }
}
