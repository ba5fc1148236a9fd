// Numbers of sixteen bytes.
ghost use Rattle.std.proofs.Common.{lit<};
ghost use Rattle.std.specs.Cmp.{int_cmp_total, nat_cmp_total, on_total};
ghost use Rattle.std.specs.Int.{cast_signed, cast_unsigned, from_le_bytes, to_le_bytes, w128};
ghost use Rattle.std.specs.Ordering.{int_cmp, nat_cmp, on};
ghost use Rattle.std.specs.Prelude.{FitsSigned, None, map, refl, true, ◌<◌, ◌^◌, ◌≡◌};
ghost use Rattle.zv_ule.specs.Kinds.{one_fault};
ghost use Rattle.zv_ule.specs.laws.Twins.{number_twin, sign_twin};
ghost use Rattle.zv_ule.specs.laws.Spellings.{then_twin};
ghost use Rattle.zv_ule.specs.declared.error.TyName.{TyName};
ghost use Rattle.zv_ule.specs.declared.error.TyName.TheVariants.{RawBytes16};

use crate::element::{AsULE, ULE, check_one};
use crate::error::{TyName, UleError};
use crate::fixed::arrays::elements::store_all;
use crate::fixed::raw_bytes::{RawBytesULE, RawWidth};
use crate::kind::{ZvKind, ZvOrd, compare_stored, compare_with};
use crate::kinds::argument::ZvOrdArg;
use crate::steps::Steps;
use std::cmp::Ordering;
use std::sync::ledger::Ledger;

impl RawWidth<16> for RawBytesULE<16> {
    const NAME: TyName = TyName::RawBytes16;

    ghost NAME = { RawBytes16 };

    ghost positive = { lit< tt };

    ghost narrow = { lit< tt };
}

impl RawBytesULE<16> {
    /// The number, as an unsigned one.
    #[inline]
    pub fn as_unsigned_int(&self) -> u128
        ensures { result ≡ from_le_bytes w128 self.now.0 }
    {
        u128::from_le_bytes(self.0)
    }

    /// The number, as a signed one in two's complement.
    #[inline]
    pub fn as_signed_int(&self) -> i128
        ensures { result ≡ cast_signed w128 (from_le_bytes w128 self.now.0) }
    {
        self.as_unsigned_int().cast_signed()
    }

    /// The bytes of an unsigned number, as `from_unsigned`.
    #[inline]
    pub fn from_aligned(value: u128) -> Self
        ensures { result.0 ≡ to_le_bytes w128 value }
    {
        RawBytesULE(value.to_le_bytes())
    }

    /// The bytes of an unsigned number.
    #[inline]
    pub fn from_unsigned(v: u128) -> Self
        ensures { result.0 ≡ to_le_bytes w128 v }
    {
        RawBytesULE(v.to_le_bytes())
    }

    /// The bytes of a signed number, in two's complement.
    #[inline]
    pub fn from_signed(v: i128) -> Self
        ensures { result.0 ≡ to_le_bytes w128 (cast_unsigned w128 v) }
    {
        RawBytesULE(v.cast_unsigned().to_le_bytes())
    }

    /// The bytes of each number of an array.
    #[inline]
    pub fn from_array<const L: usize>(arr: [u128; L]) -> [RawBytesULE<16>; L]
        ensures { result ≡ map (λ v. record { 0 = to_le_bytes w128 v }) arr.entry }
    {
        let mut stored = [RawBytesULE([0; 16]); L];
        store_all::<u128>(&arr, &mut stored);
        stored
    }
}

impl From<u128> for RawBytesULE<16> {
    ghost from_gives = { λ v r. r.0 ≡ to_le_bytes w128 v };

    #[inline]
    fn from(value: u128) -> Self {
        RawBytesULE::<16>::from_unsigned(value)
    }
}

impl From<i128> for RawBytesULE<16> {
    ghost from_gives = { λ v r. r.0 ≡ to_le_bytes w128 (cast_unsigned w128 v) };

    #[inline]
    fn from(value: i128) -> Self {
        RawBytesULE::<16>::from_signed(value)
    }
}

impl ZvKind for u128 {
    const TY: TyName = TyName::RawBytes16;

    ghost TY = { RawBytes16 };

    ghost usable = { true };

    ghost fault = { one_fault RawBytes16 16 (λ _. None) };

    #[inline]
    fn check(bytes: &[u8]) -> Result<(), UleError> {
        check_one::<RawBytesULE<16>>(bytes)
    }
}

impl AsULE for u128 {
    type ULE = RawBytesULE<16>;

    ghost is_value = { λ v. v < 2 ^ 128 };

    ghost stored = { λ v. record { 0 = to_le_bytes w128 v } };

    ghost loaded = { λ u. from_le_bytes w128 u.0 };

    #[inline]
    fn to_unaligned(self) -> RawBytesULE<16> {
        RawBytesULE(self.to_le_bytes())
    }

    #[inline]
    fn from_unaligned(unaligned: RawBytesULE<16>) -> u128 {
        u128::from_le_bytes(unaligned.0)
    }

    ghost kind = { record { widths = refl; errors = λ _. refl } };

    ghost name = { refl };

    ghost twin = { number_twin 15 };
}

impl ZvOrd for u128 {
    ghost cmp = { on (λ b. from_le_bytes w128 b) nat_cmp };

    #[inline]
    fn compare<L: Ledger>(a: &[u8], b: &[u8], steps: &mut Steps<L>) -> Ordering {
        compare_stored::<u128, L>(a, b, steps)
    }

    ghost total = { on_total (λ b. from_le_bytes w128 b) nat_cmp_total };
}

impl ZvOrdArg<u128> for u128 {
    #[inline]
    fn arg_compare<L: Ledger>(&self, element: &[u8], steps: &mut Steps<L>) -> Ordering {
        compare_with::<u128, L>(element, self, steps)
    }
}

impl ZvKind for i128 {
    const TY: TyName = TyName::RawBytes16;

    ghost TY = { RawBytes16 };

    ghost usable = { true };

    ghost fault = { one_fault RawBytes16 16 (λ _. None) };

    #[inline]
    fn check(bytes: &[u8]) -> Result<(), UleError> {
        check_one::<RawBytesULE<16>>(bytes)
    }
}

impl AsULE for i128 {
    type ULE = RawBytesULE<16>;

    ghost is_value = { λ v. FitsSigned w128 v };

    ghost stored = { λ v. record { 0 = to_le_bytes w128 (cast_unsigned w128 v) } };

    ghost loaded = { λ u. cast_signed w128 (from_le_bytes w128 u.0) };

    #[inline]
    fn to_unaligned(self) -> RawBytesULE<16> {
        RawBytesULE(self.cast_unsigned().to_le_bytes())
    }

    #[inline]
    fn from_unaligned(unaligned: RawBytesULE<16>) -> i128 {
        u128::from_le_bytes(unaligned.0).cast_signed()
    }

    ghost kind = { record { widths = refl; errors = λ _. refl } };

    ghost name = { refl };

    ghost twin = { then_twin (sign_twin w128) (number_twin 15) };
}

impl ZvOrd for i128 {
    ghost cmp = { on (λ b. cast_signed w128 (from_le_bytes w128 b)) int_cmp };

    #[inline]
    fn compare<L: Ledger>(a: &[u8], b: &[u8], steps: &mut Steps<L>) -> Ordering {
        compare_stored::<i128, L>(a, b, steps)
    }

    ghost total = { on_total (λ b. cast_signed w128 (from_le_bytes w128 b)) int_cmp_total };
}

impl ZvOrdArg<i128> for i128 {
    #[inline]
    fn arg_compare<L: Ledger>(&self, element: &[u8], steps: &mut Steps<L>) -> Ordering {
        compare_with::<i128, L>(element, self, steps)
    }
}
