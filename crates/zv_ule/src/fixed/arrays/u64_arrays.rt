// Arrays of `u64`.
ghost use Rattle.std.specs.Prelude.{◌≡◌, ◌*◌, ◌^◌, ◌<◌, length, map, refl, None};
ghost use Rattle.std.specs.Cmp.{nat_cmp_total, on_total};
ghost use Rattle.std.specs.Int.{w64, to_le_bytes, from_le_bytes};
ghost use Rattle.std.specs.List.{AllByRecursion};
ghost use Rattle.std.specs.Ordering.{on};
ghost use Rattle.std.proofs.lemmas.Cmp.{lists_total};
ghost use Rattle.zv_ule.specs.Arrays.{read_array};
ghost use Rattle.zv_ule.specs.laws.ArraySpellings.{array_twin};
ghost use Rattle.zv_ule.specs.Chunks.{chunks_of, first_fault};
ghost use Rattle.zv_ule.specs.Fixed.{is_width};
ghost use Rattle.zv_ule.specs.Kinds.{one_fault};
ghost use Rattle.zv_ule.specs.laws.Twins.{number_twin};
ghost use Rattle.zv_ule.specs.declared.error.TyName.TheVariants.{Array};

use crate::element::{AsULE, ULE, check_one};
use crate::error::{TyName, UleError};
use crate::fixed::arrays::elements::{load_all, store_all};
use crate::fixed::raw_bytes::RawBytesULE;
use crate::kind::{ZvKind, ZvOrd, compare_stored, compare_with};
use crate::kinds::argument::ZvOrdArg;
use crate::steps::Steps;
use std::cmp::Ordering;
use std::sync::ledger::Ledger;

impl<const N: usize> ZvKind for [u64; N] {
    const TY: TyName = TyName::Array;

    ghost TY = { Array };

    ghost usable = { is_width (N * 8) };

    ghost fault = { one_fault Array (N * 8) (λ b. first_fault (λ _. None) (chunks_of 8 b)) };

    #[inline]
    fn check(bytes: &[u8]) -> Result<(), UleError> {
        check_one::<[RawBytesULE<8>; N]>(bytes)
    }
}

impl<const N: usize> AsULE for [u64; N] {
    type ULE = [RawBytesULE<8>; N];

    ghost is_value = { λ v. (length v ≡ N) × AllByRecursion (λ x. x < 2 ^ 64) v };

    ghost stored = { map (λ x. record { 0 = to_le_bytes w64 x }) };

    ghost loaded = { map (λ u. from_le_bytes w64 u.0) };

    #[inline]
    fn to_unaligned(self) -> [RawBytesULE<8>; N] {
        let mut out = [RawBytesULE([0; 8]); N];
        store_all::<u64>(&self, &mut out);
        out
    }

    #[inline]
    fn from_unaligned(unaligned: [RawBytesULE<8>; N]) -> Self {
        let mut out = [0; N];
        load_all::<u64>(&unaligned, &mut out);
        out
    }

    ghost kind = { record { widths = refl; errors = λ _. refl } };

    ghost name = { refl };

    ghost twin = { array_twin (number_twin 7) N };
}

impl<const N: usize> ZvOrd for [u64; N] {
    ghost cmp = { on (read_array ⟦<u64 as AsULE>⟧.loaded 8 ⟦<RawBytesULE<8> as ULE>⟧.value)
        ⟦<[u64; N] as Ord>⟧.cmp };

    #[inline]
    fn compare<L: Ledger>(a: &[u8], b: &[u8], steps: &mut Steps<L>) -> Ordering {
        compare_stored::<[u64; N], L>(a, b, steps)
    }

    ghost total = { on_total (read_array ⟦<u64 as AsULE>⟧.loaded 8 ⟦<RawBytesULE<8> as ULE>⟧.value)
        (lists_total nat_cmp_total) };
}

impl<const N: usize> ZvOrdArg<[u64; N]> for [u64; N] {
    #[inline]
    fn arg_compare<L: Ledger>(&self, element: &[u8], steps: &mut Steps<L>) -> Ordering {
        compare_with::<[u64; N], L>(element, self, steps)
    }
}
