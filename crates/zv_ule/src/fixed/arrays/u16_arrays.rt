// Arrays of `u16`.
ghost use Rattle.std.specs.Prelude.{◌≡◌, ◌*◌, ◌^◌, ◌<◌, length, map, refl, None};
ghost use Rattle.std.specs.Cmp.{nat_cmp_total, on_total};
ghost use Rattle.std.specs.Int.{w16, to_le_bytes, from_le_bytes};
ghost use Rattle.std.specs.List.{AllByRecursion};
ghost use Rattle.std.specs.Ordering.{on};
ghost use Rattle.std.proofs.lemmas.Cmp.{lists_total};
ghost use Rattle.zv_ule.specs.Arrays.{read_array};
ghost use Rattle.zv_ule.specs.laws.ArraySpellings.{array_twin};
ghost use Rattle.zv_ule.specs.Chunks.{chunks_of, first_fault};
ghost use Rattle.zv_ule.specs.Fixed.{is_width};
ghost use Rattle.zv_ule.specs.Kinds.{one_fault};
ghost use Rattle.zv_ule.specs.laws.Twins.{number_twin};
ghost use Rattle.zv_ule.specs.declared.error.TyName.TheVariants.{Array};

use crate::element::{AsULE, ULE, check_one};
use crate::error::{TyName, UleError};
use crate::fixed::arrays::elements::{load_all, store_all};
use crate::fixed::raw_bytes::RawBytesULE;
use crate::kind::{ZvKind, ZvOrd, compare_stored, compare_with};
use crate::kinds::argument::ZvOrdArg;
use crate::steps::Steps;
use std::cmp::Ordering;
use std::sync::ledger::Ledger;

impl<const N: usize> ZvKind for [u16; N] {
    const TY: TyName = TyName::Array;

    ghost TY = { Array };

    ghost usable = { is_width (N * 2) };

    ghost fault = { one_fault Array (N * 2) (λ b. first_fault (λ _. None) (chunks_of 2 b)) };

    #[inline]
    fn check(bytes: &[u8]) -> Result<(), UleError> {
        check_one::<[RawBytesULE<2>; N]>(bytes)
    }
}

impl<const N: usize> AsULE for [u16; N] {
    type ULE = [RawBytesULE<2>; N];

    ghost is_value = { λ v. (length v ≡ N) × AllByRecursion (λ x. x < 2 ^ 16) v };

    ghost stored = { map (λ x. record { 0 = to_le_bytes w16 x }) };

    ghost loaded = { map (λ u. from_le_bytes w16 u.0) };

    #[inline]
    fn to_unaligned(self) -> [RawBytesULE<2>; N] {
        let mut out = [RawBytesULE([0; 2]); N];
        store_all::<u16>(&self, &mut out);
        out
    }

    #[inline]
    fn from_unaligned(unaligned: [RawBytesULE<2>; N]) -> Self {
        let mut out = [0; N];
        load_all::<u16>(&unaligned, &mut out);
        out
    }

    ghost kind = { record { widths = refl; errors = λ _. refl } };

    ghost name = { refl };

    ghost twin = { array_twin (number_twin 1) N };
}

impl<const N: usize> ZvOrd for [u16; N] {
    ghost cmp = { on (read_array ⟦<u16 as AsULE>⟧.loaded 2 ⟦<RawBytesULE<2> as ULE>⟧.value)
        ⟦<[u16; N] as Ord>⟧.cmp };

    #[inline]
    fn compare<L: Ledger>(a: &[u8], b: &[u8], steps: &mut Steps<L>) -> Ordering {
        compare_stored::<[u16; N], L>(a, b, steps)
    }

    ghost total = { on_total (read_array ⟦<u16 as AsULE>⟧.loaded 2 ⟦<RawBytesULE<2> as ULE>⟧.value)
        (lists_total nat_cmp_total) };
}

impl<const N: usize> ZvOrdArg<[u16; N]> for [u16; N] {
    #[inline]
    fn arg_compare<L: Ledger>(&self, element: &[u8], steps: &mut Steps<L>) -> Ordering {
        compare_with::<[u16; N], L>(element, self, steps)
    }
}
