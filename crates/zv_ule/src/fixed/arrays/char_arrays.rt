// Arrays of `char`.
ghost use Rattle.std.specs.Prelude.{◌≡◌, ◌*◌, ◌<◌, flat_map, length, map, refl};
ghost use Rattle.std.specs.Cmp.{nat_cmp_total, on_total};
ghost use Rattle.std.specs.Char.{IsScalar};
ghost use Rattle.std.specs.List.{AllByRecursion};
ghost use Rattle.std.specs.Ordering.{on};
ghost use Rattle.std.proofs.Common.{lit<};
ghost use Rattle.std.proofs.lemmas.Cmp.{lists_total};
ghost use Rattle.zv_ule.specs.Arrays.{read_array};
ghost use Rattle.zv_ule.specs.laws.ArraySpellings.{array_spelling, array_twin};
ghost use Rattle.zv_ule.specs.Chunks.{chunks_of, first_fault, values_of};
ghost use Rattle.zv_ule.specs.Fixed.{is_width};
ghost use Rattle.zv_ule.specs.Kinds.{one_fault};
ghost use Rattle.zv_ule.specs.Chars.{char_bytes, char_code, char_fault, char_spelling, char_twin};
ghost use Rattle.zv_ule.specs.declared.error.TyName.TheVariants.{Array};

use crate::element::{AsULE, ULE, all_known, check_one, write_all};
use crate::error::{TyName, UleError};
use crate::fixed::arrays::elements::{are_plain, load_all, read_all, store_all};
use crate::fixed::chars::CharULE;
use crate::kind::{ZvKind, ZvOrd, compare_stored, compare_with};
use crate::kinds::argument::ZvOrdArg;
use crate::steps::Steps;
use std::cmp::Ordering;
use std::sync::ledger::Ledger;

/// `N` stored characters, one after another, for an `N` of at least 1.
impl<const N: usize> ULE for [CharULE; N] {
    const TY: TyName = TyName::Array;

    ghost TY = { Array };

    ghost width = { N * 3 };

    ghost chunk_fault = { λ b. first_fault char_fault (chunks_of 3 b) };

    ghost is_value = { λ v. (length v ≡ N) × AllByRecursion (λ u. IsScalar u.value) v };

    ghost chunk = { flat_map (λ u. char_bytes u.value) };

    ghost value = { values_of 3 (λ b. record { value = char_code b }) };

    #[inline]
    fn known(self) {
        all_known(&self[..]);
    }

    #[inline]
    fn size() -> usize {
        N * 3
    }

    #[inline]
    fn check_chunk(bytes: &[u8]) -> Result<(), UleError> {
        CharULE::check_chunks(bytes)
    }

    #[inline]
    fn is_plain() -> bool {
        are_plain::<CharULE>()
    }

    #[inline]
    fn is_good_chunk(bytes: &[u8]) -> bool {
        CharULE::are_good_chunks(bytes)
    }

    #[inline]
    fn read_chunk(bytes: &[u8]) -> Self {
        let mut out = [CharULE::from_aligned('\0'); N];
        read_all(bytes, &mut out);
        out
    }

    #[inline]
    fn write_chunk(self, out: &mut [u8]) {
        write_all(&self[..], out);
    }

    ghost spelling = { array_spelling N (lit< tt) char_spelling };
}

impl<const N: usize> ZvKind for [char; N] {
    const TY: TyName = TyName::Array;

    ghost TY = { Array };

    ghost usable = { is_width (N * 3) };

    ghost fault = { one_fault Array (N * 3) (λ b. first_fault char_fault (chunks_of 3 b)) };

    #[inline]
    fn check(bytes: &[u8]) -> Result<(), UleError> {
        check_one::<[CharULE; N]>(bytes)
    }
}

impl<const N: usize> AsULE for [char; N] {
    type ULE = [CharULE; N];

    ghost is_value = { λ v. (length v ≡ N) × AllByRecursion IsScalar v };

    ghost stored = { map (λ c. record { value = c }) };

    ghost loaded = { map (λ u. u.value) };

    #[inline]
    fn to_unaligned(self) -> [CharULE; N] {
        let mut out = [CharULE::from_aligned('\0'); N];
        store_all::<char>(&self, &mut out);
        out
    }

    #[inline]
    fn from_unaligned(unaligned: [CharULE; N]) -> Self {
        let mut out = ['\0'; N];
        load_all::<char>(&unaligned, &mut out);
        out
    }

    ghost kind = { record { widths = refl; errors = λ _. refl } };

    ghost name = { refl };

    ghost twin = { array_twin char_twin N };
}

impl<const N: usize> ZvOrd for [char; N] {
    ghost cmp = { on (read_array ⟦<char as AsULE>⟧.loaded 3 ⟦<CharULE as ULE>⟧.value)
        ⟦<[char; N] as Ord>⟧.cmp };

    #[inline]
    fn compare<L: Ledger>(a: &[u8], b: &[u8], steps: &mut Steps<L>) -> Ordering {
        compare_stored::<[char; N], L>(a, b, steps)
    }

    ghost total = { on_total (read_array ⟦<char as AsULE>⟧.loaded 3 ⟦<CharULE as ULE>⟧.value)
        (lists_total nat_cmp_total) };
}

impl<const N: usize> ZvOrdArg<[char; N]> for [char; N] {
    #[inline]
    fn arg_compare<L: Ledger>(&self, element: &[u8], steps: &mut Steps<L>) -> Ordering {
        compare_with::<[char; N], L>(element, self, steps)
    }
}
