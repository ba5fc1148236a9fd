// Truth values, stored as 0 or 1.
ghost use Rattle.std.specs.Prelude.{[], ◌∷◌, true, refl, ⊤};
ghost use Rattle.std.specs.Cmp.{on_total, bool_cmp_total};
ghost use Rattle.std.specs.Int.{from_bool};
ghost use Rattle.std.specs.Ordering.{on, bool_cmp};
ghost use Rattle.zv_ule.specs.Booleans.{bool_fault, bool_value, bool_spelling, bool_twin};
ghost use Rattle.zv_ule.specs.Kinds.{one_fault};
ghost use Rattle.zv_ule.specs.declared.error.TyName.TheVariants.{Bool as BoolName};

use crate::element::{AsULE, ULE, check_one};
use crate::error::{TyName, UleError};
use crate::kind::{ZvKind, ZvOrd, compare_stored, compare_with};
use crate::kinds::argument::ZvOrdArg;
use crate::steps::Steps;
use std::cmp::Ordering;
use std::sync::ledger::Ledger;

impl ULE for bool {
    const TY: TyName = TyName::Bool;

    ghost TY = { BoolName };

    ghost width = { 1 };

    ghost chunk_fault = { bool_fault };

    ghost is_value = { λ _. ⊤ };

    ghost chunk = { λ v. from_bool v ∷ [] };

    ghost value = { bool_value };

    #[inline]
    fn known(self) {}

    #[inline]
    fn size() -> usize {
        1
    }

    #[inline]
    fn check_chunk(bytes: &[u8]) -> Result<(), UleError> {
        match bytes[0] {
            0 | 1 => Ok(()),
            _ => Err(UleError::parse(TyName::Bool)),
        }
    }

    #[inline]
    fn is_good_chunk(bytes: &[u8]) -> bool {
        bytes[0] < 2
    }

    #[inline]
    fn read_chunk(bytes: &[u8]) -> bool {
        bytes[0] != 0
    }

    #[inline]
    fn write_chunk(self, out: &mut [u8]) {
        out[0] = u8::from(self);
    }

    ghost spelling = { bool_spelling };
}

impl ZvKind for bool {
    const TY: TyName = TyName::Bool;

    ghost TY = { BoolName };

    ghost usable = { true };

    ghost fault = { one_fault BoolName 1 bool_fault };

    #[inline]
    fn check(bytes: &[u8]) -> Result<(), UleError> {
        check_one::<bool>(bytes)
    }
}

impl AsULE for bool {
    type ULE = bool;

    ghost is_value = { λ _. ⊤ };

    ghost stored = { λ v. v };

    ghost loaded = { λ u. u };

    #[inline]
    fn to_unaligned(self) -> bool {
        self
    }

    #[inline]
    fn from_unaligned(unaligned: bool) -> bool {
        unaligned
    }

    ghost kind = { record { widths = refl; errors = λ _. refl } };

    ghost name = { refl };

    ghost twin = { bool_twin };
}

impl ZvOrd for bool {
    ghost cmp = { on bool_value bool_cmp };

    #[inline]
    fn compare<L: Ledger>(a: &[u8], b: &[u8], steps: &mut Steps<L>) -> Ordering {
        compare_stored::<bool, L>(a, b, steps)
    }

    ghost total = { on_total bool_value bool_cmp_total };
}

impl ZvOrdArg<bool> for bool {
    #[inline]
    fn arg_compare<L: Ledger>(&self, element: &[u8], steps: &mut Steps<L>) -> Ordering {
        compare_with::<bool, L>(element, self, steps)
    }
}
