// Tuples of two values of fixed width.
ghost use Rattle.std.specs.Prelude.{◌+◌, ◌<◌, ◌++◌, take, drop, refl};
ghost use Rattle.std.specs.Cmp.{on_total, then_total};
ghost use Rattle.std.specs.Ordering.{on};
ghost use Rattle.zv_ule.specs.Fixed.{is_width};
ghost use Rattle.zv_ule.specs.Kinds.{one_fault};
ghost use Rattle.zv_ule.specs.Pairs.{pair_fault};
ghost use Rattle.zv_ule.specs.laws.PairSpellings.{both_spelling, both_twin};
ghost use Rattle.zv_ule.specs.laws.Spellings.{held_spelling, held_twins};
ghost use Rattle.zv_ule.specs.declared.error.TyName.TheVariants.{Tuple2};

use crate::element::{AsULE, ULE, check_one};
use crate::error::{TyName, UleError};
use crate::kind::{ZvKind, ZvOrd, compare_stored, compare_with};
use crate::kinds::argument::ZvOrdArg;
use crate::steps::Steps;
use std::cmp::Ordering;
use std::sync::ledger::Ledger;

/// Two stored values, one after the other with nothing between. The error of bytes that are none is
/// the first bad part's.
#[derive(Clone, Copy, PartialEq, Eq, PartialOrd, Ord)]
pub struct Tuple2ULE<A, B>(pub A, pub B);

impl<A: ULE, B: ULE> ULE for Tuple2ULE<A, B> {
    const TY: TyName = TyName::Tuple2;

    ghost TY = { Tuple2 };

    ghost width = { A.width + B.width };

    ghost chunk_fault = { pair_fault A.width A.chunk_fault B.chunk_fault };

    ghost is_value = { λ v. A.is_value v.0 × B.is_value v.1 };

    ghost chunk = { λ v. A.chunk v.0 ++ B.chunk v.1 };

    ghost value = { λ b. record { 0 = A.value (take A.width b); 1 = B.value (drop A.width b) } };

    #[inline]
    fn known(self) {
        self.0.known();
        self.1.known();
    }

    #[inline]
    fn size() -> usize {
        A::size() + B::size()
    }

    #[inline]
    fn check_chunk(bytes: &[u8]) -> Result<(), UleError> {
        let (first, second) = bytes.split_at(A::size());
        A::check_chunk(first)?;
        B::check_chunk(second)
    }

    #[inline]
    fn is_plain() -> bool {
        A::is_plain() && B::is_plain()
    }

    #[inline]
    fn is_good_chunk(bytes: &[u8]) -> bool {
        let (first, second) = bytes.split_at(A::size());
        A::is_good_chunk(first) & B::is_good_chunk(second)
    }

    #[inline]
    fn read_chunk(bytes: &[u8]) -> Self {
        let (first, second) = bytes.split_at(A::size());
        Tuple2ULE(A::read_chunk(first), B::read_chunk(second))
    }

    #[inline]
    fn write_chunk(self, out: &mut [u8]) {
        let (first, second) = out.split_at_mut(A::size());
        self.0.write_chunk(first);
        self.1.write_chunk(second);
    }

    ghost spelling = { held_spelling
        (both_spelling A.spelling B.spelling)
        (λ v. (v.0, v.1))
        (λ p. record { 0 = p.0; 1 = p.1 }) (λ _. refl) (λ _. refl) };
}

impl<A: AsULE, B: AsULE> ZvKind for (A, B) {
    const TY: TyName = TyName::Tuple2;

    ghost TY = { Tuple2 };

    ghost usable = { is_width (A.ULE.width + B.ULE.width) };

    ghost fault = { one_fault Tuple2 (A.ULE.width + B.ULE.width)
        (pair_fault A.ULE.width A.ULE.chunk_fault B.ULE.chunk_fault) };

    #[inline]
    fn check(bytes: &[u8]) -> Result<(), UleError> {
        check_one::<Tuple2ULE<A::ULE, B::ULE>>(bytes)
    }
}

impl<A: AsULE, B: AsULE> AsULE for (A, B) {
    type ULE = Tuple2ULE<A::ULE, B::ULE>;

    ghost is_value = { λ v. A.is_value v.0 × B.is_value v.1 };

    ghost stored = { λ v. record { 0 = A.stored v.0; 1 = B.stored v.1 } };

    ghost loaded = { λ u. (A.loaded u.0, B.loaded u.1) };

    #[inline]
    fn to_unaligned(self) -> Tuple2ULE<A::ULE, B::ULE> {
        Tuple2ULE(self.0.to_unaligned(), self.1.to_unaligned())
    }

    #[inline]
    fn from_unaligned(unaligned: Tuple2ULE<A::ULE, B::ULE>) -> Self {
        (
            A::from_unaligned(unaligned.0),
            B::from_unaligned(unaligned.1),
        )
    }

    ghost kind = { record { widths = refl; errors = λ _. refl } };

    ghost name = { refl };

    ghost twin = { held_twins
        (both_twin A.twin B.twin)
        (λ v. v)
        (λ p. p) (λ _. refl) (λ _. refl)
        (λ v. (v.0, v.1))
        (λ p. record { 0 = p.0; 1 = p.1 }) (λ _. refl) (λ _. refl) };
}

impl<A: AsULE + Ord, B: AsULE + Ord> ZvOrd for (A, B) {
    ghost cmp = { on (λ b. ⟦<(A, B) as AsULE>⟧.loaded
        (⟦<Tuple2ULE<A::ULE, B::ULE> as ULE>⟧.value b))
        ⟦<(A, B) as Ord>⟧.cmp };

    #[inline]
    fn compare<L: Ledger>(a: &[u8], b: &[u8], steps: &mut Steps<L>) -> Ordering {
        compare_stored::<(A, B), L>(a, b, steps)
    }

    ghost total = { on_total (λ b. ⟦<(A, B) as AsULE>⟧.loaded
        (⟦<Tuple2ULE<A::ULE, B::ULE> as ULE>⟧.value b))
        (then_total (on_total (λ p. p.0) A.total) (on_total (λ p. p.1) B.total)) };
}

impl<A: AsULE + Ord, B: AsULE + Ord> ZvOrdArg<(A, B)> for (A, B) {
    #[inline]
    fn arg_compare<L: Ledger>(&self, element: &[u8], steps: &mut Steps<L>) -> Ordering {
        compare_with::<(A, B), L>(element, self, steps)
    }
}
