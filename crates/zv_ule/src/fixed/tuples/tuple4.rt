// Tuples of four values of fixed width.
ghost use Rattle.std.specs.Prelude.{◌+◌, ◌<◌, ◌++◌, take, drop, refl};
ghost use Rattle.std.specs.Cmp.{on_total, then_total};
ghost use Rattle.std.specs.Ordering.{on};
ghost use Rattle.zv_ule.specs.Fixed.{is_width};
ghost use Rattle.zv_ule.specs.Kinds.{one_fault};
ghost use Rattle.zv_ule.specs.Pairs.{pair_fault};
ghost use Rattle.zv_ule.specs.laws.PairSpellings.{both_spelling, both_twin};
ghost use Rattle.zv_ule.specs.laws.Spellings.{held_spelling, held_twins};
ghost use Rattle.zv_ule.specs.declared.error.TyName.TheVariants.{Tuple4};

use crate::element::{AsULE, ULE, check_one};
use crate::error::{TyName, UleError};
use crate::fixed::tuples::tuple3::Tuple3ULE;
use crate::kind::{ZvKind, ZvOrd, compare_stored, compare_with};
use crate::kinds::argument::ZvOrdArg;
use crate::steps::Steps;
use std::cmp::Ordering;
use std::sync::ledger::Ledger;

/// Four stored values, one after another with nothing between: the first, and then the others as a
/// `Tuple3ULE`. The error of bytes that are none is the first bad part's.
#[derive(Clone, Copy, PartialEq, Eq, PartialOrd, Ord)]
pub struct Tuple4ULE<A, B, C, D>(pub A, pub B, pub C, pub D);

impl<A: ULE, B: ULE, C: ULE, D: ULE> ULE for Tuple4ULE<A, B, C, D> {
    const TY: TyName = TyName::Tuple4;

    ghost TY = { Tuple4 };

    ghost width = { A.width + (B.width + (C.width + D.width)) };

    ghost chunk_fault = { pair_fault A.width A.chunk_fault
        (pair_fault B.width B.chunk_fault (pair_fault C.width C.chunk_fault D.chunk_fault)) };

    ghost is_value = { λ v. A.is_value v.0 × (B.is_value v.1 × (C.is_value v.2 × D.is_value v.3)) };

    ghost chunk = { λ v. A.chunk v.0 ++ (B.chunk v.1 ++ (C.chunk v.2 ++ D.chunk v.3)) };

    ghost value = { λ b. record {
      0 = A.value (take A.width b);
      1 = B.value (take B.width (drop A.width b));
      2 = C.value (take C.width (drop B.width (drop A.width b)));
      3 = D.value (drop C.width (drop B.width (drop A.width b)));
    } };

    #[inline]
    fn known(self) {
        self.0.known();
        Tuple3ULE(self.1, self.2, self.3).known();
    }

    #[inline]
    fn size() -> usize {
        A::size() + Tuple3ULE::<B, C, D>::size()
    }

    #[inline]
    fn check_chunk(bytes: &[u8]) -> Result<(), UleError> {
        let (first, others) = bytes.split_at(A::size());
        A::check_chunk(first)?;
        Tuple3ULE::<B, C, D>::check_chunk(others)
    }

    #[inline]
    fn is_plain() -> bool {
        A::is_plain() && Tuple3ULE::<B, C, D>::is_plain()
    }

    #[inline]
    fn is_good_chunk(bytes: &[u8]) -> bool {
        let (first, others) = bytes.split_at(A::size());
        A::is_good_chunk(first) & Tuple3ULE::<B, C, D>::is_good_chunk(others)
    }

    #[inline]
    fn read_chunk(bytes: &[u8]) -> Self {
        let (first, others) = bytes.split_at(A::size());
        let Tuple3ULE(second, third, fourth) = Tuple3ULE::<B, C, D>::read_chunk(others);
        Tuple4ULE(A::read_chunk(first), second, third, fourth)
    }

    #[inline]
    fn write_chunk(self, out: &mut [u8]) {
        let (first, others) = out.split_at_mut(A::size());
        self.0.write_chunk(first);
        Tuple3ULE(self.1, self.2, self.3).write_chunk(others);
    }

    ghost spelling = { held_spelling
        (both_spelling A.spelling (both_spelling B.spelling (both_spelling C.spelling D.spelling)))
        (λ v. (v.0, (v.1, (v.2, v.3))))
        (λ p. record { 0 = p.0; 1 = p.1.0; 2 = p.1.1.0; 3 = p.1.1.1 }) (λ _. refl) (λ _. refl) };
}

impl<A: AsULE, B: AsULE, C: AsULE, D: AsULE> ZvKind for (A, B, C, D) {
    const TY: TyName = TyName::Tuple4;

    ghost TY = { Tuple4 };

    ghost usable = { is_width (A.ULE.width + (B.ULE.width + (C.ULE.width + D.ULE.width))) };

    ghost fault = { one_fault Tuple4 (A.ULE.width + (B.ULE.width + (C.ULE.width + D.ULE.width)))
        (pair_fault A.ULE.width A.ULE.chunk_fault
        (pair_fault B.ULE.width B.ULE.chunk_fault
        (pair_fault C.ULE.width C.ULE.chunk_fault D.ULE.chunk_fault))) };

    #[inline]
    fn check(bytes: &[u8]) -> Result<(), UleError> {
        check_one::<Tuple4ULE<A::ULE, B::ULE, C::ULE, D::ULE>>(bytes)
    }
}

impl<A: AsULE, B: AsULE, C: AsULE, D: AsULE> AsULE for (A, B, C, D) {
    type ULE = Tuple4ULE<A::ULE, B::ULE, C::ULE, D::ULE>;

    ghost is_value = { λ v. A.is_value v.0 × (B.is_value v.1 × (C.is_value v.2 × D.is_value v.3)) };

    ghost stored = { λ v. record {
      0 = A.stored v.0;
      1 = B.stored v.1;
      2 = C.stored v.2;
      3 = D.stored v.3;
    } };

    ghost loaded = { λ u. (A.loaded u.0, B.loaded u.1, C.loaded u.2, D.loaded u.3) };

    #[inline]
    fn to_unaligned(self) -> Tuple4ULE<A::ULE, B::ULE, C::ULE, D::ULE> {
        Tuple4ULE(
            self.0.to_unaligned(),
            self.1.to_unaligned(),
            self.2.to_unaligned(),
            self.3.to_unaligned(),
        )
    }

    #[inline]
    fn from_unaligned(unaligned: Tuple4ULE<A::ULE, B::ULE, C::ULE, D::ULE>) -> Self {
        (
            A::from_unaligned(unaligned.0),
            B::from_unaligned(unaligned.1),
            C::from_unaligned(unaligned.2),
            D::from_unaligned(unaligned.3),
        )
    }

    ghost kind = { record { widths = refl; errors = λ _. refl } };

    ghost name = { refl };

    ghost twin = { held_twins
        (both_twin A.twin (both_twin B.twin (both_twin C.twin D.twin)))
        (λ v. (v.0, (v.1, (v.2, v.3))))
        (λ p. (p.0, p.1.0, p.1.1.0, p.1.1.1)) (λ _. refl) (λ _. refl)
        (λ v. (v.0, (v.1, (v.2, v.3))))
        (λ p. record { 0 = p.0; 1 = p.1.0; 2 = p.1.1.0; 3 = p.1.1.1 }) (λ _. refl) (λ _. refl) };
}

impl<A: AsULE + Ord, B: AsULE + Ord, C: AsULE + Ord, D: AsULE + Ord> ZvOrd for (A, B, C, D) {
    ghost cmp = { on (λ b. ⟦<(A, B, C, D) as AsULE>⟧.loaded
        (⟦<Tuple4ULE<A::ULE, B::ULE, C::ULE, D::ULE> as ULE>⟧.value b))
        ⟦<(A, B, C, D) as Ord>⟧.cmp };

    #[inline]
    fn compare<L: Ledger>(a: &[u8], b: &[u8], steps: &mut Steps<L>) -> Ordering {
        compare_stored::<(A, B, C, D), L>(a, b, steps)
    }

    ghost total = { on_total (λ b. ⟦<(A, B, C, D) as AsULE>⟧.loaded
        (⟦<Tuple4ULE<A::ULE, B::ULE, C::ULE, D::ULE> as ULE>⟧.value b))
        (then_total
        (then_total (then_total (on_total (λ p. p.0) A.total) (on_total (λ p. p.1) B.total))
        (on_total (λ p. p.2) C.total)) (on_total (λ p. p.3) D.total)) };
}

impl<A: AsULE + Ord, B: AsULE + Ord, C: AsULE + Ord, D: AsULE + Ord> ZvOrdArg<(A, B, C, D)>
    for (A, B, C, D) {
    #[inline]
    fn arg_compare<L: Ledger>(&self, element: &[u8], steps: &mut Steps<L>) -> Ordering {
        compare_with::<(A, B, C, D), L>(element, self, steps)
    }
}
