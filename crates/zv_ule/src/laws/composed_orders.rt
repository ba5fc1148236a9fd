// Which composed values compare Equal: those whose parts do.
ghost use Rattle.std.specs.Prelude.{◌^◌, ◌<◌};
ghost use Rattle.zv_ule.specs.Kinds.{EqualIsSame};
ghost use Rattle.zv_ule.specs.Orders.{EqualOnlyIfSame};

use crate::element::{AsULE, ULE};
use crate::fixed::niche::{NicheBytes, NichedOption};
use crate::kind::{ZvKind, ZvOrd};
use crate::kinds::slices::SliceULE;
use crate::laws::exact_order;

/// Tuples of two that compare Equal are the same bytes, where parts that compare Equal are the
/// same.
#[tactic(auto, using(crate::proofs::ComposedOrders::both_equal))]
pub fn exact_order_of_two<A: AsULE + Ord, B: AsULE + Ord>()
    requires first { EqualOnlyIfSame A.is_value A.cmp }
    requires second { EqualOnlyIfSame B.is_value B.cmp }
    ensures { EqualIsSame ⟦<(A, B) as ZvKind>⟧.fault ⟦<(A, B) as ZvOrd>⟧.cmp }
{
    exact_order::<(A, B)>();
}

/// Tuples of three that compare Equal are the same bytes, where parts that compare Equal are the
/// same.
#[tactic(auto, using(crate::proofs::ComposedOrders::both_equal))]
pub fn exact_order_of_three<A: AsULE + Ord, B: AsULE + Ord, C: AsULE + Ord>()
    requires first { EqualOnlyIfSame A.is_value A.cmp }
    requires second { EqualOnlyIfSame B.is_value B.cmp }
    requires third { EqualOnlyIfSame C.is_value C.cmp }
    ensures { EqualIsSame ⟦<(A, B, C) as ZvKind>⟧.fault ⟦<(A, B, C) as ZvOrd>⟧.cmp }
{
    exact_order::<(A, B, C)>();
}

/// Tuples of four that compare Equal are the same bytes, where parts that compare Equal are the
/// same.
#[tactic(auto, using(crate::proofs::ComposedOrders::both_equal))]
pub fn exact_order_of_four<A: AsULE + Ord, B: AsULE + Ord, C: AsULE + Ord, D: AsULE + Ord>()
    requires first { EqualOnlyIfSame A.is_value A.cmp }
    requires second { EqualOnlyIfSame B.is_value B.cmp }
    requires third { EqualOnlyIfSame C.is_value C.cmp }
    requires fourth { EqualOnlyIfSame D.is_value D.cmp }
    ensures { EqualIsSame ⟦<(A, B, C, D) as ZvKind>⟧.fault ⟦<(A, B, C, D) as ZvOrd>⟧.cmp }
{
    exact_order::<(A, B, C, D)>();
}

/// Tuples of five that compare Equal are the same bytes, where parts that compare Equal are the
/// same.
#[tactic(auto, using(crate::proofs::ComposedOrders::both_equal))]
pub fn exact_order_of_five<
    A: AsULE + Ord,
    B: AsULE + Ord,
    C: AsULE + Ord,
    D: AsULE + Ord,
    E: AsULE + Ord,
>()
    requires first { EqualOnlyIfSame A.is_value A.cmp }
    requires second { EqualOnlyIfSame B.is_value B.cmp }
    requires third { EqualOnlyIfSame C.is_value C.cmp }
    requires fourth { EqualOnlyIfSame D.is_value D.cmp }
    requires fifth { EqualOnlyIfSame E.is_value E.cmp }
    ensures { EqualIsSame ⟦<(A, B, C, D, E) as ZvKind>⟧.fault ⟦<(A, B, C, D, E) as ZvOrd>⟧.cmp }
{
    exact_order::<(A, B, C, D, E)>();
}

/// Tuples of six that compare Equal are the same bytes, where parts that compare Equal are the
/// same.
#[tactic(auto, using(crate::proofs::ComposedOrders::both_equal))]
pub fn exact_order_of_six<
    A: AsULE + Ord,
    B: AsULE + Ord,
    C: AsULE + Ord,
    D: AsULE + Ord,
    E: AsULE + Ord,
    F: AsULE + Ord,
>()
    requires first { EqualOnlyIfSame A.is_value A.cmp }
    requires second { EqualOnlyIfSame B.is_value B.cmp }
    requires third { EqualOnlyIfSame C.is_value C.cmp }
    requires fourth { EqualOnlyIfSame D.is_value D.cmp }
    requires fifth { EqualOnlyIfSame E.is_value E.cmp }
    requires sixth { EqualOnlyIfSame F.is_value F.cmp }
    ensures { EqualIsSame ⟦<(A, B, C, D, E, F) as ZvKind>⟧.fault
        ⟦<(A, B, C, D, E, F) as ZvOrd>⟧.cmp }
{
    exact_order::<(A, B, C, D, E, F)>();
}

/// Options that compare Equal are the same bytes, where values that compare Equal are the same.
#[tactic(auto, using(crate::proofs::ComposedOrders::same_options))]
pub fn exact_order_of_options<U: AsULE + Ord>()
    requires { EqualOnlyIfSame U.is_value U.cmp }
    ensures { EqualIsSame ⟦<Option<U> as ZvKind>⟧.fault ⟦<Option<U> as ZvOrd>⟧.cmp }
{
    exact_order::<Option<U>>();
}

/// Options with no tag that compare Equal are the same bytes, where values that compare Equal are
/// the same.
pub fn exact_order_of_niched_options<U: AsULE + Ord, const N: usize>()
where
    U::ULE: NicheBytes<N>,
    requires { EqualOnlyIfSame U.is_value U.cmp }
    ensures { EqualIsSame ⟦<NichedOption<U, N> as ZvKind>⟧.fault
        ⟦<NichedOption<U, N> as ZvOrd>⟧.cmp }
{}

/// Arrays that compare Equal are the same bytes.
#[tactic(auto, using(std::proofs::lemmas::Map::Lookups::exact_bytes))]
pub fn exact_orders_of_arrays<const N: usize>()
    requires { N < 2 ^ 32 }
    ensures one { EqualIsSame ⟦<[u8; N] as ZvKind>⟧.fault ⟦<[u8; N] as ZvOrd>⟧.cmp }
    ensures two { EqualIsSame ⟦<[u16; N] as ZvKind>⟧.fault ⟦<[u16; N] as ZvOrd>⟧.cmp }
    ensures four { EqualIsSame ⟦<[u32; N] as ZvKind>⟧.fault ⟦<[u32; N] as ZvOrd>⟧.cmp }
    ensures eight { EqualIsSame ⟦<[u64; N] as ZvKind>⟧.fault ⟦<[u64; N] as ZvOrd>⟧.cmp }
    ensures characters { EqualIsSame ⟦<[char; N] as ZvKind>⟧.fault ⟦<[char; N] as ZvOrd>⟧.cmp }
{
    exact_order::<[u8; N]>();
    exact_order::<[u16; N]>();
    exact_order::<[u32; N]>();
    exact_order::<[u64; N]>();
    exact_order::<[char; N]>();
}

/// Slices that compare Equal are the same bytes, where values that compare Equal are the same.
pub fn exact_order_of_slices<U: ULE + Ord>()
    requires { EqualOnlyIfSame U.is_value U.cmp }
    ensures { EqualIsSame ⟦<SliceULE<U> as ZvKind>⟧.fault ⟦<SliceULE<U> as ZvOrd>⟧.cmp }
{}
