// Which values of fixed width compare Equal.
ghost use Rattle.zv_ule.specs.Kinds.{EqualIsSame};

use crate::kind::{ZvKind, ZvOrd};
use crate::laws::exact_order;
use std::num::{NonZeroI8, NonZeroU8};

/// Unsigned numbers that compare Equal are the same bytes.
pub fn exact_unsigned_orders()
    ensures two { EqualIsSame ⟦<u16 as ZvKind>⟧.fault ⟦<u16 as ZvOrd>⟧.cmp }
    ensures eight { EqualIsSame ⟦<u64 as ZvKind>⟧.fault ⟦<u64 as ZvOrd>⟧.cmp }
    ensures sixteen { EqualIsSame ⟦<u128 as ZvKind>⟧.fault ⟦<u128 as ZvOrd>⟧.cmp }
{
    exact_order::<u16>();
    exact_order::<u64>();
    exact_order::<u128>();
}

/// Signed numbers that compare Equal are the same bytes.
pub fn exact_signed_orders()
    ensures one { EqualIsSame ⟦<i8 as ZvKind>⟧.fault ⟦<i8 as ZvOrd>⟧.cmp }
    ensures two { EqualIsSame ⟦<i16 as ZvKind>⟧.fault ⟦<i16 as ZvOrd>⟧.cmp }
    ensures four { EqualIsSame ⟦<i32 as ZvKind>⟧.fault ⟦<i32 as ZvOrd>⟧.cmp }
    ensures eight { EqualIsSame ⟦<i64 as ZvKind>⟧.fault ⟦<i64 as ZvOrd>⟧.cmp }
    ensures sixteen { EqualIsSame ⟦<i128 as ZvKind>⟧.fault ⟦<i128 as ZvOrd>⟧.cmp }
{
    exact_order::<i8>();
    exact_order::<i16>();
    exact_order::<i32>();
    exact_order::<i64>();
    exact_order::<i128>();
}

/// Truth values, characters and numbers other than 0 that compare Equal are the same bytes.
pub fn exact_other_orders()
    ensures truth_values { EqualIsSame ⟦<bool as ZvKind>⟧.fault ⟦<bool as ZvOrd>⟧.cmp }
    ensures characters { EqualIsSame ⟦<char as ZvKind>⟧.fault ⟦<char as ZvOrd>⟧.cmp }
    ensures non_zero { EqualIsSame ⟦<NonZeroU8 as ZvKind>⟧.fault ⟦<NonZeroU8 as ZvOrd>⟧.cmp }
    ensures signed_non_zero { EqualIsSame ⟦<NonZeroI8 as ZvKind>⟧.fault ⟦<NonZeroI8 as ZvOrd>⟧.cmp }
{
    exact_order::<bool>();
    exact_order::<char>();
}
