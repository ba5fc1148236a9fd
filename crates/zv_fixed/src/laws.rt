// The laws of lists, each the contract of a function that does nothing.
ghost use Rattle.zv_ule.specs.Kinds.{EqualIsSame};
ghost use Rattle.zv_ule.specs.Orders.{EqualOnlyIfSame};

use crate::slice::ZeroSliceULE;
use zv_ule::{AsULE, ZvKind, ZvOrd};

/// Lists that compare Equal are the same bytes, where values that compare Equal are the same.
pub fn exact_order_of_lists<T: AsULE + Ord>()
    requires { EqualOnlyIfSame T.AsULE.is_value T.cmp }
    ensures { EqualIsSame ⟦<ZeroSliceULE<T> as ZvKind>⟧.fault ⟦<ZeroSliceULE<T> as ZvOrd>⟧.cmp }
{}

/// Lists of numbers that compare Equal are the same bytes.
pub fn exact_orders()
    ensures bytes { EqualIsSame ⟦<ZeroSliceULE<u8> as ZvKind>⟧.fault
        ⟦<ZeroSliceULE<u8> as ZvOrd>⟧.cmp }
    ensures numbers { EqualIsSame ⟦<ZeroSliceULE<u32> as ZvKind>⟧.fault
        ⟦<ZeroSliceULE<u32> as ZvOrd>⟧.cmp }
{
    exact_order_of_lists::<u8>();
    exact_order_of_lists::<u32>();
}
