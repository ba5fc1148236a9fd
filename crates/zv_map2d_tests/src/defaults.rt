// The maps that `Default` gives.
use std::process::Abort;
use zv_map::{MutableZeroVecLike, ZeroMapKV};
use zv_map2d::{ImageMap, Map2dOver, ZeroMap2dBorrowed};
use zv_ule::StrULE;

type Of<'a, K> = <K as ZeroMapKV<'a>>::Container;

// The map, and a view of none.
fn are_empty<'a, C0, C1, D>(rt: &impl Abort)
where
    C0: MutableZeroVecLike<'a, StrULE>,
    C1: MutableZeroVecLike<'a, u16>,
    D: MutableZeroVecLike<'a, StrULE>,
{
    assert!(rt; Map2dOver::<'a, StrULE, u16, StrULE, C0, C1, D>::default().is_empty());
    assert!(rt; ZeroMap2dBorrowed::<'_, u16, StrULE, bool>::default().is_empty());
}

#[test]
fn default_maps_are_empty(rt: HostRuntime) {
    assert!(rt; ImageMap::default().is_empty());
    are_empty::<Of<'_, StrULE>, Of<'_, u16>, Of<'_, StrULE>>(&rt);
}
