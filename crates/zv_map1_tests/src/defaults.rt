// The maps that `Default` gives.
use std::process::Abort;
use zv_map::{ZeroMapKV, ZvContainer};
use zv_map1::{MapOver, ZeroMapBorrowed};
use zv_ule::{SliceULE, StrULE};

type Of<'a, K> = <K as ZeroMapKV<'a>>::Container;

// The map, and a view of none.
fn are_empty<C, D>(rt: &impl Abort)
where
    C: ZvContainer<u32> + Drop,
    D: ZvContainer<StrULE> + Drop,
{
    assert!(rt; MapOver::<u32, StrULE, C, D>::default().is_empty());
    assert!(rt; ZeroMapBorrowed::<'_, SliceULE<u8>, (u8, bool)>::default().is_empty());
}

#[test]
fn default_maps_are_empty(rt: HostRuntime) {
    are_empty::<Of<'_, u32>, Of<'_, StrULE>>(&rt);
}
