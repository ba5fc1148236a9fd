// Values that a map reads as Rust's, by its own calls and by those of a view.
use std::alloc::Global;
use std::process::Abort;
use std::test::Fail;
use zv_map::{MutableZeroVecLike, ZeroMapCopiedValues, ZeroMapKV, ZvContainer};
use zv_map1::{MapOver, ZeroMapBorrowed};
use zv_ule::StrULE;

type Of<'a, K> = <K as ZeroMapKV<'a>>::Container;

// A map from texts to numbers.
type Ages<C, D> = MapOver<StrULE, u16, C, D>;

const AGES: [(&str, u16); 3] = [("ada", 36), ("bob", 300), ("eve", 7)];

// The pairs are these, in order.
fn are_ages(rt: &impl Abort, found: ZeroMapCopiedValues<'_, StrULE, u16>, ages: &[(&str, u16)]) {
    assert!(rt; found.size_hint() == (ages.len(), Some(ages.len())));
    for ((name, age), wanted) in found.zip(ages.iter()) {
        assert!(rt; (name.as_str(), age) == *wanted);
    }
}

// A text that a predicate looks for, and what is found.
const SEARCHES: [(&str, Option<u16>); 4] = [
    ("ada", Some(36)),
    ("bob", Some(300)),
    ("bo", None),
    ("zoe", None),
];

// A map is read and searched.
fn is_read<C, D>(rt: &impl Abort, map: &Ages<C, D>)
where
    C: ZvContainer<StrULE>,
    D: ZvContainer<u16>,
{
    are_ages(rt, map.iter_copied_values(), &AGES);
    for (name, age) in SEARCHES {
        assert!(rt; map.get_copied_by(|key| key.cmp(name.as_bytes())) == age);
    }
}

// So is a view of one.
fn is_view_read(rt: &impl Abort, map: ZeroMapBorrowed<'_, StrULE, u16>) {
    are_ages(rt, map.iter_copied_values(), &AGES);
    for (name, age) in SEARCHES {
        assert!(rt; map.get_copied_by(|key| key.cmp(name.as_bytes())) == age);
    }
}

// The map of the ages and a view of it.
fn are_read<'a, C, D>(rt: &impl Abort, alloc: Global) -> Result<(), Fail>
where
    C: MutableZeroVecLike<'a, StrULE>,
    D: MutableZeroVecLike<'a, u16>,
{
    let map = Ages::<C, D>::try_from_pairs(alloc, &AGES)?;
    is_read(rt, &map);
    is_view_read(rt, map.as_borrowed());
    Ok(())
}

#[test]
fn ages_are_read(rt: HostRuntime) -> Result<(), Fail> {
    are_read::<Of<'_, StrULE>, Of<'_, u16>>(&rt, rt.alloc())
}
