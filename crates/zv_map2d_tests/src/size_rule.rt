// The size rule of lists whose fields have two bytes, in a map from two texts to bytes.
use std::alloc::Global;
use std::process::Abort;
use std::test::Fail;
use zv_map::{MutableZeroVecLike, ZeroMapKV, ZvContainer};
use zv_map2d::{Map2dError, Map2dOver};
use zv_ule::{SliceULE, StrULE, VarBox, VarRef};

type Of<'a, K> = <K as ZeroMapKV<'a>>::Container;

type Texts<'a, C0, C1, D> = Map2dOver<'a, StrULE, StrULE, SliceULE<u8>, C0, C1, D>;

// The longest value that a list of values has room for beside its count.
const LONGEST: usize = 65_534;

// What the map answers to a value for the pair "a", "b".
fn put_value<'a, C0, C1, D>(
    alloc: Global,
    map: &mut Texts<'a, C0, C1, D>,
    value: &[u8],
) -> Result<Option<VarBox<SliceULE<u8>>>, Map2dError>
where
    C0: MutableZeroVecLike<'a, StrULE>,
    C1: MutableZeroVecLike<'a, StrULE>,
    D: MutableZeroVecLike<'a, SliceULE<u8>, OwnedType = VarBox<SliceULE<u8>>>,
{
    map.insert(alloc, &"a", &"b", &VarRef::of_bytes(value))
}

// The value that was there before is given back.
fn is_before(old: Option<VarBox<SliceULE<u8>>>, value: &[u8]) -> bool {
    match old {
        Some(old) => *old.as_bytes() == *value,
        None => false,
    }
}

// Whether the map refuses a value of one byte for a pair, as its list has no room for it.
fn refuses_pair<'a, C0, C1, D>(
    alloc: Global,
    map: &mut Texts<'a, C0, C1, D>,
    key0: &str,
    key1: &str,
) -> bool
where
    C0: MutableZeroVecLike<'a, StrULE>,
    C1: MutableZeroVecLike<'a, StrULE>,
    D: MutableZeroVecLike<'a, SliceULE<u8>>,
{
    let refused = map
        .insert(alloc, &key0, &key1, &VarRef::of_bytes(&[1]))
        .err();
    refused == Some(Map2dError::TooLarge)
}

// How many bytes the four lists of a map have.
fn lens<C0, C1, D>(map: &Texts<'_, C0, C1, D>) -> [usize; 4]
where
    C0: ZvContainer<StrULE>,
    C1: ZvContainer<StrULE>,
    D: ZvContainer<SliceULE<u8>>,
{
    let parts = map.canon_parts();
    [
        parts.keys0.len(),
        parts.joiner.len(),
        parts.keys1.len(),
        parts.values.len(),
    ]
}

// A value longer by one is refused. Beside the longest value no pair is taken, in its row or in
// another one; it is replaced by another as long, and that by a short one.
fn keeps_to_the_size_rule<'a, C0, C1, D>(rt: &impl Abort, alloc: Global) -> Result<(), Fail>
where
    C0: MutableZeroVecLike<'a, StrULE>,
    C1: MutableZeroVecLike<'a, StrULE>,
    D: MutableZeroVecLike<'a, SliceULE<u8>, OwnedType = VarBox<SliceULE<u8>>>,
{
    let mut map = Texts::<'a, C0, C1, D>::new();
    let longer = vec![in alloc; 7u8; LONGEST + 1]?;
    assert!(rt; put_value(alloc, &mut map, &longer).err() == Some(Map2dError::TooLarge));
    assert!(rt; lens(&map) == [0, 0, 0, 0]);
    let (first, second) = (vec![in alloc; 7u8; LONGEST]?, vec![in alloc; 8u8; LONGEST]?);
    assert!(rt; put_value(alloc, &mut map, &first)?.is_none());
    assert!(rt; refuses_pair(alloc, &mut map, "a", "c"));
    assert!(rt; refuses_pair(alloc, &mut map, "c", "d"));
    assert!(rt; map.get0(&"c").is_none());
    assert!(rt; lens(&map) == [3, 4, 3, 65_536]);
    assert!(rt; is_before(put_value(alloc, &mut map, &second)?, &first));
    assert!(rt; is_before(put_value(alloc, &mut map, &[2])?, &second));
    assert!(rt; map.canon_parts().values == [1, 0, 2].as_slice());
    Ok(())
}

#[test]
fn lists_end_at_64_kilobytes(rt: HostRuntime) -> Result<(), Fail> {
    keeps_to_the_size_rule::<Of<'_, StrULE>, Of<'_, StrULE>, Of<'_, SliceULE<u8>>>(&rt, rt.alloc())
}
