// Reads of maps in two levels, copies of them, and their views.
use std::alloc::Global;
use std::process::Abort;
use std::test::Fail;
use zv_map::{MutableZeroVecLike, ZeroMapKV, ZvContainer};
use zv_map2d::{Map2dOver, Parts, ZeroMap2dBorrowed, ZeroMap2dCursor};
use zv_ule::StrULE;

type Of<'a, K> = <K as ZeroMapKV<'a>>::Container;

// ---- numbers, which are copied out

// The rows of 1, which is 2 to 20 and 3 to 30, of 4, which is 2 to 24, and of 9, which is 5 to 45.
type Numbers<'a, C0, C1, D> = Map2dOver<'a, u16, u16, u32, C0, C1, D>;

const KEYS0: [u8; 6] = [1, 0, 4, 0, 9, 0];

const JOINER: [u8; 12] = [2, 0, 0, 0, 3, 0, 0, 0, 4, 0, 0, 0];

const KEYS1: [u8; 8] = [2, 0, 3, 0, 2, 0, 5, 0];

const VALUES: [u8; 16] = [20, 0, 0, 0, 30, 0, 0, 0, 24, 0, 0, 0, 45, 0, 0, 0];

// What pairs have.
fn are_copied<C0, C1, D>(rt: &impl Abort, map: &Numbers<'_, C0, C1, D>)
where
    C0: ZvContainer<u16>,
    C1: ZvContainer<u16>,
    D: ZvContainer<u32>,
{
    assert!(rt; map.get_copied_2d(&1, &3) == Some(30));
    assert!(rt; map.get_copied_2d(&4, &3) == None);
    assert!(rt; map.contains_key0(&9));
    assert!(rt; !map.contains_key0(&2));
}

// What the row of 1 has.
fn is_row_of_one(rt: &impl Abort, row: ZeroMap2dCursor<'_, '_, u16, u16, u32>) {
    assert!(rt; row.get1_copied(&2) == Some(20));
    assert!(rt; row.get1_copied_by(|key| key.cmp([3, 0].as_slice())) == Some(30));
    let found = row.get1_by(|key| key.cmp([3, 0].as_slice()));
    assert!(rt; found.map(|value| value.value()) == Some(30));
    assert!(rt; row.get1_by(|key| key.cmp([4, 0].as_slice())).is_none());
    let mut pairs = row.into_iter1_copied();
    let last = pairs.next_back().map(|(key, value)| (key.value(), value));
    assert!(rt; last == Some((3, 30)));
    let first = pairs.next().map(|(key, value)| (key.value(), value));
    assert!(rt; first == Some((2, 20)));
    assert!(rt; pairs.next().is_none());
}

// The first key of a row.
fn key0(row: Option<ZeroMap2dCursor<'_, '_, u16, u16, u32>>) -> Option<u16> {
    row.map(|row| row.key0().value())
}

// The rows from both ends.
fn are_rows<C0, C1, D>(rt: &impl Abort, map: &Numbers<'_, C0, C1, D>)
where
    C0: ZvContainer<u16>,
    C1: ZvContainer<u16>,
    D: ZvContainer<u32>,
{
    let mut rows = map.iter0();
    assert!(rt; rows.len() == 3);
    assert!(rt; key0(rows.next_back()) == Some(9));
    assert!(rt; key0(rows.next()) == Some(1));
    assert!(rt; key0(rows.next()) == Some(4));
    assert!(rt; rows.next_back().is_none());
}

// The rows that a predicate finds.
fn are_found<C0, C1, D>(rt: &impl Abort, map: &Numbers<'_, C0, C1, D>)
where
    C0: ZvContainer<u16>,
    C1: ZvContainer<u16>,
    D: ZvContainer<u32>,
{
    match map.get0_by(|key| key.cmp([1, 0].as_slice())) {
        Some(row) => is_row_of_one(rt, row),
        None => panic!(rt; "the row is there"),
    }
    assert!(rt; map.get0_by(|key| key.cmp([2, 0].as_slice())).is_none());
}

// The rows and pairs of a map.
fn is_read<'a, C0, C1, D>(rt: &impl Abort) -> Result<(), Fail>
where
    C0: MutableZeroVecLike<'a, u16>,
    C1: MutableZeroVecLike<'a, u16>,
    D: MutableZeroVecLike<'a, u32>,
{
    let map = Numbers::<'a, C0, C1, D>::parse_parts(&KEYS0, &JOINER, &KEYS1, &VALUES)?;
    are_copied(rt, &map);
    are_rows(rt, &map);
    are_found(rt, &map);
    Ok(())
}

#[test]
fn numbers_are_read_into_hand(rt: HostRuntime) -> Result<(), Fail> {
    is_read::<Of<'_, u16>, Of<'_, u16>, Of<'_, u32>>(&rt)
}

// ---- rows alike

// The rows of 1, 4 and 9, each of which is 2 to 20 and 3 to 30.
const JOINER_ALIKE: [u8; 12] = [2, 0, 0, 0, 4, 0, 0, 0, 6, 0, 0, 0];

const KEYS1_ALIKE: [u8; 12] = [2, 0, 3, 0, 2, 0, 3, 0, 2, 0, 3, 0];

const VALUES_ALIKE: [u8; 24] = [
    20, 0, 0, 0, 30, 0, 0, 0, 20, 0, 0, 0, 30, 0, 0, 0, 20, 0, 0, 0, 30, 0, 0, 0,
];

// The row that a predicate or a key finds is that of the key, and no other with its pairs.
fn are_told_apart<C0, C1, D>(rt: &impl Abort, map: &Numbers<'_, C0, C1, D>)
where
    C0: ZvContainer<u16>,
    C1: ZvContainer<u16>,
    D: ZvContainer<u32>,
{
    for number in [1u16, 4, 9] {
        let bytes = number.to_le_bytes();
        assert!(rt; key0(map.get0_by(|key| key.cmp(bytes.as_slice()))) == Some(number));
        assert!(rt; key0(map.get0(&number)) == Some(number));
    }
    assert!(rt; key0(map.get0_by(|key| key.cmp([2, 0].as_slice()))) == None);
}

// The rows of the map are told apart, and so are those of a view.
fn has_rows_alike<'a, C0, C1, D>(rt: &impl Abort) -> Result<(), Fail>
where
    C0: MutableZeroVecLike<'a, u16>,
    C1: MutableZeroVecLike<'a, u16>,
    D: MutableZeroVecLike<'a, u32>,
{
    let map = Numbers::<'a, C0, C1, D>::parse_parts(
        &KEYS0,
        &JOINER_ALIKE,
        &KEYS1_ALIKE,
        &VALUES_ALIKE,
    )?;
    are_told_apart(rt, &map);
    let row = map.as_borrowed().get0_by(|key| key.cmp([4, 0].as_slice()));
    assert!(rt; key0(row) == Some(4));
    Ok(())
}

#[test]
fn rows_alike_are_told_apart(rt: HostRuntime) -> Result<(), Fail> {
    has_rows_alike::<Of<'_, u16>, Of<'_, u16>, Of<'_, u32>>(&rt)
}

// ---- maps of one pair

type Texts<'a, C0, C1, D> = Map2dOver<'a, u16, u16, StrULE, C0, C1, D>;

// The bytes of the one pair of 1 and 2, with the value "three".
fn is_one_pair(rt: &impl Abort, parts: Parts<'_>) {
    assert!(rt; parts.keys0 == [1, 0].as_slice());
    assert!(rt; parts.joiner == [1, 0, 0, 0].as_slice());
    assert!(rt; parts.keys1 == [2, 0].as_slice());
    assert!(rt; parts.values == b"\x01\x00three".as_slice());
}

// A copy is the same until the map is changed.
fn is_copied<'a, C0, C1, D>(rt: &impl Abort, alloc: Global) -> Result<(), Fail>
where
    C0: MutableZeroVecLike<'a, u16>,
    C1: MutableZeroVecLike<'a, u16>,
    D: MutableZeroVecLike<'a, StrULE>,
{
    let mut map = Texts::<'a, C0, C1, D>::new();
    map.insert(alloc, &1, &2, &"three")?;
    let copy = map.clone(alloc)?;
    is_one_pair(rt, copy.parts());
    assert!(rt; map.same(copy.as_borrowed()));
    map.insert(alloc, &1, &2, &"other")?;
    assert!(rt; !map.same(copy.as_borrowed()));
    assert!(rt; map.as_borrowed_inner().is_none());
    Ok(())
}

#[test]
fn a_map_is_copied(rt: HostRuntime) -> Result<(), Fail> {
    is_copied::<Of<'_, u16>, Of<'_, u16>, Of<'_, StrULE>>(&rt, rt.alloc())
}

// Views of a map find what it has, and make a map again.
fn is_viewed<'a, C0, C1, D>(rt: &impl Abort) -> Result<(), Fail>
where
    C0: MutableZeroVecLike<'a, u16>,
    C1: MutableZeroVecLike<'a, u16>,
    D: MutableZeroVecLike<'a, StrULE>,
{
    let keys1 = &[2, 0];
    let map = Texts::<'a, C0, C1, D>::parse_parts(&[1, 0], &[1, 0, 0, 0], keys1, b"\x01\x00three")?;
    let Some(view) = map.as_borrowed_inner() else {
        panic!(rt; "the map borrows its bytes");
    };
    let value = view.get_2d(&1, &2).map(|value| value.as_str());
    assert!(rt; value == Some("three"));
    assert!(rt; view.contains_key0(&1));
    assert!(rt; !map.same(ZeroMap2dBorrowed::new()));
    let Some(again) = Texts::<'a, C0, C1, D>::from_borrowed(view) else {
        panic!(rt; "the views fit");
    };
    is_one_pair(rt, again.parts());
    Ok(())
}

#[test]
fn a_borrowed_map_is_viewed(rt: HostRuntime) -> Result<(), Fail> {
    let none = ZeroMap2dBorrowed::<'static, u16, u16, StrULE>::new();
    assert!(rt; none.is_empty());
    is_viewed::<Of<'_, u16>, Of<'_, u16>, Of<'_, StrULE>>(&rt)
}

// The last triple of a pair counts.
fn is_made<'a, C0, C1, D>(rt: &impl Abort, alloc: Global) -> Result<(), Fail>
where
    C0: MutableZeroVecLike<'a, u16>,
    C1: MutableZeroVecLike<'a, u16>,
    D: MutableZeroVecLike<'a, StrULE>,
{
    let map = Texts::<'a, C0, C1, D>::try_from_triples(alloc, &[(1, 2, "three")])?;
    is_one_pair(rt, map.parts());
    let triples = [(1, 2, "two"), (1, 1, "one"), (1, 2, "three")];
    let map = Texts::<'a, C0, C1, D>::try_from_triples(alloc, &triples)?;
    assert!(rt; map.len() == 2);
    let value = map.get_2d(&1, &2).map(|value| value.as_str());
    assert!(rt; value == Some("three"));
    Ok(())
}

#[test]
fn a_map_is_made_of_triples(rt: HostRuntime) -> Result<(), Fail> {
    is_made::<Of<'_, u16>, Of<'_, u16>, Of<'_, StrULE>>(&rt, rt.alloc())
}
