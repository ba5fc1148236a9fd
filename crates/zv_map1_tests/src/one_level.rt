// Maps in one level at concrete kinds.
ghost use Rattle.std.specs.Prelude.{◌≡◌, ℕ, ◌<◌};

use std::alloc::Global;
use std::cell::Cell;
use std::marker::Brand;
use std::process::Abort;
use std::sync::ledger::{Blank, Ledger};
use std::test::Fail;
use zv_counting::CountingKey;
use zv_map::{MapError, MutableZeroVecLike, ZeroMapKV};
use zv_map1::{MapOver, VecsError, ZeroMapBorrowed};
use zv_ule::{Steps, StrULE, VarBox, VarRef};

type Of<'a, K> = <K as ZeroMapKV<'a>>::Container;

// A map from numbers to names.
type Names<C, D> = MapOver<u32, StrULE, C, D>;

// The map has these pairs and no others.
fn has_pairs(rt: &impl Abort, map: ZeroMapBorrowed<'_, u32, StrULE>, pairs: &[(u32, &str)]) {
    assert!(rt; map.len() == pairs.len());
    for ((key, value), pair) in map.iter().zip(pairs.iter()) {
        assert!(rt; (key.value(), value.as_str()) == *pair);
    }
}

// ---- names of numbers

// What an insertion or a removal gave back is this name.
fn was(old: Option<VarBox<StrULE>>, name: &str) -> bool {
    match old {
        Some(old) => *old.as_bytes() == *name.as_bytes(),
        None => false,
    }
}

// The map of the pair (1, "dos") is changed.
fn changes_names<'a, C, D>(
    rt: &impl Abort,
    alloc: Global,
    map: &mut Names<C, D>,
) -> Result<(), Fail>
where
    C: MutableZeroVecLike<'a, u32>,
    D: MutableZeroVecLike<'a, StrULE, OwnedType = VarBox<StrULE>>,
{
    assert!(rt; was(map.insert(alloc, &1, &"x")?, "dos"));
    assert!(rt; map.insert_var_v(alloc, &2, &"y")?.is_none());
    assert!(rt; map.try_append(alloc, &2, &"z")? == Some((&2, &"z")));
    assert!(rt; map.try_append(alloc, &7, &"z")?.is_none());
    assert!(rt; map.append_or_insert(alloc, &9, &"n")?.is_none());
    assert!(rt; was(map.append_or_insert(alloc, &9, &"m")?, "n"));
    assert!(rt; was(map.remove(alloc, &9)?, "m"));
    assert!(rt; was(map.remove(alloc, &1)?, "x"));
    assert!(rt; map.remove(alloc, &1)?.is_none());
    Ok(())
}

// Room and copies leave the pairs as they are.
fn copies_names<'a, C, D>(rt: &impl Abort, alloc: Global, map: &mut Names<C, D>) -> Result<(), Fail>
where
    C: MutableZeroVecLike<'a, u32>,
    D: MutableZeroVecLike<'a, StrULE>,
{
    map.reserve(alloc, 3)?;
    let copy = map.clone(alloc)?;
    has_pairs(rt, copy.as_borrowed(), &[(2, "y"), (7, "z")]);
    map.clear();
    assert!(rt; map.is_empty());
    assert!(rt; !copy.same(map.as_borrowed()));
    Ok(())
}

// The last of two names of 1 counts, and then the map is changed.
fn come_and_go<'a, C, D>(rt: &impl Abort, alloc: Global) -> Result<(), Fail>
where
    C: MutableZeroVecLike<'a, u32>,
    D: MutableZeroVecLike<'a, StrULE, OwnedType = VarBox<StrULE>>,
{
    let mut map = Names::<C, D>::try_from_pairs(alloc, &[(1, "uno"), (1, "dos")])?;
    has_pairs(rt, map.as_borrowed(), &[(1, "dos")]);
    changes_names(rt, alloc, &mut map)?;
    copies_names(rt, alloc, &mut map)
}

#[test]
fn names_come_and_go(rt: HostRuntime) -> Result<(), Fail> {
    come_and_go::<Of<'_, u32>, Of<'_, StrULE>>(&rt, rt.alloc())
}

// The text of an element that was found.
fn text(found: Option<VarRef<'_, StrULE>>) -> Option<&str> {
    found.map(|element| element.as_str())
}

// Asks for what is there, and for what isn't.
fn asks_names(rt: &impl Abort, map: ZeroMapBorrowed<'_, u32, StrULE>) {
    for (key, name) in [(2, Some("y")), (3, None), (7, Some("z")), (8, None)] {
        assert!(rt; text(map.get(&key)) == name);
        assert!(rt; map.contains_key(&key) == name.is_some());
    }
}

// Finds names by other ways.
fn finds_names(rt: &impl Abort, map: ZeroMapBorrowed<'_, u32, StrULE>) {
    let by_bytes = map.get_by(|key| key.cmp(&[2, 0, 0, 0].as_slice()));
    assert!(rt; text(by_bytes) == Some("y"));
    let last_key = map.iter_keys().next_back();
    assert!(rt; last_key.map(|key| key.value()) == Some(7));
    assert!(rt; text(map.iter_values().next_back()) == Some("z"));
}

// The names are read.
fn are_read<'a, C, D>(rt: &impl Abort, alloc: Global) -> Result<(), Fail>
where
    C: MutableZeroVecLike<'a, u32>,
    D: MutableZeroVecLike<'a, StrULE>,
{
    let map = Names::<C, D>::try_from_pairs(alloc, &[(7, "z"), (2, "x"), (2, "y")])?;
    asks_names(rt, map.as_borrowed());
    finds_names(rt, map.as_borrowed());
    has_pairs(rt, map.as_borrowed(), &[(2, "y"), (7, "z")]);
    Ok(())
}

#[test]
fn names_are_read(rt: HostRuntime) -> Result<(), Fail> {
    are_read::<Of<'_, u32>, Of<'_, StrULE>>(&rt, rt.alloc())
}

// ---- a view of bytes

// The map of these bytes, which are borrowed, or why they are none.
fn parse<'a, C, D>(keys: &'a [u8], values: &'a [u8]) -> Result<Result<Names<C, D>, VecsError>, Fail>
where
    C: MutableZeroVecLike<'a, u32>,
    D: MutableZeroVecLike<'a, StrULE>,
{
    Ok(MapOver::from_vecs(C::zvl_parse(keys)?, D::zvl_parse(values)?))
}

// The keys 1 and 2, and their names.
const KEYS: &[u8] = &[1, 0, 0, 0, 2, 0, 0, 0];

const NAMES: &[u8] = b"\x02\0\x03\0unodos";

// A view of the names makes their map again.
fn is_made_again<'a, C, D>(rt: &impl Abort, map: &'a Names<C, D>)
where
    C: MutableZeroVecLike<'a, u32>,
    D: MutableZeroVecLike<'a, StrULE>,
{
    let view = map.as_borrowed();
    has_pairs(rt, view, &[(1, "uno"), (2, "dos")]);
    let Some(again) = Names::<C, D>::from_borrowed(view) else {
        panic!(rt; "the views fit");
    };
    assert!(rt; again.same(view));
    assert!(rt; !view.same(ZeroMapBorrowed::new()));
}

#[test]
fn bytes_are_viewed(rt: HostRuntime) -> Result<(), Fail> {
    let Ok(map) = parse::<Of<'_, u32>, Of<'_, StrULE>>(KEYS, NAMES)? else {
        panic!(rt; "the keys ascend");
    };
    is_made_again(&rt, &map);
    Ok(())
}

// Bytes of keys that make no map with the names, and why.
const REFUSALS: [(&[u8], VecsError); 3] = [
    (&[1, 0, 0, 0], VecsError::Count),
    (&[2, 0, 0, 0, 1, 0, 0, 0], VecsError::KeyOrder),
    (&[2, 0, 0, 0, 2, 0, 0, 0], VecsError::KeyOrder),
];

// Each of them is refused.
fn are_refused<'a, C, D>(rt: &impl Abort) -> Result<(), Fail>
where
    C: MutableZeroVecLike<'a, u32>,
    D: MutableZeroVecLike<'a, StrULE>,
{
    for (keys, fault) in REFUSALS {
        let found = parse::<C, D>(keys, NAMES)?;
        assert!(rt; found.err() == Some(fault));
    }
    Ok(())
}

#[test]
fn vectors_that_are_no_map(rt: HostRuntime) -> Result<(), Fail> {
    are_refused::<Of<'_, u32>, Of<'_, StrULE>>(&rt)
}

// ---- the size rule

// A key that is there is not measured: beside a value of 65,534 bytes no other pair is taken, and
// the value is replaced by another as long.
fn replaces_only<'a, C, D>(rt: &impl Abort, alloc: Global, long: &str)
where
    C: MutableZeroVecLike<'a, u32>,
    D: MutableZeroVecLike<'a, StrULE>,
{
    let mut map = Names::<C, D>::new();
    assert!(rt; map.insert(alloc, &1, &long).is_ok_and(|old| old.is_none()));
    assert!(rt; map.insert(alloc, &2, &"").err() == Some(MapError::TooLarge));
    assert!(rt; map.try_append(alloc, &2, &"").err() == Some(MapError::TooLarge));
    assert!(rt; map.insert(alloc, &1, &long).is_ok_and(|old| old.is_some()));
    assert!(rt; map.len() == 1);
}

#[test]
fn a_key_that_is_there_is_not_measured(rt: HostRuntime) -> Result<(), Fail> {
    let alloc = rt.alloc();
    let long = "x".repeat(alloc, 65_534)?;
    replaces_only::<Of<'_, u32>, Of<'_, StrULE>>(&rt, alloc, long.as_str());
    Ok(())
}

// ---- comparisons

// A map from letters to numbers.
type Letters<C, D> = MapOver<StrULE, u16, C, D>;

const LETTERS: [&str; 21] = [
    "a", "b", "c", "d", "e", "f", "g", "h", "i", "j", "k", "l", "m", "n", "o", "p", "q", "r", "s",
    "t", "u",
];

// The map of each letter to 7.
fn letters<'a, C, D>(alloc: Global) -> Result<Letters<C, D>, Fail>
where
    C: MutableZeroVecLike<'a, StrULE>,
    D: MutableZeroVecLike<'a, u16>,
{
    let mut map = Letters::<C, D>::new();
    for letter in &LETTERS {
        map.try_append(alloc, letter, &7)?;
    }
    Ok(map)
}

// Looks a key up with its steps counted, and says whether it is there.
fn counts_from<L: Ledger>(
    map: ZeroMapBorrowed<'_, StrULE, u16>,
    key: &CountingKey<'_>,
    blank: Blank,
) -> bool
    requires name { blank.name ≡ L.name }
    requires parts { blank.parts ≡ L.parts }
    requires some { 0 < blank.parts }
{
    let mut steps = Steps::<L>::start(blank);
    map.get_counted(key, &mut steps).is_some()
}

// How many comparisons a look-up of the text makes, and a counted one.
fn comparisons(map: ZeroMapBorrowed<'_, StrULE, u16>, text: &str) -> (usize, usize) {
    let (plain, counted) = (Cell::new(0), Cell::new(0));
    let _ = map.get(&CountingKey::new(text, &plain));
    let key = CountingKey::new(text, &counted);
    let _ = counts_from::<Brand>(map, &key, Blank::new(1));
    (plain.get(), counted.get())
}

// A look-up among 21 keys compares at least once, and at most five times, which are the digits of
// 21.
fn compares_up_to_five_times(rt: &impl Abort, map: ZeroMapBorrowed<'_, StrULE, u16>) {
    assert!(rt; map.len() == 21);
    for text in ["a", "b", "f", "k", "l", "m", "t", "u", "aa", "ka", "v", ""] {
        let (plain, counted) = comparisons(map, text);
        assert!(rt; (1..=5).contains(&plain));
        assert!(rt; (1..=5).contains(&counted));
    }
}

#[test]
fn a_look_up_halves_the_keys(rt: HostRuntime) -> Result<(), Fail> {
    let map = letters::<Of<'_, StrULE>, Of<'_, u16>>(rt.alloc())?;
    compares_up_to_five_times(&rt, map.as_borrowed());
    Ok(())
}
