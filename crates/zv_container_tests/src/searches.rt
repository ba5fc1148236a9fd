// Searches in containers: what they answer in a range, and how often they compare, counted by the
// key itself.
ghost use Rattle.std.specs.Prelude.{◌≡◌, ◌<◌};

use std::cell::Cell;
use std::cmp::Ordering;
use std::marker::Brand;
use std::process::Abort;
use std::sync::ledger::{Blank, Ledger};
use std::test::Fail;
use zv_counting::CountingKey;
use zv_map::{MutableZeroVecLike, ZeroMapKV, ZeroVecSearch, ZeroVecSearchBy};
use zv_ule::{Steps, StrULE};

type Of<'a, K> = <K as ZeroMapKV<'a>>::Container;

// ---- ranges

// The numbers 11, 22, 33, 44, 55, 66 and 77.
const SEVEN_NUMBERS: &[u8] = &[11, 0, 22, 0, 33, 0, 44, 0, 55, 0, 66, 0, 77, 0];

// A number, the start and the end of a range, and what a search there answers.
type RangeSearch = (u16, usize, usize, Option<Result<usize, usize>>);

const RANGE_SEARCHES: [RangeSearch; 6] = [
    (45, 0, 7, Some(Err(4))),
    (44, 0, 2, Some(Err(2))),
    (44, 5, 7, Some(Err(0))),
    (44, 2, 5, Some(Ok(1))),
    (44, 0, 100, None),
    (44, 5, 2, None),
];

// The numbers 1, 1, 1, 1, 2 and 2.
const EQUAL_NUMBERS: &[u8] = &[1, 0, 1, 0, 1, 0, 1, 0, 2, 0, 2, 0];

// The middle is the upper of two, and neither half has it.
const SEARCHES_AMONG_EQUALS: [RangeSearch; 8] = [
    (1, 0, 6, Some(Ok(3))),
    (2, 0, 6, Some(Ok(5))),
    (2, 0, 5, Some(Ok(4))),
    (1, 2, 6, Some(Ok(1))),
    (1, 3, 6, Some(Ok(0))),
    (1, 0, 4, Some(Ok(2))),
    (1, 0, 2, Some(Ok(1))),
    (2, 0, 4, Some(Err(4))),
];

// The searches in ranges answer so.
fn finds_in_ranges<C: ZeroVecSearch<u16>>(rt: &impl Abort, list: &C, searches: &[RangeSearch]) {
    for (number, start, end, answer) in searches {
        assert!(rt; list.zvl_binary_search_in_range(number, *start..*end) == *answer);
    }
}

// The same searches by a predicate do.
fn finds_in_ranges_by<C: ZeroVecSearchBy<u16>>(
    rt: &impl Abort,
    list: &C,
    searches: &[RangeSearch],
) {
    for (number, start, end, answer) in searches {
        let bytes = number.to_le_bytes();
        let found = list.zvl_binary_search_in_range_by(
            |element| element.cmp(bytes.as_slice()),
            *start..*end,
        );
        assert!(rt; found == *answer);
    }
}

// The container of the numbers is searched in ranges.
fn is_searched_in_ranges<'a, C: MutableZeroVecLike<'a, u16>>(
    rt: &impl Abort,
    numbers: &'a [u8],
    searches: &[RangeSearch],
) -> Result<(), Fail> {
    let list = C::zvl_parse(numbers)?;
    finds_in_ranges(rt, &list, searches);
    finds_in_ranges_by(rt, &list, searches);
    Ok(())
}

#[test]
fn a_range_is_searched(rt: HostRuntime) -> Result<(), Fail> {
    is_searched_in_ranges::<Of<'_, u16>>(&rt, SEVEN_NUMBERS, &RANGE_SEARCHES)
}

#[test]
fn a_range_of_equals_is_searched(rt: HostRuntime) -> Result<(), Fail> {
    is_searched_in_ranges::<Of<'_, u16>>(&rt, EQUAL_NUMBERS, &SEARCHES_AMONG_EQUALS)
}

// ---- comparisons

// How many comparisons a search for the text makes.
fn comparisons<C: ZeroVecSearch<StrULE>>(list: &C, text: &str) -> usize {
    let count = Cell::new(0);
    let _ = list.zvl_binary_search(&CountingKey::new(text, &count));
    count.get()
}

// Searches for a key with the steps counted.
fn search_counted<C: ZeroVecSearch<StrULE>, L: Ledger>(
    list: &C,
    key: &CountingKey<'_>,
    blank: Blank,
) -> Option<Result<usize, usize>>
    requires name { blank.name ≡ L.name }
    requires parts { blank.parts ≡ L.parts }
    requires some { 0 < blank.parts }
{
    list.zvl_search_counted(key, 0..list.zvl_len(), &mut Steps::<L>::start(blank))
}

// How many comparisons a counted search for the text makes, which ends as the plain one does.
fn counted_comparisons<C: ZeroVecSearch<StrULE>>(rt: &impl Abort, list: &C, text: &str) -> usize {
    let count = Cell::new(0);
    let found = search_counted::<C, Brand>(list, &CountingKey::new(text, &count), Blank::new(1));
    assert!(rt; found == Some(list.zvl_binary_search(&text)));
    count.get()
}

// A search among seven texts compares at least once, and at most three times.
fn compares_up_to_three_times<C: ZeroVecSearch<StrULE>>(rt: &impl Abort, list: &C) {
    for text in ["a", "b", "c", "d", "e", "f", "g", "aa", "h"] {
        let count = comparisons(list, text);
        assert!(rt; (1..=3).contains(&count));
        assert!(rt; (1..=3).contains(&counted_comparisons(rt, list, text)));
    }
}

// The container of the texts "a" to "g" is searched by halving.
fn is_halved<'a, C: MutableZeroVecLike<'a, StrULE>>(rt: &impl Abort) -> Result<(), Fail> {
    let list = C::zvl_parse(b"\x07\0\x01\0\x02\0\x03\0\x04\0\x05\0\x06\0abcdefg")?;
    compares_up_to_three_times(rt, &list);
    Ok(())
}

#[test]
fn a_search_halves_its_list(rt: HostRuntime) -> Result<(), Fail> {
    is_halved::<Of<'_, StrULE>>(&rt)
}

// ---- how elements compare

// The elements at two places, and how they compare.
fn compares<C: ZeroVecSearch<StrULE>>(
    rt: &impl Abort,
    list: &C,
    places: (usize, usize),
    order: Ordering,
) {
    let (Some(left), Some(right)) = (list.zvl_get(places.0), list.zvl_get(places.1)) else {
        panic!(rt; "there are such elements");
    };
    assert!(rt; C::get_cmp_get(&left, &right) == order);
}

// Elements of the container of "a", "b" and "b" compare as their texts.
fn compares_texts<'a, C: MutableZeroVecLike<'a, StrULE>>(rt: &impl Abort) -> Result<(), Fail> {
    let list = C::zvl_parse(b"\x03\0\x01\0\x02\0abb")?;
    compares(rt, &list, (0, 1), Ordering::Less);
    compares(rt, &list, (1, 2), Ordering::Equal);
    compares(rt, &list, (2, 0), Ordering::Greater);
    Ok(())
}

#[test]
fn elements_compare(rt: HostRuntime) -> Result<(), Fail> {
    compares_texts::<Of<'_, StrULE>>(&rt)
}
