// Lists of texts whose count is kept apart from their bytes: how they are read, refused, gone
// through and searched.
ghost use Rattle.std.specs.Prelude.{◌≡◌, ℕ, ◌<◌};

use std::marker::Brand;
use std::process::Abort;
use std::sync::ledger::{Blank, Ledger};
use std::test::Fail;
use zv_ule::{Index8, Index16, Index32, Steps, StrULE, TyName, UleError, VarZeroVecFormat};
use zv_var::{VarZeroSlice, VarZeroVecComponents, VarZeroVecFormatError};

type Components<'a, F> = VarZeroVecComponents<'a, StrULE, F>;

// The list has these texts, from one end to the other.
fn has_texts<F: VarZeroVecFormat>(rt: &impl Abort, list: Components<'_, F>, texts: &[&str]) {
    assert!(rt; list.iter().size_hint() == (texts.len(), Some(texts.len())));
    for (element, text) in list.iter().zip(texts.iter()) {
        assert!(rt; element.as_str() == *text);
    }
    assert!(rt; list.len() == texts.len());
    assert!(rt; list.get(texts.len()).is_none());
}

// So many texts are these bytes, without their count.
fn are_read<F: VarZeroVecFormat>(
    rt: &impl Abort,
    len: u32,
    bytes: &[u8],
    texts: &[&str],
) -> Result<(), Fail> {
    let list = Components::<'_, F>::parse_bytes_with_length(len, bytes)?;
    has_texts(rt, list, texts);
    assert!(rt; list.is_empty() == texts.is_empty());
    Ok(())
}

#[test]
fn texts_are_read_by_their_count(rt: HostRuntime) -> Result<(), Fail> {
    are_read::<Index8>(&rt, 2, b"\x01ab", &["a", "b"])?;
    are_read::<Index16>(&rt, 2, b"\x01\0ab", &["a", "b"])?;
    are_read::<Index32>(&rt, 2, b"\x01\0\0\0ab", &["a", "b"])?;
    are_read::<Index16>(&rt, 1, b"ab", &["ab"])?;
    are_read::<Index16>(&rt, 1, b"", &[""])?;
    // With a count of 0 bytes are not looked at.
    are_read::<Index16>(&rt, 0, b"\xff", &[])
}

// So many texts are not these bytes, for this reason.
fn are_refused<F: VarZeroVecFormat>(
    rt: &impl Abort,
    len: u32,
    bytes: &[u8],
    error: VarZeroVecFormatError,
) {
    let found = Components::<'_, F>::parse_bytes_with_length(len, bytes);
    assert!(rt; found.err() == Some(error));
}

#[test]
fn bytes_are_refused_by_their_count(rt: HostRuntime) {
    let cut = VarZeroVecFormatError::Metadata;
    let text = VarZeroVecFormatError::Values(UleError::parse(TyName::Str));
    // A start is cut.
    are_refused::<Index16>(&rt, 2, b"\x01", cut);
    // The second text starts past the end.
    are_refused::<Index8>(&rt, 2, b"\x02a", cut);
    // The first text is no UTF-8.
    are_refused::<Index8>(&rt, 2, b"\x01\xffa", text);
    // The starts would take 2^32 bytes.
    are_refused::<Index32>(&rt, 0x4000_0001, b"", cut);
}

// The list of "a", "b" and "cc" is searched for texts.
fn finds_texts<F: VarZeroVecFormat>(rt: &impl Abort, list: Components<'_, F>) {
    for (text, place) in [("a", Ok(0)), ("cc", Ok(2)), ("bb", Err(2))] {
        assert!(rt; list.binary_search(&text) == place);
    }
    assert!(rt; list.binary_search_in_range(&"b", 1..3) == Some(Ok(0)));
    assert!(rt; list.binary_search_in_range(&"b", 2..3) == Some(Err(0)));
    assert!(rt; list.binary_search_in_range(&"b", 1..4) == None);
    assert!(rt; list.binary_search_in_range(&"b", 2..1) == None);
}

// And by answers about their bytes.
fn finds_texts_by<F: VarZeroVecFormat>(rt: &impl Abort, list: Components<'_, F>) {
    assert!(rt; list.binary_search_by(|text| text.len().cmp(&2)) == Ok(2));
    assert!(rt; list.binary_search_by(|text| text.len().cmp(&3)) == Err(3));
    for (start, end, place) in [(1, 3, Some(Ok(0))), (0, 1, Some(Err(1))), (1, 4, None)] {
        let found = list.binary_search_in_range_by(|text| text.cmp(b"b".as_slice()), start..end);
        assert!(rt; found == place);
    }
}

// The list of "a", "b" and "cc" is searched.
fn is_searched<F: VarZeroVecFormat>(rt: &impl Abort, bytes: &[u8]) -> Result<(), Fail> {
    let list = Components::<'_, F>::parse_bytes(bytes)?;
    finds_texts(rt, list);
    finds_texts_by(rt, list);
    Ok(())
}

#[test]
fn components_are_searched(rt: HostRuntime) -> Result<(), Fail> {
    is_searched::<Index8>(&rt, b"\x03\x01\x02abcc")?;
    is_searched::<Index16>(&rt, b"\x03\0\x01\0\x02\0abcc")?;
    is_searched::<Index32>(&rt, b"\x03\0\0\0\x01\0\0\0\x02\0\0\0abcc")
}

// A text, a range, and where counted searches of the list of "a", "b" and "cc" find it there.
type CountedSearch = (&'static str, usize, usize, Option<Result<usize, usize>>);

const COUNTED_SEARCHES: [CountedSearch; 6] = [
    ("b", 0, 3, Some(Ok(1))),
    ("b", 1, 3, Some(Ok(0))),
    ("bb", 0, 2, Some(Err(2))),
    ("a", 1, 1, Some(Err(0))),
    ("a", 0, 4, None),
    ("a", 2, 1, None),
];

// The counted searches of the list, by its components too, end so.
fn finds_counted<F: VarZeroVecFormat, L: Ledger>(
    rt: &impl Abort,
    list: VarZeroSlice<'_, StrULE, F>,
    searches: &[CountedSearch],
    steps: &mut Steps<L>,
) {
    let components = list.components();
    for (text, start, end, place) in searches {
        let text = *text;
        let found = list.binary_search_in_range_counted(&text, *start..*end, steps);
        assert!(rt; found == *place);
        let found = components.binary_search_in_range_counted(&text, *start..*end, steps);
        assert!(rt; found == *place);
    }
}

// The list of "a", "b" and "cc" is searched with the steps counted.
fn is_searched_counted<F: VarZeroVecFormat, L: Ledger>(
    rt: &impl Abort,
    bytes: &[u8],
    blank: Blank,
) -> Result<(), Fail>
    requires name { blank.name ≡ L.name }
    requires parts { blank.parts ≡ L.parts }
    requires some { 0 < blank.parts }
{
    let list = VarZeroSlice::<'_, StrULE, F>::parse_bytes(bytes)?;
    finds_counted(rt, list, &COUNTED_SEARCHES, &mut Steps::<L>::start(blank));
    Ok(())
}

#[test]
fn ranges_are_searched_counted(rt: HostRuntime) -> Result<(), Fail> {
    is_searched_counted::<Index16, Brand>(&rt, b"\x03\0\x01\0\x02\0abcc", Blank::new(1))
}
