// Lists of texts that are read in place, and lists of such lists.
use std::alloc::Global;
use std::process::Abort;
use std::test::Fail;
use zv_ule::{Index8, Index16, StrULE, TyName, UleError, VarZeroVecFormat};
use zv_var::frame::{part_len, take_part};
use zv_var::{
    VarZeroSlice, VarZeroSlice16, VarZeroSlice32, VarZeroSliceULE, VarZeroVecComponents,
    VarZeroVecFormatError,
};

// The texts "w", "ω", "文" and "𑄃", with fields of two bytes.
const FOUR_TEXTS: [u8; 18] = [
    4, 0, 1, 0, 3, 0, 6, 0, 119, 207, 137, 230, 150, 135, 240, 145, 132, 131,
];

// The list has these texts, from one end to the other.
fn has_texts<F: VarZeroVecFormat>(
    rt: &impl Abort,
    list: VarZeroSlice<'_, StrULE, F>,
    texts: &[&str],
) {
    assert!(rt; list.iter().size_hint() == (texts.len(), Some(texts.len())));
    for (element, text) in list.iter().zip(texts.iter()) {
        assert!(rt; element.as_str() == *text);
    }
    assert!(rt; list.len() == texts.len());
    assert!(rt; list.get(texts.len()).is_none());
}

// The searches for these texts end so.
fn finds_texts<F: VarZeroVecFormat>(
    rt: &impl Abort,
    list: VarZeroSlice<'_, StrULE, F>,
    searches: &[(&str, Result<usize, usize>)],
) {
    for (text, place) in searches {
        let text = *text;
        assert!(rt; list.binary_search(&text) == *place);
    }
}

// The searches for the text in these ranges end so.
fn finds_in_ranges<F: VarZeroVecFormat>(
    rt: &impl Abort,
    list: VarZeroSlice<'_, StrULE, F>,
    text: &str,
    searches: &[(usize, usize, Option<Result<usize, usize>>)],
) {
    for (start, end, place) in searches {
        assert!(rt; list.binary_search_in_range(&text, *start..*end) == *place);
    }
}

#[test]
fn a_list_is_read_and_searched(rt: HostRuntime) {
    let Ok(list) = VarZeroSlice16::<'_, StrULE>::parse_bytes(&FOUR_TEXTS) else {
        panic!(rt; "the bytes are a list");
    };
    has_texts(&rt, list, &["w", "ω", "文", "𑄃"]);
    finds_texts(&rt, list, &[("文", Ok(2)), ("x", Err(1))]);
    finds_in_ranges(&rt, list, "文", &[(1, 4, Some(Ok(1))), (1, 5, None)]);
    assert!(rt; VarZeroSlice32::<'static, StrULE>::new_empty().is_empty());
}

// The error of bytes that are no list of texts.
fn fault_of<F: VarZeroVecFormat>(bytes: &[u8]) -> Option<VarZeroVecFormatError> {
    match VarZeroVecComponents::<'_, StrULE, F>::parse_bytes(bytes) {
        Ok(_) => None,
        Err(error) => Some(error),
    }
}

#[test]
fn texts_are_checked_at_their_ends(rt: HostRuntime) {
    // "a" and "bcd".
    assert!(rt; fault_of::<Index8>(&[2, 1, 97, 98, 99, 100]) == None);
    assert!(rt; fault_of::<Index16>(&FOUR_TEXTS) == None);

    // The first element would end within "ω".
    let error = VarZeroVecFormatError::Values(UleError::parse(TyName::Str));
    assert!(rt; fault_of::<Index8>(&[2, 1, 207, 137]) == Some(error));
}

#[test]
fn lists_nest(rt: HostRuntime) {
    // A list of the lists of no text and of "a".
    let bytes = [2, 0, 0, 0, 1, 0, 97];
    let Ok(outer) = VarZeroSlice16::<'_, VarZeroSliceULE<StrULE, Index16>>::parse_bytes(&bytes)
    else {
        panic!(rt; "the bytes are a list of lists");
    };
    let Some(element) = outer.get(1) else {
        panic!(rt; "there are two lists");
    };
    let inner = VarZeroSliceULE::<StrULE, Index16>::as_varzeroslice(element);
    assert!(rt; inner.len() == 1);
}

// An error is printed so.
fn prints(
    rt: &impl Abort,
    alloc: Global,
    error: VarZeroVecFormatError,
    text: &str,
) -> Result<(), Fail> {
    let printed = format!(in alloc; "{error}")?;
    assert!(rt; printed.as_str() == text);
    Ok(())
}

#[test]
fn faults_print(rt: HostRuntime) -> Result<(), Fail> {
    let alloc = rt.alloc();
    // A count has two bytes.
    let Some(cut) = fault_of::<Index16>(&[1]) else {
        panic!(rt; "the count is cut");
    };
    prints(&rt, alloc, cut, "VarZeroVecFormatError: metadata")?;
    prints(
        &rt,
        alloc,
        VarZeroVecFormatError::Values(UleError::parse(TyName::Str)),
        "VarZeroVecFormatError: Could not parse bytes to slice of type Str",
    )
}

#[test]
fn a_part_is_taken(rt: HostRuntime) {
    let bytes = [2, 0, 0, 0, 0, 0, 0, 0, 98, 99, 97];
    let Some((part, rest)) = take_part(&bytes) else {
        panic!(rt; "the part is whole");
    };
    assert!(rt; part == &[98, 99][..]);
    assert!(rt; rest == &[97][..]);
    assert!(rt; &part_len(part)[..] == &bytes[..8]);
    assert!(rt; take_part(&bytes[..9]).is_none());
}
