// Lists of texts in each of the three formats: what values are written as, and what is read again.
ghost use Rattle.std.specs.Prelude.{◌≡◌, IsTrue};

use std::alloc::Global;
use std::process::Abort;
use std::test::Fail;
use zv_owned::{VarZeroVec, VarZeroVecOwned};
use zv_ule::{
    EncodeAsVarULE, Index8, Index16, Index32, StrULE, TyName, UleError, VarBox, VarULE,
    VarZeroVecFormat, encode_varule_to_box,
};
use zv_var::{
    VarZeroLengthlessSlice, VarZeroSlice, VarZeroSliceULE, VarZeroVecComponents,
    VarZeroVecFormatError, compute_serializable_len_without_length,
};

// Texts, and their list: what stands in its fields, the count and the starts, and what follows.
struct Row {
    texts: &'static [&'static str],
    fields: &'static [u8],
    data: &'static str,
}

const ROWS: [Row; 4] = [
    Row {
        texts: &[],
        fields: &[0],
        data: "",
    },
    Row {
        texts: &["a"],
        fields: &[1],
        data: "a",
    },
    Row {
        texts: &["foo", "bar", "baz", "dolor", "quux", "lorem ipsum"],
        fields: &[6, 3, 6, 9, 14, 18],
        data: "foobarbazdolorquuxlorem ipsum",
    },
    Row {
        texts: &["w", "ω", "文", "𑄃"],
        fields: &[4, 1, 3, 6],
        data: "wω文𑄃",
    },
];

// Fields, each followed by zeros up to the format's width, and what follows them.
fn bytes_of<F: VarZeroVecFormat>(
    alloc: Global,
    fields: &[u8],
    data: &[u8],
) -> Result<Vec<u8>, Fail> {
    let mut bytes = Vec::new(alloc);
    for field in fields {
        bytes.push(*field)?;
        for _ in 1..F::W {
            bytes.push(0)?;
        }
    }
    bytes.extend_from_slice(data)?;
    Ok(bytes)
}

// The value has this spelling as an element of the kind.
pub(crate) fn is_spelled<T: VarULE, E: EncodeAsVarULE<T>>(
    rt: &impl Abort,
    alloc: Global,
    value: &E,
    bytes: &[u8],
) -> Result<(), Fail>
    requires { IsTrue T.usable }
{
    assert!(rt; value.encode_var_ule_fits());
    let element: VarBox<T> = encode_varule_to_box(alloc, value)?;
    assert!(rt; element.as_bytes() == bytes);
    Ok(())
}

// Each row's texts are written as its bytes.
fn are_written<F: VarZeroVecFormat>(rt: &impl Abort, alloc: Global) -> Result<(), Fail> {
    for row in &ROWS {
        let bytes = bytes_of::<F>(alloc, row.fields, row.data.as_bytes())?;
        is_spelled::<VarZeroSliceULE<StrULE, F>, &[&str]>(rt, alloc, &row.texts, &bytes)?;
    }
    Ok(())
}

#[test]
fn texts_are_written(rt: HostRuntime) -> Result<(), Fail> {
    let alloc = rt.alloc();
    are_written::<Index8>(&rt, alloc)?;
    are_written::<Index16>(&rt, alloc)?;
    are_written::<Index32>(&rt, alloc)
}

// The list has these texts, and so have the boxes that they are copied into.
fn has_texts<F: VarZeroVecFormat>(
    rt: &impl Abort,
    alloc: Global,
    list: VarZeroSlice<'_, StrULE, F>,
    texts: &[&str],
) -> Result<(), Fail> {
    assert!(rt; list.len() == texts.len());
    let boxes = list.to_vec(alloc)?;
    assert!(rt; boxes.len() == texts.len());
    for (element, text) in list.iter().zip(texts.iter()) {
        assert!(rt; element.as_str() == *text);
    }
    for (element, text) in boxes.iter().zip(texts.iter()) {
        assert!(rt; element.as_bytes() == text.as_bytes());
    }
    Ok(())
}

// The bytes after the count are read as these texts.
fn has_texts_after_count<F: VarZeroVecFormat>(
    rt: &impl Abort,
    bytes: &[u8],
    texts: &[&str],
) -> Result<(), Fail> {
    assert!(rt; texts.len() < 256);
    let list = VarZeroLengthlessSlice::<'_, StrULE, F>::parse_bytes(texts.len() as u32, bytes)?;
    assert!(rt; list.as_bytes() == bytes);
    for (index, text) in texts.iter().enumerate() {
        assert!(rt; list.get(index).map(|element| element.as_str()) == Some(*text));
    }
    Ok(())
}

// Each row's bytes are read as its texts.
fn are_read<F: VarZeroVecFormat>(rt: &impl Abort, alloc: Global) -> Result<(), Fail> {
    for row in &ROWS {
        let bytes = bytes_of::<F>(alloc, row.fields, row.data.as_bytes())?;
        has_texts::<F>(rt, alloc, VarZeroSlice::parse_bytes(&bytes)?, row.texts)?;
        assert!(rt; F::W <= bytes.len());
        has_texts_after_count::<F>(rt, &bytes[F::W..], row.texts)?;
    }
    Ok(())
}

#[test]
fn texts_are_read(rt: HostRuntime) -> Result<(), Fail> {
    let alloc = rt.alloc();
    are_read::<Index8>(&rt, alloc)?;
    are_read::<Index16>(&rt, alloc)?;
    are_read::<Index32>(&rt, alloc)
}

// Bytes that are no list of texts, and why.
struct Refusal {
    fields: &'static [u8],
    data: &'static [u8],
    error: VarZeroVecFormatError,
}

const REFUSALS: [Refusal; 5] = [
    // There is one start, where there should be two.
    Refusal {
        fields: &[3, 1],
        data: &[],
        error: VarZeroVecFormatError::Metadata,
    },
    // The second text starts past the end.
    Refusal {
        fields: &[2, 2],
        data: b"a",
        error: VarZeroVecFormatError::Metadata,
    },
    // The third text starts before the second.
    Refusal {
        fields: &[3, 2, 1],
        data: b"abc",
        error: VarZeroVecFormatError::Metadata,
    },
    // The second text is no UTF-8.
    Refusal {
        fields: &[2, 1],
        data: b"a\xff",
        error: VarZeroVecFormatError::Values(UleError::ParseError { ty: TyName::Str }),
    },
    // So is the first, and the third would start past the end.
    Refusal {
        fields: &[3, 1, 9],
        data: b"\xffa",
        error: VarZeroVecFormatError::Values(UleError::ParseError { ty: TyName::Str }),
    },
];

// Each of the refusals, as a list and as an element of other lists.
fn are_refused<F: VarZeroVecFormat>(rt: &impl Abort, alloc: Global) -> Result<(), Fail> {
    for row in &REFUSALS {
        let bytes = bytes_of::<F>(alloc, row.fields, row.data)?;
        let error = VarZeroVecComponents::<'_, StrULE, F>::parse_bytes(&bytes).err();
        assert!(rt; error == Some(row.error));
        let error = VarZeroSlice::<'_, StrULE, F>::parse_bytes(&bytes).err();
        assert!(rt; error == Some(UleError::parse(TyName::VarZeroSlice)));
    }
    Ok(())
}

#[test]
fn faults_are_named(rt: HostRuntime) -> Result<(), Fail> {
    let alloc = rt.alloc();
    are_refused::<Index8>(&rt, alloc)?;
    are_refused::<Index16>(&rt, alloc)?;
    are_refused::<Index32>(&rt, alloc)?;

    // The starts of 2^30 elements would take 2^32 - 4 bytes, and there are none.
    let error = VarZeroVecComponents::<'_, StrULE, Index32>::parse_bytes(&[1, 0, 0, 0x40]).err();
    assert!(rt; error == Some(VarZeroVecFormatError::Metadata));
    Ok(())
}

// A borrowed list of these bytes keeps them whatever becomes of it.
fn is_kept<F: VarZeroVecFormat>(rt: &impl Abort, alloc: Global, bytes: &[u8]) -> Result<(), Fail> {
    let mut list = VarZeroVec::<'_, StrULE, F>::parse_bytes(bytes)?;
    assert!(rt; list.clone(alloc)?.into_bytes(alloc)?.as_slice() == bytes);
    assert!(rt; list.make_mut(alloc)?.as_bytes() == bytes);
    assert!(rt; list.into_owned(alloc)?.as_bytes() == bytes);
    Ok(())
}

#[test]
fn a_vector_keeps_its_bytes(rt: HostRuntime) -> Result<(), Fail> {
    let alloc = rt.alloc();
    is_kept::<Index8>(&rt, alloc, &[1, 97])?;
    is_kept::<Index16>(&rt, alloc, &[1, 0, 97])?;
    is_kept::<Index32>(&rt, alloc, &[1, 0, 0, 0, 97])
}

// A text of so many letters. It has no contract: a proof shall not count them.
fn letters(alloc: Global, count: usize) -> Result<String, Fail> {
    let mut text = String::new(alloc);
    for _ in 0..count {
        text.push('a')?;
    }
    Ok(text)
}

#[test]
fn a_text_is_below_what_a_field_holds(rt: HostRuntime) -> Result<(), Fail> {
    for (count, len) in [(253, Some(253)), (254, Some(254)), (255, None)] {
        let text = [letters(rt.alloc(), count)?];
        let found = compute_serializable_len_without_length::<StrULE, String, Index8>(&text);
        assert!(rt; found == len);
    }
    Ok(())
}

// The list of "a", "b" and "cc" is searched by answers about the elements' bytes.
fn is_searched_by<F: VarZeroVecFormat>(rt: &impl Abort, list: &VarZeroVecOwned<StrULE, F>) {
    assert!(rt; list.binary_search_by(|text| text.len().cmp(&2)) == Ok(2));
    assert!(rt; list.binary_search_by(|text| text.len().cmp(&3)) == Err(3));
    assert!(rt;
        list.binary_search_in_range_by(|text| text.cmp(b"b".as_slice()), 1..3) == Some(Ok(0))
    );
    assert!(rt; list.binary_search_in_range_by(|text| text.cmp(b"b".as_slice()), 1..4) == None);
    let view = list.as_varzerovec();
    assert!(rt; view.binary_search_by(|text| text.len().cmp(&0)) == Err(0));
}

#[test]
fn lists_are_searched_by_a_predicate(rt: HostRuntime) -> Result<(), Fail> {
    let alloc = rt.alloc();
    let texts = ["a", "b", "cc"];
    is_searched_by::<Index8>(&rt, &VarZeroVecOwned::try_from_elements(alloc, &texts)?);
    is_searched_by::<Index16>(&rt, &VarZeroVecOwned::try_from_elements(alloc, &texts)?);
    is_searched_by::<Index32>(&rt, &VarZeroVecOwned::try_from_elements(alloc, &texts)?);
    Ok(())
}
