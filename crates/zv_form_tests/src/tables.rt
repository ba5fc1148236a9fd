// Hash tables in either form, over any containers.

use crate::framed::errors::{SHORT_NUMBER, SHORT_PAIR};
use crate::framed::{Fault, are_just};
use crate::json::{Cases, case_of, is_text};
use std::alloc::Global;
use std::process::Abort;
use std::test::Fail;
use zv_forms::{JsonForm, ToJson};
use zv_framed::{FormError, Framed, OneLayout};
use zv_hashmap::HashMapOver;
use zv_map::MutableZeroVecLike;
use zv_ule::StrULE;

// Tables of numbers to texts.
type Names<'a, C, D> = HashMapOver<'a, u32, StrULE, C, D>;

// The form of the displacements (0, 0), (0, 1), (0, 1), the keys 1, 2, 0 and the values b, c, a.
const TABLE: &[u8] = b"\
    \x18\0\0\0\0\0\0\0\0\0\0\0\0\0\0\0\0\0\0\0\x01\0\0\0\0\0\0\0\x01\0\0\0\
    \x0c\0\0\0\0\0\0\0\x01\0\0\0\x02\0\0\0\0\0\0\0\
    \x09\0\0\0\0\0\0\0\x03\0\x01\0\x02\0bca";

// Their text.
const TEXT: &str = "[[[0,0],[0,1],[0,1]],[1,2,0],[\"b\",\"c\",\"a\"]]";

// Bytes that are no form of a table.
const FAULTS: &[Fault<'_>] = &[
    // displacements that are none; that, and keys that are none; keys that are none, and a value
    // without a displacement
    (
        b"\x07\0\0\0\0\0\0\0\0\0\0\0\0\0\0\x01\0\0\0\0\0\0\0\x01\x03\0\0\0\0\0\0\0\x01\0a",
        SHORT_PAIR,
    ),
    (
        b"\x07\0\0\0\0\0\0\0\0\0\0\0\0\0\0\x01\0\0\0\0\0\0\0\x02\x03\0\0\0\0\0\0\0\x01\0a",
        SHORT_PAIR,
    ),
    (
        b"\0\0\0\0\0\0\0\0\x03\0\0\0\0\0\0\0\x01\0\0\x03\0\0\0\0\0\0\0\x01\0a",
        SHORT_NUMBER,
    ),
    // a displacement too many; a value too many
    (
        b"\x08\0\0\0\0\0\0\0\0\0\0\0\0\0\0\0\0\0\0\0\0\0\0\0\0\0\0\0\0\0\0\0",
        FormError::Count,
    ),
    (
        b"\0\0\0\0\0\0\0\0\0\0\0\0\0\0\0\0\x03\0\0\0\0\0\0\0\x01\0a",
        FormError::Count,
    ),
    // a table of no keys and a byte behind
    (&[0; 25], FormError::Frame),
    // displacements that are none, keys that are none, and a byte behind each; keys that are none,
    // and a third length past the bytes
    (
        b"\x07\0\0\0\0\0\0\0\0\0\0\0\0\0\0\0\0\0\0\0\0\0\0\0\0\0\0\0\0\0\0\0",
        FormError::Frame,
    ),
    (
        b"\0\0\0\0\0\0\0\0\x03\0\0\0\0\0\0\0\x01\0\0\0\0\0\0\0\0\0\0\0",
        FormError::Frame,
    ),
    (
        b"\0\0\0\0\0\0\0\0\x03\0\0\0\0\0\0\0\x01\0\0\x04\0\0\0\0\0\0\0\x01\0a",
        FormError::Frame,
    ),
];

// The form of a table of no keys.
const NONE: &[u8] = &[0; 24];

// A table that is read where it stands is written as it was, and no front of it is one. None of the
// cases is one.
fn have_frames<'a, C, D>(
    rt: &impl Abort,
    alloc: Global,
    forms: &[&'a [u8]],
    cases: &[Fault<'a>],
) -> Result<(), Fail>
where
    C: MutableZeroVecLike<'a, u32> + OneLayout<u32>,
    D: MutableZeroVecLike<'a, StrULE> + OneLayout<StrULE>,
{
    for bytes in forms {
        let table = Names::<'a, C, D>::parse_framed(bytes)?;
        are_just(rt, &table.to_framed_bytes(alloc)?, bytes);
        for end in 0..bytes.len() {
            let refusal = Names::<'a, C, D>::parse_framed(&bytes[..end]).err();
            assert!(rt; refusal == Some(FormError::Frame));
        }
    }
    for (bytes, error) in cases {
        let refusal = Names::<'a, C, D>::parse_framed(bytes).err();
        assert!(rt; refusal == Some(*error), "{error}");
    }
    Ok(())
}

// Texts, and what the tables are written as that they are read as, or why they are none.
const TEXTS: Cases<'_> = r#"
Ok [[[0,0],[0,1],[0,1]],[1,2,0],["b","c","a"]]
Ok [[],[],[]]
Shape [["a"],[["b",1]]]
Shape [[[0,0]],[1],[]]
Shape [[],[1],["a"]]
Shape {}
Shape [[],[]]
// the vectors are read before their counts are compared
Wide [[],[1.5],[]]
"#;

// Tables are arrays of their vectors.
fn have_texts<'a, C, D>(rt: &impl Abort, alloc: Global) -> Result<(), Fail>
where
    C: MutableZeroVecLike<'a, u32>,
    D: MutableZeroVecLike<'a, StrULE>,
{
    for line in TEXTS.lines() {
        let Some((text, wanted)) = case_of(rt, line) else {
            continue;
        };
        match Names::<'a, C, D>::from_json_text(alloc, text) {
            Ok(table) => is_text(rt, alloc, &table.to_json(alloc)?, wanted.unwrap_or(""))?,
            Err(error) => assert!(rt; wanted == Err(error), "{text}"),
        }
    }
    let table = Names::<'a, C, D>::from_json_text(alloc, TEXT)?;
    let Some(name) = table.get(&0) else {
        panic!(rt; "the key is there");
    };
    assert!(rt; name.as_str() == "a");
    assert!(rt; table.get(&5).is_none());
    Ok(())
}

// One that is built of pairs is written in both forms.
fn is_built<'a, C, D>(rt: &impl Abort, alloc: Global) -> Result<(), Fail>
where
    C: MutableZeroVecLike<'a, u32> + OneLayout<u32>,
    D: MutableZeroVecLike<'a, StrULE> + OneLayout<StrULE>,
{
    let table = Names::<'a, C, D>::try_from_pairs(alloc, &[(0, "a"), (1, "b"), (2, "c")])?;
    are_just(rt, &table.to_framed_bytes(alloc)?, TABLE);
    is_text(rt, alloc, &table.to_json(alloc)?, TEXT)
}

/// Tables of numbers to texts have both forms.
pub(crate) fn have_both<'a, C, D>(rt: &impl Abort, alloc: Global) -> Result<(), Fail>
where
    C: MutableZeroVecLike<'a, u32> + OneLayout<u32>,
    D: MutableZeroVecLike<'a, StrULE> + OneLayout<StrULE>,
{
    have_frames::<C, D>(rt, alloc, &[TABLE, NONE], FAULTS)?;
    have_texts::<C, D>(rt, alloc)?;
    is_built::<C, D>(rt, alloc)
}
