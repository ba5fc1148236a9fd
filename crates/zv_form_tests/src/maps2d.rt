// Maps in two levels in either form, over any containers.

use crate::framed::errors::{NO_TEXTS, SHORT_NUMBER, ZERO_KEY};
use crate::framed::{Fault, are_just};
use crate::json::{Cases, case_of, is_text};
use std::alloc::Global;
use std::num::NonZeroU8;
use std::process::Abort;
use std::test::Fail;
use zv_forms::{JsonForm, ToJson};
use zv_framed::{FormError, Framed, OneLayout};
use zv_map::MutableZeroVecLike;
use zv_map2d::Map2dOver;
use zv_ule::StrULE;

// ---- maps of two numbers to texts

type Rows<'a, C0, C1, D> = Map2dOver<'a, u32, u16, StrULE, C0, C1, D>;

// The form of the rows 1 and 2 with the pairs of 1 to uno, 2 to dos and 3 to tres.
const MAP2D: &[u8] = b"\
    \x08\0\0\0\0\0\0\0\x01\0\0\0\x02\0\0\0\
    \x08\0\0\0\0\0\0\0\x01\0\0\0\x03\0\0\0\
    \x06\0\0\0\0\0\0\0\x01\0\x02\0\x03\0\
    \x10\0\0\0\0\0\0\0\x03\0\x03\0\x06\0unodostres";

// The form of a map of no rows.
const NONE: &[u8] = &[0; 32];

// A map that is read where it stands is written as it was, and no front of it is one.
fn have_frames<'a, C0, C1, D>(
    rt: &impl Abort,
    alloc: Global,
    forms: &[&'a [u8]],
) -> Result<(), Fail>
where
    C0: MutableZeroVecLike<'a, u32> + OneLayout<u32>,
    C1: MutableZeroVecLike<'a, u16> + OneLayout<u16>,
    D: MutableZeroVecLike<'a, StrULE> + OneLayout<StrULE>,
{
    for bytes in forms {
        let map = Rows::<'a, C0, C1, D>::parse_framed(bytes)?;
        are_just(rt, &map.to_framed_bytes(alloc)?, bytes);
        for end in 0..bytes.len() {
            let refusal = Rows::<'a, C0, C1, D>::parse_framed(&bytes[..end]).err();
            assert!(rt; refusal == Some(FormError::Frame));
        }
    }
    let triples = [(2, 3, "tres"), (1, 1, "uno"), (2, 2, "dos")];
    let map = Rows::<'a, C0, C1, D>::try_from_triples(alloc, &triples)?;
    are_just(rt, &map.to_framed_bytes(alloc)?, MAP2D);
    Ok(())
}

// Texts, and what the maps are written as that they are read as, or why they are none.
const ROWS: Cases<'_> = r#"
Ok {"1":{"1":"uno"},"2":{"2":"dos","3":"tres"}}
Ok {}
Ok {"1":{}} -> {}
Ok {"1":{},"2":{"2":"dos"}} -> {"2":{"2":"dos"}}
Shape {"1":7}
BadKey {"01":7}
BadKey {"1":{"65536":"uno"}}
Shape {"1":{"1":7}}
Shape []
"#;

// Maps are objects of objects.
fn have_texts<'a, C0, C1, D>(rt: &impl Abort, alloc: Global) -> Result<(), Fail>
where
    C0: MutableZeroVecLike<'a, u32>,
    C1: MutableZeroVecLike<'a, u16>,
    D: MutableZeroVecLike<'a, StrULE>,
{
    for line in ROWS.lines() {
        let Some((text, wanted)) = case_of(rt, line) else {
            continue;
        };
        match Rows::<'a, C0, C1, D>::from_json_text(alloc, text) {
            Ok(map) => is_text(rt, alloc, &map.to_json(alloc)?, wanted.unwrap_or(""))?,
            Err(error) => assert!(rt; wanted == Err(error), "{text}"),
        }
    }
    let triples = [(1u32, 1u16, "uno"), (2, 2, "dos")];
    let mut map = Rows::<'a, C0, C1, D>::try_from_triples(alloc, &triples)?;
    let _ = map.insert(alloc, &2, &3, &"tres")?;
    let wanted = "{\"1\":{\"1\":\"uno\"},\"2\":{\"2\":\"dos\",\"3\":\"tres\"}}";
    is_text(rt, alloc, &map.to_json(alloc)?, wanted)
}

// The form of the row 1 with the pair of 2 to three.
const THREE: &[u8] = b"\
    \x02\0\0\0\0\0\0\0\x01\0\
    \x04\0\0\0\0\0\0\0\x01\0\0\0\
    \x02\0\0\0\0\0\0\0\x02\0\
    \x07\0\0\0\0\0\0\0\x01\0three";

// A map of one pair has that form.
fn is_inserted<'a, C, D>(rt: &impl Abort, alloc: Global) -> Result<(), Fail>
where
    C: MutableZeroVecLike<'a, u16> + OneLayout<u16>,
    D: MutableZeroVecLike<'a, StrULE> + OneLayout<StrULE>,
{
    let mut map = Map2dOver::<'a, u16, u16, StrULE, C, C, D>::new();
    map.insert(alloc, &1, &2, &"three")?;
    are_just(rt, &map.to_framed_bytes(alloc)?, THREE);
    Ok(())
}

/// Maps of two numbers to texts have both forms.
pub(crate) fn have_both<'a, C0, C1, D>(rt: &impl Abort, alloc: Global) -> Result<(), Fail>
where
    C0: MutableZeroVecLike<'a, u32> + OneLayout<u32>,
    C1: MutableZeroVecLike<'a, u16> + OneLayout<u16>,
    D: MutableZeroVecLike<'a, StrULE> + OneLayout<StrULE>,
{
    have_frames::<C0, C1, D>(rt, alloc, &[MAP2D, NONE])?;
    have_texts::<C0, C1, D>(rt, alloc)?;
    is_inserted::<C1, D>(rt, alloc)
}

// ---- maps whose keys are bytes that aren't 0

// Bytes that are no form of a map.
const FAULTS: &[Fault<'_>] = &[
    // a joiner that is no numbers; that, and a bad first key; that, and a bad second key
    (
        b"\x01\0\0\0\0\0\0\0\x01\x03\0\0\0\0\0\0\0\x01\0\0\
        \x01\0\0\0\0\0\0\0\x01\x03\0\0\0\0\0\0\0\x01\0a",
        SHORT_NUMBER,
    ),
    (
        b"\x01\0\0\0\0\0\0\0\0\x03\0\0\0\0\0\0\0\x01\0\0\
        \x01\0\0\0\0\0\0\0\x01\x03\0\0\0\0\0\0\0\x01\0a",
        ZERO_KEY,
    ),
    (
        b"\x01\0\0\0\0\0\0\0\x01\x03\0\0\0\0\0\0\0\x01\0\0\
        \x01\0\0\0\0\0\0\0\0\x03\0\0\0\0\0\0\0\x01\0a",
        SHORT_NUMBER,
    ),
    // a second key that is none; a value that is none; both
    (
        b"\x01\0\0\0\0\0\0\0\x01\x04\0\0\0\0\0\0\0\x01\0\0\0\
        \x01\0\0\0\0\0\0\0\0\x03\0\0\0\0\0\0\0\x01\0a",
        ZERO_KEY,
    ),
    (
        b"\x01\0\0\0\0\0\0\0\x01\x04\0\0\0\0\0\0\0\x01\0\0\0\
        \x01\0\0\0\0\0\0\0\x01\x03\0\0\0\0\0\0\0\x01\0\xff",
        NO_TEXTS,
    ),
    (
        b"\x01\0\0\0\0\0\0\0\x01\x04\0\0\0\0\0\0\0\x01\0\0\0\
        \x01\0\0\0\0\0\0\0\0\x03\0\0\0\0\0\0\0\x01\0\xff",
        ZERO_KEY,
    ),
    // a first key without an end, and a second key that is none
    (
        b"\x02\0\0\0\0\0\0\0\x01\x02\x04\0\0\0\0\0\0\0\x01\0\0\0\
        \x01\0\0\0\0\0\0\0\0\x03\0\0\0\0\0\0\0\x01\0a",
        ZERO_KEY,
    ),
    // a first key without an end, which is above the pairs, or 0; a second key without a value
    (
        b"\x02\0\0\0\0\0\0\0\x01\x02\x04\0\0\0\0\0\0\0\x02\0\0\0\
        \x01\0\0\0\0\0\0\0\x01\x03\0\0\0\0\0\0\0\x01\0a",
        FormError::Count,
    ),
    (
        b"\x02\0\0\0\0\0\0\0\x01\x02\x04\0\0\0\0\0\0\0\0\0\0\0\
        \x01\0\0\0\0\0\0\0\x01\x03\0\0\0\0\0\0\0\x01\0a",
        FormError::Count,
    ),
    (
        b"\x01\0\0\0\0\0\0\0\x01\x04\0\0\0\0\0\0\0\x01\0\0\0\
        \x01\0\0\0\0\0\0\0\x01\0\0\0\0\0\0\0\0",
        FormError::Count,
    ),
    // ends that stay; an end of 0, which is not above the pairs; ends that fall to another than the
    // pairs
    (
        b"\x02\0\0\0\0\0\0\0\x01\x02\x08\0\0\0\0\0\0\0\x01\0\0\0\x01\0\0\0\
        \x01\0\0\0\0\0\0\0\x01\x03\0\0\0\0\0\0\0\x01\0a",
        FormError::JoinerOrder,
    ),
    (
        b"\x01\0\0\0\0\0\0\0\x01\x04\0\0\0\0\0\0\0\0\0\0\0\
        \x01\0\0\0\0\0\0\0\x01\x03\0\0\0\0\0\0\0\x01\0a",
        FormError::JoinerOrder,
    ),
    (
        b"\x02\0\0\0\0\0\0\0\x01\x02\x08\0\0\0\0\0\0\0\x03\0\0\0\x02\0\0\0\
        \x01\0\0\0\0\0\0\0\x01\x03\0\0\0\0\0\0\0\x01\0a",
        FormError::JoinerOrder,
    ),
    // a pair and no end; an end above the pairs; that, and first keys that fall
    (
        b"\0\0\0\0\0\0\0\0\0\0\0\0\0\0\0\0\
        \x01\0\0\0\0\0\0\0\x01\x03\0\0\0\0\0\0\0\x01\0a",
        FormError::JoinerEnd,
    ),
    (
        b"\x01\0\0\0\0\0\0\0\x01\x04\0\0\0\0\0\0\0\x02\0\0\0\
        \x01\0\0\0\0\0\0\0\x01\x03\0\0\0\0\0\0\0\x01\0a",
        FormError::JoinerEnd,
    ),
    (
        b"\x02\0\0\0\0\0\0\0\x02\x01\x08\0\0\0\0\0\0\0\x01\0\0\0\x02\0\0\0\
        \x01\0\0\0\0\0\0\0\x01\x03\0\0\0\0\0\0\0\x01\0a",
        FormError::JoinerEnd,
    ),
    // first keys that fall; second keys of a row that do
    (
        b"\x02\0\0\0\0\0\0\0\x02\x01\x08\0\0\0\0\0\0\0\x01\0\0\0\x02\0\0\0\
        \x02\0\0\0\0\0\0\0\x01\x02\x06\0\0\0\0\0\0\0\x02\0\x01\0ab",
        FormError::KeyOrder,
    ),
    (
        b"\x01\0\0\0\0\0\0\0\x01\x04\0\0\0\0\0\0\0\x02\0\0\0\
        \x02\0\0\0\0\0\0\0\x02\x01\x06\0\0\0\0\0\0\0\x02\0\x01\0ab",
        FormError::KeyOrder,
    ),
    // a map and a byte behind
    (
        b"\x01\0\0\0\0\0\0\0\x01\x04\0\0\0\0\0\0\0\x01\0\0\0\
        \x01\0\0\0\0\0\0\0\x01\x03\0\0\0\0\0\0\0\x01\0a\0",
        FormError::Frame,
    ),
    // a bad first key, a joiner that is no numbers, a value that is none, and a byte behind each; a
    // bad first key, and a fourth length past the bytes
    (
        b"\x01\0\0\0\0\0\0\0\0\x04\0\0\0\0\0\0\0\x01\0\0\0\
        \x01\0\0\0\0\0\0\0\x01\x03\0\0\0\0\0\0\0\x01\0a\0",
        FormError::Frame,
    ),
    (
        b"\x01\0\0\0\0\0\0\0\x01\x03\0\0\0\0\0\0\0\x01\0\0\
        \x01\0\0\0\0\0\0\0\x01\x03\0\0\0\0\0\0\0\x01\0a\0",
        FormError::Frame,
    ),
    (
        b"\x01\0\0\0\0\0\0\0\x01\x04\0\0\0\0\0\0\0\x01\0\0\0\
        \x01\0\0\0\0\0\0\0\x01\x03\0\0\0\0\0\0\0\x01\0\xff\0",
        FormError::Frame,
    ),
    (
        b"\x01\0\0\0\0\0\0\0\0\x04\0\0\0\0\0\0\0\x01\0\0\0\
        \x01\0\0\0\0\0\0\0\x01\x04\0\0\0\0\0\0\0\x01\0a",
        FormError::Frame,
    ),
];

/// Bytes are refused as a map whose keys are bytes that aren't 0.
pub(crate) fn are_refused<'a, C, D>(rt: &impl Abort)
where
    C: MutableZeroVecLike<'a, NonZeroU8> + OneLayout<NonZeroU8>,
    D: MutableZeroVecLike<'a, StrULE> + OneLayout<StrULE>,
{
    for (bytes, error) in FAULTS {
        let read = Map2dOver::<'a, NonZeroU8, NonZeroU8, StrULE, C, C, D>::parse_framed(bytes);
        assert!(rt; read.err() == Some(*error), "{error}");
    }
}
