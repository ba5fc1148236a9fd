// Maps in one level in either form, over any containers.

use crate::framed;
use crate::framed::errors::{NO_TEXTS, SHORT_NUMBER};
use crate::framed::{Fault, is_read};
use crate::json::{Cases, is_written, long_text, reads, refuses};
use std::alloc::Global;
use std::process::Abort;
use std::test::Fail;
use zv_framed::{FormError, OneLayout};
use zv_json::JsonError::TooLarge;
use zv_map::MutableZeroVecLike;
use zv_map1::MapOver;
use zv_ule::StrULE;

// ---- maps of numbers to texts

type Names<C, D> = MapOver<u32, StrULE, C, D>;

// The form of the keys 1, 2, 3 with the values uno, dos, tres.
const MAP: &[u8] = b"\
    \x0c\0\0\0\0\0\0\0\x01\0\0\0\x02\0\0\0\x03\0\0\0\
    \x10\0\0\0\0\0\0\0\x03\0\x03\0\x06\0unodostres";

// The form of a map of no pairs.
const NONE: &[u8] = &[0; 16];

// Bytes that are no form of a map.
const FAULTS: &[Fault<'_>] = &[
    // bad keys; bad values; both
    (
        b"\x03\0\0\0\0\0\0\0\x01\0\0\x03\0\0\0\0\0\0\0\x01\0a",
        SHORT_NUMBER,
    ),
    (
        b"\x04\0\0\0\0\0\0\0\x01\0\0\0\x03\0\0\0\0\0\0\0\x01\0\xff",
        NO_TEXTS,
    ),
    (
        b"\x03\0\0\0\0\0\0\0\x01\0\0\x03\0\0\0\0\0\0\0\x01\0\xff",
        SHORT_NUMBER,
    ),
    // two keys and bad values
    (
        b"\x08\0\0\0\0\0\0\0\x01\0\0\0\x02\0\0\0\x03\0\0\0\0\0\0\0\x01\0\xff",
        NO_TEXTS,
    ),
    // bad keys and a byte behind
    (
        b"\x03\0\0\0\0\0\0\0\x01\0\0\x03\0\0\0\0\0\0\0\x01\0aa",
        FormError::Frame,
    ),
    // bad keys, and a second length past the bytes
    (
        b"\x03\0\0\0\0\0\0\0\x01\0\0\x04\0\0\0\0\0\0\0\x01\0a",
        FormError::Frame,
    ),
    // a key without a value; keys that fall; both
    (
        b"\x04\0\0\0\0\0\0\0\x01\0\0\0\0\0\0\0\0\0\0\0",
        FormError::Count,
    ),
    (
        b"\x08\0\0\0\0\0\0\0\x02\0\0\0\x01\0\0\0\x06\0\0\0\0\0\0\0\x02\0\x01\0ab",
        FormError::KeyOrder,
    ),
    (
        b"\x08\0\0\0\0\0\0\0\x02\0\0\0\x02\0\0\0\x06\0\0\0\0\0\0\0\x02\0\x01\0ab",
        FormError::KeyOrder,
    ),
    (
        b"\x08\0\0\0\0\0\0\0\x02\0\0\0\x01\0\0\0\x03\0\0\0\0\0\0\0\x01\0a",
        FormError::Count,
    ),
    // a map and a byte behind
    (
        b"\x04\0\0\0\0\0\0\0\x01\0\0\0\x03\0\0\0\0\0\0\0\x01\0a\0",
        FormError::Frame,
    ),
];

// Their texts.
const NAMES: Cases<'_> = r#"
Ok {"1":"uno","2":"dos","3":"tres"}
Ok {}
Ok [] -> {}
Ok [[1,"a"],[2,"b"]] -> {"1":"a","2":"b"}
Ok {"0":"","4294967295":"x"}
// numbers are no texts: 2 is below 10, and its name is behind
Ok {"2":"b","10":"a"} -> {"10":"a","2":"b"}
// of equal names the last one stays
Ok {"1":"a","1":"b"} -> {"1":"b"}
BadKey {"01":"x"}
BadKey {"4294967296":"x"}
BadKey {"+1":"x"}
BadKey {"-0":"x"}
BadKey {"-1":"x"}
BadKey {" 1":"x"}
BadKey {"1 ":"x"}
BadKey {"":"x"}
BadKey {"1.0":"x"}
Shape {"1":7}
// a key is read before its value
BadKey {"01":7}
Range [[4294967296,7]]
KeyOrder [[1,"a"],[1,"b"]]
KeyOrder [[2,"a"],[1,"b"]]
// and a value before the order is looked at
Shape [[2,"a"],[1,7]]
Shape [[1,"a",0]]
Shape [[1]]
Shape [1]
Shape 7
Syntax {
"#;

// They are read and written as bytes.
fn have_frames<'a, C, D>(rt: &impl Abort, alloc: Global) -> Result<(), Fail>
where
    C: MutableZeroVecLike<'a, u32> + OneLayout<u32>,
    D: MutableZeroVecLike<'a, StrULE> + OneLayout<StrULE>,
{
    is_read::<Names<C, D>>(rt, alloc, &[(MAP, MAP), (NONE, NONE)], FAULTS)?;
    let pairs = [(3, "tres"), (1, "uno"), (2, "dos")];
    let map = Names::<C, D>::try_from_pairs(alloc, &pairs)?;
    framed::is_written(rt, alloc, &map, MAP)
}

// They are read and written as texts, and too large pair by pair.
fn have_texts<'a, C, D>(rt: &impl Abort, alloc: Global) -> Result<(), Fail>
where
    C: MutableZeroVecLike<'a, u32>,
    D: MutableZeroVecLike<'a, StrULE>,
{
    reads::<'_, Names<C, D>>(rt, alloc, NAMES)?;
    let above = long_text(alloc, "{\"1\":\"", 70_000, "\",\"2\":7}")?;
    refuses::<'_, Names<C, D>>(rt, alloc, above.as_str(), TooLarge);
    let pairs = long_text(alloc, "[[1,\"", 70_000, "\"],[0,\"b\"]]")?;
    refuses::<'_, Names<C, D>>(rt, alloc, pairs.as_str(), TooLarge);
    Ok(())
}

/// Maps of numbers to texts have both forms.
pub(crate) fn have_both<'a, C, D>(rt: &impl Abort, alloc: Global) -> Result<(), Fail>
where
    C: MutableZeroVecLike<'a, u32> + OneLayout<u32>,
    D: MutableZeroVecLike<'a, StrULE> + OneLayout<StrULE>,
{
    have_frames::<C, D>(rt, alloc)?;
    have_texts::<C, D>(rt, alloc)
}

// ---- maps whose keys have no names

type Pairs<C, D> = MapOver<(u32, u32), StrULE, C, D>;

const PAIRS: Cases<'_> = r#"
Ok [[[1,1],"uno"],[[2,2],"dos"]]
Ok [] -> {}
Ok {}
KeyOrder [[[2,2],"dos"],[[1,1],"uno"]]
Shape {"1":"uno"}
"#;

/// Maps whose keys are pairs of numbers are arrays.
pub(crate) fn are_arrays<'a, C, D>(rt: &impl Abort, alloc: Global) -> Result<(), Fail>
where
    C: MutableZeroVecLike<'a, (u32, u32)>,
    D: MutableZeroVecLike<'a, StrULE>,
{
    reads::<'_, Pairs<C, D>>(rt, alloc, PAIRS)?;
    let pairs = [((2, 2), "dos"), ((1, 1), "uno")];
    let map = Pairs::<C, D>::try_from_pairs(alloc, &pairs)?;
    is_written(rt, alloc, &map, "[[[1,1],\"uno\"],[[2,2],\"dos\"]]")
}

// ---- maps whose keys are numbers with a sign

const SIGNED: Cases<'_> = r#"
Ok {"-128":-1,"0":2,"127":3}
BadKey {"128":1}
BadKey {"-129":1}
BadKey {"-0":1}
BadKey {"-01":1}
"#;

/// Maps whose keys are numbers with a sign are objects.
pub(crate) fn are_signed<'a, C: MutableZeroVecLike<'a, i8>>(
    rt: &impl Abort,
    alloc: Global,
) -> Result<(), Fail> {
    reads::<'_, MapOver<i8, i8, C, C>>(rt, alloc, SIGNED)
}
