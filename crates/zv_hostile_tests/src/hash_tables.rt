// Framed hash tables whose parts lie: what is found, and whether a table is what it says.
use std::alloc::Global;
use std::process::Abort;
use std::test::Fail;
use zv_framed::{FormError, Framed, OneLayout};
use zv_hashmap::HashMapOver;
use zv_map::{MutableZeroVecLike, ZeroMapKV, ZvContainer};
use zv_ule::StrULE;

type Of<'a, K> = <K as ZeroMapKV<'a>>::Container;

// A table from numbers to texts.
type Table<'a, C, D> = HashMapOver<'a, u32, StrULE, C, D>;

// What the keys 0, 1 and 2 have, and whether each key that is stored leads to its own slot.
struct Answers<'p> {
    found: [Option<&'p str>; 3],
    is_verified: bool,
}

// Parts: displacements, keys and values. What a table of them answers, and nothing where their
// counts disagree.
struct Parts<'p> {
    name: &'p str,
    parts: [&'p [u8]; 3],
    answers: Option<Answers<'p>>,
}

// The displacements (0, 0), (0, 1), (0, 1), by which 1, 2 and 0 are in the slots 0, 1 and 2.
const DISPLACEMENTS: &[u8] = b"\0\0\0\0\0\0\0\0\0\0\0\0\x01\0\0\0\0\0\0\0\x01\0\0\0";

const KEYS: &[u8] = b"\x01\0\0\0\x02\0\0\0\0\0\0\0";

const VALUES: &[u8] = b"\x03\0\x01\0\x02\0bca";

const TABLES: [Parts<'static>; 9] = [
    Parts {
        name: "a table that tells the truth",
        parts: [DISPLACEMENTS, KEYS, VALUES],
        answers: Some(Answers {
            found: [Some("a"), Some("b"), Some("c")],
            is_verified: true,
        }),
    },
    Parts {
        name: "displacements of zeros",
        parts: [&[0; 24], KEYS, VALUES],
        answers: Some(Answers {
            found: [None, None, None],
            is_verified: false,
        }),
    },
    Parts {
        name: "keys in wrong slots",
        parts: [DISPLACEMENTS, b"\x02\0\0\0\x01\0\0\0\0\0\0\0", VALUES],
        answers: Some(Answers {
            found: [Some("a"), None, None],
            is_verified: false,
        }),
    },
    Parts {
        name: "values in wrong slots, which no key can tell",
        parts: [DISPLACEMENTS, KEYS, b"\x03\0\x01\0\x02\0cba"],
        answers: Some(Answers {
            found: [Some("a"), Some("c"), Some("b")],
            is_verified: true,
        }),
    },
    Parts {
        name: "two displacements of three keys",
        parts: [b"\0\0\0\0\0\0\0\0\0\0\0\0\x01\0\0\0", KEYS, VALUES],
        answers: None,
    },
    Parts {
        name: "no displacements",
        parts: [b"", KEYS, VALUES],
        answers: None,
    },
    Parts {
        name: "two keys of three",
        parts: [DISPLACEMENTS, b"\x01\0\0\0\x02\0\0\0", VALUES],
        answers: None,
    },
    Parts {
        name: "no values",
        parts: [DISPLACEMENTS, KEYS, b""],
        answers: None,
    },
    Parts {
        name: "one value of three",
        parts: [DISPLACEMENTS, KEYS, b"\x01\0a"],
        answers: None,
    },
];

// What a table finds is this.
fn finds<C, D>(rt: &impl Abort, table: &Table<'_, C, D>, parts: &Parts<'_>)
where
    C: ZvContainer<u32>,
    D: ZvContainer<StrULE>,
{
    let name = parts.name;
    let Some(answers) = &parts.answers else {
        panic!(rt; "{name}");
    };
    for key in 0..3u32 {
        let wanted = answers.found[key as usize];
        let found = table.get(&key).map(|text| text.as_str());
        assert!(rt; found == wanted, "{name}: {key}");
        assert!(rt;
            table.contains_key(&key) == wanted.is_some(),
            "{name}: {key}"
        );
    }
    assert!(rt; table.verify() == answers.is_verified, "{name}");
}

// The framed parts are a table that answers so, or none.
fn try_parts<'a, C, D>(rt: &impl Abort, bytes: &'a [u8], parts: &Parts<'_>)
where
    C: MutableZeroVecLike<'a, u32> + OneLayout<u32> + Drop,
    D: MutableZeroVecLike<'a, StrULE> + OneLayout<StrULE> + Drop,
{
    let name = parts.name;
    match Table::<'a, C, D>::parse_framed(bytes) {
        Ok(table) => finds(rt, &table, parts),
        Err(error) => {
            assert!(rt; error == FormError::Count, "{name}");
            assert!(rt; parts.answers.is_none(), "{name}");
        }
    }
}

// The parts one after another, each behind its length.
fn framed(alloc: Global, parts: [&[u8]; 3]) -> Result<Vec<u8>, Fail> {
    let mut bytes = Vec::new(alloc);
    for part in parts {
        bytes.extend_from_slice(&(part.len() as u64).to_le_bytes())?;
        bytes.extend_from_slice(part)?;
    }
    Ok(bytes)
}

#[test]
fn tables_that_lie_find_no_wrong_key(rt: HostRuntime) -> Result<(), Fail> {
    for parts in &TABLES {
        let bytes = framed(rt.alloc(), parts.parts)?;
        try_parts::<Of<'_, u32>, Of<'_, StrULE>>(&rt, &bytes, parts);
    }
    Ok(())
}
