// Hash tables of numbers and texts: built, read, and made of parts that lie.
ghost use Rattle.std.specs.Prelude.{◌<◌, ◌^◌, length};
ghost use Rattle.std.specs.List.{All};

use std::alloc::Global;
use std::process::Abort;
use std::test::Fail;
use zv_fixed::ZeroVec;
use zv_hash::HashError;
use zv_hashmap::{HashPartsError, ZeroHashMap};
use zv_owned::VarZeroVec16;
use zv_ule::StrULE;

type Table<'a> = ZeroHashMap<'a, u32, StrULE>;

// The table of pairs.
fn table(alloc: Global, pairs: &[(u32, &str)]) -> Result<Table<'static>, HashError>
    requires { All (λ p. length p.1.now < 2 ^ 64) pairs.now }
{
    Table::try_from_pairs(alloc, pairs)
}

// What a key has is this text, or nothing.
fn has(rt: &impl Abort, table: &Table<'_>, key: u32, wanted: Option<&str>) {
    let found = table.get(&key);
    assert!(rt; table.contains_key(&key) == wanted.is_some());
    match (found, wanted) {
        (Some(found), Some(wanted)) => assert!(rt; found.as_str() == wanted),
        (None, None) => {}
        _ => panic!(rt; "the key has something else"),
    }
}

// The bytes of the three vectors are these.
fn has_bytes(rt: &impl Abort, table: &Table<'_>, displacements: &[u8], keys: &[u8], values: &[u8]) {
    assert!(rt; *table.displacements().as_bytes() == *displacements);
    assert!(rt; *table.keys().bytes() == *keys);
    assert!(rt; *table.values().bytes() == *values);
    assert!(rt; table.len() == displacements.len() / 8);
    assert!(rt; table.is_empty() == displacements.is_empty());
}

// The displacements (0, 0), (0, 1), (0, 1).
const DISPLACEMENTS: &[u8] = b"\0\0\0\0\0\0\0\0\0\0\0\0\x01\0\0\0\0\0\0\0\x01\0\0\0";

// The keys 1, 2, 0.
const KEYS: &[u8] = b"\x01\0\0\0\x02\0\0\0\0\0\0\0";

// The values b, c, a.
const VALUES: &[u8] = b"\x03\0\x01\0\x02\0bca";

#[test]
fn three_pairs(rt: HostRuntime) -> Result<(), Fail> {
    let table = table(rt.alloc(), &[(0, "a"), (1, "b"), (2, "c")])?;
    has_bytes(&rt, &table, DISPLACEMENTS, KEYS, VALUES);
    has(&rt, &table, 0, Some("a"));
    has(&rt, &table, 1, Some("b"));
    has(&rt, &table, 2, Some("c"));
    has(&rt, &table, 3, None);
    assert!(rt; table.verify());
    Ok(())
}

#[test]
fn one_pair(rt: HostRuntime) -> Result<(), Fail> {
    let table = table(rt.alloc(), &[(5, "a")])?;
    has_bytes(
        &rt,
        &table,
        b"\0\0\0\0\x01\0\0\0",
        b"\x05\0\0\0",
        b"\x01\0a",
    );
    has(&rt, &table, 5, Some("a"));
    has(&rt, &table, 6, None);
    assert!(rt; table.verify());
    Ok(())
}

#[test]
fn no_pair(rt: HostRuntime) -> Result<(), Fail> {
    let table = table(rt.alloc(), &[])?;
    has_bytes(&rt, &table, b"", b"", b"");
    has(&rt, &table, 0, None);
    assert!(rt; table.verify());
    Ok(())
}

#[test]
fn a_repeated_key_is_refused(rt: HostRuntime) {
    let refused = table(rt.alloc(), &[(1, "a"), (2, "b"), (1, "c")]).err();
    let repeated = HashError::Repeated {
        first: 0,
        second: 2,
    };
    assert!(rt; refused == Some(repeated));
    let refused = table(
        rt.alloc(),
        &[(4, "a"), (2, "b"), (1, "c"), (2, "d"), (4, "e")],
    )
    .err();
    let repeated = HashError::Repeated {
        first: 1,
        second: 3,
    };
    assert!(rt; refused == Some(repeated));
}

#[test]
fn pairs_stand_in_their_slots(rt: HostRuntime) -> Result<(), Fail> {
    let table = table(rt.alloc(), &[(0, "a"), (1, "b"), (2, "c")])?;
    for ((key, value), wanted) in table.iter().zip([(1, "b"), (2, "c"), (0, "a")]) {
        assert!(rt; (key.value(), value.as_str()) == wanted);
    }
    for (key, wanted) in table.iter_keys().zip([1, 2, 0]) {
        assert!(rt; key.value() == wanted);
    }
    for (value, wanted) in table.iter_values().zip(["b", "c", "a"]) {
        assert!(rt; value.as_str() == wanted);
    }
    Ok(())
}

// The table of three vectors that borrow these bytes, or why there is none.
fn parts<'a>(
    displacements: &'a [u8],
    keys: &'a [u8],
    values: &'a [u8],
) -> Result<Result<Table<'a>, HashPartsError>, Fail> {
    let displacements = ZeroVec::parse_bytes(displacements)?;
    let keys = ZeroVec::parse_bytes(keys)?;
    let values = VarZeroVec16::parse_bytes(values)?;
    Ok(Table::from_parts(displacements, keys, values))
}

#[test]
fn parts_are_taken_as_they_are(rt: HostRuntime) -> Result<(), Fail> {
    let table = parts(DISPLACEMENTS, KEYS, VALUES)??;
    has(&rt, &table, 0, Some("a"));
    has(&rt, &table, 3, None);
    assert!(rt; table.verify());
    Ok(())
}

#[test]
fn displacements_of_zeros_lead_nowhere(rt: HostRuntime) -> Result<(), Fail> {
    let table = parts(&[0; 24], KEYS, VALUES)??;
    has(&rt, &table, 0, None);
    has(&rt, &table, 1, None);
    has(&rt, &table, 2, None);
    assert!(rt; !table.verify());
    Ok(())
}

#[test]
fn keys_in_wrong_slots_are_not_found(rt: HostRuntime) -> Result<(), Fail> {
    let table = parts(DISPLACEMENTS, b"\x02\0\0\0\x01\0\0\0\0\0\0\0", VALUES)??;
    has(&rt, &table, 0, Some("a"));
    has(&rt, &table, 1, None);
    has(&rt, &table, 2, None);
    assert!(rt; !table.verify());
    Ok(())
}

#[test]
fn wrong_counts_are_refused(rt: HostRuntime) -> Result<(), Fail> {
    let refused = parts(&DISPLACEMENTS[..16], KEYS, VALUES)?.err();
    assert!(rt; refused == Some(HashPartsError::DisplacementCount));
    let refused = parts(&DISPLACEMENTS[..16], KEYS, b"\x01\0a")?.err();
    assert!(rt; refused == Some(HashPartsError::KeyValueCount));
    Ok(())
}

#[test]
fn errors_are_written(rt: HostRuntime) -> Result<(), Fail> {
    let alloc = rt.alloc();
    let repeated = HashError::Repeated {
        first: 0,
        second: 2,
    };
    assert!(rt; format!(in alloc; "{repeated}")?.as_str() == "key 2 repeats key 0");
    let unplaced = HashError::NoPlace { bucket: 3 };
    assert!(rt; format!(in alloc; "{unplaced}")?.as_str() == "no displacement fits bucket 3");
    Ok(())
}
