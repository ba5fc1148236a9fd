// A frozen image of which one byte is changed is refused, or has what it stores.
ghost use Rattle.std.specs.Prelude.{◌<◌};

use crate::few::FROZEN;
use std::alloc::Global;
use std::process::Abort;
use std::test::Fail;
use zv_frozen::Frozen;
use zv_map2d::ZeroMap2dBorrowed;
use zv_ule::{ZvKind, ZvOrd};

// Whether a frozen image has the pairs of a map, whose keys are texts, and no others.
fn has_pairs<K: ZvOrd, V: ZvKind>(
    frozen: &Frozen<'_>,
    map: ZeroMap2dBorrowed<'_, K, K, V>,
) -> bool {
    let mut count = 0usize;
    for row in map.iter0() {
        let key0 = row.key0();
        for (key1, value) in row.iter1() {
            let (Ok(key0), Ok(key1)) = (
                str::from_utf8(key0.as_bytes()),
                str::from_utf8(key1.as_bytes()),
            ) else {
                return false;
            };
            match frozen.get(key0, key1) {
                Some(found) if found.as_bytes() == value.as_bytes() => {}
                _ => return false,
            }
            count = count.saturating_add(1);
        }
    }
    count == frozen.len()
}

// Whether bytes are read. What they thaw to is then found, each pair with its value.
fn is_read(rt: &impl Abort, alloc: Global, bytes: &[u8]) -> Result<bool, Fail> {
    let Ok(frozen) = Frozen::parse(bytes) else {
        return Ok(false);
    };
    assert!(rt; has_pairs(&frozen, frozen.thaw(alloc)?.as_borrowed()));
    Ok(true)
}

// How many of the 255 changes of the byte at a place leave bytes that are read, where no hash is
// needed to tell.
fn reads_at(place: usize) -> Option<usize> {
    match place {
        // the second number of a displacement: 2, 2 and 1, of which its remainder by 3 counts
        12 | 20 | 28 => Some(84),
        13..=15 | 21..=23 | 29..=31 => Some(85),
        // its first number, or a text of a key: a hash tells
        8..=11 | 16..=19 | 24..=27 | 50 | 51 | 56 | 57 | 62 | 63 => None,
        // where the second value begins: at 0 or 2, and the third: at 1 or 3
        74 | 76 => Some(2),
        // a value: any byte
        78..=80 => Some(255),
        // a length, a count, where a key begins, or how long its first text is: none
        _ => Some(0),
    }
}

// How many changes of the byte at a place leave bytes that are read.
fn try_changes(rt: &impl Abort, alloc: Global, place: usize) -> Result<usize, Fail>
    requires { place < 81 }
{
    let mut changed = FROZEN;
    let mut reads = 0usize;
    for bits in 1..=255u8 {
        changed[place] = FROZEN[place] ^ bits;
        if is_read(rt, alloc, &changed)? {
            reads = reads.saturating_add(1);
        }
    }
    Ok(reads)
}

#[test]
fn each_byte_is_changed(rt: HostRuntime) -> Result<(), Fail> {
    let alloc = rt.alloc();
    assert!(rt; is_read(&rt, alloc, &FROZEN)?);
    assert!(rt; Frozen::parse(&FROZEN)?.len() == 3);
    for place in 0..FROZEN.len() {
        let reads = try_changes(&rt, alloc, place)?;
        if let Some(wanted) = reads_at(place) {
            assert!(rt; reads == wanted, "{place}");
        }
    }
    Ok(())
}

#[test]
fn each_front_is_refused(rt: HostRuntime) -> Result<(), Fail> {
    for len in 0..FROZEN.len() {
        assert!(rt; Frozen::parse(&FROZEN[..len]).is_err());
    }
    Ok(())
}
