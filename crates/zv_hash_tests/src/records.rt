// Records and other composed elements as values of hash tables.
ghost use Rattle.std.specs.Prelude.{IsTrue};

use std::alloc::Global;
use std::process::Abort;
use std::test::Fail;
use zv_hashmap::{HashBytes, ZeroHashMap};
use zv_map::ZeroMapKV;
use zv_multi::{OptionVarULE, Tuple2VarULE, VarTupleULE};
use zv_ule::{Index8, SliceULE, StrULE, VarRef, ZvKind};

// A text, and bytes.
type Pair = Tuple2VarULE<StrULE, SliceULE<u8>, Index8>;

// A number, and a text.
type Named = VarTupleULE<u16, StrULE>;

type OptionalText = OptionVarULE<StrULE>;

// The bytes of a key, and of its value.
type Entry<'b> = (&'b [u8], &'b [u8]);

// The key and the value that bytes spell.
fn entry<'b, K: ZvKind, V: ZvKind>(bytes: Entry<'b>) -> Result<(VarRef<'b, K>, VarRef<'b, V>), Fail>
    requires key { IsTrue K.usable }
    requires value { IsTrue V.usable }
{
    Ok((VarRef::new(bytes.0)?, VarRef::new(bytes.1)?))
}

// A table of entries answers each key, stored or not, as they do.
fn are_answered<'a, K: ZeroMapKV<'a> + HashBytes, V: ZeroMapKV<'a>>(
    rt: &impl Abort,
    alloc: Global,
    entries: &[Entry<'_>],
    missing: &[u8],
    values: &[u8],
) -> Result<(), Fail>
    requires key { IsTrue K.usable }
    requires value { IsTrue V.usable }
{
    let mut pairs = Vec::new(alloc);
    for bytes in entries {
        pairs.push(entry::<K, V>(*bytes)?)?;
    }
    let table = ZeroHashMap::<'a, K, V>::try_from_pairs(alloc, &pairs)?;
    assert!(rt; table.values().bytes() == values);
    for (key, value) in entries {
        let found = table.get(&VarRef::<'_, K>::new(key)?);
        assert!(rt; found.is_some_and(|found| found.as_bytes() == *value));
    }
    assert!(rt; table.get(&VarRef::<'_, K>::new(missing)?).is_none());
    Ok(())
}

#[test]
fn records_are_values_of_a_hash_table(rt: HostRuntime) -> Result<(), Fail> {
    // The slots of the keys 0, 1 and 2 are 2, 0 and 1.
    are_answered::<u32, Pair>(
        &rt,
        rt.alloc(),
        &[
            (&[0, 0, 0, 0], b"\x01a\x09"),
            (&[1, 0, 0, 0], b"\x02aa"),
            (&[2, 0, 0, 0], b"\x01b"),
        ],
        &[3, 0, 0, 0],
        b"\x03\0\x03\0\x05\0\x02aa\x01b\x01a\x09",
    )
}

#[test]
fn composed_elements_are_values_of_a_hash_table(rt: HostRuntime) -> Result<(), Fail> {
    are_answered::<u32, Named>(
        &rt,
        rt.alloc(),
        &[(&[5, 0, 0, 0], b"\x02\0c")],
        &[6, 0, 0, 0],
        b"\x01\0\x02\0c",
    )?;
    are_answered::<u32, OptionalText>(
        &rt,
        rt.alloc(),
        &[(&[5, 0, 0, 0], b"\0")],
        &[6, 0, 0, 0],
        b"\x01\0\0",
    )
}
