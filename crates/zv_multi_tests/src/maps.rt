// Records and other composed elements as keys and as values of maps.
ghost use Rattle.std.specs.Prelude.{IsTrue};

use std::alloc::Global;
use std::process::Abort;
use std::test::Fail;
use zv_map::ZeroMapKV;
use zv_map1::ZeroMap;
use zv_multi::{MultiFieldsULE, OptionVarULE, Tuple2VarULE, VarTupleULE};
use zv_owned::VarZeroVec16;
use zv_ule::{Index8, SliceULE, StrULE, VarRef, VarULE, ZvKind, ZvOrd};

// A text, and bytes.
type Pair = Tuple2VarULE<StrULE, SliceULE<u8>, Index8>;

// A number, and a text.
type Named = VarTupleULE<u16, StrULE>;

type OptionalText = OptionVarULE<StrULE>;

// The bytes of a key, and of its value.
type Entry<'b> = (&'b [u8], &'b [u8]);

// The key and the value that bytes spell.
fn entry<'b, K: ZvKind, V: ZvKind>(bytes: Entry<'b>) -> Result<(VarRef<'b, K>, VarRef<'b, V>), Fail>
    requires key { IsTrue K.usable }
    requires value { IsTrue V.usable }
{
    Ok((VarRef::new(bytes.0)?, VarRef::new(bytes.1)?))
}

// A map that gets entries one by one finds each, and its lists have these bytes.
fn are_mapped<'a, K: ZeroMapKV<'a> + ZvOrd, V: ZeroMapKV<'a>>(
    rt: &impl Abort,
    alloc: Global,
    entries: &[Entry<'_>],
    keys: &[u8],
    values: &[u8],
) -> Result<(), Fail>
    requires key { IsTrue K.usable }
    requires value { IsTrue V.usable }
{
    let mut map = ZeroMap::<'a, K, V>::new();
    for bytes in entries {
        let (key, value) = entry::<K, V>(*bytes)?;
        assert!(rt; map.insert(alloc, &key, &value)?.is_none());
    }
    assert!(rt; *map.keys().bytes() == *keys);
    assert!(rt; *map.values().bytes() == *values);
    for bytes in entries {
        let found = map.get(&VarRef::<'_, K>::new(bytes.0)?);
        assert!(rt; found.is_some_and(|value| *value.as_bytes() == *bytes.1));
    }
    Ok(())
}

#[test]
fn records_are_values_of_a_map(rt: HostRuntime) -> Result<(), Fail> {
    are_mapped::<StrULE, Pair>(
        &rt,
        rt.alloc(),
        &[(b"en", b"\x07English\x01"), (b"de", b"\x07Deutsch")],
        b"\x02\0\x02\0deen",
        b"\x02\0\x08\0\x07Deutsch\x07English\x01",
    )
}

#[test]
fn records_are_keys_by_their_fields(rt: HostRuntime) -> Result<(), Fail> {
    // "b", "aa" and "a" with a byte behind it.
    are_mapped::<Pair, u16>(
        &rt,
        rt.alloc(),
        &[
            (b"\x01b", &[1, 0]),
            (b"\x02aa", &[2, 0]),
            (b"\x01a\x09", &[3, 0]),
        ],
        b"\x03\0\x03\0\x06\0\x01a\x09\x02aa\x01b",
        &[3, 0, 2, 0, 1, 0],
    )
}

#[test]
fn numbers_before_texts_are_keys_and_values(rt: HostRuntime) -> Result<(), Fail> {
    are_mapped::<Named, Named>(
        &rt,
        rt.alloc(),
        &[(b"\0\x06a", b"\x01\0"), (b"\xdc\x05b", b"\x02\0c")],
        b"\x02\0\x03\0\xdc\x05b\0\x06a",
        b"\x02\0\x03\0\x02\0c\x01\0",
    )
}

#[test]
fn optional_texts_are_keys_and_values(rt: HostRuntime) -> Result<(), Fail> {
    are_mapped::<OptionalText, OptionalText>(
        &rt,
        rt.alloc(),
        &[(b"\x01a", b"\0"), (b"\x01", b"\x01b"), (b"\0", b"\x01")],
        b"\x03\0\x01\0\x02\0\0\x01\x01a",
        b"\x03\0\x01\0\x03\0\x01\x01b\0",
    )
}

#[test]
fn records_of_bytes_are_values(rt: HostRuntime) -> Result<(), Fail> {
    are_mapped::<u8, MultiFieldsULE<2, Index8>>(
        &rt,
        rt.alloc(),
        &[(&[5], b"\x01ab"), (&[4], b"\0c")],
        &[4, 5],
        b"\x02\0\x02\0\0c\x01ab",
    )
}
