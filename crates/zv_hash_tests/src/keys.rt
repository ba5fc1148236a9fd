// The hashes of keys: XXH64, with the seed of tables, of bytes that were written down by hand.
ghost use Rattle.std.specs.Prelude.{◌<◌, ◌^◌, length, IsTrue};

use std::test::Fail;
use zv_fixed::ZeroSliceULE;
use zv_hashmap::{HashArg, HashBytes, compute_hash};
use zv_ule::{StrULE, VarBox, VarRef};

// Whether an argument, and the element that it is written as, have this hash.
fn is_hashed<K: HashBytes, Q: HashArg<K>>(key: &Q, element: &[u8], hash: u64) -> bool
    requires usable { IsTrue K.usable }
    requires below { length (Q.bytes key.now) < 2 ^ 64 }
{
    let Ok(element) = VarRef::<K>::new(element) else {
        return false;
    };
    compute_hash::<K, Q>(key) == hash && compute_hash::<K, VarRef<'_, K>>(&element) == hash
}

#[test]
fn unsigned_numbers(rt: HostRuntime) {
    assert!(rt; is_hashed::<u8, u8>(&5, b"\x05", 0x36CF_C998_E857_EE0A));
    assert!(rt; is_hashed::<u16, u16>(&0x0102, b"\x02\x01", 0xC0C5_5AE4_C6EB_3CF8));
    assert!(rt; is_hashed::<u32, u32>(&9, b"\x09\0\0\0", 0xDDCC_FD96_5B82_E623));
    let element = b"\x08\x07\x06\x05\x04\x03\x02\x01";
    assert!(rt; is_hashed::<u64, u64>(&0x0102_0304_0506_0708, element, 0x7B63_A510_E77A_DEC6));
    let element = b"\0\0\0\0\0\0\0\0\x01\0\0\0\0\0\0\0";
    assert!(rt; is_hashed::<u128, u128>(&(1 << 64), element, 0x08D1_69D7_8DCF_883C));
}

#[test]
fn signed_numbers(rt: HostRuntime) {
    assert!(rt; is_hashed::<i8, i8>(&-1, b"\xff", 0xEACF_F447_D7DA_E984));
    assert!(rt; is_hashed::<i16, i16>(&-2, b"\xfe\xff", 0x9267_A247_C81B_7061));
    assert!(rt; is_hashed::<i32, i32>(&-2, b"\xfe\xff\xff\xff", 0xB55E_B682_B1C7_92B6));
    assert!(rt; is_hashed::<i64, i64>(&-1, &[0xff; 8], 0xCB38_4928_4AE5_B1C5));
    assert!(rt; is_hashed::<i128, i128>(&-1, &[0xff; 16], 0x6FAD_3E91_B654_7585));
}

#[test]
fn characters(rt: HostRuntime) {
    assert!(rt; is_hashed::<char, char>(&'a', b"a\0\0", 0xE611_FCFB_5727_DB37));
    assert!(rt; is_hashed::<char, char>(&'文', b"\x87\x65\0", 0x9E05_2222_B864_62CE));
}

#[test]
fn texts(rt: HostRuntime) {
    assert!(rt; is_hashed::<StrULE, &str>(&"", b"", 0xEACF_F447_D7DA_E984));
    assert!(rt; is_hashed::<StrULE, &str>(&"abc", b"abc", 0x2A44_9627_50FF_6F7D));
    assert!(rt; is_hashed::<StrULE, &str>(&"w文", b"w\xe6\x96\x87", 0x0C66_4D32_3BCC_4E04));
}

#[test]
fn owned_texts(rt: HostRuntime) -> Result<(), Fail> {
    let text = String::from_str(rt.alloc(), "abc")?;
    assert!(rt; is_hashed::<StrULE, String>(&text, b"abc", 0x2A44_9627_50FF_6F7D));
    let boxed = VarRef::of_str("abc").to_boxed(rt.alloc())?;
    assert!(rt; is_hashed::<StrULE, VarBox<StrULE>>(&boxed, b"abc", 0x2A44_9627_50FF_6F7D));
    Ok(())
}

#[test]
fn lists(rt: HostRuntime) -> Result<(), Fail> {
    let list = VarRef::<'_, ZeroSliceULE<u16>>::new(b"\x01\0\x02\0")?;
    assert!(rt;
        is_hashed::<ZeroSliceULE<u16>, VarRef<'_, ZeroSliceULE<u16>>>(
            &list,
            b"\x01\0\x02\0",
            0x17CD_6847_96D3_DB0F,
        )
    );
    Ok(())
}

#[test]
fn small_tuples(rt: HostRuntime) {
    type Pair = (u8, char);
    assert!(rt; is_hashed::<Pair, Pair>(&(1, 'a'), b"\x01a\0\0", 0x544E_F64A_38AD_E9B3));
    type Three = (u16, u8, u8);
    assert!(rt; is_hashed::<Three, Three>(&(1, 2, 3), b"\x01\0\x02\x03", 0xBC59_BE5B_55D7_B03E));
    type Nested = (u8, (u16, char));
    assert!(rt;
        is_hashed::<Nested, Nested>(&(1, (2, 'a')), b"\x01\x02\0a\0\0", 0xC0E6_702F_0A1E_515B)
    );
}

#[test]
fn large_tuples(rt: HostRuntime) {
    type Four = (u8, u8, u8, u8);
    assert!(rt; is_hashed::<Four, Four>(&(1, 2, 3, 4), b"\x01\x02\x03\x04", 0x67AA_F48D_5359_7DD7));
    type Five = (u8, u8, u8, u8, u8);
    assert!(rt;
        is_hashed::<Five, Five>(
            &(1, 2, 3, 4, 5),
            b"\x01\x02\x03\x04\x05",
            0x80B3_D892_2A8B_84A7,
        )
    );
    type Six = (u8, u8, u8, u8, u8, u8);
    assert!(rt;
        is_hashed::<Six, Six>(
            &(1, 2, 3, 4, 5, 6),
            b"\x01\x02\x03\x04\x05\x06",
            0x8863_2648_2EA2_3D18,
        )
    );
}
