// A table that is stored as an image, by the calls of its own crate.
ghost use Rattle.std.specs.Prelude.{IfOk};
ghost use Rattle.zv_map2d.specs.Room.{HasRoomFor, IsReady};

use std::alloc::Global;
use std::process::Abort;
use std::test::Fail;
use zv_callers::images::{Entry, Keys, StoredTable, change_image, send_table, stored_parts};
use zv_devices::MemSink;
use zv_map2d::{EditError, Map2dError};

// The image of "a" in "b", which has 1.
const ONE_PAIR: &[u8] = b"\
    \x03\0\0\0\0\0\0\0\x01\0a\
    \x04\0\0\0\0\0\0\0\x01\0\0\0\
    \x03\0\0\0\0\0\0\0\x01\0b\
    \x03\0\0\0\0\0\0\0\x01\0\x01";

// The keys of a language and a script.
fn keys<'t>(language: &'t str, script: &'t str) -> Keys<'t> {
    Keys { language, script }
}

// The table of one pair has another value for "a" in "c" and a first one for "d" in "e", and loses
// "a" in "b", while nothing is in "x".
fn changed(
    alloc: Global,
    image: &'static [u8],
    value: &[u8],
) -> Result<Result<StoredTable<'static>, Map2dError>, EditError>
    ensures ready { IfOk result (λ outcome. IfOk outcome IsReady) }
    ensures room { IfOk result (λ outcome. IfOk outcome (HasRoomFor 4 4 4 0 0 0 0)) }
{
    let first = Entry {
        keys: keys("a", "c"),
        value: &[2, 2],
    };
    let second = Entry {
        keys: keys("d", "e"),
        value,
    };
    change_image(
        alloc,
        image,
        (first, second),
        (keys("a", "b"), keys("x", "y")),
    )
}

// The table is written as "a" in "c" with 2 and 2, and "d" in "e" with 3.
fn is_stored(rt: &impl Abort, table: &mut StoredTable<'_>)
    requires { IsReady table.old }
{
    table.settle();
    let parts = stored_parts(table);
    assert!(rt; parts.keys0 == b"\x02\0\x01\0ad".as_slice());
    assert!(rt; parts.joiner == b"\x01\0\0\0\x02\0\0\0".as_slice());
    assert!(rt; parts.keys1 == b"\x02\0\x01\0ce".as_slice());
    assert!(rt; parts.values == b"\x02\0\x02\0\x02\x02\x03".as_slice());
}

#[test]
fn an_image_is_changed(rt: HostRuntime) -> Result<(), Fail> {
    match changed(rt.alloc(), ONE_PAIR, &[3])? {
        Ok(mut table) => is_stored(&rt, &mut table),
        Err(_) => panic!(rt; "there is room"),
    }
    Ok(())
}

// The line of the image of "a" in "c" with 2 and 2, and "d" in "e" with 3.
const LINE: &[u8] = b"image x\
    0600000000000000020001006164\
    08000000000000000100000002000000\
    0600000000000000020001006365\
    070000000000000002000200020203\n";

// The line is sent, by one write.
fn is_sent(rt: &impl Abort, alloc: Global, table: &mut StoredTable<'_>) -> Result<(), Fail>
    requires { HasRoomFor 4 4 4 0 0 0 0 table.old }
{
    let mut sink = MemSink::new(alloc, 1_000, 0, &[])?;
    assert!(rt; send_table(alloc, table, &mut sink) == Ok(()));
    assert!(rt; sink.taken() == LINE);
    Ok(())
}

#[test]
fn a_changed_image_is_sent(rt: HostRuntime) -> Result<(), Fail> {
    match changed(rt.alloc(), ONE_PAIR, &[3])? {
        Ok(mut table) => is_sent(&rt, rt.alloc(), &mut table)?,
        Err(_) => panic!(rt; "there is room"),
    }
    Ok(())
}

#[test]
fn a_bad_image_is_not_changed(rt: HostRuntime) -> Result<(), Fail> {
    assert!(rt; changed(rt.alloc(), b"\0", &[3]).err() == Some(EditError::Frame));
    Ok(())
}

// Its values are 2 and 2, and this one: with fields of two bytes they would be too long.
#[test]
fn a_long_value_makes_a_list_wide(rt: HostRuntime) -> Result<(), Fail> {
    let alloc = rt.alloc();
    let mut long = Vec::new(alloc);
    long.resize(65_530, 3)?;
    match changed(alloc, ONE_PAIR, &long)? {
        Ok(mut table) => {
            table.settle();
            let parts = stored_parts(&table);
            assert!(rt; parts.keys1 == b"\x02\0\x01\0ce".as_slice());
            assert!(rt; parts.values.len() == 65_540);
            assert!(rt;
                parts
                    .values
                    .starts_with(b"\x02\0\0\0\x02\0\0\0\x02\x02\x03")
            );
        }
        Err(_) => panic!(rt; "there is room"),
    }
    Ok(())
}
