// Tables of code point ranges.
use crate::refusal::{end, is_refused};
use std::alloc::Global;
use std::process::Abort;
use std::test::Fail;
use zv_props::Props;

// A range that is set in the table of 65 to 122 with 1, and the bytes of the table that is left.
struct Row {
    first: u32,
    last: u32,
    value: u16,
    after: &'static [u8],
}

const BEFORE: &[u8] = b"A\0\0\0z\0\0\0\x01\0";

const ROWS: [Row; 4] = [
    // split in two
    Row {
        first: 70,
        last: 80,
        value: 0,
        after: b"A\0\0\0E\0\0\0\x01\0Q\0\0\0z\0\0\0\x01\0",
    },
    // a row behind it
    Row {
        first: 200,
        last: 201,
        value: 2,
        after: b"A\0\0\0z\0\0\0\x01\0\xc8\0\0\0\xc9\0\0\0\x02\0",
    },
    // nothing is left
    Row {
        first: 0,
        last: 1_114_111,
        value: 0,
        after: b"",
    },
    // the same table
    Row {
        first: 66,
        last: 66,
        value: 1,
        after: BEFORE,
    },
];

// Sets a range in the table, which borrows its bytes or owns them.
fn try_row(rt: &impl Abort, alloc: Global, row: &Row, is_owned: bool) -> Result<(), Fail> {
    let mut table = if is_owned {
        Props::build(alloc, &[(65, 122, 1)])?
    } else {
        Props::parse(BEFORE)?
    };
    assert!(rt; row.first <= row.last && row.last <= 1_114_111);
    let is_refused = is_refused(rt, table.set(alloc, row.first, row.last, row.value));
    assert!(rt; table.as_bytes() == if is_refused { BEFORE } else { row.after });
    end(is_refused)
}

#[test]
fn tables_are_as_they_were(rt: HostRuntime) -> Result<(), Fail> {
    for row in &ROWS {
        try_row(&rt, rt.alloc(), row, false)?;
        try_row(&rt, rt.alloc(), row, true)?;
    }
    Ok(())
}
