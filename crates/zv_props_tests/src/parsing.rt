// Bytes that are tables, and bytes that are none.
ghost use Rattle.std.specs.Prelude.{◌≡◌, ◌<◌};

use crate::rows::{Row, bytes_of};
use std::marker::Brand;
use std::sync::ledger::{Blank, Ledger};
use std::test::Fail;
use zv_props::{MAX_CODE_POINT, Props, PropsError};
use zv_ule::{Steps, TyName, UleError};

// Rows that are no table, and why.
const BAD_ROWS: [(&'static [Row], PropsError); 9] = [
    (&[(65, 69, 1), (70, 80, 1)], PropsError::Join { index: 1 }),
    (&[(65, 69, 1), (69, 80, 1)], PropsError::Order { index: 1 }),
    (&[(65, 69, 1), (65, 69, 1)], PropsError::Order { index: 1 }),
    (&[(65, 69, 1), (10, 20, 1)], PropsError::Order { index: 1 }),
    (&[(65, 64, 1)], PropsError::Row { index: 0 }),
    (&[(65, 69, 0)], PropsError::Row { index: 0 }),
    (
        &[(65, 69, 1), (70, MAX_CODE_POINT + 1, 2)],
        PropsError::Row { index: 1 },
    ),
    // a row that breaks two rules, and two rows that break one
    (&[(65, 69, 1), (60, 50, 1)], PropsError::Row { index: 1 }),
    (
        &[(5, 6, 1), (8, 9, 1), (10, 11, 1), (3, 2, 1)],
        PropsError::Join { index: 2 },
    ),
];

#[test]
fn bad_rows_are_refused(rt: HostRuntime) -> Result<(), Fail> {
    for (rows, error) in &BAD_ROWS {
        let bytes = bytes_of(rt.alloc(), rows)?;
        assert!(&rt; Props::parse(&bytes).err() == Some(*error), "{error}");
    }
    Ok(())
}

#[test]
fn bytes_of_another_length_are_refused(rt: HostRuntime) {
    let error = UleError::InvalidLength {
        ty: TyName::Tuple3,
        len: 9,
    };
    assert!(&rt; Props::parse(&[0; 9]).err() == Some(PropsError::Ule(error)));
}

#[test]
fn errors_print_their_rows(rt: HostRuntime) -> Result<(), Fail> {
    let join = format!(in rt.alloc(); "{}", PropsError::Join { index: 1 })?;
    assert!(&rt; join.as_str() == "row 1 joins the row before it");
    let order = format!(in rt.alloc(); "{}", PropsError::Order { index: 2 })?;
    assert!(&rt; order.as_str() == "row 2 is out of order");
    let row = format!(in rt.alloc(); "{}", PropsError::Row { index: 3 })?;
    assert!(&rt; row.as_str() == "row 3 is none");
    Ok(())
}

// Letters with the value 1, and a gap between them.
#[test]
fn code_points_have_their_values(rt: HostRuntime) -> Result<(), Fail> {
    let bytes = bytes_of(rt.alloc(), &[(65, 90, 1), (97, 122, 2), (123, 200, 3)])?;
    let Ok(table) = Props::parse(&bytes) else {
        panic!(&rt; "a table is refused");
    };
    let values = [
        (0, 0),
        (64, 0),
        (65, 1),
        (90, 1),
        (91, 0),
        (97, 2),
        (122, 2),
        (123, 3),
        (200, 3),
        (201, 0),
        (u32::MAX, 0),
    ];
    for (c, value) in values {
        assert_eq!(&rt; table.get(c), value, "at {c}");
    }
    assert_eq!(&rt; Props::new().get(65), 0);
    Ok(())
}

// The value of a code point, with a counter.
fn counted<L: Ledger>(table: &Props<'_>, c: u32, blank: Blank) -> u16
    requires name { blank.name ≡ L.name }
    requires parts { blank.parts ≡ L.parts }
    requires some { 0 < blank.parts }
{
    let mut steps = Steps::<L>::start(blank);
    table.get_counted(c, &mut steps)
}

#[test]
fn counted_look_ups_answer_alike(rt: HostRuntime) -> Result<(), Fail> {
    let bytes = bytes_of(rt.alloc(), &[(65, 90, 1), (97, 122, 2)])?;
    let Ok(table) = Props::parse(&bytes) else {
        panic!(&rt; "a table is refused");
    };
    for c in [64, 65, 91, 122] {
        assert_eq!(&rt; counted::<Brand>(&table, c, Blank::new(1)), table.get(c));
    }
    Ok(())
}
