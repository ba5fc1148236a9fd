// Tables, and the test of bytes.
ghost use Rattle.std.specs.Prelude.{◌≡◌, [], length, IfOk, None};
ghost use Rattle.std.specs.Result.{result_err};
ghost use Rattle.zv_props.specs.Faults.{row_fault, rows_fault, table_fault};
ghost use Rattle.zv_props.specs.Stored.{rows_of, table_bytes};
ghost use Rattle.zv_props.specs.Tables.{IsProper};

use crate::bytes::TableBytes;
use crate::error::PropsError;
use std::marker::Model;
use zv_fixed::ZeroSlice;

/// The largest code point of Unicode.
pub const MAX_CODE_POINT: u32 = 1_114_111;

/// A row as it is read: the first and the last code point of a range, and the value of all of them.
pub(crate) type Row = (u32, u32, u16);

/// A proper table of code point ranges. It borrows the bytes that it was read from until the first
/// change, which copies them.
#[derive(Drop)]
pub struct Props<'a> {
    pub(crate) bytes: TableBytes<'a>,
}

impl<'a> Model for Props<'a> {
    ghost use Rattle.std.specs.Prelude.{◌≡◌, List, None};
    ghost use Rattle.zv_props.specs.Contents.{bytes_in};
    ghost use Rattle.zv_props.specs.Stored.{list_fault, rows_of};
    ghost use Rattle.zv_props.specs.Tables.{IsProper, Row};

    ghost Value = { List Row };

    ghost view = { λ p. rows_of (bytes_in p.bytes) };

    ghost invariant = { λ p. (list_fault (bytes_in p.bytes) ≡ None)
        × IsProper (rows_of (bytes_in p.bytes)) };
}

/// The error of the first row that has one.
#[tactic(auto, using(crate::proofs::Proper::row_stops))]
fn check_rows(rows: ZeroSlice<'_, Row>) -> Result<(), PropsError>
    ensures { result_err result ≡ rows_fault 0 0 0 (rows_of rows.entry.bytes.now) }
{
    let mut start = 0;
    let mut value = 0;
    for index in 0..rows.len() {
        let row = rows.at(index);
        check_row(index, start, value, row)?;
        start = row.1 + 1;
        value = row.2;
    }
    Ok(())
}

/// The test of a row, after a range that ends before `start` and has that value.
fn check_row(index: usize, start: u32, value: u16, row: Row) -> Result<(), PropsError>
    ensures { result_err result ≡ row_fault index start value row }
{
    let (first, last, new) = row;
    if !(first <= last && last <= MAX_CODE_POINT && 0 < new) {
        Err(PropsError::Row { index })
    } else if first < start {
        Err(PropsError::Order { index })
    } else if first == start && new == value {
        Err(PropsError::Join { index })
    } else {
        Ok(())
    }
}

impl<'a> Props<'a> {
    /// The rows.
    #[inline]
    pub(crate) fn rows(&self) -> ZeroSlice<'_, Row>
        ensures rows { rows_of result.bytes.now ≡ self.now }
        ensures proper { IsProper (rows_of result.bytes.now) }
    {
        ZeroSlice::of_valid(self.bytes.bytes())
    }

    /// The table without rows. It takes no memory.
    #[inline]
    pub fn new() -> Self
        ensures { result ≡ [] }
    {
        Props {
            bytes: TableBytes::Borrowed(&[]),
        }
    }

    /// Checks that the bytes are a proper table, and borrows them.
    #[tactic(auto, using(crate::proofs::Proper::parsed))]
    pub fn parse(bytes: &'a [u8]) -> Result<Self, PropsError>
        ensures error { result_err result ≡ table_fault bytes.now }
        ensures rows { IfOk result (λ t. t ≡ rows_of bytes.now) }
    {
        check_rows(ZeroSlice::parse_bytes(bytes)?)?;
        Ok(Props {
            bytes: TableBytes::Borrowed(bytes),
        })
    }

    /// How many rows there are.
    #[inline]
    pub fn len(&self) -> usize
        ensures { result ≡ length self.now }
    {
        self.rows().len()
    }

    /// The bytes of the rows.
    #[inline]
    #[tactic(auto, using(crate::proofs::Proper::no_fault))]
    pub fn as_bytes(&self) -> &[u8]
        ensures bytes { result.now ≡ table_bytes self.now }
        ensures fine { table_fault result.now ≡ None }
        ensures proper { IsProper self.now }
    {
        self.rows().as_bytes()
    }
}
