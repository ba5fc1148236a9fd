// Changes of a table.
ghost use Rattle.std.specs.Prelude.{◌≡◌, ◌+◌, ◌*◌, ◌<◌, ◌≤◌, ◌∷◌, ◌++◌, length, take, drop};
ghost use Rattle.std.specs.Prelude.{None, OnOk, OnErr};
ghost use Rattle.zv_props.specs.Changes.{middle, right_part, with_left, with_range};
ghost use Rattle.zv_props.specs.Contents.{bytes_in};
ghost use Rattle.zv_props.specs.Places.{IsPlace};
ghost use Rattle.zv_props.specs.Stored.{list_fault, rows_of};
ghost use Rattle.zv_props.specs.Tables.{AnswerAlike, IsProper, max_code_point};

use crate::bytes::TableBytes;
use crate::few_rows::FewRows;
use crate::lookup::place_from;
use crate::table::{Props, Row};
use std::alloc::Global;
use zv_fixed::ZeroSlice;
use zv_ule::NoMemory;

/// What is left above a range of the row before a place, if there is one.
fn part_above(rows: ZeroSlice<'_, Row>, place: usize, last: u32) -> FewRows
    requires place { place ≤ length (rows_of rows.bytes.now) }
    requires top { last ≤ max_code_point }
    ensures rows { result ≡ right_part (rows_of rows.entry.bytes.now) place last }
    ensures len { length result ≤ 1 }
{
    let mut few = FewRows::new();
    if place > 0 {
        let (_, end, value) = rows.at(place - 1);
        if last < end {
            few.add((last + 1, end, value));
        }
    }
    few
}

/// Puts a range with its value before the others. The value 0 needs no row.
fn add_range(few: &mut FewRows, range: Row)
    requires { length few.old < 3 }
    ensures rows { few.new ≡ with_range range few.old }
    ensures len { length few.new ≤ length few.old + 1 }
{
    if range.2 > 0 {
        few.add(range);
    }
}

/// Puts what is left below a range of the row before a place, if there is one, before the others.
fn add_below(few: &mut FewRows, rows: ZeroSlice<'_, Row>, place: usize, first: u32)
    requires few { length few.old < 3 }
    requires place { place ≤ length (rows_of rows.bytes.now) }
    ensures { few.new ≡ with_left (rows_of rows.entry.bytes.now) place first few.old }
{
    if place > 0 {
        let (begin, end, value) = rows.at(place - 1);
        few.add((begin, end.min(first.saturating_sub(1)), value));
    }
}

/// A range between what is left of the rows at its ends.
fn middle_rows(rows: ZeroSlice<'_, Row>, low: usize, high: usize, range: Row) -> FewRows
    requires low { low ≤ length (rows_of rows.bytes.now) }
    requires high { high ≤ length (rows_of rows.bytes.now) }
    requires top { range.1 ≤ max_code_point }
    ensures { result ≡ middle (rows_of rows.entry.bytes.now) low high range }
{
    let mut few = part_above(rows, high, range.1);
    add_range(&mut few, range);
    add_below(&mut few, rows, low, range.0);
    few
}

/// How many rows begin below a code point.
fn place_before(rows: ZeroSlice<'_, Row>, c: u32) -> usize
    requires { IsProper (rows_of rows.bytes.now) }
    ensures { IsPlace (rows_of rows.entry.bytes.now) c result }
{
    if c == 0 { 0 } else { place_from(rows, c - 1) }
}

/// Where the row at a place begins, or where all of them end.
#[tactic(auto, using(crate::proofs::Spliced::row_starts))]
fn offset(bytes: &[u8], place: usize) -> usize
    requires { place ≤ length (rows_of bytes.now) }
    ensures offset { result ≡ place * 10 }
    ensures within { result ≤ length bytes.now }
{
    let _len = bytes.len();
    place * 10
}

/// Puts rows in place of those from one place up to another.
#[tactic(auto, using(crate::proofs::Spliced::splices))]
fn put_rows(
    bytes: &mut TableBytes<'_>,
    alloc: Global,
    start: usize,
    end: usize,
    few: &FewRows,
) -> Result<(), NoMemory>
    requires spells { list_fault (bytes_in bytes.old) ≡ None }
    requires order { start ≤ end }
    requires place { end ≤ length (rows_of (bytes_in bytes.old)) }
    ensures ok { OnOk result (let rows = rows_of (bytes_in bytes.old) in
        rows_of (bytes_in bytes.new) ≡ take start rows ++ (few.now ++ drop end rows)) }
    ensures spells { list_fault (bytes_in bytes.new) ≡ None }
    ensures err { OnErr result (bytes_in bytes.new ≡ bytes_in bytes.old) }
{
    let from = offset(bytes.bytes(), start);
    let to = offset(bytes.bytes(), end);
    let mut buffer = [0; 30];
    let added = &mut buffer[..few.len() * 10];
    few.write(added);
    bytes.replace(alloc, from, to, added)?;
    Ok(())
}

/// Gives a range of code points one value, which may be 0.
#[tactic(auto, using(crate::proofs::Changes::changes))]
fn set_rows(bytes: &mut TableBytes<'_>, alloc: Global, range: Row) -> Result<(), NoMemory>
    requires spells { list_fault (bytes_in bytes.old) ≡ None }
    requires proper { IsProper (rows_of (bytes_in bytes.old)) }
    requires order { range.0 ≤ range.1 }
    requires top { range.1 ≤ max_code_point }
    ensures ok { OnOk result
        (AnswerAlike (rows_of (bytes_in bytes.new)) (range ∷ rows_of (bytes_in bytes.old))) }
    ensures spells { list_fault (bytes_in bytes.new) ≡ None }
    ensures proper { IsProper (rows_of (bytes_in bytes.new)) }
    ensures err { OnErr result (bytes_in bytes.new ≡ bytes_in bytes.old) }
{
    let rows = ZeroSlice::of_valid(bytes.bytes());
    let low = place_before(rows, range.0);
    let high = place_before(rows, range.1 + 2);
    let few = middle_rows(rows, low, high, range);
    put_rows(bytes, alloc, low.saturating_sub(1), high, &few)?;
    Ok(())
}

impl Props<'_> {
    /// Gives all code points from the first to the last one value, which may be 0. After `NoMemory`
    /// the table is as it was.
    ///
    /// # Cost
    /// Two searches. A table that owns its bytes, with room for two rows more, moves those behind
    /// the range once and in place. Any other is copied.
    pub fn set(&mut self, alloc: Global, first: u32, last: u32, value: u16) -> Result<(), NoMemory>
        requires order { first ≤ last }
        requires top { last ≤ max_code_point }
        ensures ok { OnOk result (AnswerAlike self.new ((first, last, value) ∷ self.old)) }
        ensures proper { IsProper self.new }
        ensures err { OnErr result (self.new ≡ self.old) }
    {
        set_rows(&mut self.bytes, alloc, (first, last, value))
    }
}
