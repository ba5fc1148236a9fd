// Look-ups.
ghost use Rattle.std.specs.Prelude.{◌≡◌, ◌+◌, ◌-◌, ◌≤◌, length};
ghost use Rattle.zv_props.specs.Places.{IsPlace, firsts_by};
ghost use Rattle.zv_props.specs.Stored.{rows_of};
ghost use Rattle.zv_props.specs.Tables.{IsProper, value_at};
ghost use Rattle.zv_ule.specs.Search.{AtMostDigits, Found};

use crate::table::{Props, Row};
use std::sync::ledger::Ledger;
use zv_fixed::ZeroSlice;
use zv_ule::search::{IndexedList, search, search_in_range_counted};
use zv_ule::{AsULE, Steps, VarRef, chunk_at};

/// The first code points of rows, which are the first four bytes of each.
#[derive(Drop)]
struct Firsts<'a> {
    rows: ZeroSlice<'a, Row>,
}

impl IndexedList<u32> for Firsts<'_> {
    ghost use Rattle.std.specs.Prelude.{map, take};
    ghost use Rattle.zv_ule.specs.Chunks.{chunks_of};

    ghost list = { λ f. map (take 4) (chunks_of 10 f.rows.bytes.now) };

    #[inline]
    fn element_count(&self) -> usize {
        self.rows.len()
    }

    #[inline]
    fn element_at(&self, index: usize) -> VarRef<'_, u32> {
        let (first, _) = chunk_at::<<Row as AsULE>::ULE>(self.rows.as_bytes(), index).split_at(4);
        VarRef::of_valid(first)
    }
}

/// The place behind the one that a search for a code point found.
#[inline]
fn place_behind(rows: ZeroSlice<'_, Row>, c: u32, found: Result<usize, usize>) -> usize
    requires proper { IsProper (rows_of rows.bytes.now) }
    requires found { Found (firsts_by rows.bytes.now c) found }
    ensures { IsPlace (rows_of rows.entry.bytes.now) (c + 1) result }
{
    let _len = rows.len();
    match found {
        Ok(place) => place + 1,
        Err(place) => place,
    }
}

/// How many rows begin at or below a code point.
#[inline]
fn place_of<L: Ledger>(rows: ZeroSlice<'_, Row>, c: u32, steps: &mut Steps<L>) -> usize
    requires { IsProper (rows_of rows.bytes.now) }
    ensures place { IsPlace (rows_of rows.entry.bytes.now) (c + 1) result }
    ensures digits { AtMostDigits (steps.new - steps.old) (length (rows_of rows.entry.bytes.now)) }
    ensures counted { steps.old ≤ steps.new }
{
    match search_in_range_counted(&Firsts { rows }, &c, 0..rows.len(), steps) {
        Some(found) => place_behind(rows, c, found),
        None => unreachable!(),
    }
}

/// The same, where nobody counts.
#[inline]
pub(crate) fn place_from(rows: ZeroSlice<'_, Row>, c: u32) -> usize
    requires { IsProper (rows_of rows.bytes.now) }
    ensures { IsPlace (rows_of rows.entry.bytes.now) (c + 1) result }
{
    place_behind(rows, c, search(&Firsts { rows }, &c))
}

/// The value of a code point, by how many rows begin at or below it.
#[inline]
#[tactic(auto, using(crate::proofs::Runs::look_up))]
fn value_behind(rows: ZeroSlice<'_, Row>, place: usize, c: u32) -> u16
    requires proper { IsProper (rows_of rows.bytes.now) }
    requires place { IsPlace (rows_of rows.bytes.now) (c + 1) place }
    ensures { result ≡ value_at (rows_of rows.entry.bytes.now) c }
{
    if place == 0 {
        return 0;
    }
    let (_, last, value) = rows.at(place - 1);
    if c <= last { value } else { 0 }
}

impl Props<'_> {
    /// The value of a code point, or 0 where no row has it, as [`Props::get`]. Each comparison is
    /// counted as a step: there are at most as many as the number of rows has binary digits.
    #[inline]
    pub fn get_counted<L: Ledger>(&self, c: u32, steps: &mut Steps<L>) -> u16
        ensures value { result ≡ value_at self.now c }
        ensures digits { AtMostDigits (steps.new - steps.old) (length self.now) }
        ensures counted { steps.old ≤ steps.new }
    {
        let rows = self.rows();
        let place = place_of(rows, c, steps);
        value_behind(rows, place, c)
    }

    /// The value of a code point, or 0 where no row has it. It takes no memory, and its time is
    /// that of a search by halving.
    #[inline]
    pub fn get(&self, c: u32) -> u16
        ensures { result ≡ value_at self.now c }
    {
        let rows = self.rows();
        value_behind(rows, place_from(rows, c), c)
    }
}
