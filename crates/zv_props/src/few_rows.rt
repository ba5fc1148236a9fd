// The rows that a change writes.
ghost use Rattle.std.specs.Prelude.{◌≡◌, ◌+◌, ◌*◌, ◌<◌, ◌≤◌, [], ◌∷◌, drop, length};
ghost use Rattle.std.specs.List.{AllByRecursion};
ghost use Rattle.zv_props.specs.Joining.{add};
ghost use Rattle.zv_props.specs.Stored.{IsStored, table_bytes};

use crate::table::Row;
use std::marker::Model;
use zv_ule::store;

/// At most three rows, put together from the last to the first.
#[derive(Drop)]
pub struct FewRows {
    rows: [Row; 3],
    start: usize,
}

impl Model for FewRows {
    ghost use Rattle.std.specs.Prelude.{◌≡◌, ◌≤◌, List, drop, length};
    ghost use Rattle.zv_props.specs.Tables.{Row};

    ghost Value = { List Row };

    ghost view = { λ f. drop f.start f.rows };

    ghost invariant = { λ f. (f.start ≤ 3) × (length f.rows ≡ 3) };
}

impl FewRows {
    /// No rows.
    pub(crate) fn new() -> Self
        ensures { result ≡ [] }
    {
        FewRows {
            rows: [(0, 0, 0); 3],
            start: 3,
        }
    }

    /// How many rows there are.
    pub(crate) fn len(&self) -> usize
        ensures len { result ≡ length self.now }
        ensures few { result ≤ 3 }
    {
        3 - self.start
    }

    /// Puts a row before the others. Where it ends right before the first of them and has its
    /// value, it makes that one longer.
    pub(crate) fn add(&mut self, row: Row)
        requires { length self.old < 3 }
        ensures rows { self.new ≡ add row self.old }
        ensures len { length self.new ≤ length self.old + 1 }
    {
        let (first, last, value) = row;
        if self.start < 3 {
            let (begin, end, next) = self.rows[self.start];
            if last < begin && begin - last == 1 && next == value {
                self.rows[self.start] = (first, end, value);
                return;
            }
        }
        self.start -= 1;
        self.rows[self.start] = row;
    }

    /// Writes the bytes of the rows over the whole of `out`.
    #[tactic(auto, using(zv_ule::proofs::Written::written_more, zv_ule::proofs::Lists::all_more))]
    pub(crate) fn write(&self, out: &mut [u8])
        requires { length out.old ≡ length self.now * 10 }
        ensures written { out.new ≡ table_bytes self.now }
        ensures stored { AllByRecursion IsStored self.now }
    {
        let rows = &self.rows[self.start..];
        for (index, row) in rows.iter().enumerate() {
            store(*row, &mut out[index * 10..(index + 1) * 10]);
        }
    }
}
