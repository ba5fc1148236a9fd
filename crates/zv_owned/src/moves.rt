// Gaps in a buffer.
ghost use Rattle.std.specs.Prelude.{◌≡◌, ℕ, ◌+◌, ◌-◌, ◌^◌, ◌<◌, ◌≤◌, ◌++◌, List, length, OnOk};
ghost use Rattle.std.specs.Prelude.{OnErr};
ghost use Rattle.std.specs.List.{copy_within};
ghost use Rattle.zv_owned.specs.Gaps.{IsRegapped};

use crate::shelf::Shelf;
use std::sync::ledger::Ledger;
use zv_ule::{NoMemory, Steps};

/// Bytes of a buffer that give way to others.
#[derive(Clone, Copy, Debug, PartialEq, Eq)]
pub(crate) struct Gap {
    /// Where they start.
    pub(crate) at: usize,
    /// How many go.
    pub(crate) out: usize,
    /// How many come.
    pub(crate) into: usize,
}

/// Moves what stands between two gaps and after them, so that each gap has as many bytes as come
/// into it. What those are is not said.
pub(crate) fn fit_gaps<L: Ledger>(
    shelf: &mut Shelf,
    first: Gap,
    second: Gap,
    steps: &mut Steps<L>,
) -> Result<(), NoMemory>
    requires order { first.at + first.out ≤ second.at }
    requires inside { second.at + second.out ≤ length shelf.old.bytes }
    requires small { length shelf.old.bytes + first.into + second.into < 2 ^ 64 }
    ensures ok { OnOk result ((p g m o t : List ℕ) →
        shelf.old.bytes ≡ p ++ (g ++ (m ++ (o ++ t))) → length p ≡ first.at →
        length g ≡ first.out → length (p ++ (g ++ m)) ≡ second.at → length o ≡ second.out →
        IsRegapped p first.into m second.into t shelf.new.bytes) }
    ensures len { OnOk result (length shelf.new.bytes + (first.out + second.out) ≡
        length shelf.old.bytes + (first.into + second.into)) }
    // where it is refused
    ensures err { OnErr result (shelf.new ≡ shelf.old) }
    ensures succeeds { OnErr result (
        first.out + second.out + shelf.old.spare < first.into + second.into) }
    // what it takes
    ensures memory { OnOk result (shelf.new.spare ≡
        length shelf.old.bytes + shelf.old.spare - length shelf.new.bytes) }
    ensures free { OnErr result (steps.new ≡ steps.old) }
    ensures steps { OnOk result (steps.new ≤ steps.old
        + (length shelf.old.bytes - first.at - first.out - second.out)
        + (first.into + second.into - (first.out + second.out))) }
    ensures still { first.out ≡ first.into → second.out ≡ second.into →
        OnOk result (steps.new ≡ steps.old) }
{
    let len = shelf.len();
    let after = second.at + second.out;
    let middle = first.at + first.out;
    let to = second.at - first.out + first.into;
    if first.out + second.out < first.into + second.into {
        let more = first.into + second.into - (first.out + second.out);
        shelf.grow(more, steps)?;
        slide(shelf, after, len, after + more, steps);
        slide(shelf, middle, second.at, first.at + first.into, steps);
    } else {
        slide(shelf, middle, second.at, first.at + first.into, steps);
        slide(shelf, after, len, to + second.into, steps);
        shelf.cut(to + second.into + (len - after));
    }
    Ok(())
}

/// Moves bytes to another place, if it is another.
#[inline]
fn slide<L: Ledger>(shelf: &mut Shelf, from: usize, end: usize, to: usize, steps: &mut Steps<L>)
    requires order { from ≤ end }
    requires inside { end ≤ length shelf.old.bytes }
    requires target { to + (end - from) ≤ length shelf.old.bytes }
    ensures bytes { shelf.new.bytes ≡ copy_within shelf.old.bytes from end to }
    ensures len { length shelf.new.bytes ≡ length shelf.old.bytes }
    // what it takes
    ensures spare { shelf.new.spare ≡ shelf.old.spare }
    ensures steps { steps.new ≤ steps.old + (end - from) }
    ensures still { from ≡ to → steps.new ≡ steps.old }
{
    if from != to {
        shelf.move_bytes(from..end, to, steps);
    }
}
