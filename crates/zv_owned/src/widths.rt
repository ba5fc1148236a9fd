// A list's fields of two bytes become fields of four, or the other way round, in one buffer.
ghost use Rattle.std.specs.Prelude.{◌≡◌, ◌+◌, ◌-◌, ◌*◌, ◌^◌, ◌<◌, ◌≤◌, length, None, IsTrue, OnErr};
ghost use Rattle.std.specs.Prelude.{OnOk, true, false, not};
ghost use Rattle.std.specs.List.{concat};
ghost use Rattle.zv_ule.specs.Bytes.{IsBytes};
ghost use Rattle.zv_var.specs.Format.{elements, enc, list_fault};
ghost use Rattle.zv_owned.specs.Widths.{IsEncoded, wide};

use crate::moves::{Gap, fit_gaps};
use crate::shelf::Shelf;
use std::sync::ledger::Ledger;
use zv_ule::{Index16, Index32, NoMemory, Steps, VarZeroVecFormat, ZvKind};
use zv_var::slice::VarZeroSlice;

/// How many elements a list has that bytes are in a format.
#[inline]
fn count_of<T: ZvKind, F: VarZeroVecFormat>(bytes: &[u8]) -> usize
    requires usable { IsTrue T.usable }
    requires spells { list_fault F.W T.fault bytes.now ≡ None }
    ensures count { result ≡ length (elements F.W bytes.now) }
    ensures len { 0 < result → length bytes.now ≡
        F.W * result + length (concat (elements F.W bytes.now)) }
    ensures each { IsBytes bytes.now }
    ensures short { length bytes.now < 2 ^ 63 }
{
    VarZeroSlice::<T, F>::of_valid(bytes).len()
}

/// The bytes become the list's in fields of four bytes. What follows the fields moves once, and
/// then the fields are written from the last one on.
#[tactic(auto, using(crate::proofs::Sizes::size_of))]
pub(crate) fn widen<T: ZvKind, L: Ledger>(
    shelf: &mut Shelf,
    steps: &mut Steps<L>,
) -> Result<(), NoMemory>
    requires usable { IsTrue T.usable }
    requires spells { list_fault 2 T.fault shelf.old.bytes ≡ None }
    ensures done { OnOk result
        (IsEncoded 4 T.fault (elements 2 shelf.old.bytes) shelf.new.bytes) }
    // where it is refused
    ensures err { OnErr result (shelf.new ≡ shelf.old) }
    ensures succeeds { OnErr result (length shelf.old.bytes + shelf.old.spare <
        length (enc 4 (elements 2 shelf.old.bytes))) }
    ensures reserved { OnErr result (shelf.old.spare < 2 * length (elements 2 shelf.old.bytes)) }
    // what it takes
    ensures memory { OnOk result (shelf.new.spare ≡
        length shelf.old.bytes + shelf.old.spare - length shelf.new.bytes) }
    ensures keeps_room { OnOk result (shelf.old.spare ≤
        shelf.new.spare + 2 * length (elements 2 shelf.old.bytes)) }
    ensures steps { OnOk result (steps.new ≤ steps.old + length shelf.new.bytes
        + 2 * length (elements 2 shelf.old.bytes)) }
{
    let count = count_of::<T, Index16>(shelf.bytes());
    if count == 0 {
        shelf.clear();
        return Ok(());
    }
    let end = shelf.len();
    let fields = Gap {
        at: 2 * count,
        out: 0,
        into: 2 * count,
    };
    let none = Gap {
        at: end,
        out: 0,
        into: 0,
    };
    fit_gaps(shelf, fields, none, steps)?;
    shelf.widen_fields(count, steps);
    Ok(())
}

/// The bytes become the list's in fields of two bytes, unless the list is too long for them. The
/// fields are written from the first one on, and then what follows them moves once. It takes no
/// memory.
pub(crate) fn narrow<T: ZvKind, L: Ledger>(shelf: &mut Shelf, steps: &mut Steps<L>) -> bool
    requires usable { IsTrue T.usable }
    requires spells { list_fault 4 T.fault shelf.old.bytes ≡ None }
    ensures done { result ≡ true →
        IsEncoded 2 T.fault (elements 4 shelf.old.bytes) shelf.new.bytes }
    // where it is refused
    ensures refused { result ≡ not (wide (elements 4 shelf.old.bytes)) }
    ensures err { result ≡ false → shelf.new ≡ shelf.old }
    // what it takes
    ensures memory { result ≡ true → shelf.new.spare ≡
        length shelf.old.bytes + shelf.old.spare - length shelf.new.bytes }
    ensures keeps_room { shelf.old.spare ≤ shelf.new.spare }
    ensures steps { result ≡ true → steps.new ≤ steps.old + length shelf.new.bytes }
{
    let count = count_of::<T, Index32>(shelf.bytes());
    if count == 0 {
        shelf.clear();
        return true;
    }
    if shelf.len() - 2 * count > 65_535 {
        return false;
    }
    shelf.narrow_fields(count, steps);
    let end = shelf.len();
    let fields = Gap {
        at: 2 * count,
        out: 2 * count,
        into: 0,
    };
    let none = Gap {
        at: end,
        out: 0,
        into: 0,
    };
    let _ = fit_gaps(shelf, fields, none, steps);
    true
}
