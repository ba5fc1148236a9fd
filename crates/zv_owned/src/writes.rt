// What is written into the gaps of a list's bytes.
ghost use Rattle.std.specs.Prelude.{◌≡◌, ℕ, None, IsTrue, ◌+◌, ◌-◌, ◌*◌, ◌^◌, ◌<◌, ◌≤◌, ◌++◌, List};
ghost use Rattle.std.specs.Prelude.{length, map, false, IsOk, OnErr, OnOk};
ghost use Rattle.std.specs.List.{AllByRecursion, concat, flat_map, splice};
ghost use Rattle.std.specs.Option.{ForSome, option_to_list};
ghost use Rattle.zv_ule.specs.Bytes.{le};
ghost use Rattle.zv_owned.specs.Splices.{CanEdit, CanShift, Edits, Puts, new_elements};
ghost use Rattle.zv_owned.specs.Splices.{shifted};

use crate::moves::{Gap, fit_gaps};
use crate::shelf::Shelf;
use std::sync::ledger::Ledger;
use zv_ule::{NoMemory, Steps, VarZeroVecFormat, ZvArg, ZvKind, read_start, write_start};

/// Writes what is written for a value, over as many bytes.
#[inline]
pub(crate) fn write_value<T: ZvKind, Q: ZvArg<T>, L: Ledger>(
    shelf: &mut Shelf,
    at: usize,
    value: &Q,
    steps: &mut Steps<L>,
)
    requires usable { IsTrue T.usable }
    requires inside { at + length (Q.bytes value.now) ≤ length shelf.old.bytes }
    ensures bytes { shelf.new.bytes ≡ splice shelf.old.bytes at
        (at + length (Q.bytes value.now)) (Q.bytes value.now) }
    ensures len { length shelf.new.bytes ≡ length shelf.old.bytes }
    // what it takes
    ensures spare { shelf.new.spare ≡ shelf.old.spare }
    ensures steps { steps.new ≡ steps.old + length (Q.bytes value.now) }
{
    // `len` is called for its clause that the bytes are fewer than 2^64, so the place's end fits.
    let _len = shelf.len();
    let len = value.arg_len();
    value.arg_write(shelf.lend(at, len, steps));
}

/// Writes a field.
#[inline]
pub(crate) fn write_field<F: VarZeroVecFormat, L: Ledger>(
    shelf: &mut Shelf,
    at: usize,
    n: usize,
    steps: &mut Steps<L>,
)
    requires inside { at + F.W ≤ length shelf.old.bytes }
    requires in_field { n < 256 ^ F.W }
    ensures bytes { shelf.new.bytes ≡ splice shelf.old.bytes at (at + F.W) (le F.W n) }
    ensures len { length shelf.new.bytes ≡ length shelf.old.bytes }
    // what it takes
    ensures spare { shelf.new.spare ≡ shelf.old.spare }
    ensures steps { steps.new ≡ steps.old + F.W }
{
    write_start::<F>(n, shelf.lend(at, F::W, steps));
}

/// Raises the numbers of fields by `into` and lowers them by `out`.
fn shift_fields<F: VarZeroVecFormat>(fields: &mut [u8], count: usize, into: usize, out: usize)
    requires whole { length fields.old ≡ F.W * count }
    requires small { into < 2 ^ 63 }
    ensures { (ss : List ℕ) → fields.old ≡ flat_map (le F.W) ss → length ss ≡ count →
        CanShift F.W into out ss →
        fields.new ≡ flat_map (le F.W) (map (shifted into out) ss) }
{
    let width = F::W;
    let most = F::MAX;
    let mut at = 0;
    for _place in 0..count {
        let field = &mut fields[at..at + width];
        let start = read_start::<F>(field) + into;
        write_start::<F>(start.wrapping_sub(out) % (most + 1), field);
        at += width;
    }
}

/// What a change of a list changes in its bytes: a start may go or come, the starts after it move
/// together, and bytes of the elements give way to others.
#[derive(Clone, Copy, Debug, PartialEq, Eq)]
pub(crate) struct Edit {
    /// How many fields stay in front: the count's, and those of the starts before the place.
    pub(crate) kept: usize,
    /// How many starts go.
    pub(crate) gone: usize,
    /// The start that comes, if one does.
    pub(crate) start: Option<usize>,
    /// How many starts there are after it.
    pub(crate) later: usize,
    /// How many bytes the elements before the place have.
    pub(crate) before: usize,
    /// How many bytes the elements that go have.
    pub(crate) out: usize,
    /// How many bytes come.
    pub(crate) into: usize,
}

/// Writes the new start, if there is one.
#[inline]
fn put_start<F: VarZeroVecFormat, L: Ledger>(
    shelf: &mut Shelf,
    at: usize,
    start: Option<usize>,
    steps: &mut Steps<L>,
)
    requires inside { ForSome start (λ _. at + F.W ≤ length shelf.old.bytes) }
    requires in_field { ForSome start (λ n. n < 256 ^ F.W) }
    ensures bytes { Puts shelf.old.bytes at (F.W * length (option_to_list start))
        (flat_map (le F.W) (option_to_list start)) shelf.new.bytes }
    ensures len { length shelf.new.bytes ≡ length shelf.old.bytes }
    // what it takes
    ensures spare { shelf.new.spare ≡ shelf.old.spare }
    ensures steps { steps.new ≡ steps.old + F.W * length (option_to_list start) }
{
    if let Some(n) = start {
        write_field::<F, L>(shelf, at, n, steps);
    }
}

/// Writes what is written for a value, if there is one.
#[inline]
fn put_value<T: ZvKind, Q: ZvArg<T>, L: Ledger>(
    shelf: &mut Shelf,
    at: usize,
    value: Option<&Q>,
    steps: &mut Steps<L>,
)
    requires usable { IsTrue T.usable }
    requires inside { at + length (concat (new_elements Q.bytes value)) ≤ length shelf.old.bytes }
    ensures bytes { Puts shelf.old.bytes at (length (concat (new_elements Q.bytes value.entry)))
        (concat (new_elements Q.bytes value.entry)) shelf.new.bytes }
    ensures len { length shelf.new.bytes ≡ length shelf.old.bytes }
    // what it takes
    ensures spare { shelf.new.spare ≡ shelf.old.spare }
    ensures steps { steps.new ≡ steps.old + length (concat (new_elements Q.bytes value.entry)) }
{
    if let Some(value) = value {
        write_value::<T, Q, L>(shelf, at, value, steps);
    }
}

/// Raises the numbers of fields by `into` and lowers them by `out`, if that changes them.
#[inline]
fn put_shifted<F: VarZeroVecFormat, L: Ledger>(
    shelf: &mut Shelf,
    at: usize,
    count: usize,
    into: usize,
    out: usize,
    steps: &mut Steps<L>,
)
    requires inside { at + F.W * count ≤ length shelf.old.bytes }
    requires small { into < 2 ^ 63 }
    ensures bytes { (ss : List ℕ) → length ss ≡ count → CanShift F.W into out ss →
        (p q : List ℕ) → shelf.old.bytes ≡ p ++ (flat_map (le F.W) ss ++ q) → length p ≡ at →
        shelf.new.bytes ≡ p ++ (flat_map (le F.W) (map (shifted into out) ss) ++ q) }
    ensures len { length shelf.new.bytes ≡ length shelf.old.bytes }
    // what it takes
    ensures spare { shelf.new.spare ≡ shelf.old.spare }
    ensures steps { steps.new ≤ steps.old + F.W * count }
    ensures still { into ≡ out → steps.new ≡ steps.old }
{
    // `len` is called for its clause that the bytes are fewer than 2^64, so the fields' end fits.
    let _len = shelf.len();
    if into != out {
        shift_fields::<F>(shelf.lend(at, F::W * count, steps), count, into, out);
    }
}

/// Writes the count, if it is another.
#[inline]
fn put_count<F: VarZeroVecFormat, L: Ledger>(
    shelf: &mut Shelf,
    is_other: bool,
    count: usize,
    steps: &mut Steps<L>,
)
    requires inside { F.W ≤ length shelf.old.bytes }
    requires in_field { count < 256 ^ F.W }
    ensures bytes { (c q : List ℕ) → shelf.old.bytes ≡ c ++ q → length c ≡ F.W →
        (is_other ≡ false → c ≡ le F.W count) → shelf.new.bytes ≡ le F.W count ++ q }
    ensures len { length shelf.new.bytes ≡ length shelf.old.bytes }
    // what it takes
    ensures spare { shelf.new.spare ≡ shelf.old.spare }
    ensures steps { steps.new ≤ steps.old + F.W }
    ensures still { is_other ≡ false → steps.new ≡ steps.old }
{
    if is_other {
        write_field::<F, L>(shelf, 0, count, steps);
    }
}

/// How many starts come.
#[inline]
fn count_of(start: Option<usize>) -> usize
    ensures { result ≡ length (option_to_list start) }
{
    match start {
        Some(_) => 1,
        None => 0,
    }
}

/// Makes a change in the bytes of a list.
pub(crate) fn edit_bytes<T: ZvKind, F: VarZeroVecFormat, Q: ZvArg<T>, L: Ledger>(
    shelf: &mut Shelf,
    edit: Edit,
    value: Option<&Q>,
    steps: &mut Steps<L>,
) -> Result<(), NoMemory>
    requires usable { IsTrue T.usable }
    requires can { CanEdit F.W (length shelf.old.bytes) (concat (new_elements Q.bytes value)) edit }
    ensures ok { OnOk result (Edits F.W edit (concat (new_elements Q.bytes value.entry))
        shelf.old.bytes shelf.new.bytes) }
    // where it is refused
    ensures err { OnErr result (shelf.new ≡ shelf.old) }
    ensures succeeds { OnErr result (F.W * edit.gone + edit.out + shelf.old.spare <
        F.W * length (option_to_list edit.start) + edit.into) }
    // what it takes
    ensures memory { OnOk result (shelf.new.spare ≡
        length shelf.old.bytes + shelf.old.spare - length shelf.new.bytes) }
    ensures steps { OnOk result (steps.new ≤ steps.old + (length shelf.old.bytes
        - F.W * edit.kept - F.W * edit.gone - edit.out)
        + (F.W * length (option_to_list edit.start) + edit.into - (F.W * edit.gone + edit.out))
        + edit.into + F.W * length (option_to_list edit.start) + F.W * edit.later + F.W) }
    ensures still { edit.gone ≡ 0 → length (option_to_list edit.start) ≡ 0 →
        edit.out ≡ edit.into → OnOk result (steps.new ≤ steps.old + edit.into) }
{
    let width = F::W;
    let comes = count_of(edit.start);
    let at = width * edit.kept;
    let fields = Gap {
        at,
        out: width * edit.gone,
        into: width * comes,
    };
    let between = width * edit.later + edit.before;
    let body = Gap {
        at: at + fields.out + between,
        out: edit.out,
        into: edit.into,
    };
    fit_gaps(shelf, fields, body, steps)?;
    let after = at + fields.into;
    put_value::<T, Q, L>(shelf, after + between, value, steps);
    put_start::<F, L>(shelf, at, edit.start, steps);
    put_shifted::<F, L>(shelf, after, edit.later, edit.into, edit.out, steps);
    let count = edit.kept + comes + edit.later;
    put_count::<F, L>(shelf, comes != edit.gone, count, steps);
    Ok(())
}
