// One change of a list, in the buffer that it lies in.
ghost use Rattle.std.specs.Prelude.{◌≡◌, ℕ, ◌+◌, ◌-◌, ◌*◌, ◌^◌, ◌<◌, ◌≤◌, ◌++◌, List, Option, None};
ghost use Rattle.std.specs.Prelude.{◌∷◌, [], length, true, IfSome, IfNone, IsOk, IsTrue, OnErr};
ghost use Rattle.std.specs.Prelude.{OnOk};
ghost use Rattle.std.specs.List.{concat};
ghost use Rattle.std.specs.Option.{ForSome, option_map};
ghost use Rattle.zv_var.specs.Format.{elements, enc, list_fault};
ghost use Rattle.zv_var.specs.Laws.{AreValid};
ghost use Rattle.zv_var.specs.Views.{list_of};
ghost use Rattle.zv_owned.specs.Changes.{HasPlace, IsChanged, changed, growth, takes_change};
ghost use Rattle.zv_owned.specs.Size.{max_of};
ghost use Rattle.zv_owned.specs.Splices.{IsEdit, begin_steps, new_bytes, new_elements};

use crate::change::Change;
use crate::shelf::Shelf;
use crate::writes::{Edit, edit_bytes, write_field, write_value};
use std::sync::ledger::Ledger;
use zv_ule::{NoMemory, Steps, VarZeroVecFormat, ZvArg, ZvKind};
use zv_var::slice::VarZeroSlice;

/// Makes a change at a place that the size rule takes. The bytes are then the encoding of the
/// changed list, whatever they were before.
#[tactic(auto, using(crate::proofs::Placed::splicing))]
pub(crate) fn splice<T: ZvKind, F: VarZeroVecFormat, Q: ZvArg<T>, L: Ledger>(
    shelf: &mut Shelf,
    index: usize,
    change: Change<'_, Q>,
    steps: &mut Steps<L>,
) -> Result<(), NoMemory>
    requires usable { IsTrue T.usable }
    requires spells { list_fault F.W T.fault shelf.old.bytes ≡ None }
    requires place { HasPlace Q.bytes change (length (elements F.W shelf.old.bytes)) index }
    requires fits { takes_change Q.bytes F.W change (elements F.W shelf.old.bytes) index ≡ true }
    ensures done { OnOk result (IsChanged Q.bytes F.W T.fault change.entry
        (elements F.W shelf.old.bytes) index shelf.old.bytes shelf.old.spare
        shelf.new.bytes shelf.new.spare steps.old steps.new) }
    // where it is refused
    ensures err { OnErr result (shelf.new ≡ shelf.old) }
    ensures succeeds { OnErr result (length shelf.old.bytes + shelf.old.spare < length (enc F.W
        (changed Q.bytes change.entry (elements F.W shelf.old.bytes) index))) }
    ensures reserved { growth Q.bytes F.W change.entry ≤ shelf.old.spare → IsOk result }
{
    let value = change.value();
    let list = VarZeroSlice::<T, F>::of_valid(shelf.bytes());
    match edit_for(list, index, change.gone(), len_for::<T, Q>(value)) {
        Some(edit) => edit_bytes::<T, F, Q, L>(shelf, edit, value, steps)?,
        None => begin::<T, F, Q, L>(shelf, value, steps)?,
    }
    Ok(())
}

/// How many bytes are written for a value, if there is one.
#[inline]
fn len_for<T: ZvKind, Q: ZvArg<T>>(value: Option<&Q>) -> Option<usize>
    requires usable { IsTrue T.usable }
    requires short { ForSome value (λ v. length (Q.bytes v.now) < 2 ^ 32) }
    ensures len { result ≡ option_map (λ e. length e) (new_bytes Q.bytes value.entry) }
    ensures short { length (concat (new_elements Q.bytes value.entry)) < 2 ^ 32 }
    ensures valid { AreValid T.fault (new_elements Q.bytes value.entry) }
{
    match value {
        Some(value) => Some(value.arg_len()),
        None => None,
    }
}

/// The bytes become the encoding of the list of what is written for a value, or of none.
fn begin<T: ZvKind, F: VarZeroVecFormat, Q: ZvArg<T>, L: Ledger>(
    shelf: &mut Shelf,
    value: Option<&Q>,
    steps: &mut Steps<L>,
) -> Result<(), NoMemory>
    requires usable { IsTrue T.usable }
    requires short { ForSome value (λ v. length (Q.bytes v.now) < max_of F.W) }
    ensures bytes { OnOk result (shelf.new.bytes ≡ enc F.W (new_elements Q.bytes value.entry)) }
    // where it is refused
    ensures err { OnErr result (shelf.new ≡ shelf.old) }
    ensures succeeds { OnErr result (length shelf.old.bytes + shelf.old.spare <
        length (enc F.W (new_elements Q.bytes value.entry))) }
    // what it takes
    ensures memory { OnOk result (shelf.new.spare ≡
        length shelf.old.bytes + shelf.old.spare - length shelf.new.bytes) }
    ensures steps { OnOk result (steps.new ≤ steps.old + begin_steps F.W
        (option_map (λ e. length e) (new_bytes Q.bytes value.entry))) }
{
    match value {
        Some(value) => begin_with::<T, F, Q, L>(shelf, value, steps),
        None => {
            shelf.clear();
            Ok(())
        }
    }
}

/// The bytes become the encoding of the list of what is written for a value.
#[tactic(auto, using(crate::proofs::Spliced::one_encoded))]
fn begin_with<T: ZvKind, F: VarZeroVecFormat, Q: ZvArg<T>, L: Ledger>(
    shelf: &mut Shelf,
    value: &Q,
    steps: &mut Steps<L>,
) -> Result<(), NoMemory>
    requires usable { IsTrue T.usable }
    requires short { length (Q.bytes value.now) < max_of F.W }
    ensures bytes { OnOk result (shelf.new.bytes ≡ enc F.W (Q.bytes value.now ∷ [])) }
    // where it is refused
    ensures err { OnErr result (shelf.new ≡ shelf.old) }
    ensures succeeds { OnErr result (length shelf.old.bytes + shelf.old.spare <
        length (enc F.W (Q.bytes value.now ∷ []))) }
    // what it takes
    ensures memory { OnOk result (shelf.new.spare ≡
        length shelf.old.bytes + shelf.old.spare - length shelf.new.bytes) }
    ensures steps { OnOk result (steps.new ≤
        steps.old + F.W + 2 * (F.W + length (Q.bytes value.now))) }
{
    let width = F::W;
    fit_len(shelf, width + value.arg_len(), steps)?;
    write_field::<F, L>(shelf, 0, 1, steps);
    write_value::<T, Q, L>(shelf, width, value, steps);
    Ok(())
}

/// Makes the bytes `n`: it adds some, or cuts.
fn fit_len<L: Ledger>(shelf: &mut Shelf, n: usize, steps: &mut Steps<L>) -> Result<(), NoMemory>
    ensures len { OnOk result (length shelf.new.bytes ≡ n) }
    // where it is refused
    ensures err { OnErr result (shelf.new ≡ shelf.old) }
    ensures succeeds { OnErr result (length shelf.old.bytes + shelf.old.spare < n) }
    // what it takes
    ensures memory { OnOk result (shelf.new.spare ≡
        length shelf.old.bytes + shelf.old.spare - n) }
    ensures steps { OnOk result (steps.new ≤ steps.old + n) }
    ensures free { OnErr result (steps.new ≡ steps.old) }
{
    let len = shelf.len();
    if n > len {
        return shelf.grow(n - len, steps);
    }
    shelf.cut(n);
    Ok(())
}

/// The change of a list's bytes in which the elements from `start` on, `gone` of them, give way to
/// one of `new` bytes, or to none; `None` where the list is empty or becomes so.
#[tactic(auto, using(crate::proofs::Offsets::offset_rises))]
fn edit_for<T: ZvKind, F: VarZeroVecFormat>(
    list: VarZeroSlice<'_, T, F>,
    start: usize,
    gone: usize,
    new: Option<usize>,
) -> Option<Edit>
    requires one { gone ≤ 1 }
    requires inside { start + gone ≤ length (list_of list) }
    requires change { gone ≡ 0 → new ≡ None → ⊥ }
    ensures edit { IfSome result (λ e. (front mid back : List (List ℕ)) (o : Option (List ℕ)) →
        list_of list.entry ≡ front ++ (mid ++ back) → length front ≡ start →
        length mid ≡ gone → option_map (λ x. length x) o ≡ new → IsEdit front mid back o e) }
    ensures no_new { IfNone result (0 < gone → new ≡ None) }
    // where it is refused
    ensures none { IfNone result (length (list_of list.entry) ≡ gone) }
{
    let parts = list.components();
    let count = parts.len();
    let before = parts.offset(start);
    let out = parts.offset(start + gone) - before;
    // The count stands in the field of the first element.
    let kept = start.max(1);
    match new {
        Some(into) if gone > 0 => Some(Edit {
            kept: start + 1,
            gone: 0,
            start: None,
            later: count - start - 1,
            before,
            out,
            into,
        }),
        Some(into) if count > 0 => Some(Edit {
            kept,
            gone: 0,
            start: Some(start_for(start, before, into)),
            later: count - kept,
            before,
            out: 0,
            into,
        }),
        None if count > 1 => Some(Edit {
            kept,
            gone: 1,
            start: None,
            later: count - kept - 1,
            before,
            out,
            into: 0,
        }),
        _ => None,
    }
}

/// The new start after an element came: its own, or where it is the first one, that of the next.
#[inline]
fn start_for(index: usize, before: usize, len: usize) -> usize
    ensures first { index ≡ 0 → result ≡ len }
    ensures later { 0 < index → result ≡ before }
{
    if index == 0 { len } else { before }
}
