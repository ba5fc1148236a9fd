// Records as JSON: arrays of their fields.
ghost use Rattle.std.specs.Prelude.{◌≡◌, ℕ, ◌+◌, ◌<◌, ◌≤◌, List, [], ◌∷◌, None, Ok, Option, Result};
ghost use Rattle.std.specs.Prelude.{IfOk, IsTrue, OnOk, false, length, map};
ghost use Rattle.serde_json.specs.Data.{Data};
ghost use Rattle.serde_json.specs.View.{view};
ghost use Rattle.zv_multi.specs.Records.{field_at, fields_fault};
ghost use Rattle.zv_var.specs.Format.{elements_after};
ghost use Rattle.zv_var.specs.Views.{lengthless_list};
ghost use Rattle.zv_json.specs.Arrays.{all_written, array_written, then_read, then_written};
ghost use Rattle.zv_json.specs.Json.{UnlessMemory, and_then, items_in, or_wide};
ghost use Rattle.zv_json.specs.Nested.{record_of_fields};
ghost use Rattle.zv_json.specs.Records.{fields_in, read_field};
ghost use Rattle.zv_json.specs.declared.error.JsonError.{JsonError};

use crate::arrays::items_in;
use crate::error::JsonError;
use crate::kind::JsonKind;
use serde_json::Value;
use std::alloc::Global;
use zv_multi::{AnyBytes, End, Field, FieldKinds, MultiFieldsULE, RecordULE};
use zv_ule::{SliceULE, VarBox, VarRef, VarZeroVecFormat, ZvKind};
use zv_var::{
    VarZeroLengthlessSlice, compute_serializable_len_without_length,
    write_serializable_bytes_without_length,
};

/// The kinds of fields, one after another, each of which has a JSON form.
pub trait JsonFields: FieldKinds {
    /// The JSON of the fields from a place on.
    ghost data_from: { ℕ → List (List ℕ) → List (Option Data) };

    /// The fields that so many items spell, or the first fault.
    ghost read: { List Data → Result (List (List ℕ)) JsonError };

    /// Adds the fields from a place on to the items of an array.
    fn write_from<F: VarZeroVecFormat>(
        alloc: Global,
        fields: VarZeroLengthlessSlice<'_, AnyBytes, F>,
        from: usize,
        items: &mut Vec<Value>,
    ) -> Result<(), JsonError>
        requires usable { IsTrue Self.usable }
        requires places { from + length Self.faults ≤ length (lengthless_list fields) }
        requires spells { fields_fault Self.faults from (lengthless_list fields) ≡ None }
        ensures { UnlessMemory (λ _. map view items.new.items)
            (or_wide (then_written (map view items.old.items)
            (all_written (data_from from (lengthless_list fields.entry))))) result };

    /// Adds what the items spell to the fields of a record.
    fn read_onto(
        alloc: Global,
        items: &[Value],
        fields: &mut Vec<VarBox<SliceULE<u8>>>,
    ) -> Result<(), JsonError>
        requires usable { IsTrue Self.usable }
        requires count { length items.now ≡ length Self.faults }
        ensures read { UnlessMemory (λ _. fields.new.items)
            (then_read fields.old.items (read (map view items.now))) result }
        ensures count { IfOk (read (map view items.now)) (λ xs. OnOk result
            (length xs ≡ length Self.faults)) }
        ensures valid { IfOk (read (map view items.now)) (λ xs. OnOk result
            (fields_fault Self.faults 0 xs ≡ None)) };
}

impl JsonFields for End {
    ghost data_from = { λ _ _. [] };

    ghost read = { λ _. Ok [] };

    fn write_from<F: VarZeroVecFormat>(
        _alloc: Global,
        _fields: VarZeroLengthlessSlice<'_, AnyBytes, F>,
        _from: usize,
        _items: &mut Vec<Value>,
    ) -> Result<(), JsonError> {
        Ok(())
    }

    fn read_onto(
        _alloc: Global,
        _items: &[Value],
        _fields: &mut Vec<VarBox<SliceULE<u8>>>,
    ) -> Result<(), JsonError> {
        Ok(())
    }
}

/// The JSON of a field.
fn field_to_json<A: JsonKind, F: VarZeroVecFormat>(
    alloc: Global,
    fields: VarZeroLengthlessSlice<'_, AnyBytes, F>,
    index: usize,
) -> Result<Value, JsonError>
    requires usable { IsTrue A.usable }
    requires place { index < length (lengthless_list fields) }
    requires spells { A.fault (field_at (lengthless_list fields) index) ≡ None }
    ensures { UnlessMemory view
        (or_wide (A.to_data (field_at (lengthless_list fields.entry) index))) result }
{
    match fields.get(index) {
        Some(field) => A::element_to_json(alloc, field.as_bytes()),
        None => unreachable!(),
    }
}

/// An element without its kind.
#[tactic(auto, using(crate::proofs::Bytes::bytes_sound))]
fn bytes_of<A: ZvKind>(element: VarBox<A>) -> VarBox<SliceULE<u8>>
    ensures same { result ≡ element }
    ensures spells { A.fault element ≡ None }
{
    VarBox::of_valid(element.into_bytes())
}

impl<A: JsonKind, R: JsonFields> JsonFields for Field<A, R> {
    ghost data_from = { λ i xs. A.to_data (field_at xs i) ∷ R.data_from (i + 1) xs };

    ghost read = { read_field A.of_data R.read };

    #[tactic(auto, using(zv_var::proofs::Lists::counts))]
    fn write_from<F: VarZeroVecFormat>(
        alloc: Global,
        fields: VarZeroLengthlessSlice<'_, AnyBytes, F>,
        from: usize,
        items: &mut Vec<Value>,
    ) -> Result<(), JsonError> {
        items.push(field_to_json::<A, F>(alloc, fields, from)?)?;
        R::write_from(alloc, fields, from + 1, items)
    }

    fn read_onto(
        alloc: Global,
        items: &[Value],
        fields: &mut Vec<VarBox<SliceULE<u8>>>,
    ) -> Result<(), JsonError> {
        let [first, behind @ ..] = items else {
            unreachable!();
        };
        fields.push(bytes_of(A::element_from_json(alloc, first)?))?;
        R::read_onto(alloc, behind, fields)
    }
}

/// The record of some fields.
///
/// # Errors
/// `TooLarge` where the format can't hold them; else `Memory`.
fn record_bytes<F: VarZeroVecFormat>(
    alloc: Global,
    fields: &[VarBox<SliceULE<u8>>],
) -> Result<Vec<u8>, JsonError>
    ensures { UnlessMemory (λ bytes. bytes.items) (record_of_fields F.W fields.now) result }
{
    let Some(len) = compute_serializable_len_without_length::<SliceULE<u8>, _, F>(fields) else {
        return Err(JsonError::TooLarge);
    };
    let mut bytes = vec![in alloc; 0; len as usize]?;
    write_serializable_bytes_without_length::<SliceULE<u8>, _, F>(fields, &mut bytes);
    Ok(bytes)
}

/// The element that is the record of some fields.
///
/// # Errors
/// As [`record_bytes`].
fn record_box<const LEN: usize, K: FieldKinds, F: VarZeroVecFormat>(
    alloc: Global,
    fields: &[VarBox<SliceULE<u8>>],
) -> Result<VarBox<RecordULE<LEN, K, F>>, JsonError>
    requires usable { IsTrue ⟦<RecordULE<LEN, K, F> as ZvKind>⟧.usable }
    requires count { length fields.now ≡ LEN }
    requires valid { fields_fault K.faults 0 fields.now ≡ None }
    ensures { UnlessMemory (λ b. b) (record_of_fields F.W fields.now) result }
{
    Ok(VarBox::of_valid(record_bytes::<F>(alloc, fields)?))
}

impl<const LEN: usize, K: JsonFields, F: VarZeroVecFormat> JsonKind for RecordULE<LEN, K, F> {
    const KEY: bool = false;

    ghost KEY = { false };

    ghost to_data = { λ e. array_written (K.data_from 0 (elements_after F.W LEN e)) };

    ghost of_data = { λ d. and_then (and_then (items_in d) (fields_in LEN K.read))
        (record_of_fields F.W) };

    ghost to_name = { λ _. None };

    ghost of_name = { λ _. None };

    #[tactic(auto, using(zv_var::proofs::Lists::counts))]
    fn element_to_json(alloc: Global, element: &[u8]) -> Result<Value, JsonError> {
        let record = VarRef::<'_, MultiFieldsULE<LEN, F>>::of_valid(element);
        let mut items = Vec::with_capacity(alloc, LEN)?;
        K::write_from(alloc, MultiFieldsULE::fields(record), 0, &mut items)?;
        Ok(Value::Array(items))
    }

    fn element_from_json(
        alloc: Global,
        value: &Value,
    ) -> Result<VarBox<RecordULE<LEN, K, F>>, JsonError> {
        let items = items_in(value)?;
        if items.len() != LEN {
            return Err(JsonError::Shape);
        }
        let mut fields = Vec::with_capacity(alloc, LEN)?;
        K::read_onto(alloc, items, &mut fields)?;
        record_box(alloc, &fields)
    }

    fn key_to_text(_alloc: Global, _element: &[u8]) -> Result<Option<String>, JsonError> {
        Ok(None)
    }

    fn key_from_text(
        _alloc: Global,
        _text: &str,
    ) -> Result<VarBox<RecordULE<LEN, K, F>>, JsonError> {
        Err(JsonError::BadKey)
    }
}
