// Lists of values of fixed width as JSON.
ghost use Rattle.std.specs.Prelude.{◌≡◌, IsTrue, None, Ok, false, flat_map, map};
ghost use Rattle.serde_json.specs.View.{view};
ghost use Rattle.zv_fixed.specs.Views.{values_in};
ghost use Rattle.zv_json.specs.Arrays.{array_written, list_in};
ghost use Rattle.zv_json.specs.Json.{UnlessMemory, and_then, or_wide};
ghost use Rattle.zv_ule.specs.Chunks.{values_of};

use crate::arrays::{array_of, items_in};
use crate::error::JsonError;
use crate::kind::JsonKind;
use crate::value::JsonValue;
use serde_json::Value;
use std::alloc::Global;
use zv_fixed::{ZeroSlice, ZeroSliceULE};
use zv_ule::{EncodeAsVarULE, SliceULE, VarBox, encode_varule_to_box};

/// Writes the values of a list as the items of an array.
///
/// # Errors
/// `Wide` where a number in them is no whole number from -2^63 to 2^64 - 1; else `Memory`.
pub fn values_to_json<T: JsonValue>(
    alloc: Global,
    list: ZeroSlice<'_, T>,
) -> Result<Value, JsonError>
    ensures { UnlessMemory view (or_wide (array_written (map T.value_data (values_in list.entry))))
        result }
{
    let mut items = Vec::with_capacity(alloc, list.len())?;
    for value in list.iter() {
        items.push(value.to_value(alloc)?)?;
    }
    Ok(Value::Array(items))
}

/// Reads the items of an array as values.
///
/// # Errors
/// `Shape` where the value is no array, else the first fault of an item; else `Memory`.
pub fn values_from_json<T: JsonValue>(alloc: Global, value: &Value) -> Result<Vec<T>, JsonError>
    ensures { UnlessMemory (λ v. v.items) (list_in T.value_in (view value.now)) result }
{
    let items = items_in(value)?;
    let mut values = Vec::with_capacity(alloc, items.len())?;
    for item in items {
        values.push(T::from_value(item)?)?;
    }
    Ok(values)
}

/// The element that is the list of some values.
fn list_box<T: JsonValue>(
    alloc: Global,
    values: &Vec<T>,
) -> Result<VarBox<ZeroSliceULE<T>>, JsonError>
    requires { IsTrue T.usable }
    ensures { UnlessMemory (λ b. b)
        (Ok (flat_map (λ v. T.ULE.chunk (T.stored v)) values.now.items)) result }
{
    if !EncodeAsVarULE::<ZeroSliceULE<T>>::encode_var_ule_fits(values) {
        return Err(JsonError::Memory);
    }
    Ok(encode_varule_to_box(alloc, values)?)
}

impl<T: JsonValue> JsonKind for ZeroSliceULE<T> {
    const KEY: bool = false;

    ghost KEY = { false };

    ghost to_data = { λ e. array_written
        (map T.value_data (values_of T.ULE.width (λ b. T.loaded (T.ULE.value b)) e)) };

    ghost of_data = { λ d. and_then (list_in T.value_in d)
        (λ vs. Ok (flat_map (λ v. T.ULE.chunk (T.stored v)) vs)) };

    ghost to_name = { λ _. None };

    ghost of_name = { λ _. None };

    fn element_to_json(alloc: Global, element: &[u8]) -> Result<Value, JsonError> {
        values_to_json(alloc, ZeroSlice::<'_, T>::of_valid(element))
    }

    fn element_from_json(
        alloc: Global,
        value: &Value,
    ) -> Result<VarBox<ZeroSliceULE<T>>, JsonError> {
        list_box(alloc, &values_from_json(alloc, value)?)
    }

    fn key_to_text(_alloc: Global, _element: &[u8]) -> Result<Option<String>, JsonError> {
        Ok(None)
    }

    fn key_from_text(_alloc: Global, _text: &str) -> Result<VarBox<ZeroSliceULE<T>>, JsonError> {
        Err(JsonError::BadKey)
    }
}

impl JsonKind for SliceULE<u8> {
    const KEY: bool = false;

    ghost KEY = { false };

    ghost to_data = { λ e. array_written (map ⟦<u8 as JsonValue>⟧.value_data e) };

    ghost of_data = { list_in ⟦<u8 as JsonValue>⟧.value_in };

    ghost to_name = { λ _. None };

    ghost of_name = { λ _. None };

    fn element_to_json(alloc: Global, element: &[u8]) -> Result<Value, JsonError> {
        array_of(alloc, element)
    }

    #[tactic(auto, using(crate::proofs::Bytes::bytes_sound))]
    fn element_from_json(alloc: Global, value: &Value) -> Result<VarBox<SliceULE<u8>>, JsonError> {
        Ok(VarBox::of_valid(values_from_json::<u8>(alloc, value)?))
    }

    fn key_to_text(_alloc: Global, _element: &[u8]) -> Result<Option<String>, JsonError> {
        Ok(None)
    }

    fn key_from_text(_alloc: Global, _text: &str) -> Result<VarBox<SliceULE<u8>>, JsonError> {
        Err(JsonError::BadKey)
    }
}
