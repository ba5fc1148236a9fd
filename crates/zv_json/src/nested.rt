// Lists of elements as JSON.
ghost use Rattle.std.specs.Prelude.{◌≡◌, None, false, map, IsTrue};
ghost use Rattle.serde_json.specs.View.{view};
ghost use Rattle.zv_json.specs.Arrays.{array_written, list_in};
ghost use Rattle.zv_json.specs.Json.{UnlessMemory, and_then, or_wide};
ghost use Rattle.zv_json.specs.Nested.{list_of_elements};
ghost use Rattle.zv_var.specs.Format.{elements};
ghost use Rattle.zv_var.specs.Views.{list_of};

use crate::arrays::items_in;
use crate::error::JsonError;
use crate::kind::JsonKind;
use serde_json::Value;
use std::alloc::Global;
use zv_ule::{EncodeAsVarULE, VarBox, VarULE, VarZeroVecFormat, encode_varule_to_box};
use zv_var::{VarZeroSlice, VarZeroSliceULE};

/// Writes the elements of a list as the items of an array.
///
/// # Errors
/// `Wide` where a number in them is no whole number from -2^63 to 2^64 - 1; else `Memory`.
pub fn elements_to_json<T: JsonKind, F: VarZeroVecFormat>(
    alloc: Global,
    list: VarZeroSlice<'_, T, F>,
) -> Result<Value, JsonError>
    requires { IsTrue T.usable }
    ensures { UnlessMemory view (or_wide (array_written (map T.to_data (list_of list.entry))))
        result }
{
    let mut items = Vec::with_capacity(alloc, list.len())?;
    for element in list.iter() {
        items.push(T::element_to_json(alloc, element.as_bytes())?)?;
    }
    Ok(Value::Array(items))
}

/// Reads the items of an array as elements.
///
/// # Errors
/// `Shape` where the value is no array, else the first fault of an item; else `Memory`.
pub fn elements_from_json<T: JsonKind>(
    alloc: Global,
    value: &Value,
) -> Result<Vec<VarBox<T>>, JsonError>
    requires { IsTrue T.usable }
    ensures { UnlessMemory (λ v. v.items) (list_in T.of_data (view value.now)) result }
{
    let items = items_in(value)?;
    let mut elements = Vec::with_capacity(alloc, items.len())?;
    for item in items {
        elements.push(T::element_from_json(alloc, item)?)?;
    }
    Ok(elements)
}

/// The element that is the list of some elements.
///
/// # Errors
/// `TooLarge` where the format can't hold them; else `Memory`.
fn nested_box<T: VarULE, F: VarZeroVecFormat>(
    alloc: Global,
    elements: &Vec<VarBox<T>>,
) -> Result<VarBox<VarZeroSliceULE<T, F>>, JsonError>
    requires { IsTrue T.usable }
    ensures { UnlessMemory (λ b. b) (list_of_elements F.W elements.now.items) result }
{
    if !EncodeAsVarULE::<VarZeroSliceULE<T, F>>::encode_var_ule_fits(elements) {
        return Err(JsonError::TooLarge);
    }
    Ok(encode_varule_to_box(alloc, elements)?)
}

impl<T: JsonKind + VarULE, F: VarZeroVecFormat> JsonKind for VarZeroSliceULE<T, F> {
    const KEY: bool = false;

    ghost KEY = { false };

    ghost to_data = { λ e. array_written (map T.to_data (elements F.W e)) };

    ghost of_data = { λ d. and_then (list_in T.of_data d) (list_of_elements F.W) };

    ghost to_name = { λ _. None };

    ghost of_name = { λ _. None };

    fn element_to_json(alloc: Global, element: &[u8]) -> Result<Value, JsonError> {
        elements_to_json(alloc, VarZeroSlice::<'_, T, F>::of_valid(element))
    }

    fn element_from_json(
        alloc: Global,
        value: &Value,
    ) -> Result<VarBox<VarZeroSliceULE<T, F>>, JsonError> {
        nested_box(alloc, &elements_from_json(alloc, value)?)
    }

    fn key_to_text(_alloc: Global, _element: &[u8]) -> Result<Option<String>, JsonError> {
        Ok(None)
    }

    fn key_from_text(
        _alloc: Global,
        _text: &str,
    ) -> Result<VarBox<VarZeroSliceULE<T, F>>, JsonError> {
        Err(JsonError::BadKey)
    }
}
