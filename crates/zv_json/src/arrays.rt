// Arrays as JSON.
ghost use Rattle.std.specs.Prelude.{◌≡◌, ◌<◌, ◌^◌, None, false, length, map, refl};
ghost use Rattle.std.specs.Result.{result_map_both};
ghost use Rattle.serde_json.specs.View.{view};
ghost use Rattle.zv_json.specs.Arrays.{array_in, array_written};
ghost use Rattle.std.specs.Char.{IsScalar};
ghost use Rattle.zv_json.specs.Back.{array_back, bytes_back, char_back, nothing_named};
ghost use Rattle.zv_json.specs.Back.{unsigned_back};
ghost use Rattle.zv_json.specs.Json.{UnlessMemory, items_in, or_wide};

use crate::error::JsonError;
use crate::value::JsonValue;
use serde_json::Value;
use std::alloc::Global;

/// The items of a value that is to be an array.
///
/// # Errors
/// `Shape` where it is none.
#[tactic(auto, using(crate::proofs::Listed::items_listed))]
pub fn items_in(value: &Value) -> Result<&[Value], JsonError>
    ensures { result_map_both (λ items. map view items.now) (λ e. e) result
        ≡ items_in (view value.now) }
{
    match value.as_array() {
        Some(items) => Ok(items.as_slice()),
        None => Err(JsonError::Shape),
    }
}

/// Writes values as the items of an array.
pub(crate) fn array_of<T: JsonValue>(alloc: Global, values: &[T]) -> Result<Value, JsonError>
    ensures { UnlessMemory view (or_wide (array_written (map T.value_data values.now))) result }
{
    let mut items = Vec::with_capacity(alloc, values.len())?;
    for value in values {
        items.push(value.to_value(alloc)?)?;
    }
    Ok(Value::Array(items))
}

/// Reads as many values as there are places.
pub(crate) fn fill<T: JsonValue>(value: &Value, out: &mut [T]) -> Result<(), JsonError>
    ensures { result_map_both (λ _. out.new) (λ e. e) result
        ≡ array_in T.value_in (length out.old) (view value.now) }
{
    let items = items_in(value)?;
    if items.len() != out.len() {
        return Err(JsonError::Shape);
    }
    for (index, item) in items.iter().enumerate() {
        out[index] = T::from_value(item)?;
    }
    Ok(())
}

impl<const N: usize> JsonValue for [u8; N] {
    const KEY: bool = false;

    ghost KEY = { false };

    ghost value_data = { λ vs. array_written (map ⟦<u8 as JsonValue>⟧.value_data vs) };

    ghost value_in = { array_in ⟦<u8 as JsonValue>⟧.value_in N };

    ghost value_name = { λ _. None };

    ghost named = { λ _. None };

    ghost back = { bytes_back N };

    ghost named_back = { λ v name _. nothing_named v name };

    fn to_value(self, alloc: Global) -> Result<Value, JsonError> {
        array_of(alloc, &self)
    }

    fn from_value(value: &Value) -> Result<[u8; N], JsonError> {
        let mut values = [0; N];
        fill(value, &mut values)?;
        Ok(values)
    }

    fn to_name(self, _alloc: Global) -> Result<Option<String>, JsonError> {
        Ok(None)
    }

    fn from_name(_name: &str) -> Option<[u8; N]> {
        None
    }
}

impl<const N: usize> JsonValue for [u16; N] {
    const KEY: bool = false;

    ghost KEY = { false };

    ghost value_data = { λ vs. array_written (map ⟦<u16 as JsonValue>⟧.value_data vs) };

    ghost value_in = { array_in ⟦<u16 as JsonValue>⟧.value_in N };

    ghost value_name = { λ _. None };

    ghost named = { λ _. None };

    ghost back = { λ vs d h. array_back (λ v. v < 2 ^ 16) ⟦<u16 as JsonValue>⟧.value_data
        ⟦<u16 as JsonValue>⟧.value_in (unsigned_back 16 refl) N vs d h.0 h.1 };

    ghost named_back = { λ v name _. nothing_named v name };

    fn to_value(self, alloc: Global) -> Result<Value, JsonError> {
        array_of(alloc, &self)
    }

    fn from_value(value: &Value) -> Result<[u16; N], JsonError> {
        let mut values = [0; N];
        fill(value, &mut values)?;
        Ok(values)
    }

    fn to_name(self, _alloc: Global) -> Result<Option<String>, JsonError> {
        Ok(None)
    }

    fn from_name(_name: &str) -> Option<[u16; N]> {
        None
    }
}

impl<const N: usize> JsonValue for [u32; N] {
    const KEY: bool = false;

    ghost KEY = { false };

    ghost value_data = { λ vs. array_written (map ⟦<u32 as JsonValue>⟧.value_data vs) };

    ghost value_in = { array_in ⟦<u32 as JsonValue>⟧.value_in N };

    ghost value_name = { λ _. None };

    ghost named = { λ _. None };

    ghost back = { λ vs d h. array_back (λ v. v < 2 ^ 32) ⟦<u32 as JsonValue>⟧.value_data
        ⟦<u32 as JsonValue>⟧.value_in (unsigned_back 32 refl) N vs d h.0 h.1 };

    ghost named_back = { λ v name _. nothing_named v name };

    fn to_value(self, alloc: Global) -> Result<Value, JsonError> {
        array_of(alloc, &self)
    }

    fn from_value(value: &Value) -> Result<[u32; N], JsonError> {
        let mut values = [0; N];
        fill(value, &mut values)?;
        Ok(values)
    }

    fn to_name(self, _alloc: Global) -> Result<Option<String>, JsonError> {
        Ok(None)
    }

    fn from_name(_name: &str) -> Option<[u32; N]> {
        None
    }
}

impl<const N: usize> JsonValue for [u64; N] {
    const KEY: bool = false;

    ghost KEY = { false };

    ghost value_data = { λ vs. array_written (map ⟦<u64 as JsonValue>⟧.value_data vs) };

    ghost value_in = { array_in ⟦<u64 as JsonValue>⟧.value_in N };

    ghost value_name = { λ _. None };

    ghost named = { λ _. None };

    ghost back = { λ vs d h. array_back (λ v. v < 2 ^ 64) ⟦<u64 as JsonValue>⟧.value_data
        ⟦<u64 as JsonValue>⟧.value_in (unsigned_back 64 refl) N vs d h.0 h.1 };

    ghost named_back = { λ v name _. nothing_named v name };

    fn to_value(self, alloc: Global) -> Result<Value, JsonError> {
        array_of(alloc, &self)
    }

    fn from_value(value: &Value) -> Result<[u64; N], JsonError> {
        let mut values = [0; N];
        fill(value, &mut values)?;
        Ok(values)
    }

    fn to_name(self, _alloc: Global) -> Result<Option<String>, JsonError> {
        Ok(None)
    }

    fn from_name(_name: &str) -> Option<[u64; N]> {
        None
    }
}

impl<const N: usize> JsonValue for [char; N] {
    const KEY: bool = false;

    ghost KEY = { false };

    ghost value_data = { λ vs. array_written (map ⟦<char as JsonValue>⟧.value_data vs) };

    ghost value_in = { array_in ⟦<char as JsonValue>⟧.value_in N };

    ghost value_name = { λ _. None };

    ghost named = { λ _. None };

    ghost back = { λ vs d h. array_back IsScalar ⟦<char as JsonValue>⟧.value_data
        ⟦<char as JsonValue>⟧.value_in char_back N vs d h.0 h.1 };

    ghost named_back = { λ v name _. nothing_named v name };

    fn to_value(self, alloc: Global) -> Result<Value, JsonError> {
        array_of(alloc, &self)
    }

    fn from_value(value: &Value) -> Result<[char; N], JsonError> {
        let mut values = ['\0'; N];
        fill(value, &mut values)?;
        Ok(values)
    }

    fn to_name(self, _alloc: Global) -> Result<Option<String>, JsonError> {
        Ok(None)
    }

    fn from_name(_name: &str) -> Option<[char; N]> {
        None
    }
}
