// Kinds whose elements have a JSON form.
ghost use Rattle.std.specs.Prelude.{◌≡◌, List, ℕ, Bool, Option, None, IfOk, IsTrue, is_some, refl};
ghost use Rattle.std.specs.Prelude.{true};
ghost use Rattle.std.specs.Prelude.{string_bytes};
ghost use Rattle.std.specs.Option.{ok_or, option_map};
ghost use Rattle.std.specs.Prelude.{Result, Ok};
ghost use Rattle.serde_json.specs.Data.{Data};
ghost use Rattle.serde_json.specs.View.{view};
ghost use Rattle.zv_json.specs.Json.{UnlessMemory, and_then, or_wide};
ghost use Rattle.zv_json.specs.declared.error.JsonError.{JsonError};
ghost use Rattle.zv_json.specs.declared.error.JsonError.TheVariants.{BadKey, Memory};

use crate::error::JsonError;
use crate::number::JsonNumber;
use crate::value::JsonValue;
use serde_json::Value;
use std::alloc::Global;
use zv_ule::{AsULE, StrULE, ULE, VarBox, ZvKind, load, store};

/// A kind whose elements have a JSON form.
pub trait JsonKind: ZvKind {
    /// Whether the elements are keys of objects: numbers, characters and texts are.
    const KEY: bool;

    ghost KEY: { Bool };

    /// The JSON of an element, or nothing where it has a number that is too wide.
    ghost to_data: { List ℕ → Option Data };

    /// The element that JSON spells, or its first fault.
    ghost of_data: { Data → Result (List ℕ) JsonError };

    /// The name that an element has as a key of an object.
    ghost to_name: { List ℕ → Option (List ℕ) };

    /// The element that has a name.
    ghost of_name: { List ℕ → Option (List ℕ) };

    /// Writes an element.
    ///
    /// # Errors
    /// `Wide` where a number in it is no whole number from -2^63 to 2^64 - 1; else `Memory`.
    fn element_to_json(alloc: Global, element: &[u8]) -> Result<Value, JsonError>
        requires usable { IsTrue Self.usable }
        requires spells { Self.fault element.now ≡ None }
        ensures { UnlessMemory view (or_wide (to_data element.now)) result };

    /// Reads an element.
    ///
    /// # Errors
    /// The first fault in reading order, of `Shape`, `Range`, `Wide`, `BadKey`, `KeyOrder` and
    /// `TooLarge`; else `Memory`.
    fn element_from_json(alloc: Global, value: &Value) -> Result<VarBox<Self>, JsonError>
        requires { IsTrue Self.usable }
        ensures { UnlessMemory (λ b. b) (of_data (view value.now)) result };

    /// The name that an element has as a key of an object, or `None` where the kind has no keys.
    ///
    /// # Errors
    /// `Memory` alone.
    fn key_to_text(alloc: Global, element: &[u8]) -> Result<Option<String>, JsonError>
        requires usable { IsTrue Self.usable }
        requires spells { Self.fault element.now ≡ None }
        ensures name { UnlessMemory (option_map string_bytes) (Ok (to_name element.now)) result }
        ensures key { IfOk result (λ o. is_some o ≡ KEY) };

    /// Reads a key of an object.
    ///
    /// # Errors
    /// `BadKey` where the text is no name of an element; else `Memory`.
    fn key_from_text(alloc: Global, text: &str) -> Result<VarBox<Self>, JsonError>
        requires { IsTrue Self.usable }
        ensures { UnlessMemory (λ b. b) (ok_or (of_name text.now) BadKey) result };
}

/// A kind whose elements are keys of objects: numbers, characters and texts.
pub trait JsonKey: JsonKind {
    ghost is_key: { Self.KEY ≡ true };
}

/// The element of a value.
fn value_box<T: AsULE>(alloc: Global, value: T) -> Result<VarBox<T>, JsonError>
    requires { IsTrue T.usable }
    ensures { UnlessMemory (λ b. b) (Ok (T.ULE.chunk (T.stored value))) result }
{
    let mut bytes = vec![in alloc; 0; <T::ULE as ULE>::size()]?;
    store(value, &mut bytes);
    Ok(VarBox::of_valid(bytes))
}

impl<T: JsonValue> JsonKind for T {
    const KEY: bool = T::KEY;

    ghost KEY = { T.JsonValue.KEY };

    ghost to_data = { λ e. T.value_data (T.loaded (T.ULE.value e)) };

    ghost of_data = { λ d. and_then (T.value_in d) (λ v. Ok (T.ULE.chunk (T.stored v))) };

    ghost to_name = { λ e. T.value_name (T.loaded (T.ULE.value e)) };

    ghost of_name = { λ text. option_map (λ v. T.ULE.chunk (T.stored v)) (T.named text) };

    fn element_to_json(alloc: Global, element: &[u8]) -> Result<Value, JsonError> {
        load::<T>(element).to_value(alloc)
    }

    fn element_from_json(alloc: Global, value: &Value) -> Result<VarBox<T>, JsonError> {
        value_box(alloc, T::from_value(value)?)
    }

    fn key_to_text(alloc: Global, element: &[u8]) -> Result<Option<String>, JsonError> {
        load::<T>(element).to_name(alloc)
    }

    fn key_from_text(alloc: Global, text: &str) -> Result<VarBox<T>, JsonError> {
        let value = T::from_name(text).ok_or(JsonError::BadKey)?;
        value_box(alloc, value)
    }
}

impl<T: JsonNumber> JsonKey for T {
    ghost is_key = { refl };
}

impl JsonKey for char {
    ghost is_key = { refl };
}

impl JsonKey for StrULE {
    ghost is_key = { refl };
}
