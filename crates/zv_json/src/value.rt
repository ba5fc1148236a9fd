// Values of fixed width as JSON.
ghost use Rattle.std.specs.Prelude.{◌≡◌, List, ℕ, Bool, IfOk, Option, Some, is_some, string_bytes};
ghost use Rattle.std.specs.Option.{option_map};
ghost use Rattle.std.specs.Prelude.{Result, Ok};
ghost use Rattle.serde_json.specs.Data.{Data};
ghost use Rattle.serde_json.specs.View.{view};
ghost use Rattle.zv_json.specs.Json.{UnlessMemory, or_wide};
ghost use Rattle.zv_json.specs.declared.error.JsonError.{JsonError};

use crate::error::JsonError;
use serde_json::Value;
use std::alloc::Global;
use zv_ule::AsULE;

/// A type of fixed width whose values have a JSON form.
pub trait JsonValue: AsULE {
    /// Whether the values are keys of objects: those of numbers and characters are.
    const KEY: bool;

    ghost KEY: { Bool };

    /// The JSON of a value, or nothing where it has a number that is too wide.
    ghost value_data: { Self → Option Data };

    /// The value that JSON spells, or its first fault.
    ghost value_in: { Data → Result Self JsonError };

    /// The name that a value has as a key of an object.
    ghost value_name: { Self → Option (List ℕ) };

    /// The value that has a name.
    ghost named: { List ℕ → Option Self };

    /// Writes a value.
    ///
    /// # Errors
    /// `Wide` where a number in it is no whole number from -2^63 to 2^64 - 1; else `Memory`.
    fn to_value(self, alloc: Global) -> Result<Value, JsonError>
        ensures { UnlessMemory view (or_wide (value_data self)) result };

    /// Reads a value. It takes no memory.
    fn from_value(value: &Value) -> Result<Self, JsonError>
        ensures { result ≡ value_in (view value.now) };

    /// The name that a value has as a key of an object, or `None` where it is no key.
    fn to_name(self, alloc: Global) -> Result<Option<String>, JsonError>
        ensures name { UnlessMemory (option_map string_bytes) (Ok (value_name self)) result }
        ensures key { IfOk result (λ o. is_some o ≡ KEY) };

    /// The value that has a name, if there is one.
    fn from_name(name: &str) -> Option<Self>
        ensures { result ≡ named name.now };

    /// What a value is written as is read as the value.
    ghost back: { (v : Self) (d : Data) → Self.is_value v → value_data v ≡ Some d →
        value_in d ≡ Ok v };

    /// So is its name.
    ghost named_back: { (v : Self) (name : List ℕ) → Self.is_value v → value_name v ≡ Some name →
        named name ≡ Some v };
}
