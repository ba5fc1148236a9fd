// Numbers as JSON.
ghost use Rattle.std.specs.Prelude.{◌≡◌, ℕ, ℤ, List, Option, Some, true, string_bytes};
ghost use Rattle.std.specs.Fmt.{signed_decimal};
ghost use Rattle.std.specs.Option.{option_and_then, option_map};
ghost use Rattle.std.specs.Prelude.{Ok};
ghost use Rattle.serde_json.specs.Data.{number};
ghost use Rattle.serde_json.specs.View.{number_view, view};
ghost use Rattle.zv_json.specs.Json.{UnlessMemory};
ghost use Rattle.zv_json.specs.Numbers.{integer_in, number_data, number_in, number_key};
ghost use Rattle.zv_json.specs.Numbers.{signed_within, unsigned_within};
ghost use Rattle.zv_json.specs.Back.{IsInRange, number_back, number_named};

use crate::error::JsonError;
use crate::value::JsonValue;
use itoa::{Buffer, Integer};
use serde_json::{Number, Value};
use std::alloc::Global;
use zv_ule::AsULE;

/// A type of whole numbers.
pub trait JsonNumber: AsULE {
    /// The whole number that a value is.
    ghost integer: { Self → ℤ };

    /// The value that a whole number is, if it is in the type's range.
    ghost within: { ℤ → Option Self };

    /// The JSON number of a value, or `None` where it is too wide.
    fn to_number(self) -> Option<Number>
        ensures { option_map (λ n. number (number_view n)) result ≡ number_data (integer self) };

    /// The value that a whole number is, or `None` out of range.
    fn of_integer(number: i128) -> Option<Self>
        ensures { result ≡ within number };

    /// The shortest decimal of a value.
    fn to_decimal(self, alloc: Global) -> Result<String, JsonError>
        ensures { UnlessMemory string_bytes (Ok (signed_decimal (integer self))) result };

    /// The value that a decimal is the shortest of.
    fn of_decimal(text: &str) -> Option<Self>
        ensures { result ≡ option_and_then within (number_key text.now) };

    /// A value is the one that its number is.
    ghost in_range: { (v : Self) → Self.is_value v → IsInRange within (integer v) v };
}

/// The JSON number of a whole number, or `None` where it is too wide.
pub(crate) fn number_of(integer: i128) -> Option<Number>
    ensures { option_map (λ n. number (number_view n)) result ≡ number_data integer }
{
    Number::from_i128(integer)
}

/// The whole number that a value is.
fn integer_in(value: &Value) -> Result<i128, JsonError>
    ensures { result ≡ integer_in (view value.now) }
{
    let number = value.as_number().ok_or(JsonError::Shape)?;
    number.as_i128().ok_or(JsonError::Wide)
}

/// The shortest decimal of a number.
pub(crate) fn decimal_of<I: Integer>(alloc: Global, number: I) -> Result<String, JsonError>
    ensures { UnlessMemory string_bytes (Ok (I.text number)) result }
{
    let mut buffer = Buffer::new();
    Ok(String::from_str(alloc, buffer.format(number))?)
}

/// The number of 128 bits with a sign that a decimal is the shortest of.
#[tactic(auto, using(crate::proofs::Decimals::signed_missed))]
pub(crate) fn signed_key(text: &str) -> Option<i128>
    ensures { result ≡ option_and_then (signed_within 128) (number_key text.now) }
{
    let number = text.parse::<i128>().ok()?;
    let mut buffer = Buffer::new();
    if buffer.format(number) == text {
        Some(number)
    } else {
        None
    }
}

/// The number of 128 bits without a sign that a decimal is the shortest of.
#[tactic(auto, using(crate::proofs::Decimals::unsigned_missed))]
pub(crate) fn unsigned_key(text: &str) -> Option<u128>
    ensures { result ≡ option_and_then (unsigned_within 128) (number_key text.now) }
{
    let number = text.parse::<u128>().ok()?;
    let mut buffer = Buffer::new();
    if buffer.format(number) == text {
        Some(number)
    } else {
        None
    }
}

impl<T: JsonNumber> JsonValue for T {
    const KEY: bool = true;

    ghost KEY = { true };

    ghost value_data = { λ v. number_data (T.integer v) };

    ghost value_in = { number_in T.within };

    ghost value_name = { λ v. Some (signed_decimal (T.integer v)) };

    ghost named = { λ text. option_and_then T.within (number_key text) };

    ghost back = { λ v d h. number_back T.within v (T.integer v) d (T.in_range v h) };

    ghost named_back = { λ v name h. number_named T.within v (T.integer v) name (T.in_range v h) };

    fn to_value(self, _alloc: Global) -> Result<Value, JsonError> {
        let number = self.to_number().ok_or(JsonError::Wide)?;
        Ok(Value::Number(number))
    }

    fn from_value(value: &Value) -> Result<Self, JsonError> {
        T::of_integer(integer_in(value)?).ok_or(JsonError::Range)
    }

    fn to_name(self, alloc: Global) -> Result<Option<String>, JsonError> {
        Ok(Some(self.to_decimal(alloc)?))
    }

    fn from_name(name: &str) -> Option<Self> {
        T::of_decimal(name)
    }
}
