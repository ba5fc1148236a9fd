// Texts, characters and truth values as JSON.
ghost use Rattle.std.specs.Prelude.{◌≡◌, Ok, Some, None, true, false, string_bytes};
ghost use Rattle.std.specs.Char.{encode_utf8};
ghost use Rattle.serde_json.specs.Data.{boolean, string};
ghost use Rattle.serde_json.specs.View.{view};
ghost use Rattle.zv_json.specs.Json.{UnlessMemory, and_then};
ghost use Rattle.zv_json.specs.Texts.{bool_in, char_in, char_key, text_in};
ghost use Rattle.zv_json.specs.Back.{bool_back, char_back, char_named, nothing_named};
ghost use Rattle.std.specs.Option.{option_copied};
ghost use Rattle.std.specs.Result.{result_map_both};

use crate::error::JsonError;
use crate::kind::JsonKind;
use crate::value::JsonValue;
use serde_json::Value;
use std::alloc::Global;
use zv_ule::{StrULE, VarBox, VarRef};

/// The text of a value that is to be a string.
fn text_in(value: &Value) -> Result<&str, JsonError>
    ensures { result_map_both (λ s. s.now) (λ e. e) result ≡ text_in (view value.now) }
{
    value.as_str().ok_or(JsonError::Shape)
}

/// The one character of a text.
#[tactic(auto, using(crate::proofs::Characters::alone_last))]
fn char_key(text: &str) -> Option<char>
    ensures { result ≡ char_key text.now }
{
    let mut chars = text.chars();
    let first = chars.next()?;
    if chars.as_str().is_empty() {
        Some(first)
    } else {
        None
    }
}

/// The text of one character.
fn char_text(alloc: Global, c: char) -> Result<String, JsonError>
    ensures { UnlessMemory string_bytes (Ok (encode_utf8 c)) result }
{
    let mut buffer = [0; 4];
    Ok(String::from_str(alloc, c.encode_utf8(&mut buffer))?)
}

impl JsonValue for char {
    const KEY: bool = true;

    ghost KEY = { true };

    ghost value_data = { λ c. Some (string (encode_utf8 c)) };

    ghost value_in = { char_in };

    ghost value_name = { λ c. Some (encode_utf8 c) };

    ghost named = { char_key };

    ghost back = { char_back };

    ghost named_back = { char_named };

    fn to_value(self, alloc: Global) -> Result<Value, JsonError> {
        Ok(Value::String(char_text(alloc, self)?))
    }

    fn from_value(value: &Value) -> Result<char, JsonError> {
        char_key(text_in(value)?).ok_or(JsonError::Range)
    }

    fn to_name(self, alloc: Global) -> Result<Option<String>, JsonError> {
        Ok(Some(char_text(alloc, self)?))
    }

    fn from_name(name: &str) -> Option<char> {
        char_key(name)
    }
}

impl JsonValue for bool {
    const KEY: bool = false;

    ghost KEY = { false };

    ghost value_data = { λ b. Some (boolean b) };

    ghost value_in = { bool_in };

    ghost value_name = { λ _. None };

    ghost named = { λ _. None };

    ghost back = { λ b d _. bool_back b d };

    ghost named_back = { λ v name _. nothing_named v name };

    fn to_value(self, _alloc: Global) -> Result<Value, JsonError> {
        Ok(Value::Bool(self))
    }

    fn from_value(value: &Value) -> Result<bool, JsonError> {
        value.as_bool().ok_or(JsonError::Shape)
    }

    fn to_name(self, _alloc: Global) -> Result<Option<String>, JsonError> {
        Ok(None)
    }

    fn from_name(_name: &str) -> Option<bool> {
        None
    }
}

/// A text with its own memory.
fn text_box(alloc: Global, text: &str) -> Result<VarBox<StrULE>, JsonError>
    ensures { UnlessMemory (λ b. b) (Ok text.now) result }
{
    Ok(VarRef::of_str(text).to_boxed(alloc)?)
}

impl JsonKind for StrULE {
    const KEY: bool = true;

    ghost KEY = { true };

    ghost to_data = { λ text. Some (string text) };

    ghost of_data = { text_in };

    ghost to_name = { λ text. Some text };

    ghost of_name = { λ text. Some text };

    fn element_to_json(alloc: Global, element: &[u8]) -> Result<Value, JsonError> {
        let text = VarRef::<'_, StrULE>::of_valid(element).as_str();
        Ok(Value::String(String::from_str(alloc, text)?))
    }

    fn element_from_json(alloc: Global, value: &Value) -> Result<VarBox<StrULE>, JsonError> {
        text_box(alloc, text_in(value)?)
    }

    fn key_to_text(alloc: Global, element: &[u8]) -> Result<Option<String>, JsonError> {
        let text = VarRef::<'_, StrULE>::of_valid(element).as_str();
        Ok(Some(String::from_str(alloc, text)?))
    }

    fn key_from_text(alloc: Global, text: &str) -> Result<VarBox<StrULE>, JsonError> {
        text_box(alloc, text)
    }
}
