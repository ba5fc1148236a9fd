// Containers that have a JSON form.
ghost use Rattle.std.specs.Prelude.{◌≡◌, Bool, IsTrue, Option, Result};
ghost use Rattle.std.specs.Option.{ok_or};
ghost use Rattle.serde_json.specs.Data.{Data};
ghost use Rattle.serde_json.specs.Read.{read};
ghost use Rattle.serde_json.specs.View.{view};
ghost use Rattle.zv_forms.specs.Texts.{ReadsText};
ghost use Rattle.zv_json.specs.Json.{UnlessMemory, or_wide};
ghost use Rattle.zv_json.specs.declared.error.JsonError.{JsonError};

use serde_json::Value;
use std::alloc::Global;
use zv_json::JsonError;

/// A container that is written as JSON. What it means for contracts stands here: a trait with a
/// lifetime can't have meanings.
pub trait ToJson: Sized {
    /// Whether the kinds of its elements are usable.
    ghost usable: { Bool };

    /// Its JSON, or nothing where it has a number that is too wide.
    ghost json: { Self → Option Data };

    /// Holds of JSON and what is read of it.
    ghost reads: { Data → Result Self JsonError → Type 0 };

    /// Writes the container.
    ///
    /// # Errors
    /// `Wide` where a number in it is no whole number from -2^63 to 2^64 - 1; else `Memory`.
    fn to_json(&self, alloc: Global) -> Result<Value, JsonError>
        ensures { UnlessMemory view (or_wide (json self.now)) result };
}

/// A container that has a JSON form.
pub trait JsonForm<'a>: ToJson {
    /// Reads a container. Its vectors own their bytes, but those that are empty may not.
    ///
    /// # Errors
    /// The first fault in reading order, of `Shape`, `Range`, `Wide`, `BadKey`, `KeyOrder` and
    /// `TooLarge`; else `Memory`.
    fn from_json(alloc: Global, value: &Value) -> Result<Self, JsonError>
        requires { IsTrue Self.usable }
        ensures { Self.reads (view value.now) result };

    /// Reads a container from the text of a value.
    ///
    /// # Errors
    /// `Syntax` where the text is no JSON or nests deeper than 127 levels; else as
    /// [`from_json`](Self::from_json).
    fn from_json_text(alloc: Global, text: &str) -> Result<Self, JsonError>
        requires { IsTrue Self.usable }
        ensures { ReadsText Self.reads (read text.now) result };
}

/// The value that a text is.
///
/// # Errors
/// `Syntax` where the text is no JSON; else `Memory`.
pub(crate) fn parse(alloc: Global, text: &str) -> Result<Value, JsonError>
    ensures { UnlessMemory view (ok_or (read text.now) JsonError.Syntax) result }
{
    match Value::from_str(alloc, text) {
        Ok(value) => Ok(value),
        Err(error) if error.is_memory() => Err(JsonError::Memory),
        Err(_) => Err(JsonError::Syntax),
    }
}
