// Why JSON is not read or written.

use std::alloc::{AllocError, AllocFailed};
use thiserror::Error;
use zv_ule::NoMemory;

/// Why a JSON value is not read, or an element not written.
///
/// Reading names the first fault in reading order: a value's kind, its number of items and its
/// member names before its items, the items in order, and a key before its value. Writing gives
/// `Wide` and `Memory` alone.
#[derive(Clone, Copy, Debug, PartialEq, Eq, Error)]
pub enum JsonError {
    /// A text is no JSON, or nests deeper than 127 levels.
    #[error("the text is no JSON")]
    Syntax,
    /// A value of another kind, another number of items, or another member name.
    #[error("a value has another shape")]
    Shape,
    /// A whole number or a string that is no value of the type.
    #[error("a number or a string is out of range")]
    Range,
    /// A number that is no whole number from -2^63 to 2^64 - 1.
    #[error("a number is no whole number of 64 bits")]
    Wide,
    /// The name of a member that is no key's text.
    #[error("the name of a member is no key")]
    BadKey,
    /// The pairs of an array do not ascend by their keys.
    #[error("the keys do not ascend")]
    KeyOrder,
    /// The container's size rule refuses an element or a pair.
    #[error("too large")]
    TooLarge,
    /// Memory was refused.
    #[error("out of memory")]
    Memory,
}

impl From<NoMemory> for JsonError {
    ghost use Rattle.zv_json.specs.declared.error.JsonError.TheVariants.{Memory};
    ghost use Rattle.std.specs.Prelude.{◌≡◌};

    ghost from_gives = { λ _ e. e ≡ Memory };

    fn from(_refused: NoMemory) -> JsonError {
        JsonError::Memory
    }
}

impl From<AllocError> for JsonError {
    ghost use Rattle.zv_json.specs.declared.error.JsonError.TheVariants.{Memory};
    ghost use Rattle.std.specs.Prelude.{◌≡◌};

    ghost from_gives = { λ _ e. e ≡ Memory };

    fn from(_refused: AllocError) -> JsonError {
        JsonError::Memory
    }
}

impl<T: Drop> From<AllocFailed<T>> for JsonError {
    ghost use Rattle.zv_json.specs.declared.error.JsonError.TheVariants.{Memory};
    ghost use Rattle.std.specs.Prelude.{◌≡◌};

    ghost from_gives = { λ _ e. e ≡ Memory };

    fn from(_refused: AllocFailed<T>) -> JsonError {
        JsonError::Memory
    }
}
