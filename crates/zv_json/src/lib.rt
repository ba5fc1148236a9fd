//! The JSON form of elements.
//!
//! A kind that has a JSON form (`JsonKind`) says what each element is written as and which element
//! a value spells, both ways. Numbers and truth values are themselves, characters and texts are
//! strings, `None` is `null`, and tuples, arrays, lists and records are arrays. Kinds are composed
//! of kinds, and so are their forms. Text is neither printed nor parsed here: values are those of
//! `serde_json`.
#![tactic(auto)]

mod again;
mod arrays;
pub mod error;
mod kind;
pub mod laws;
mod lists;
mod nested;
mod number;
mod numbers;
mod options;
mod records;
mod texts;
mod tuples;
mod value;
mod var_tuples;

pub use again::{JsonAgain, JsonFieldsAgain};
pub use arrays::items_in;
pub use error::JsonError;
pub use kind::{JsonKey, JsonKind};
pub use lists::{values_from_json, values_to_json};
pub use nested::{elements_from_json, elements_to_json};
pub use number::JsonNumber;
pub use options::JsonPlain;
pub use records::JsonFields;
pub use value::JsonValue;
