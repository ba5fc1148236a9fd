//! Tables of code point ranges: which value each code point of Unicode has, as its script or its
//! general category.
//!
//! A table is a list of rows in plain bytes, ten a row: the first and the last code point of a
//! range and their value. A code point in no row has the value 0. A table is proper where its rows
//! ascend, no row could be joined with its next, and none has the value 0; so two tables that
//! answer alike are the same bytes, and can be compared, hashed and kept by them.
#![tactic(auto)]

mod build;
mod bytes;
mod change;
mod error;
mod few_rows;
pub mod laws;
mod lookup;
mod request;
mod step;
mod table;

pub use error::{BuildError, PropsError};
pub use request::TableSteps;
pub use step::Step;
pub use table::{MAX_CODE_POINT, Props};
