//! Maps in one level, kept as the bytes of two vectors and read in place.
//!
//! A map gives each key a value. Its keys stand in one vector, in order, and its values in another
//! at the same places. [`ZeroMap`] is a map whose kinds choose their containers, [`MapOver`] one
//! over any containers, and [`ZeroMapBorrowed`] a view of either that is copied freely.
#![tactic(auto)]

mod append;
pub mod borrowed;
mod build;
mod edits;
pub mod error;
pub mod laws;
pub mod map;

pub use borrowed::ZeroMapBorrowed;
pub use error::VecsError;
pub use map::{MapOver, ZeroMap};
