//! Containers as JSON.
//!
//! A list is an array. A map in one level is an object where its keys are numbers, characters or
//! texts, and else an array of pairs. A map in two levels is an object of objects, and a hash table
//! the array of its three vectors. [`JsonForm`] turns each into a value of
//! `serde_json` and back.
#![tactic(auto)]

mod form;
pub mod laws;
mod maps;
mod maps2d;
mod tables;
mod vectors;

pub use form::{JsonForm, ToJson};
