//! The framed form: containers as bytes that hold all of them, for a file or another program.
//!
//! A frame is parts one after another, each after its length. [`Framed`] writes the vectors of a
//! container as one, and reads it back in place, without memory: a list, a map in one level or two,
//! or a hash table, of any kinds whose containers have [one layout](OneLayout).
#![tactic(auto)]

mod error;
mod form;
mod frame;
mod hashmap;
mod list;
mod map;
mod map2d;
mod vector;

pub use error::FormError;
pub use form::{Framed, FramedForm};
pub use vector::OneLayout;
