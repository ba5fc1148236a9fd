//! Frozen images: the pairs of a map from two texts to bytes in a hash table, in which each pair is
//! found with one comparison.
#![tactic(auto)]

mod build;
pub mod error;
mod form;
mod frozen;
mod key;
pub mod laws;

pub use build::freeze;
pub use error::{FreezeError, FrozenError};
pub use form::{Ask, Freeze, Thaw};
pub use frozen::Frozen;
pub use key::PairKey;
