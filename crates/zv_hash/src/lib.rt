//! A perfect hash: tables in which every key is found with one comparison.
#![tactic(auto)]

mod chains;
mod error;
pub mod laws;
mod placement;
mod repeat;
mod row;
mod search;
mod splitting;

pub use error::HashError;
pub use placement::{Placement, compute_displacements};
pub use repeat::first_repeat;
pub use splitting::{compute_index, split_hash64};
