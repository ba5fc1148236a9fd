//! Hash tables in which every key, stored or not, is answered with one comparison.
#![tactic(auto)]

mod build;
pub mod error;
pub mod key;
pub mod laws;
pub mod table;

pub use error::HashPartsError;
pub use key::{FixedKey, HashArg, HashBytes, compute_hash};
pub use table::{HashMapOver, ZeroHashMap};
