//! Lists of elements of any lengths that own their bytes, or borrow them until the first change.
//!
//! [`VarZeroVecOwned`] is such a list in a format's encoding; after each change its bytes are the
//! encoding of the changed list. [`VarZeroVec`] is a view or an owned list. A
//! [`Shelf`](shelf::Shelf) is a buffer of bytes that counts what is written into it.
#![tactic(auto)]

mod change;
pub mod encoded;
pub mod error;
mod fields;
pub mod laws;
mod moves;
mod nested;
mod order;
pub mod owned;
mod search;
pub mod shelf;
mod size;
mod splice;
pub mod vector;
mod widths;
mod writes;

pub use change::Change;
pub use encoded::Encoded;
pub use error::VecError;
pub use owned::VarZeroVecOwned;
pub use vector::{VarZeroVec, VarZeroVec16, VarZeroVec32};
