//! The form `make`: a table that is made by puts, and what is told of it.
//!
//! It reads no input. Anyone gets the same table of any size, so four numbers pin all that an edit
//! does on its way: its puts, the order of keys, the image and its digits.
#![tactic(auto)]

mod image;
mod puts;
mod summary;

pub use puts::MAX_PUTS;
pub use summary::make;
