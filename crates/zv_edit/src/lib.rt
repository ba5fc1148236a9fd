//! The forms `edit` and `look`: commands that run on the map of an image, and one look-up in it.
#![tactic(auto)]

mod edit;
pub mod laws;
mod look;
mod replies;
mod serving;

pub use edit::{Edit, edit2d};
pub use look::{Look, look2d, tell_found};
pub use serving::serve;
