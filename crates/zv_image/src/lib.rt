//! The map of an image as commands use it: found and changed at the place of a pair of texts, with
//! room that was made before, and written as a line; and what an image is refused with.
#![tactic(auto)]

mod lines;
mod places;
mod refusal;
mod room;

pub use lines::write_image;
pub use places::{discard, find_place, fits, plain, put_fitting, value_at};
pub use refusal::{refuse, status_of};
pub use room::reserve;
