//! Maps in two levels, kept as the bytes of four vectors and read in place, and the image that one
//! such map is stored as.
//!
//! A map gives each pair of a first and a second key a value. Its first keys stand in one vector,
//! the second keys of all rows in another, the values in a third; the joiner tells where each row
//! ends.
//! [`ZeroMap2d`] is a map whose kinds choose their containers, and [`Map2dOver`] is one over any
//! containers.
#![tactic(auto)]

pub mod borrowed;
pub mod cursor;
pub mod error;
pub mod image;
pub mod laws;
pub mod map;
mod parse;
pub mod place;
pub mod rows;

pub use borrowed::ZeroMap2dBorrowed;
pub use cursor::{Iter1, Iter1Copied, ZeroMap2dCursor};
pub use error::{EditError, Map2dError};
pub use image::{ImageMap, WideLists, cut_image, cut_parts, parse_image, wide_lists};
pub use map::{Map2dOver, Parts, ZeroMap2d};
pub use place::Place;
pub use rows::ZeroMap2dIter0;
