//! The forms of a command line, each a request: how lines are read and added to it, how its answer
//! goes out, and how a run ends.
//!
//! A request is a value to which the lines of an input are added, and which then answers. How an
//! input is read, which line is bad and how a run ends is said here once for all of them. Nothing
//! here knows a map.
#![tactic(auto)]

mod digits;
mod found;
mod output;
mod piece;
mod reader;
mod request;
mod run;
mod status;
mod texts;

pub use found::{write_found, write_value};
pub use output::Output;
pub use piece::Piece;
pub use reader::MAX_INPUT;
pub use request::Request;
pub use run::run_request;
pub use status::Status;
pub use texts::{name_line, send};
