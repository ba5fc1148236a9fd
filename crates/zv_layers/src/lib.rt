//! One map laid over another, and the form `layers`: images laid one over another.
#![tactic(auto)]

mod columns;
mod form;
pub mod laws;
mod overlay;
mod walk;

pub use form::Layers;
pub use overlay::{overlay_counted, overlay_maps};
