//! Where bytes come from and go to: the traits of sources and sinks, and what implements them.
//!
//! A source and a sink may fail at any call, and count how often they did. `MemSource` and
//! `MemSink` fail where they are told to; `SteadySource` and `CountSink` never do; `StdSource` and
//! `StdSink` are the standard input and output.
#![tactic(auto)]

mod device;
mod memory;
mod real;
mod steady;

pub use device::{Failed, Sink, Source};
pub use memory::{MemSink, MemSource};
pub use real::{StdSink, StdSource};
pub use steady::{CountSink, SteadySource};
