//! Calls that take memory, each on an object that is as it was where memory is refused.
//!
//! Where there is memory, each test passes. bench/memory.py runs them with each allocation refused
//! in turn: a test then ends with the error that memory was refused.
#![tactic(auto)]

#[cfg(test)]
mod commands;
#[cfg(test)]
mod containers;
#[cfg(test)]
mod maps;
#[cfg(test)]
mod maps2d;
#[cfg(test)]
mod of_kinds;
#[cfg(test)]
mod refusal;
#[cfg(test)]
mod tables;
