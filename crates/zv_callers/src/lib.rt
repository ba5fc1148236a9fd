//! Callers of the crates with contracts of their own, as a crate over them has.
#![tactic(auto)]

pub mod codes;
pub mod documents;
pub mod files;
pub mod images;
pub mod languages;
pub mod names;
pub mod readers;
pub mod regions;
pub mod scores;
pub mod scripts;
pub mod titles;
