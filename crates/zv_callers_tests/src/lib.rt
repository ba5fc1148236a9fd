//! Tests of the callers' tables, by the calls of their own crate.
#![tactic(auto)]

#[cfg(test)]
mod documents;
#[cfg(test)]
mod files;
#[cfg(test)]
mod images;
#[cfg(test)]
mod languages;
#[cfg(test)]
mod readers;
#[cfg(test)]
mod regions;
