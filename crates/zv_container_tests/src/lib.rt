//! Tests of lists as containers of maps, and of their searches, at concrete kinds.
#![tactic(auto)]

#[cfg(test)]
mod containers;
#[cfg(test)]
mod flex;
#[cfg(test)]
mod permutation;
#[cfg(test)]
mod searches;
