//! Tests of maps in one level at concrete kinds.
#![tactic(auto)]

#[cfg(test)]
mod casts;
#[cfg(test)]
mod copied;
#[cfg(test)]
mod defaults;
#[cfg(test)]
mod many;
#[cfg(test)]
mod one_level;
