//! Tests of vectors and of their changes, at concrete kinds.
#![tactic(auto)]

#[cfg(test)]
mod removals;
#[cfg(test)]
mod shelves;
#[cfg(test)]
mod splices;
#[cfg(test)]
mod vectors;
#[cfg(test)]
mod widths;
