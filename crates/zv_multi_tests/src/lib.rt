//! Tests of records and of the other composed elements, at concrete kinds.
#![tactic(auto)]

#[cfg(test)]
mod composed;
#[cfg(test)]
mod cows;
#[cfg(test)]
mod maps;
#[cfg(test)]
mod records;
#[cfg(test)]
mod refused;
