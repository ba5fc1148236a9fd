//! Tests of digests, of hashes in their slots, of what is hashed for keys, and of hash tables at
//! concrete kinds.
#![tactic(auto)]

#[cfg(test)]
mod counted;
#[cfg(test)]
mod digests;
#[cfg(test)]
mod hashes;
#[cfg(test)]
mod keys;
#[cfg(test)]
mod records;
#[cfg(test)]
mod tables;
