//! Tests of elements, at each kind.
#![tactic(auto)]

#[cfg(test)]
mod boxes;
#[cfg(test)]
mod containers;
#[cfg(test)]
mod elements;
#[cfg(test)]
mod impls;
#[cfg(test)]
mod stored;
