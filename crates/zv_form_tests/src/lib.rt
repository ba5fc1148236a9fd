//! Tests of framed forms and of JSON, at concrete kinds.
#![tactic(auto)]

#[cfg(test)]
mod framed;
#[cfg(test)]
mod json;
#[cfg(test)]
mod maps;
#[cfg(test)]
mod maps2d;
#[cfg(test)]
mod of_kinds;
#[cfg(test)]
mod tables;
