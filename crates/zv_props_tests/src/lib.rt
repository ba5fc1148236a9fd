//! Tests of tables of code point ranges.
#![tactic(auto)]

#[cfg(test)]
mod changes;
#[cfg(test)]
mod parsing;
#[cfg(test)]
mod rows;
