//! Tests of lists of either form, in each format, at concrete kinds.
#![tactic(auto)]

#[cfg(test)]
mod components;
#[cfg(test)]
mod defaults;
#[cfg(test)]
mod fixed;
#[cfg(test)]
mod formats;
#[cfg(test)]
mod lists;
#[cfg(test)]
mod nested;
#[cfg(test)]
mod serialized;
