//! Frozen images: of few pairs, of as many as fit, and with bytes that are changed.
#![tactic(auto)]

#[cfg(test)]
mod changed;
#[cfg(test)]
mod few;
#[cfg(test)]
mod many;
