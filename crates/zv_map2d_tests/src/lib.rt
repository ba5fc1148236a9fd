//! Tests of maps in two levels at concrete kinds.
#![tactic(auto)]

#[cfg(test)]
mod defaults;
#[cfg(test)]
mod look_ups;
#[cfg(test)]
mod maps;
#[cfg(test)]
mod reads;
#[cfg(test)]
mod size_rule;
