//! Tests of the program over devices in memory.
#![tactic(auto)]

#[cfg(test)]
mod cases;
#[cfg(test)]
mod changes;
#[cfg(test)]
mod devices;
#[cfg(test)]
mod edit;
#[cfg(test)]
mod frozen;
#[cfg(test)]
mod heads;
#[cfg(test)]
mod large;
#[cfg(test)]
mod layers;
#[cfg(test)]
mod locales;
#[cfg(test)]
mod long_inputs;
#[cfg(test)]
mod looks;
#[cfg(test)]
mod makes;
#[cfg(test)]
mod props;
#[cfg(test)]
mod runs;
#[cfg(test)]
mod worked;
#[cfg(test)]
mod writes;
