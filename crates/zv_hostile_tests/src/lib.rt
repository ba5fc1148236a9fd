//! The program over devices that fail, and images and tables that are malformed.
#![tactic(auto)]

#[cfg(test)]
mod devices;
#[cfg(test)]
mod forms;
#[cfg(test)]
mod hash_tables;
#[cfg(test)]
mod images;
#[cfg(test)]
mod lists;
#[cfg(test)]
mod refused;
#[cfg(test)]
mod std_devices;
#[cfg(test)]
mod tables;
