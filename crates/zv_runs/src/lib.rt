//! Runs of the program over devices in memory, and images, for its tests.
#![tactic(auto)]

mod images;
mod runs;

pub use images::{CHANGED_LOCALES, EMPTY, LOCALES, NO_WIDE_LIST, PAIR};
pub use runs::{
    Answer, Devices, answer_of, devices_with_faults, failing_devices, join, memory_devices,
    words_of,
};
