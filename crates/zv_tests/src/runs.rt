// Runs of the program over devices in memory.
pub use zv_runs::{Answer, Devices, answer_of, failing_devices, join, memory_devices, words_of};
