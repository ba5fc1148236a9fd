// Arrays of values.

pub(crate) mod byte_arrays;
pub(crate) mod char_arrays;
pub(crate) mod elements;
pub(crate) mod raw_bytes;
pub(crate) mod u16_arrays;
pub(crate) mod u32_arrays;
pub(crate) mod u64_arrays;
