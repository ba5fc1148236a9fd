// Types whose values take a fixed number of bytes.

pub(crate) mod arrays;
pub(crate) mod booleans;
pub(crate) mod chars;
pub(crate) mod niche;
pub(crate) mod nonzero;
pub(crate) mod numbers;
pub(crate) mod option;
pub(crate) mod raw_bytes;
pub(crate) mod slice_as_ule;
pub(crate) mod tuples;
