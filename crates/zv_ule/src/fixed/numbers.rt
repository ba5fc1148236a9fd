// Numbers, by their width.

pub(crate) mod eight_bytes;
pub(crate) mod four_bytes;
pub(crate) mod one_byte;
pub(crate) mod sixteen_bytes;
pub(crate) mod two_bytes;
