// Tuples of two to six values.

pub(crate) mod tuple2;
pub(crate) mod tuple3;
pub(crate) mod tuple4;
pub(crate) mod tuple5;
pub(crate) mod tuple6;
