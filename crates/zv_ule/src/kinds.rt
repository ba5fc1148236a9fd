// Kinds of any length, and what stands for their elements.

pub(crate) mod argument;
pub(crate) mod boxes;
pub(crate) mod slice_order;
pub(crate) mod slices;
pub(crate) mod text;
pub(crate) mod var;
pub(crate) mod view;
