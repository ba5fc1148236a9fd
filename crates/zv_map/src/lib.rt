//! Lists of elements of one kind, however they are kept: the containers that maps are made of.
//!
//! A kind names its container by [`ZeroMapKV`]: a [`ZeroVec`](zv_fixed::ZeroVec) where the elements
//! have one width, a [`VarZeroVec`](zv_owned::VarZeroVec) in [`Index16`](zv_ule::Index16) where
//! they have any length. A map knows its containers through the traits alone: [`ZeroVecLike`] to
//! read, [`ZeroVecSearch`] and [`ZeroVecSearchBy`] to search, [`ZvContainer`] for what a container
//! means, [`MutableZeroVecLike`] to change. A `VarZeroVec` has them in each format that a view can
//! name ([`MapFormat`]). A [`KvSlice`] views the list of any of them.
#![tactic(auto)]

pub mod copied;
pub mod error;
mod fixed;
pub mod flex;
pub mod gather;
pub mod iter;
mod kv;
pub mod laws;
pub mod permute;
pub mod predicate;
pub mod search;
pub mod variable;
pub mod vecs;
pub mod view;

pub use copied::{ZeroMapCopied, ZeroMapCopiedValues};
pub use error::{MapError, TooLarge};
pub use flex::FlexVec;
pub use flex::kind::FlexULE;
pub use gather::container_of;
pub use iter::{KvSliceIter, ZeroMapIter, ZeroMapKeys, ZeroMapValues};
pub use permute::ZeroVecPermute;
pub use predicate::ZeroVecSearchBy;
pub use search::ZeroVecSearch;
pub use variable::MapFormat;
pub use vecs::{MutableZeroVecLike, ZeroMapKV, ZeroVecLike, ZvContainer};
pub use view::{KvSlice, Layout, RawView};
