//! XXH64, the 64-bit digest of the xxHash specification, over bytes that come in pieces.
#![tactic(auto)]

pub mod hasher;
mod lanes;
mod one_piece;
mod pending;
mod tail;
mod words;

pub use hasher::XxHash64;
pub use one_piece::digest_with_last;
