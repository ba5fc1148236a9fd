// Why hashes or pairs have no table.
ghost use Rattle.std.specs.Prelude.{◌≡◌};

use std::alloc::AllocError;
use thiserror::Error;

/// Why there is no table. The causes stand in the order in which they are looked for.
#[derive(Clone, Copy, Debug, PartialEq, Eq, Error)]
pub enum HashError {
    /// There are 2^32 keys or more.
    #[error("too many keys")]
    TooMany,
    /// A vector of the keys or the values would be too large.
    #[error("too large")]
    TooLarge,
    /// A key repeats: `second` is the least place whose key stands at an earlier one, `first`.
    #[error("key {second} repeats key {first}")]
    Repeated { first: usize, second: usize },
    /// No displacement sends the hashes of this bucket to free slots.
    #[error("no displacement fits bucket {bucket}")]
    NoPlace { bucket: usize },
    /// No memory was given.
    #[error("out of memory")]
    Memory,
}

impl From<AllocError> for HashError {
    ghost use Rattle.std.specs.Prelude.{◌≡◌};
    ghost use Rattle.zv_hash.specs.declared.error.HashError.{HashError};

    ghost from_gives = { λ _ e. e ≡ HashError.Memory };

    fn from(_error: AllocError) -> HashError {
        HashError::Memory
    }
}
