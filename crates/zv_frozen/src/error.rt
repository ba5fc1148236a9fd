// Why a map is not frozen, and why bytes are no frozen image.
ghost use Rattle.std.specs.Prelude.{◌≡◌};
ghost use Rattle.zv_frozen.specs.Faults.{frame_error, freeze_error};
ghost use Rattle.zv_frozen.specs.declared.error.FreezeError.{FreezeError};
ghost use Rattle.zv_frozen.specs.declared.error.FrozenError.{FrozenError};

use std::alloc::AllocError;
use thiserror::Error;
use zv_framed::FormError;
use zv_hash::HashError;
use zv_ule::{NoMemory, UleError};

/// Why a map has no frozen image.
#[derive(Clone, Copy, Debug, PartialEq, Eq, Error)]
pub enum FreezeError {
    /// The list of the keys or that of the values would be too large.
    #[error("too large")]
    TooLarge,
    /// No displacement sends the keys of this bucket to free slots.
    #[error("no displacement fits bucket {bucket}")]
    NoPlace { bucket: usize },
    /// No memory was given.
    #[error("out of memory")]
    Memory,
}

impl From<NoMemory> for FreezeError {
    ghost from_gives = { λ _ e. e ≡ FreezeError.Memory };

    fn from(_error: NoMemory) -> FreezeError {
        FreezeError::Memory
    }
}

impl From<AllocError> for FreezeError {
    ghost from_gives = { λ _ e. e ≡ FreezeError.Memory };

    fn from(_error: AllocError) -> FreezeError {
        FreezeError::Memory
    }
}

impl From<HashError> for FreezeError {
    ghost from_gives = { λ e f. f ≡ freeze_error e };

    fn from(error: HashError) -> FreezeError {
        match error {
            HashError::NoPlace { bucket } => FreezeError::NoPlace { bucket },
            HashError::Memory => FreezeError::Memory,
            HashError::TooMany | HashError::TooLarge | HashError::Repeated { .. } => {
                FreezeError::TooLarge
            }
        }
    }
}

/// Why bytes are no frozen image. The first cause in the order of the variants is told.
#[derive(Clone, Copy, Debug, PartialEq, Eq, Error)]
pub enum FrozenError {
    /// The bytes are not three parts, each after its length.
    #[error("the bytes are not parts, each after its length")]
    Frame,
    /// The first part that is no list has this error.
    #[error("{0}")]
    Part(UleError),
    /// The lists have different counts.
    #[error("the parts have different counts")]
    Count,
    /// The key at this place, the first such, is not that of two texts.
    #[error("key {place} is not that of two texts")]
    Key { place: usize },
    /// A key does not lie in the slot that it leads to.
    #[error("a key lies in the wrong slot")]
    Lies,
}

impl From<FormError> for FrozenError {
    ghost from_gives = { λ e f. f ≡ frame_error e };

    fn from(error: FormError) -> FrozenError {
        match error {
            FormError::Part(error) => FrozenError::Part(error),
            FormError::Count => FrozenError::Count,
            FormError::Frame
            | FormError::JoinerOrder
            | FormError::JoinerEnd
            | FormError::KeyOrder => FrozenError::Frame,
        }
    }
}
