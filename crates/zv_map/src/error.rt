// Why a change of a container or a map is refused.
ghost use Rattle.std.specs.Prelude.{◌≡◌};
ghost use Rattle.zv_map.specs.Refusals.{refusal_of};
ghost use Rattle.zv_map.specs.declared.error.MapError.TheVariants.{Memory};

use thiserror::Error;
use zv_owned::error::VecError;
use zv_ule::NoMemory;

/// Why a change of a container or a map is refused. After either nothing is changed.
#[derive(Clone, Copy, Debug, PartialEq, Eq, Error)]
pub enum MapError {
    /// The element is too large for the container's layout, or the container would be.
    #[error("too large")]
    TooLarge,
    /// No memory was given.
    #[error("out of memory")]
    Memory,
}

impl From<NoMemory> for MapError {
    ghost from_gives = { λ _ e. e ≡ Memory };

    #[inline]
    fn from(_error: NoMemory) -> Self {
        MapError::Memory
    }
}

impl From<VecError> for MapError {
    ghost from_gives = { λ e m. m ≡ refusal_of e };

    #[inline]
    fn from(error: VecError) -> Self {
        match error {
            VecError::TooLarge => MapError::TooLarge,
            VecError::Memory => MapError::Memory,
        }
    }
}

/// The size rule refuses an element: the error of a change that takes no memory.
#[derive(Clone, Copy, Debug, PartialEq, Eq, Error)]
#[error("too large")]
pub struct TooLarge;
