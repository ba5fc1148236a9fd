// Why a list did not take an element.
ghost use Rattle.std.specs.Prelude.{◌≡◌};
ghost use Rattle.zv_owned.specs.declared.error.VecError.TheVariants.{Memory};

use thiserror::Error;
use zv_ule::NoMemory;

/// Why a list did not take an element. The list is as it was.
#[derive(Clone, Copy, Debug, PartialEq, Eq, Error)]
pub enum VecError {
    /// The element has no spelling, or the list would outgrow its format.
    #[error("too large")]
    TooLarge,
    /// No memory was given.
    #[error("out of memory")]
    Memory,
}

impl From<NoMemory> for VecError {
    ghost from_gives = { λ _ e. e ≡ Memory };

    #[inline]
    fn from(_error: NoMemory) -> Self {
        VecError::Memory
    }
}
