// Why an image or a change is refused.

use thiserror::Error;
use zv_map::MapError;
use zv_ule::{NoMemory, UleError};

/// Why an image is no map, or why an edit of it fails.
///
/// The causes up to `KeyOrder` lie in the image, in the order in which they are looked for;
/// `Memory` and `Write` lie outside.
#[derive(Clone, Copy, Debug, PartialEq, Eq, Error)]
pub enum EditError {
    /// A length field is cut, or is more than the bytes left, or bytes follow the fourth part.
    #[error("the image is not four parts, each after its length")]
    Frame,
    /// A part is not a list: the joiner's length is no multiple of four, or another part isn't in
    /// its format, or an element isn't of its kind.
    #[error("{0}")]
    Ule(UleError),
    /// There are more first keys than ends, or fewer.
    #[error("the first keys and the joiner have different counts")]
    Keys0Joiner,
    /// There are more second keys than values, or fewer.
    #[error("the second keys and the values have different counts")]
    Keys1Values,
    /// The first end is 0, or an end is not above the one before.
    #[error("the joiner's numbers do not ascend from above 0")]
    JoinerOrder,
    /// The last end, or 0 where there is none, is not the number of second keys.
    #[error("the joiner does not end at the count of the second keys")]
    JoinerEnd,
    /// First keys, or the second keys of one row, don't ascend strictly.
    #[error("the keys do not ascend")]
    KeyOrder,
    /// No memory was given.
    #[error("out of memory")]
    Memory,
    /// The sink took no more.
    #[error("the output could not be written")]
    Write,
}

/// Why a pair isn't put into a map. The map is unchanged.
#[derive(Clone, Copy, Debug, PartialEq, Eq, Error)]
pub enum Map2dError {
    /// A key or the value is too large for its vector, or the vector would be.
    #[error("too large")]
    TooLarge,
    /// The map has 2^32 - 1 pairs.
    #[error("too many pairs")]
    TooMany,
    /// No memory was given.
    #[error("out of memory")]
    Memory,
}

impl From<NoMemory> for Map2dError {
    ghost use Rattle.std.specs.Prelude.{◌≡◌};
    ghost use Rattle.zv_map2d.specs.declared.error.Map2dError.{Map2dError};

    ghost from_gives = { λ _ e. e ≡ Map2dError.Memory };

    fn from(_error: NoMemory) -> Map2dError {
        Map2dError::Memory
    }
}

impl From<MapError> for Map2dError {
    ghost use Rattle.std.specs.Prelude.{◌≡◌};
    ghost use Rattle.zv_map2d.specs.Refusals.{refusal_of};

    ghost from_gives = { λ e m. m ≡ refusal_of e };

    fn from(error: MapError) -> Map2dError {
        match error {
            MapError::TooLarge => Map2dError::TooLarge,
            MapError::Memory => Map2dError::Memory,
        }
    }
}
