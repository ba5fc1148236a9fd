// Why bytes are not the framed form of a container.
ghost use Rattle.std.specs.Prelude.{◌≡◌};
ghost use Rattle.zv_framed.specs.Faults.{columns_error, table_error};
ghost use Rattle.zv_framed.specs.declared.error.FormError.{FormError};

use thiserror::Error;
use zv_hashmap::HashPartsError;
use zv_map1::VecsError;
use zv_ule::UleError;

/// Why bytes are not the framed form of a container. The first cause in the order of the variants
/// is told.
#[derive(Clone, Copy, Debug, PartialEq, Eq, Error)]
pub enum FormError {
    /// A length is cut, or is more than the bytes left, or bytes follow the last part.
    #[error("the bytes are not parts, each after its length")]
    Frame,
    /// The first part that is no list has this error.
    #[error("{0}")]
    Part(UleError),
    /// The lists don't have the counts that they need, or a hash table has 2^32 keys or more.
    #[error("the parts have different counts, or too many keys")]
    Count,
    /// The first end is 0, or an end is not above the one before.
    #[error("the joiner's numbers do not ascend from above 0")]
    JoinerOrder,
    /// The last end, or 0 where there is none, is not the number of second keys.
    #[error("the joiner does not end at the count of the second keys")]
    JoinerEnd,
    /// Keys don't ascend strictly.
    #[error("the keys do not ascend")]
    KeyOrder,
}

impl From<UleError> for FormError {
    ghost from_gives = { λ e f. f ≡ FormError.Part e };

    fn from(error: UleError) -> FormError {
        FormError::Part(error)
    }
}

impl From<VecsError> for FormError {
    ghost from_gives = { λ e f. f ≡ columns_error e };

    fn from(error: VecsError) -> FormError {
        match error {
            VecsError::Count => FormError::Count,
            VecsError::KeyOrder => FormError::KeyOrder,
        }
    }
}

impl From<HashPartsError> for FormError {
    ghost from_gives = { λ e f. f ≡ table_error e };

    fn from(_error: HashPartsError) -> FormError {
        FormError::Count
    }
}
