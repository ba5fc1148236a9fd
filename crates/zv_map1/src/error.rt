// Why two vectors are no map.

use thiserror::Error;

/// Why two vectors are not the keys and the values of a map.
#[derive(Clone, Copy, Debug, PartialEq, Eq, Error)]
pub enum VecsError {
    /// There are more keys than values, or fewer.
    #[error("the keys and the values have different counts")]
    Count,
    /// A key is not below the next one.
    #[error("the keys do not ascend")]
    KeyOrder,
}
