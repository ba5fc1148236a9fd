// Why parts are no table.

use thiserror::Error;

/// Why three vectors are no hash table. The causes stand in the order in which they are looked for.
#[derive(Clone, Copy, Debug, PartialEq, Eq, Error)]
pub enum HashPartsError {
    /// There are more keys than values, or fewer.
    #[error("the keys and the values have different counts")]
    KeyValueCount,
    /// There are more displacements than keys, or fewer.
    #[error("the displacements and the keys have different counts")]
    DisplacementCount,
    /// There are 2^32 keys or more.
    #[error("too many keys")]
    TooMany,
}
