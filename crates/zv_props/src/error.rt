// Why bytes are no table, and why a table was not built.
ghost use Rattle.std.specs.Prelude.{◌≡◌};

use thiserror::Error;
use zv_ule::{NoMemory, UleError};

/// Why bytes are no table. Rows are counted from 0, and the least row that breaks a rule is told.
#[derive(Clone, Copy, Debug, PartialEq, Eq, Error)]
pub enum PropsError {
    /// The bytes are no rows.
    #[error("{0}")]
    Ule(UleError),
    /// A row's last code point is below its first or above 1,114,111, or its value is 0.
    #[error("row {index} is none")]
    Row { index: usize },
    /// A row begins at or below the end of the row before it.
    #[error("row {index} is out of order")]
    Order { index: usize },
    /// A row begins right behind the row before it, and has the same value.
    #[error("row {index} joins the row before it")]
    Join { index: usize },
}

/// Why a table was not built.
#[derive(Clone, Copy, Debug, PartialEq, Eq, Error)]
pub enum BuildError {
    /// The range at this index, from 0, has no code point or ends above 1,114,111.
    #[error("set {index} is bad")]
    BadSet { index: usize },
    /// No memory was given.
    #[error("out of memory")]
    Memory,
}

impl From<UleError> for PropsError {
    ghost use Rattle.std.specs.Prelude.{◌≡◌};
    ghost use Rattle.zv_props.specs.declared.error.PropsError.{PropsError};

    ghost from_gives = { λ cause e. e ≡ PropsError.Ule cause };

    fn from(cause: UleError) -> PropsError {
        PropsError::Ule(cause)
    }
}

impl From<NoMemory> for BuildError {
    ghost use Rattle.std.specs.Prelude.{◌≡◌};
    ghost use Rattle.zv_props.specs.declared.error.BuildError.{BuildError};

    ghost from_gives = { λ _ e. e ≡ BuildError.Memory };

    fn from(_error: NoMemory) -> BuildError {
        BuildError::Memory
    }
}
