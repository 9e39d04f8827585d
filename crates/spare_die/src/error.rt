//! Why a die is refused.
ghost use Rattle.std.specs.Prelude.{◌≡◌};
ghost use Rattle.spare_die.specs.declared.error.OpenError.TheVariants.{OutOfMemory};

use std::alloc::AllocError;
use thiserror::Error;

/// Why a die is refused: the first of these that applies.
#[derive(Clone, Copy, Debug, PartialEq, Eq, Error)]
pub enum OpenError {
    #[error("out of memory")]
    OutOfMemory = 1,
    /// There are fewer than two logical blocks, no room for them and the table, more than 1,024 blocks or 128 pages, or fewer
    /// than 9 main bytes.
    #[error("the die has no room for so many logical blocks")]
    Shape = 2,
    #[error("a read of the die failed")]
    DieFault = 3,
    /// An entry cannot stand in the table, or a reserve block that no entry names is not blank.
    #[error("the table of bad blocks is not sound")]
    Table = 4,
}

impl From<AllocError> for OpenError {
    ghost from_gives = { λ _ e. e ≡ OutOfMemory };

    fn from(_: AllocError) -> OpenError {
        OpenError::OutOfMemory
    }
}
