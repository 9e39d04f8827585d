//! Why a text is no script.

use std::alloc::AllocError;
use thiserror::Error;

/// No memory was left.
pub type OutOfMemory = AllocError;

/// Why a text is no script. `TooLong` comes before `BadLine`.
#[derive(Debug, Drop, Error, PartialEq, Eq)]
pub enum ScriptError {
    /// The text has more than 1,048,576 bytes.
    #[error("the script is too long")]
    TooLong,
    /// The first line outside the grammar, counted from 1.
    #[error("line {0} is outside the grammar")]
    BadLine(u32),
    /// No memory was left.
    #[error("no memory was left")]
    OutOfMemory,
}
