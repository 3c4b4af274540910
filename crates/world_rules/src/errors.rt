//! Why a world can't be changed or asked.

use febe_data::Memory;
use std::alloc::{AllocError, AllocFailed};

/// Why something can't be worked out. Callers of the public calls are told that there is no memory, whichever it is.
#[derive(Clone, Copy, Debug, PartialEq, Eq)]
pub enum WorldError {
    /// There is no memory for it.
    Memory,
    /// An address, or the end of a span, would be no tumbler.
    NoTumbler,
    /// A number would leave its type.
    TooGreat,
    /// The cuts bound no two blocks.
    BadCuts,
    /// The session has no account.
    NoAccount,
}

impl From<Memory> for WorldError {
    fn from(_none: Memory) -> WorldError {
        WorldError::Memory
    }
}

impl From<AllocError> for WorldError {
    fn from(_refused: AllocError) -> WorldError {
        WorldError::Memory
    }
}

impl<T: Drop> From<AllocFailed<T>> for WorldError {
    fn from(_refused: AllocFailed<T>) -> WorldError {
        WorldError::Memory
    }
}

impl From<WorldError> for Memory {
    fn from(_error: WorldError) -> Memory {
        Memory
    }
}
