//! Why bytes are no list of changes.

ghost use Rattle.std.specs.Prelude.{◌≡◌};
ghost use Rattle.oe_journal.specs.declared.error.ReadError.TheVariants as errors;

use grid_exact::NoMemory;
use std::alloc::{AllocError, AllocFailed};

/// Why no list of changes was read.
#[derive(Clone, Copy, Debug, PartialEq, Eq)]
pub(crate) enum ReadError {
    /// Memory was refused.
    Memory,
    /// The bytes are no such list.
    Malformed,
}

impl From<NoMemory> for ReadError {
    ghost from_gives = { λ _ e. e ≡ errors.Memory };

    fn from(_: NoMemory) -> ReadError {
        ReadError::Memory
    }
}

impl From<AllocError> for ReadError {
    ghost from_gives = { λ _ e. e ≡ errors.Memory };

    fn from(_: AllocError) -> ReadError {
        ReadError::Memory
    }
}

impl<T: Drop> From<AllocFailed<T>> for ReadError {
    ghost from_gives = { λ _ e. e ≡ errors.Memory };

    fn from(_: AllocFailed<T>) -> ReadError {
        ReadError::Memory
    }
}
