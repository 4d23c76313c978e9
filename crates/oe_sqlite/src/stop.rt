//! The errors of calls over a store.

use grid_exact::NoMemory;
use sqlite::{Error, ErrorCode};
use std::alloc::AllocError;

/// Why a call over a store stopped.
#[derive(Clone, Copy, Debug, PartialEq, Eq)]
pub enum Stop {
    /// The store refused the call.
    Refused(Error),
    /// A row cannot stand in the table: its table is none of the five, or its key occurs twice.
    BadRow,
    /// No store is open, or a transaction is.
    NotReady,
    /// Memory ran out.
    NoMemory,
}

impl From<Error> for Stop {
    fn from(error: Error) -> Stop {
        if error == Error::SqliteFailure(ErrorCode::OutOfMemory) {
            Stop::NoMemory
        } else {
            Stop::Refused(error)
        }
    }
}

impl From<AllocError> for Stop {
    fn from(_: AllocError) -> Stop {
        Stop::NoMemory
    }
}

impl From<NoMemory> for Stop {
    fn from(_: NoMemory) -> Stop {
        Stop::NoMemory
    }
}
