//! Why the sections were not all answered.

use filing_desk::OpenRefusal;
use grid_exact::NoMemory;
use oe_http::{Ended, Failed};
use oe_keeper::KeepErr;
use std::alloc::{AllocError, AllocFailed};
use std::io;

/// Something failed that no section asks for: memory, a stream or a keeper, or a title has a word that is none.
#[derive(Clone, Copy, Debug, PartialEq, Eq)]
pub(crate) struct Broken;

impl From<AllocError> for Broken {
    fn from(_: AllocError) -> Broken {
        Broken
    }
}

impl<T: Drop> From<AllocFailed<T>> for Broken {
    fn from(_: AllocFailed<T>) -> Broken {
        Broken
    }
}

impl From<NoMemory> for Broken {
    fn from(_: NoMemory) -> Broken {
        Broken
    }
}

impl From<io::Error> for Broken {
    fn from(_: io::Error) -> Broken {
        Broken
    }
}

impl From<Failed> for Broken {
    fn from(_: Failed) -> Broken {
        Broken
    }
}

impl From<KeepErr> for Broken {
    fn from(_: KeepErr) -> Broken {
        Broken
    }
}

impl From<OpenRefusal> for Broken {
    fn from(_: OpenRefusal) -> Broken {
        Broken
    }
}

/// A session over lines ended as it should.
pub(crate) fn closed(ended: Ended) -> Result<(), Broken> {
    match ended {
        Ended::Closed => Ok(()),
        _ => Err(Broken),
    }
}
