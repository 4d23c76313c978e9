//! The meaning of a head, in the program's types.

ghost use Rattle.std.specs.Prelude.{◌≤◌};
ghost use Rattle.http_messages.specs.declared.frame.TheConstants.{BODY_LIMIT};

use grid_exact::Bytes;
use http::Method;

/// The meaning of a head.
#[derive(Drop)]
pub(crate) struct Head {
    pub(crate) method: Method,
    pub(crate) target: Bytes,
    /// The size of the body in bytes.
    pub(crate) size: usize,
    /// Whether the session ends after the response.
    pub(crate) close: bool,
    ghost fits: { size ≤ BODY_LIMIT },
}

/// The result of reading a head.
#[derive(Drop)]
pub(crate) enum HeadRead {
    /// The head was read.
    Head(Head),
    /// Its fields are refused with this status.
    Refused(u16),
    /// Memory was refused.
    NoMemory,
}
