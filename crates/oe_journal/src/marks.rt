//! The bytes that mark frames and changes.

/// The gate of a frame that counts.
pub(crate) const OPEN_GATE: u8 = 1;

/// The gate at which the meaning of a file ends.
pub(crate) const CLOSED_GATE: u8 = 0;

/// Begins a change that puts a row.
pub(crate) const PUT: u8 = b'P';

/// Begins a change that removes a row.
pub(crate) const REMOVE: u8 = b'R';
