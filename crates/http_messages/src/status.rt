//! The status codes of refused requests, and of lack of memory.

/// The bytes are not a request, or its Content-Length is not a length: 400.
pub const MALFORMED: u16 = 400;

/// A POST without Content-Length: 411.
pub const LENGTH_WANTED: u16 = 411;

/// The body is too long: 413.
pub const BODY_TOO_LARGE: u16 = 413;

/// The head has too many fields or bytes: 431.
pub const HEAD_TOO_LARGE: u16 = 431;

/// The request has a Transfer-Encoding field: 501.
pub const NO_TRANSFER_ENCODING: u16 = 501;

/// Memory ran out: 507.
pub const NO_MEMORY: u16 = 507;
