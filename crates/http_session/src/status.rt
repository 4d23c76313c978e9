//! The status codes of replies.

ghost use Rattle.std.specs.Prelude.{◌≡◌};
ghost use Rattle.http.specs.StatusCode.{IsStatusCode};
ghost use Rattle.http_session.specs.Statuses as spec;

use http_messages::NO_MEMORY;

/// The request was answered and not refused: 200.
pub const OK: u16 = 200;

/// No route has the target: 404.
pub const NOT_FOUND: u16 = 404;

/// A route with another method has the target: 405.
pub const NOT_ALLOWED: u16 = 405;

/// A rule of the desk refused the request: 409.
pub const CONFLICT: u16 = 409;

/// The record is malformed: 422.
pub const MALFORMED_RECORD: u16 = 422;

/// The keeper of the desk's tables failed: 503.
pub const NOT_KEPT: u16 = 503;

/// The status code for the text of a reply, by the number of its refusal.
pub(crate) fn status_of(text: &[u8]) -> u16
    ensures status { result ≡ spec.status_of text.now }
    ensures good { IsStatusCode result }
{
    if text.starts_with(b"no,13,") {
        return MALFORMED_RECORD;
    }
    if text.starts_with(b"no,30,") {
        return NOT_KEPT;
    }
    if text.starts_with(b"no,31,") {
        return NO_MEMORY;
    }
    if text.starts_with(b"no,") {
        return CONFLICT;
    }
    OK
}
