//! The length of a request's body, from the fields of its head.

ghost use Rattle.std.specs.Prelude.{◌≡◌, ◌≤◌, ◌<◌, ℕ, List, Some, None, All, IfSome, IfNone, ◌+◌, ◌∷◌, [], drop, get_or, slice_index, length, take, map, true, false};
ghost use Rattle.std.specs.Char.{is_ascii_digit};
ghost use Rattle.std.specs.List.{list_all, list_any};
ghost use Rattle.std.specs.Str.Parse.{digits_value};
ghost use Rattle.httparse.specs.Spans.{header_bytes, IsHeaderWithin};
ghost use Rattle.http_messages.specs.Frames.{frame, values, is_called, is_length, by_length};
ghost use Rattle.http_messages.specs.Statuses.{HasFrameStatus};
ghost use Rattle.http_messages.specs.Counts.{Counts, IfOnce, IsFrame, IsSmall};

use crate::status::{BODY_TOO_LARGE, LENGTH_WANTED, MALFORMED, NO_TRANSFER_ENCODING};
use httparse::spans::HeaderSpan;

/// The greatest size of a body in bytes: 1 MiB.
pub const BODY_LIMIT: u64 = 1_048_576;

/// Most digits of a Content-Length accepted.
const MOST_DIGITS: usize = 10;

/// The size of a body, or the refusal of the request.
#[derive(Clone, Copy, Debug, PartialEq, Eq)]
pub(crate) enum Framing {
    /// The body has this many bytes.
    Body(usize),
    /// The request is refused with this status.
    Refused(u16),
}

/// Whether a field has this name, ignoring case.
pub(crate) fn is_called(bytes: &[u8], header: HeaderSpan, name: &[u8]) -> bool
    requires { IsHeaderWithin (length bytes.now) header }
    ensures { result ≡ is_called name.now (header_bytes bytes.now header) }
{
    header.name.of(bytes).eq_ignore_ascii_case(name)
}

/// The first field of this name.
#[tactic(auto, using(crate::proofs::FrameFacts::any_at, crate::proofs::FrameFacts::any_none, crate::proofs::FrameFacts::values_none, crate::proofs::FrameFacts::values_first))]
fn first_field(bytes: &[u8], headers: &[HeaderSpan], name: &[u8]) -> Option<usize>
    requires { All (IsHeaderWithin (length bytes.now)) headers.now }
    ensures within { IfSome result (λ at. at < length headers.now) }
    ensures first { IfSome result (λ at. (d : HeaderSpan)
        → values name.now (map (header_bytes bytes.now) headers.now)
        ≡ (header_bytes bytes.now (get_or headers.now at d)).1 ∷ values name.now
        (map (header_bytes bytes.now) (drop (at + 1) headers.now))) }
    ensures none { IfNone result (values name.now (map (header_bytes bytes.now) headers.now) ≡ []) }
    ensures any { IfNone result (list_any (is_called name.now)
        (map (header_bytes bytes.now) headers.now) ≡ false) }
    ensures some { IfSome result (λ at. list_any (is_called name.now)
        (map (header_bytes bytes.now) headers.now) ≡ true) }
{
    for at in 0..headers.len() {
        if is_called(bytes, headers[at], name) {
            return Some(at);
        }
    }
    None
}

/// The fields of a name: none, one, or several.
#[derive(Clone, Copy, Debug, PartialEq, Eq)]
enum Count {
    /// No field has the name.
    Nothing,
    /// Only this field has the name.
    Once(HeaderSpan),
    /// Two fields or more have the name.
    Often,
}

/// Counts the fields of a name in a head.
fn values_of(bytes: &[u8], headers: &[HeaderSpan], name: &[u8]) -> Count
    requires { All (IsHeaderWithin (length bytes.now)) headers.now }
    ensures within { IfOnce result (IsHeaderWithin (length bytes.now)) }
    ensures counts { Counts bytes.now (values name.now
        (map (header_bytes bytes.now) headers.now)) result }
{
    match first_field(bytes, headers, name) {
        Some(at) => {
            let (_, later) = headers.split_at(at + 1);
            match first_field(bytes, later, name) {
                Some(_) => Count::Often,
                None => Count::Once(headers[at]),
            }
        }
        None => Count::Nothing,
    }
}

/// Whether each byte is a digit.
fn is_all_digits(text: &[u8]) -> bool
    ensures { result ≡ list_all is_ascii_digit text.now }
{
    for byte in text {
        if !byte.is_ascii_digit() {
            return false;
        }
    }
    true
}

/// The value of at most [`MOST_DIGITS`] digits.
fn number_of(text: &[u8]) -> u64
    requires few { length text.now ≤ MOST_DIGITS }
    requires digits { list_all is_ascii_digit text.now ≡ true }
    ensures { result ≡ digits_value 10 text.now }
{
    let mut total = 0;
    for byte in text {
        total = total * 10 + (*byte - b'0') as u64;
    }
    total
}

/// Parses a Content-Length: 1 to [`MOST_DIGITS`] digits.
fn length_of(text: &[u8]) -> Option<u64>
    ensures some { IfSome result (λ n. n ≡ digits_value 10 text.now) }
    ensures good { IfSome result (λ n. is_length text.now ≡ true) }
    ensures none { IfNone result (is_length text.now ≡ false) }
{
    if text.is_empty() {
        return None;
    }
    if text.len() > MOST_DIGITS {
        return None;
    }
    if !is_all_digits(text) {
        return None;
    }
    Some(number_of(text))
}

/// The frame from the only value of Content-Length.
fn by_value(value: &[u8]) -> Framing
    ensures frame { IsFrame result (by_length value.now) }
    ensures small { IsSmall result }
    ensures status { HasFrameStatus result }
{
    match length_of(value) {
        Some(number) => {
            if number > BODY_LIMIT {
                return Framing::Refused(BODY_TOO_LARGE);
            }
            Framing::Body(number as usize)
        }
        None => Framing::Refused(MALFORMED),
    }
}

/// The size of the body of a request with these fields, or the refusal of the request.
pub(crate) fn frame_of(bytes: &[u8], headers: &[HeaderSpan], is_post: bool) -> Framing
    requires { All (IsHeaderWithin (length bytes.now)) headers.now }
    ensures frame { IsFrame result (frame is_post (map (header_bytes bytes.now) headers.now)) }
    ensures small { IsSmall result }
    ensures status { HasFrameStatus result }
{
    if first_field(bytes, headers, b"transfer-encoding").is_some() {
        return Framing::Refused(NO_TRANSFER_ENCODING);
    }
    match values_of(bytes, headers, b"content-length") {
        Count::Nothing => {
            if is_post {
                return Framing::Refused(LENGTH_WANTED);
            }
            Framing::Body(0)
        }
        Count::Once(header) => by_value(header.value.of(bytes)),
        Count::Often => Framing::Refused(MALFORMED),
    }
}
