//! Reads the meaning of a whole head.

ghost use Rattle.std.specs.Prelude.{◌≡◌, ◌≢◌, ◌≤◌, ◌&&◌, ◌||◌, ◌==◌, bytes_eq, codes, length, map, take, All, List, ℕ, true, false};
ghost use Rattle.std.specs.List.{list_any};
ghost use Rattle.httparse.specs.Grammar.{RequestHead};
ghost use Rattle.httparse.specs.Spans.{header_bytes, IsHeaderWithin, IsRequestAt, IsRequestWithin};
ghost use Rattle.http_messages.specs.Frames.{asks_close, frame_of, is_close};
ghost use Rattle.http_messages.specs.Counts.{IsFrame, IsSmall};
ghost use Rattle.http_messages.specs.Statuses.{HasFrameStatus, HasHeadStatus};
ghost use Rattle.http_messages.specs.Said.{SaysOr};

use crate::frame::{Framing, frame_of, is_called};
use crate::said::{Head, HeadRead};
use grid_exact::Bytes;
use http::Method;
use httparse::spans::{HeaderSpan, RequestSpans};
use std::alloc::Global;

/// Whether the field is `Connection: close`.
fn is_close(bytes: &[u8], header: HeaderSpan) -> bool
    requires { IsHeaderWithin (length bytes.now) header }
    ensures { result ≡ is_close (header_bytes bytes.now header) }
{
    is_called(bytes, header, b"connection") && header.value.of(bytes).eq_ignore_ascii_case(b"close")
}

/// Whether one of the fields is `Connection: close`.
#[tactic(auto, using(crate::proofs::FrameFacts::any_at, crate::proofs::FrameFacts::any_none))]
fn has_close(bytes: &[u8], headers: &[HeaderSpan]) -> bool
    requires { All (IsHeaderWithin (length bytes.now)) headers.now }
    ensures { result ≡ list_any is_close (map (header_bytes bytes.now) headers.now) }
{
    for at in 0..headers.len() {
        if is_close(bytes, headers[at]) {
            return true;
        }
    }
    false
}

/// The fields of a head.
fn fields_of(headers: &[HeaderSpan], spans: RequestSpans) -> &[HeaderSpan]
    requires { spans.headers ≤ length headers.now }
    ensures { result.now ≡ take spans.headers headers.now }
{
    let (fields, _) = headers.split_at(spans.headers);
    fields
}

/// The size of the body.
#[tactic(auto, using(crate::proofs::SaidFacts::fields_fit, crate::proofs::SaidFacts::framed))]
fn framing(bytes: &[u8], headers: &[HeaderSpan], spans: RequestSpans) -> Framing
    requires { IsRequestWithin bytes.now headers.now spans }
    ensures frame { (head : RequestHead) → IsRequestAt bytes.now headers.now spans head
        → IsFrame result (frame_of head) }
    ensures small { IsSmall result }
    ensures status { HasFrameStatus result }
{
    let is_post = spans.method.of(bytes) == b"POST".as_slice();
    frame_of(bytes, fields_of(headers, spans), is_post)
}

/// Whether the session ends after the reply.
#[tactic(auto, using(crate::proofs::SaidFacts::fields_fit, crate::proofs::SaidFacts::closes_is))]
fn closes(bytes: &[u8], headers: &[HeaderSpan], spans: RequestSpans) -> bool
    requires { IsRequestWithin bytes.now headers.now spans }
    ensures { (head : RequestHead) → IsRequestAt bytes.now headers.now spans head
        → result ≡ asks_close head }
{
    spans.version == 0 || has_close(bytes, fields_of(headers, spans))
}

/// The meaning of a whole head: method, target, body size, and whether the session ends.
#[tactic(auto, using(crate::proofs::SaidFacts::framed_refused, crate::proofs::SaidFacts::says))]
pub(crate) fn read_head(
    alloc: Global,
    bytes: &[u8],
    headers: &[HeaderSpan],
    spans: RequestSpans,
) -> HeadRead
    requires { IsRequestWithin bytes.now headers.now spans }
    ensures says { (head : RequestHead) → IsRequestAt bytes.now headers.now spans head
        → SaysOr result head }
    ensures status { HasHeadStatus result }
{
    match framing(bytes, headers, spans) {
        Framing::Body(size) => {
            // The method of a head is always a token: the only error is lack of memory.
            let Ok(method) = Method::from_bytes(alloc, spans.method.of(bytes)) else {
                return HeadRead::NoMemory;
            };
            let Ok(target) = Bytes::from_slice(alloc, spans.path.of(bytes)) else {
                return HeadRead::NoMemory;
            };
            HeadRead::Head(Head {
                method,
                target,
                size,
                close: closes(bytes, headers, spans),
            })
        }
        Framing::Refused(status) => HeadRead::Refused(status),
    }
}
