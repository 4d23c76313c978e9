//! Reads the next request of a stream.

ghost use Rattle.std.specs.Prelude.{◌≡◌, ◌≤◌, ◌<◌, ◌+◌, ◌-◌, List, Option, ℕ, length, IfNone, IfSome};
ghost use Rattle.oe_http.specs.Causes.{Rose};
ghost use Rattle.oe_http.specs.Pending.{FellBy};
ghost use Rattle.oe_http.specs.declared.lines.TheConstants.{INPUT_LIMIT};
ghost use Rattle.httparse.specs.Grammar.{RequestHead};
ghost use Rattle.httparse.specs.Spans.{IsRequestAt, IsRequestWithin};
ghost use Rattle.http_messages.specs.declared.decision.TheConstants.{HEAD_LIMIT};
ghost use Rattle.http_messages.specs.Messages.{GivesMessage, IsBroken, IsCut, IsOfHeld, Turns, most_left, unread_of};
ghost use Rattle.http_messages.specs.Statuses.{HasStatus};
ghost use Rattle.http_messages.specs.Given.{HoldsSaid, IsGiven};

use crate::decision::{Decision, MOST_FIELDS};
use crate::head::read_head;
use crate::held::{HeadEnd, Held, ReadEnd, drop_front, hold, look, next_head};
use crate::said::{Head, HeadRead};
use crate::status::{HEAD_TOO_LARGE, MALFORMED};
use grid_exact::Bytes;
use http::Method;
use httparse::spans::{EMPTY_HEADER_SPAN, HeaderSpan, RequestSpans};
use oe_http::Source;
use std::alloc::Global;

/// The next message on a link.
#[derive(Drop, Debug)]
pub enum Incoming {
    /// A request.
    Request {
        /// Its method.
        method: Method,
        /// Its target, undecoded.
        target: Bytes,
        /// Its body.
        body: Bytes,
        /// Whether the session ends after its response.
        close: bool,
    },
    /// The input ended before any byte of a request.
    Closed,
    /// The input ended inside a head or a body.
    Truncated,
    /// Bytes that are refused with this status.
    Refused(u16),
    /// The source failed.
    ReadFault,
    /// [`oe_http::INPUT_LIMIT`] bytes were read, and more are needed.
    Long,
    /// Memory was refused.
    NoMemory,
}

/// The message for a read that failed.
fn broken(end: ReadEnd) -> Incoming
    ensures broken { IsBroken result }
    ensures status { HasStatus result }
    ensures fault { result ≡ Incoming.ReadFault → end ≡ ReadEnd.Fault }
    ensures long { result ≡ Incoming.Long → end ≡ ReadEnd.Long }
{
    match end {
        ReadEnd::Fault => Incoming::ReadFault,
        ReadEnd::Long => Incoming::Long,
        ReadEnd::NoMemory => Incoming::NoMemory,
    }
}

/// Returns the request whose head was read and whose body is held.
fn give(alloc: Global, held: &mut Held, head: Head, len: usize) -> Incoming
    requires { len + head.size ≤ length held.old.bytes.items }
    ensures given { IsGiven head held.old.bytes.items len result held.new.bytes.items }
    ensures status { HasStatus result }
    ensures taken { held.new.taken ≡ held.old.taken }
{
    let size = head.size;
    let (front, _) = held.bytes.split_at(len + size);
    let (_, body) = front.split_at(len);
    match Bytes::from_slice(alloc, body) {
        Ok(body) => {
            drop_front(held, len + size);
            Incoming::Request {
                method: head.method,
                target: head.target,
                body,
                close: head.close,
            }
        }
        Err(_) => Incoming::NoMemory,
    }
}

/// Reads the body of the request whose head was read.
#[tactic(auto, using(crate::proofs::MessageFacts::gives_request, crate::proofs::MessageFacts::gives_cut, crate::proofs::MessageFacts::gives_broken))]
fn take_body<S: Source>(
    alloc: Global,
    link: &mut S,
    held: &mut Held,
    head: Head,
    len: usize,
) -> Incoming
    requires { HoldsSaid held.old.bytes.items head len }
    ensures gives { GivesMessage (unread_of held.old (S.left link.old))
        (unread_of held.new (S.left link.new)) result }
    ensures turns { Turns (most_left held.old) (most_left held.new) result }
    ensures status { HasStatus result }
    ensures beside { S.beside link.new ≡ S.beside link.old }
    ensures later { S.faults link.old ≤ S.faults link.new }
    ensures more { held.old.taken ≤ held.new.taken }
    ensures took { FellBy (held.new.taken - held.old.taken) (S.left link.old) (S.left link.new) }
    ensures fault { result ≡ Incoming.ReadFault → Rose (S.faults link.old) (S.faults link.new) }
    ensures long { result ≡ Incoming.Long → INPUT_LIMIT ≤ held.new.taken }
{
    match hold(link, held, len + head.size) {
        Ok(true) => give(alloc, held, head, len),
        Ok(false) => Incoming::Truncated,
        Err(end) => broken(end),
    }
}

/// Reads the body of the request whose head is held.
#[tactic(auto, using(crate::proofs::MessageFacts::gives_refused, crate::proofs::MessageFacts::holds_said, crate::proofs::MessageFacts::gives_broken))]
fn take_request<S: Source>(
    alloc: Global,
    link: &mut S,
    held: &mut Held,
    headers: &[HeaderSpan],
    spans: RequestSpans,
) -> Incoming
    requires within { IsRequestWithin held.old.bytes.items headers.now spans }
    requires whole { (head : RequestHead) × IsRequestAt held.old.bytes.items headers.now spans head
        × (length head.fields ≤ MOST_FIELDS) × (spans.len ≤ HEAD_LIMIT) }
    ensures gives { GivesMessage (unread_of held.old (S.left link.old))
        (unread_of held.new (S.left link.new)) result }
    ensures turns { Turns (most_left held.old) (most_left held.new) result }
    ensures status { HasStatus result }
    ensures beside { S.beside link.new ≡ S.beside link.old }
    ensures later { S.faults link.old ≤ S.faults link.new }
    ensures more { held.old.taken ≤ held.new.taken }
    ensures took { FellBy (held.new.taken - held.old.taken) (S.left link.old) (S.left link.new) }
    ensures fault { result ≡ Incoming.ReadFault → Rose (S.faults link.old) (S.faults link.new) }
    ensures long { result ≡ Incoming.Long → INPUT_LIMIT ≤ held.new.taken }
{
    match read_head(alloc, &held.bytes, headers, spans) {
        HeadRead::Head(head) => take_body(alloc, link, held, head, spans.len),
        HeadRead::Refused(status) => Incoming::Refused(status),
        HeadRead::NoMemory => Incoming::NoMemory,
    }
}

/// Takes the request whose head is held; `None` only where its body is not held whole.
#[tactic(auto, using(crate::proofs::MessageFacts::cut_body, crate::proofs::MessageFacts::holds_said))]
fn take_held(
    alloc: Global,
    held: &mut Held,
    headers: &[HeaderSpan],
    spans: RequestSpans,
) -> Option<Incoming>
    requires within { IsRequestWithin held.old.bytes.items headers.now spans }
    requires whole { (head : RequestHead) × IsRequestAt held.old.bytes.items headers.now spans head
        × (length head.fields ≤ MOST_FIELDS) × (spans.len ≤ HEAD_LIMIT) }
    ensures gives { IfSome result (λ next. (left : Option (List ℕ))
        → GivesMessage (unread_of held.old left) (unread_of held.new left) next) }
    ensures turns { IfSome result (λ next. Turns (most_left held.old) (most_left held.new) next) }
    ensures status { IfSome result (λ next. HasStatus next) }
    ensures held { IfSome result (λ next. IsOfHeld next) }
    ensures none { IfNone result (IsCut held.old.bytes.items) }
    ensures same { IfNone result (held.new.bytes.items ≡ held.old.bytes.items) }
    ensures taken { held.new.taken ≡ held.old.taken }
{
    match read_head(alloc, &held.bytes, headers, spans) {
        HeadRead::Head(head) => {
            if held.bytes.len() < spans.len + head.size {
                return None;
            }
            Some(give(alloc, held, head, spans.len))
        }
        HeadRead::Refused(status) => Some(Incoming::Refused(status)),
        HeadRead::NoMemory => Some(Incoming::NoMemory),
    }
}

/// Takes the next request without a read; `None` exactly where what is held is neither a whole request nor refused, memory apart.
/// [`next_request`] then reads on.
pub fn held_request(alloc: Global, held: &mut Held) -> Option<Incoming>
    ensures gives { IfSome result (λ next. (left : Option (List ℕ))
        → GivesMessage (unread_of held.old left) (unread_of held.new left) next) }
    ensures turns { IfSome result (λ next. Turns (most_left held.old) (most_left held.new) next) }
    ensures status { IfSome result (λ next. HasStatus next) }
    ensures held { IfSome result (λ next. IsOfHeld next) }
    ensures none { IfNone result (IsCut held.old.bytes.items) }
    ensures same { IfNone result (held.new.bytes.items ≡ held.old.bytes.items) }
    ensures taken { held.new.taken ≡ held.old.taken }
{
    let mut headers = [EMPTY_HEADER_SPAN; MOST_FIELDS];
    match look(held, &mut headers) {
        Decision::Whole(spans) => take_held(alloc, held, &headers, spans),
        Decision::TooLarge => Some(Incoming::Refused(HEAD_TOO_LARGE)),
        Decision::Malformed => Some(Incoming::Refused(MALFORMED)),
        Decision::Wanting => None,
    }
}

/// Reads the next request of a link. `held` keeps the bytes that belong to later requests. A body is read once, and its
/// head is not parsed again while the body arrives.
#[tactic(auto, using(crate::proofs::MessageFacts::gives_on, crate::proofs::MessageFacts::gives_broken, crate::proofs::MessageFacts::turns_broken))]
pub fn next_request<S: Source>(alloc: Global, link: &mut S, held: &mut Held) -> Incoming
    ensures gives { GivesMessage (unread_of held.old (S.left link.old))
        (unread_of held.new (S.left link.new)) result }
    ensures turns { Turns (most_left held.old) (most_left held.new) result }
    ensures status { HasStatus result }
    ensures beside { S.beside link.new ≡ S.beside link.old }
    ensures later { S.faults link.old ≤ S.faults link.new }
    ensures more { held.old.taken ≤ held.new.taken }
    ensures took { FellBy (held.new.taken - held.old.taken) (S.left link.old) (S.left link.new) }
    ensures fault { result ≡ Incoming.ReadFault → Rose (S.faults link.old) (S.faults link.new) }
    ensures long { result ≡ Incoming.Long → INPUT_LIMIT ≤ held.new.taken }
{
    let mut headers = [EMPTY_HEADER_SPAN; MOST_FIELDS];
    match next_head(link, held, &mut headers) {
        HeadEnd::Whole(spans) => take_request(alloc, link, held, &headers, spans),
        HeadEnd::TooLarge => Incoming::Refused(HEAD_TOO_LARGE),
        HeadEnd::Malformed => Incoming::Refused(MALFORMED),
        HeadEnd::End => {
            if held.bytes.is_empty() {
                return Incoming::Closed;
            }
            Incoming::Truncated
        }
        HeadEnd::Failed(end) => broken(end),
    }
}
