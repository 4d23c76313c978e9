//! The loop of a session.

ghost use Rattle.std.specs.Prelude.{◌≡◌, ◌≢◌, ◌≤◌, ◌<◌, ◌-◌, ◌⊎◌, ◌++◌, [], true, false, List, ℕ, Option, None, OnErr, OnOk, IfOk, IsErrOf, IsNone, IfNone, IfSome};
ghost use Rattle.std.specs.Io.KnownBytes.{Keeps};
ghost use Rattle.http.specs.StatusCode.{IsStatusCode};
ghost use Rattle.oe_http.specs.Causes.{Rose, HasCause};
ghost use Rattle.oe_http.specs.Pending.{FellBy};
ghost use Rattle.oe_http.specs.Written.{Sent};
ghost use Rattle.oe_http.specs.declared.lines.TheConstants.{INPUT_LIMIT};
ghost use Rattle.http_messages.specs.Messages.{GivesMessage, IsOfHeld, Turns, most_left, unread_of};
ghost use Rattle.http_messages.specs.Responses.{response_text};
ghost use Rattle.http_messages.specs.Statuses.{HasStatus};
ghost use Rattle.http_messages.specs.declared.request.Incoming.TheVariants as incoming;
ghost use Rattle.http_messages.specs.declared.status.TheConstants.{NO_MEMORY};
ghost use Rattle.oe_http.specs.Session.{Completes, HasCauses};
ghost use Rattle.http_session.specs.Machine.{Reply, reply_text, refusal_text};
ghost use Rattle.http_session.specs.Endings.{CarriesOut, EndsSo, Finishes, GivesUp, Goes, GoesFurther, IsRequest, RefusesSo, Stops, WroteFront};

use crate::Replying;
use http::Method;
use http_messages::{
    Held, Incoming, SendErr, append_response, held_request, next_request, write_response,
};
use oe_http::{Ended, Failed, MOST_WAITING, TwoWay, write_whole};
use std::alloc::Global;

/// The 507 response. It is a constant, since it must be sent when there is no memory.
const NO_MEMORY_RESPONSE: &[u8] =
    b"HTTP/1.1 507 Insufficient Storage\r\nContent-Type: text/plain\r\nContent-Length: 0\r\nConnection: close\r\n\r\n";

/// Reads the next request. The sink is unchanged.
fn next_on<L: TwoWay>(alloc: Global, link: &mut L, held: &mut Held) -> Incoming
    ensures gives { GivesMessage (unread_of held.old (L.Source.left link.old))
        (unread_of held.new (L.Source.left link.new)) result }
    ensures turns { Turns (most_left held.old) (most_left held.new) result }
    ensures status { HasStatus result }
    ensures held { L.Sink.held link.new ≡ L.Sink.held link.old }
    ensures write_faults { L.Sink.faults link.new ≡ L.Sink.faults link.old }
    ensures later { L.Source.faults link.old ≤ L.Source.faults link.new }
    ensures more { held.old.taken ≤ held.new.taken }
    ensures took { FellBy (held.new.taken - held.old.taken) (L.Source.left link.old)
        (L.Source.left link.new) }
    ensures fault { result ≡ Incoming.ReadFault
        → Rose (L.Source.faults link.old) (L.Source.faults link.new) }
    ensures long { result ≡ Incoming.Long → INPUT_LIMIT ≤ held.new.taken }
{
    next_request(alloc, link, held)
}

/// Writes a response. The source is unchanged.
fn write_on<L: TwoWay>(
    alloc: Global,
    link: &mut L,
    status: u16,
    allow: Option<bool>,
    body: &[u8],
    close: bool,
) -> Result<(), SendErr>
    requires { IsStatusCode status }
    ensures ok { OnOk result (Sent (L.Sink.held link.old) (L.Sink.held link.new)
        (response_text status allow body.now close) []) }
    ensures fault { IsErrOf result SendErr.WriteFault
        → (rest : List ℕ) × Sent (L.Sink.held link.old) (L.Sink.held link.new)
        (response_text status allow body.now close) rest }
    ensures memory { IsErrOf result SendErr.NoMemory
        → Keeps (L.Sink.held link.old) (L.Sink.held link.new) }
    ensures left { L.Source.left link.new ≡ L.Source.left link.old }
    ensures read_faults { L.Source.faults link.new ≡ L.Source.faults link.old }
    ensures later { L.Sink.faults link.old ≤ L.Sink.faults link.new }
    ensures cause { IsErrOf result SendErr.WriteFault
        → Rose (L.Sink.faults link.old) (L.Sink.faults link.new) }
{
    write_response(alloc, link, status, allow, body, close)
}

/// Writes a text. The source is unchanged.
fn send_on<L: TwoWay>(link: &mut L, text: &[u8]) -> Result<(), Failed>
    ensures ok { OnOk result (Sent (L.Sink.held link.old) (L.Sink.held link.new) text.now []) }
    ensures err { OnErr result ((rest : List ℕ)
        × Sent (L.Sink.held link.old) (L.Sink.held link.new) text.now rest) }
    ensures left { L.Source.left link.new ≡ L.Source.left link.old }
    ensures read_faults { L.Source.faults link.new ≡ L.Source.faults link.old }
    ensures cause { HasCause (L.Sink.faults link.old) (L.Sink.faults link.new) result }
{
    write_whole(link, text)
}

/// Writes the responses that wait.
fn send_waiting<L: TwoWay>(link: &mut L, waiting: &mut Vec<u8>) -> Result<(), Failed>
    ensures ok { OnOk result (Sent (L.Sink.held link.old) (L.Sink.held link.new)
        waiting.old.items []) }
    ensures none { OnOk result (waiting.new.items ≡ []) }
    ensures err { OnErr result (WroteFront (L.Sink.held link.old) (L.Sink.held link.new)
        waiting.old.items) }
    ensures left { L.Source.left link.new ≡ L.Source.left link.old }
    ensures read_faults { L.Source.faults link.new ≡ L.Source.faults link.old }
    ensures cause { HasCause (L.Sink.faults link.old) (L.Sink.faults link.new) result }
{
    if waiting.is_empty() {
        return Ok(());
    }
    send_on(link, waiting.as_slice())?;
    waiting.clear();
    Ok(())
}

/// Appends a response to those that wait. Returns whether it did: not if it is large or memory is wanting.
fn keep(
    alloc: Global,
    waiting: &mut Vec<u8>,
    status: u16,
    allow: Option<bool>,
    body: &[u8],
    close: bool,
) -> bool
    requires { IsStatusCode status }
    ensures kept { result ≡ true → waiting.new.items
        ≡ waiting.old.items ++ response_text status allow body.now close }
    ensures same { result ≡ false → waiting.new.items ≡ waiting.old.items }
{
    if body.len() >= MOST_WAITING {
        return false;
    }
    append_response(alloc, waiting, status, allow, body, close).is_ok()
}

/// Lets a response wait behind the others. A large one is written, and so is one that there is no memory to keep; their
/// room is free then.
#[tactic(auto, using(oe_http::proofs::SentFacts::sent_start, crate::proofs::WaitingFacts::sent_behind))]
fn gather<L: TwoWay>(
    alloc: Global,
    link: &mut L,
    waiting: &mut Vec<u8>,
    status: u16,
    allow: Option<bool>,
    body: &[u8],
    close: bool,
) -> Result<(), SendErr>
    requires { IsStatusCode status }
    ensures ok { OnOk result (Sent (L.Sink.held link.old) (L.Sink.held link.new)
        (waiting.old.items ++ response_text status allow body.now close) waiting.new.items) }
    ensures fault { IsErrOf result SendErr.WriteFault
        → (rest : List ℕ) × Sent (L.Sink.held link.old) (L.Sink.held link.new)
        (waiting.old.items ++ response_text status allow body.now close) rest }
    ensures memory { IsErrOf result SendErr.NoMemory
        → Sent (L.Sink.held link.old) (L.Sink.held link.new) waiting.old.items waiting.new.items }
    ensures left { L.Source.left link.new ≡ L.Source.left link.old }
    ensures read_faults { L.Source.faults link.new ≡ L.Source.faults link.old }
    ensures later { L.Sink.faults link.old ≤ L.Sink.faults link.new }
    ensures cause { IsErrOf result SendErr.WriteFault
        → Rose (L.Sink.faults link.old) (L.Sink.faults link.new) }
{
    if keep(alloc, waiting, status, allow, body, close) {
        return Ok(());
    }
    match send_waiting(link, waiting) {
        Ok(()) => {
            *waiting = Vec::new(alloc);
            write_on(alloc, link, status, allow, body, close)
        }
        Err(_) => Err(SendErr::WriteFault),
    }
}

/// Writes what waits, and ends the session so.
fn finish<L: TwoWay>(link: &mut L, waiting: &mut Vec<u8>, ended: Ended) -> Ended
    ensures finishes { Finishes ended result (L.Sink.held link.old) (L.Sink.held link.new)
        waiting.old.items }
    ensures left { L.Source.left link.new ≡ L.Source.left link.old }
    ensures read_faults { L.Source.faults link.new ≡ L.Source.faults link.old }
    ensures later { L.Sink.faults link.old ≤ L.Sink.faults link.new }
    ensures write { result ≡ Ended.WriteFault → ended ≢ Ended.WriteFault
        → Rose (L.Sink.faults link.old) (L.Sink.faults link.new) }
    ensures other { (result ≡ ended) ⊎ (result ≡ Ended.WriteFault) }
{
    match send_waiting(link, waiting) {
        Ok(()) => ended,
        Err(_) => Ended::WriteFault,
    }
}

/// Writes the 507 response, if the link lets it. It allocates nothing.
fn give_up<L: TwoWay>(link: &mut L)
    ensures sent { (rest : List ℕ) × Sent (L.Sink.held link.old) (L.Sink.held link.new)
        (refusal_text NO_MEMORY) rest }
    ensures left { L.Source.left link.new ≡ L.Source.left link.old }
    ensures read_faults { L.Source.faults link.new ≡ L.Source.faults link.old }
    ensures later { L.Sink.faults link.old ≤ L.Sink.faults link.new }
{
    match send_on(link, NO_MEMORY_RESPONSE) {
        Ok(()) => {}
        Err(_) => {}
    }
}

/// Writes what waits, and then the 507 response, if the link lets it. Returns how the session ends.
fn end_without_memory<L: TwoWay>(link: &mut L, waiting: &mut Vec<u8>) -> Ended
    ensures ends { GivesUp result (L.Sink.held link.old) (L.Sink.held link.new) waiting.old.items }
    ensures left { L.Source.left link.new ≡ L.Source.left link.old }
    ensures read_faults { L.Source.faults link.new ≡ L.Source.faults link.old }
    ensures later { L.Sink.faults link.old ≤ L.Sink.faults link.new }
    ensures write { result ≡ Ended.WriteFault
        → Rose (L.Sink.faults link.old) (L.Sink.faults link.new) }
    ensures other { (result ≢ Ended.ReadFault) × (result ≢ Ended.Long) }
{
    match send_waiting(link, waiting) {
        Ok(()) => {
            give_up(link);
            Ended::NoMemory
        }
        Err(_) => Ended::WriteFault,
    }
}

/// Has a request answered, and lets the response wait. `text` is a buffer that is reused.
#[tactic(auto, using(oe_http::proofs::SentFacts::sent_start))]
fn answer_one<A: Replying, L: TwoWay>(
    alloc: Global,
    desk: &mut A,
    link: &mut L,
    waiting: &mut Vec<u8>,
    text: &mut String,
    method: &Method,
    target: &[u8],
    body: &[u8],
    close: bool,
) -> Result<(), SendErr>
    ensures ok { OnOk result ((reply : Reply)
        × A.step desk.old
        (record { method = method.now; target = target.now; body = body.now }) reply desk.new
        × Sent (L.Sink.held link.old) (L.Sink.held link.new)
        (waiting.old.items ++ reply_text reply close) waiting.new.items) }
    ensures fault { IsErrOf result SendErr.WriteFault
        → (reply : Reply) × A.step desk.old
        (record { method = method.now; target = target.now; body = body.now }) reply desk.new
        × ((rest : List ℕ) × Sent (L.Sink.held link.old) (L.Sink.held link.new)
        (waiting.old.items ++ reply_text reply close) rest) }
    ensures memory { IsErrOf result SendErr.NoMemory
        → Sent (L.Sink.held link.old) (L.Sink.held link.new) waiting.old.items waiting.new.items }
    ensures made { OnErr result ((desk.new ≡ desk.old) ⊎ ((reply : Reply) × A.step desk.old
        (record { method = method.now; target = target.now; body = body.now }) reply desk.new)) }
    ensures left { L.Source.left link.new ≡ L.Source.left link.old }
    ensures read_faults { L.Source.faults link.new ≡ L.Source.faults link.old }
    ensures later { L.Sink.faults link.old ≤ L.Sink.faults link.new }
    ensures cause { IsErrOf result SendErr.WriteFault
        → Rose (L.Sink.faults link.old) (L.Sink.faults link.new) }
{
    text.clear();
    match desk.reply(alloc, method, target, body, text) {
        Ok(response) => gather(
            alloc,
            link,
            waiting,
            response.status,
            response.allow,
            text.as_bytes(),
            close,
        ),
        Err(_) => Err(SendErr::NoMemory),
    }
}

/// Replies to a request. Returns how the session ends, if it does.
fn exchange<A: Replying, L: TwoWay>(
    alloc: Global,
    desk: &mut A,
    link: &mut L,
    waiting: &mut Vec<u8>,
    text: &mut String,
    method: &Method,
    target: &[u8],
    body: &[u8],
    close: bool,
) -> Option<Ended>
    ensures goes { IsNone result → (x y : Option (List ℕ))
        → GivesMessage x y (incoming.Request method.now target.now body.now close)
        → Goes A.step desk.old desk.new x y (L.Sink.held link.old) (L.Sink.held link.new)
        waiting.old.items waiting.new.items }
    ensures ends { IfSome result (λ ended. (x y : Option (List ℕ))
        → GivesMessage x y (incoming.Request method.now target.now body.now close)
        → Stops A.step ended desk.old desk.new x (L.Sink.held link.old) (L.Sink.held link.new)
        waiting.old.items) }
    ensures further { IfSome result (λ ended. (x y : Option (List ℕ))
        → GivesMessage x y (incoming.Request method.now target.now body.now close)
        → GoesFurther A.step desk.old desk.new x) }
    ensures left { L.Source.left link.new ≡ L.Source.left link.old }
    ensures read_faults { L.Source.faults link.new ≡ L.Source.faults link.old }
    ensures later { L.Sink.faults link.old ≤ L.Sink.faults link.new }
    ensures write { IfSome result (λ ended. ended ≡ Ended.WriteFault
        → Rose (L.Sink.faults link.old) (L.Sink.faults link.new)) }
    ensures other { IfSome result (λ ended. (ended ≢ Ended.ReadFault) × (ended ≢ Ended.Long)) }
{
    match answer_one(
        alloc, desk, link, waiting, text, method, target, body, close,
    ) {
        Ok(()) => {
            if close {
                return Some(finish(link, waiting, Ended::Closed));
            }
            None
        }
        Err(SendErr::WriteFault) => Some(Ended::WriteFault),
        Err(SendErr::NoMemory) => Some(end_without_memory(link, waiting)),
    }
}

/// Writes what waits and the response to a refused request. Returns how the session ends.
fn refuse<L: TwoWay>(alloc: Global, link: &mut L, waiting: &mut Vec<u8>, status: u16) -> Ended
    requires { IsStatusCode status }
    ensures ends { RefusesSo result status (L.Sink.held link.old) (L.Sink.held link.new)
        waiting.old.items }
    ensures left { L.Source.left link.new ≡ L.Source.left link.old }
    ensures read_faults { L.Source.faults link.new ≡ L.Source.faults link.old }
    ensures later { L.Sink.faults link.old ≤ L.Sink.faults link.new }
    ensures write { result ≡ Ended.WriteFault
        → Rose (L.Sink.faults link.old) (L.Sink.faults link.new) }
    ensures other { (result ≢ Ended.ReadFault) × (result ≢ Ended.Long) }
{
    match gather(alloc, link, waiting, status, None, b"", true) {
        Ok(()) => finish(link, waiting, Ended::Refused(status)),
        Err(SendErr::WriteFault) => Ended::WriteFault,
        Err(SendErr::NoMemory) => end_without_memory(link, waiting),
    }
}

/// The next request, if it was read already and not too many bytes wait.
fn at_hand(alloc: Global, held: &mut Held, waiting: usize) -> Option<Incoming>
    ensures gives { IfSome result (λ next. (left : Option (List ℕ))
        → GivesMessage (unread_of held.old left) (unread_of held.new left) next) }
    ensures turns { IfSome result (λ next. Turns (most_left held.old) (most_left held.new) next) }
    ensures status { IfSome result (λ next. HasStatus next) }
    ensures held { IfSome result (λ next. IsOfHeld next) }
    ensures same { IfNone result (held.new.bytes.items ≡ held.old.bytes.items) }
    ensures taken { held.new.taken ≡ held.old.taken }
{
    if waiting >= MOST_WAITING {
        return None;
    }
    held_request(alloc, held)
}

/// Takes the next request. Before the link is read, what waits is written.
#[tactic(auto, using(oe_http::proofs::SentFacts::sent_start, oe_http::proofs::LineFacts::fell_none))]
fn receive<L: TwoWay>(
    alloc: Global,
    link: &mut L,
    held: &mut Held,
    waiting: &mut Vec<u8>,
) -> Result<Incoming, Failed>
    ensures gives { IfOk result (λ next. GivesMessage (unread_of held.old (L.Source.left link.old))
        (unread_of held.new (L.Source.left link.new)) next) }
    ensures turns { IfOk result (λ next. Turns (most_left held.old) (most_left held.new) next) }
    ensures status { IfOk result (λ next. HasStatus next) }
    // Where a response still waits, the link was not touched.
    ensures still { OnOk result ((waiting.new.items ≡ []) ⊎ (link.new ≡ link.old)) }
    ensures sent { OnOk result (Sent (L.Sink.held link.old) (L.Sink.held link.new)
        waiting.old.items waiting.new.items) }
    ensures err { OnErr result (WroteFront (L.Sink.held link.old) (L.Sink.held link.new)
        waiting.old.items) }
    ensures later { L.Source.faults link.old ≤ L.Source.faults link.new }
    ensures cause { HasCause (L.Sink.faults link.old) (L.Sink.faults link.new) result }
    ensures more { held.old.taken ≤ held.new.taken }
    ensures took { FellBy (held.new.taken - held.old.taken) (L.Source.left link.old)
        (L.Source.left link.new) }
    ensures fault { IfOk result (λ next. next ≡ Incoming.ReadFault
        → Rose (L.Source.faults link.old) (L.Source.faults link.new)) }
    ensures long { IfOk result (λ next. next ≡ Incoming.Long → INPUT_LIMIT ≤ held.new.taken) }
{
    match at_hand(alloc, held, waiting.len()) {
        Some(next) => Ok(next),
        None => {
            send_waiting(link, waiting)?;
            Ok(next_on(alloc, link, held))
        }
    }
}

/// Replies to what came. Returns how the session ends, if it does.
#[tactic(auto, using(crate::proofs::SessionFacts::stops_closed, crate::proofs::SessionFacts::stops_truncated, crate::proofs::SessionFacts::stops_refused, crate::proofs::SessionFacts::stops_read, crate::proofs::SessionFacts::stops_long, crate::proofs::CarryFacts::stays))]
fn respond<A: Replying, L: TwoWay>(
    alloc: Global,
    desk: &mut A,
    link: &mut L,
    waiting: &mut Vec<u8>,
    text: &mut String,
    came: Incoming,
) -> Option<Ended>
    requires { HasStatus came }
    ensures goes { IsNone result → (x y : Option (List ℕ)) → GivesMessage x y came
        → Goes A.step desk.old desk.new x y (L.Sink.held link.old) (L.Sink.held link.new)
        waiting.old.items waiting.new.items }
    ensures ends { IfSome result (λ ended. (x y : Option (List ℕ)) → GivesMessage x y came
        → Stops A.step ended desk.old desk.new x (L.Sink.held link.old) (L.Sink.held link.new)
        waiting.old.items) }
    ensures further { IfSome result (λ ended. (x y : Option (List ℕ)) → GivesMessage x y came
        → GoesFurther A.step desk.old desk.new x) }
    ensures request { IsNone result → IsRequest came }
    ensures left { L.Source.left link.new ≡ L.Source.left link.old }
    ensures read_faults { L.Source.faults link.new ≡ L.Source.faults link.old }
    ensures later { L.Sink.faults link.old ≤ L.Sink.faults link.new }
    ensures read { IfSome result (λ ended. ended ≡ Ended.ReadFault → came ≡ Incoming.ReadFault) }
    ensures write { IfSome result (λ ended. ended ≡ Ended.WriteFault
        → Rose (L.Sink.faults link.old) (L.Sink.faults link.new)) }
    ensures long { IfSome result (λ ended. ended ≡ Ended.Long → came ≡ Incoming.Long) }
{
    match came {
        Incoming::Request {
            method,
            target,
            body,
            close,
        } => exchange(
            alloc,
            desk,
            link,
            waiting,
            text,
            &method,
            target.as_slice(),
            body.as_slice(),
            close,
        ),
        Incoming::Closed => Some(finish(link, waiting, Ended::Closed)),
        Incoming::Truncated => Some(finish(link, waiting, Ended::Truncated)),
        Incoming::Refused(status) => Some(refuse(alloc, link, waiting, status)),
        Incoming::ReadFault => Some(finish(link, waiting, Ended::ReadFault)),
        Incoming::Long => Some(finish(link, waiting, Ended::Long)),
        Incoming::NoMemory => Some(end_without_memory(link, waiting)),
    }
}

/// Writes a response to each request of a link, in order. Responses are gathered, and written before each read and at the
/// end. The buffers of the responses and of the reply's text are reused.
#[tactic(auto, using(crate::proofs::UnderwayFacts::underway_start, crate::proofs::CarryFacts::runs_start, oe_http::proofs::SessionFacts::fell_none, oe_http::proofs::SessionFacts::fell_more, oe_http::proofs::SessionFacts::took_more))]
pub fn session<A: Replying, L: TwoWay>(alloc: Global, desk: &mut A, link: &mut L) -> Ended
    // The link then holds its old content and, by how the session ended, the responses to its requests.
    ensures ends { EndsSo A.step result desk.old desk.new (L.Source.left link.old)
        (L.Sink.held link.old) (L.Sink.held link.new) }
    // However it ends, the desk was asked the first requests of the link, in order, at most up to the first that asks to end the session.
    ensures carried { CarriesOut A.step desk.old desk.new (L.Source.left link.old) }
    // A fault is reported only where that end's count of faults rose, and a long input only at its limit.
    ensures causes { HasCauses result (L.Source.left link.old) (L.Source.left link.new)
        (L.Source.faults link.old) (L.Source.faults link.new) (L.Sink.faults link.old)
        (L.Sink.faults link.new) }
    // Where neither end failed, the session ended with its requests, at what it refuses, at the limit of the input, or out of memory.
    ensures complete { Completes result (L.Source.faults link.old) (L.Source.faults link.new)
        (L.Sink.faults link.old) (L.Sink.faults link.new) }
{
    let mut held = Held::new(alloc);
    let mut waiting = Vec::new(alloc);
    let mut text = String::new(alloc);
    'messages: loop {
        match receive(alloc, link, &mut held, &mut waiting) {
            Ok(came) => match respond(alloc, desk, link, &mut waiting, &mut text, came) {
                None => {}
                Some(ended) => return ended,
            },
            Err(_) => return Ended::WriteFault,
        }
    }
}
