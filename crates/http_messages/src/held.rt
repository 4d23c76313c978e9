//! The bytes of a stream that were read and not yet used.

ghost use Rattle.std.specs.Prelude.{◌≡◌, ◌≤◌, ◌<◌, ◌+◌, ◌-◌, List, ℕ, [], IfOk, IsErrOf, length, true, false, drop};
ghost use Rattle.std.specs.Io.KnownBytes.{Keeps, IsAtEnd, prepend_known};
ghost use Rattle.oe_http.specs.Causes.{Rose};
ghost use Rattle.oe_http.specs.Pending.{FellBy};
ghost use Rattle.oe_http.specs.declared.lines.TheConstants.{INPUT_LIMIT};
ghost use Rattle.http_messages.specs.Heads.{Decides};
ghost use Rattle.http_messages.specs.declared.held.TheConstants.{READ_SIZE};
ghost use Rattle.http_messages.specs.Heading.{HeadComes, UnlessFailed};

use crate::decision::{Decision, MOST_FIELDS, decide};
use httparse::spans::{HeaderSpan, RequestSpans};
use oe_http::{INPUT_LIMIT, Source};
use std::alloc::Global;

/// The greatest number of bytes in one read.
const READ_SIZE: usize = 4_096;

/// Why no more bytes can be read.
#[derive(Clone, Copy, Debug, PartialEq, Eq)]
pub(crate) enum ReadEnd {
    /// The source failed.
    Fault,
    /// [`INPUT_LIMIT`] bytes were read, and more are needed.
    Long,
    /// Memory was refused.
    NoMemory,
}

/// The next head of a stream.
#[derive(Clone, Copy, Debug, PartialEq, Eq)]
pub(crate) enum HeadEnd {
    /// A whole head is held.
    Whole(RequestSpans),
    /// The head has too many fields or bytes.
    TooLarge,
    /// The bytes are no head.
    Malformed,
    /// The input ended inside the head, or before it.
    End,
    /// No more bytes can be read.
    Failed(ReadEnd),
}

/// The bytes that were read from a source and not yet used, and the number of bytes read.
#[derive(Drop)]
pub struct Held {
    pub(crate) bytes: Vec<u8>,
    taken: u64,
    ghost most: { taken ≤ INPUT_LIMIT + READ_SIZE },
}

impl Held {
    /// Nothing was read yet.
    pub fn new(alloc: Global) -> Held
        ensures bytes { result.bytes.items ≡ [] }
        ensures taken { result.taken ≡ 0 }
    {
        Held {
            bytes: Vec::new(alloc),
            taken: 0,
        }
    }
}

/// Reads one more block. Returns whether any byte was read.
fn read_more<S: Source>(link: &mut S, held: &mut Held) -> Result<bool, ReadEnd>
    ensures kept { IfOk result (λ _. Keeps (prepend_known held.old.bytes.items (S.left link.old))
        (prepend_known held.new.bytes.items (S.left link.new))) }
    ensures balance { IfOk result (λ _. length held.new.bytes.items + held.old.taken
        ≡ length held.old.bytes.items + held.new.taken) }
    ensures end { IfOk result (λ came. came ≡ false → IsAtEnd (S.left link.new)) }
    ensures same { IfOk result (λ came. came ≡ false
        → held.new.bytes.items ≡ held.old.bytes.items) }
    ensures turns { IfOk result (λ came. came ≡ true → held.old.taken < held.new.taken) }
    ensures beside { S.beside link.new ≡ S.beside link.old }
    ensures later { S.faults link.old ≤ S.faults link.new }
    ensures more { held.old.taken ≤ held.new.taken }
    ensures took { FellBy (held.new.taken - held.old.taken) (S.left link.old) (S.left link.new) }
    ensures fault { IsErrOf result ReadEnd.Fault → Rose (S.faults link.old) (S.faults link.new) }
    ensures long { IsErrOf result ReadEnd.Long → INPUT_LIMIT ≤ held.new.taken }
{
    if held.taken >= INPUT_LIMIT {
        return Err(ReadEnd::Long);
    }
    let mut block = [0; READ_SIZE];
    match link.read(&mut block) {
        Ok(count) => {
            held.taken += count as u64;
            let (front, _) = block.split_at(count);
            match held.bytes.extend_from_slice(front) {
                Ok(()) => Ok(count > 0),
                Err(_) => Err(ReadEnd::NoMemory),
            }
        }
        Err(_) => Err(ReadEnd::Fault),
    }
}

/// The decision on the held bytes.
pub(crate) fn look(held: &mut Held, headers: &mut [HeaderSpan; MOST_FIELDS]) -> Decision
    ensures bytes { held.new.bytes.items ≡ held.old.bytes.items }
    ensures taken { held.new.taken ≡ held.old.taken }
    ensures decides { Decides held.new.bytes.items headers.new result }
{
    decide(&mut held.bytes, headers)
}

/// Reads until the next head is decided, however the reads split it.
#[tactic(auto, using(crate::proofs::HeldFacts::keeps_on, oe_http::proofs::LineFacts::fell_none, oe_http::proofs::LineFacts::fell_on))]
pub(crate) fn next_head<S: Source>(
    link: &mut S,
    held: &mut Held,
    headers: &mut [HeaderSpan; MOST_FIELDS],
) -> HeadEnd
    ensures kept { UnlessFailed result (Keeps
        (prepend_known held.old.bytes.items (S.left link.old))
        (prepend_known held.new.bytes.items (S.left link.new))) }
    ensures balance { UnlessFailed result (length held.new.bytes.items + held.old.taken
        ≡ length held.old.bytes.items + held.new.taken) }
    ensures decides { HeadComes (S.left link.new) held.new.bytes.items headers.new result }
    ensures beside { S.beside link.new ≡ S.beside link.old }
    ensures later { S.faults link.old ≤ S.faults link.new }
    ensures more { held.old.taken ≤ held.new.taken }
    ensures took { FellBy (held.new.taken - held.old.taken) (S.left link.old) (S.left link.new) }
    ensures fault { result ≡ HeadEnd.Failed ReadEnd.Fault
        → Rose (S.faults link.old) (S.faults link.new) }
    ensures long { result ≡ HeadEnd.Failed ReadEnd.Long → INPUT_LIMIT ≤ held.new.taken }
{
    loop {
        match look(held, headers) {
            Decision::Whole(spans) => return HeadEnd::Whole(spans),
            Decision::TooLarge => return HeadEnd::TooLarge,
            Decision::Malformed => return HeadEnd::Malformed,
            Decision::Wanting => match read_more(link, held) {
                Ok(true) => {}
                Ok(false) => return HeadEnd::End,
                Err(end) => return HeadEnd::Failed(end),
            },
        }
    }
}

/// Reads until this many bytes are held. Returns whether they are: if not, the input has ended.
#[tactic(auto, using(crate::proofs::HeldFacts::keeps_on, oe_http::proofs::LineFacts::fell_none, oe_http::proofs::LineFacts::fell_on))]
pub(crate) fn hold<S: Source>(link: &mut S, held: &mut Held, len: usize) -> Result<bool, ReadEnd>
    ensures kept { IfOk result (λ _. Keeps (prepend_known held.old.bytes.items (S.left link.old))
        (prepend_known held.new.bytes.items (S.left link.new))) }
    ensures whole { IfOk result (λ is_whole. is_whole ≡ true → len ≤ length held.new.bytes.items) }
    ensures balance { IfOk result (λ _. length held.new.bytes.items + held.old.taken
        ≡ length held.old.bytes.items + held.new.taken) }
    ensures end { IfOk result (λ is_whole. is_whole ≡ false → IsAtEnd (S.left link.new)) }
    ensures short { IfOk result (λ is_whole. is_whole ≡ false → length held.new.bytes.items < len) }
    ensures beside { S.beside link.new ≡ S.beside link.old }
    ensures later { S.faults link.old ≤ S.faults link.new }
    ensures more { held.old.taken ≤ held.new.taken }
    ensures took { FellBy (held.new.taken - held.old.taken) (S.left link.old) (S.left link.new) }
    ensures fault { IsErrOf result ReadEnd.Fault → Rose (S.faults link.old) (S.faults link.new) }
    ensures long { IsErrOf result ReadEnd.Long → INPUT_LIMIT ≤ held.new.taken }
{
    while held.bytes.len() < len {
        match read_more(link, held) {
            Ok(true) => {}
            Ok(false) => return Ok(false),
            Err(end) => return Err(end),
        }
    }
    Ok(true)
}

/// Drops the first bytes that are held.
pub(crate) fn drop_front(held: &mut Held, count: usize)
    requires { count ≤ length held.old.bytes.items }
    ensures bytes { held.new.bytes.items ≡ drop count held.old.bytes.items }
    ensures taken { held.new.taken ≡ held.old.taken }
{
    held.bytes.drain(..count);
}
