//! The loop of a session.

ghost use Rattle.std.specs.Prelude.{◌≡◌, ◌≢◌, ◌≤◌, ◌<◌, ◌⊎◌, [], true, List, ℕ, OnErr, OnOk, IfOk, length, take, string_bytes};
ghost use Rattle.oe_http.specs.Lines.{HasFeed};
ghost use Rattle.oe_http.specs.Causes.{Rose, HasCause};
ghost use Rattle.oe_http.specs.Written.{Sent};
ghost use Rattle.oe_http.specs.Pending.{unread_bytes, most_left, Reads};
ghost use Rattle.oe_http.specs.Session.{Answered, Begun, CarriesOut, Completes, HasCauses, IsOfLines, WritesWhole};
ghost use Rattle.oe_http.specs.Replies.{ending_of, Replies};

use crate::{Answering, Failed, LineReader, Next, ReadError, Sink, Source, write_whole};
use std::alloc::Global;

/// The size in bytes at which gathered replies are written, in a session over lines or over HTTP: 64 KiB.
pub const MOST_WAITING: usize = 65_536;

/// How a session ended, over lines or over HTTP.
#[derive(Clone, Copy, Debug, PartialEq, Eq)]
pub enum Ended {
    /// The input ended, and each line has its reply, or each request its response; or a request asked to end the session,
    /// and it and each before it has its response.
    Closed,
    /// The input ended inside a request. Not in a session over lines.
    Truncated,
    /// A request was refused with this status. Not in a session over lines.
    Refused(u16),
    /// The input failed.
    ReadFault,
    /// The output failed.
    WriteFault,
    /// [`INPUT_LIMIT`] bytes were read, and the input has more.
    Long,
    /// Memory ran out.
    NoMemory,
}

/// How an error of reading ends a session.
fn ended_by(error: ReadError) -> Ended
    ensures ended { result ≡ ending_of error }
    ensures lines { IsOfLines result }
{
    match error {
        ReadError::Failed => Ended::ReadFault,
        ReadError::InputLong => Ended::Long,
        ReadError::NoMemory => Ended::NoMemory,
    }
}

/// Reads a line and appends its reply to the waiting ones. Returns whether there was a line. The input is read only
/// where no reply waits.
#[tactic(auto, using(crate::proofs::WaitingFacts::replies_whole, crate::proofs::WaitingFacts::replies_long, crate::proofs::WaitingFacts::goes_long))]
fn next_reply<A: Answering, S: Source>(
    reader: &mut LineReader,
    desk: &mut A,
    line: &mut Vec<u8>,
    waiting: &mut String,
    input: &mut S,
) -> Result<bool, ReadError>
    requires sent { HasFeed reader.old.bytes ⊎ (string_bytes waiting.old ≡ []) }
    ensures replies { Replies A.step desk.old desk.new (unread_bytes reader.old (S.left input.old))
        (unread_bytes reader.new (S.left input.new)) (S.left input.new) (string_bytes waiting.old)
        (string_bytes waiting.new) result }
    ensures still { HasFeed reader.old.bytes → input.new ≡ input.old }
    ensures falls { IfOk result (λ found. found ≡ true
        → most_left reader.new < most_left reader.old) }
    ensures reads { Reads reader.old reader.new (S.left input.old) (S.left input.new)
        (S.faults input.old) (S.faults input.new) result }
{
    match reader.next_line(input, line)? {
        Next::End => Ok(false),
        Next::Whole => {
            desk.answer(line.as_slice(), waiting)?;
            Ok(true)
        }
        Next::TooLong => {
            desk.answer_long(waiting)?;
            Ok(true)
        }
    }
}

/// Writes the waiting replies where they are many, or where no whole line is pending: so each reply is written before a read.
#[tactic(auto, using(crate::proofs::SentFacts::sent_start))]
fn send_due<O: Sink>(
    reader: &LineReader,
    waiting: &mut String,
    output: &mut O,
) -> Result<(), Failed>
    ensures due { OnOk result (HasFeed reader.now.bytes ⊎ (string_bytes waiting.new ≡ [])) }
    ensures ok { OnOk result (Sent (O.held output.old) (O.held output.new)
        (string_bytes waiting.old) (string_bytes waiting.new)) }
    ensures err { OnErr result ((rest : List ℕ)
        × Sent (O.held output.old) (O.held output.new) (string_bytes waiting.old) rest) }
    ensures cause { HasCause (O.faults output.old) (O.faults output.new) result }
{
    if waiting.len() < MOST_WAITING && reader.has_line() {
        return Ok(());
    }
    write_whole(output, waiting.as_bytes())?;
    waiting.clear();
    Ok(())
}

/// Writes the first `whole` of the waiting bytes, which are whole replies, and then ends the session.
fn end<O: Sink>(ended: Ended, waiting: &[u8], whole: usize, output: &mut O) -> Ended
    requires { whole ≤ length waiting.now }
    ensures all { result ≢ Ended.WriteFault → Sent (O.held output.old) (O.held output.new)
        (take whole waiting.now) [] }
    ensures sent { (rest : List ℕ) × Sent (O.held output.old) (O.held output.new)
        (take whole waiting.now) rest }
    ensures write { result ≡ Ended.WriteFault → ended ≢ Ended.WriteFault
        → Rose (O.faults output.old) (O.faults output.new) }
    ensures later { O.faults output.old ≤ O.faults output.new }
    ensures other { (result ≡ ended) ⊎ (result ≡ Ended.WriteFault) }
    ensures lines { IsOfLines ended → IsOfLines result }
{
    match write_whole(output, &waiting[..whole]) {
        Ok(()) => ended,
        Err(_) => Ended::WriteFault,
    }
}

/// Replies to each line of the input, in order. Replies are gathered, and written before each read.
#[tactic(auto, using(crate::proofs::WaitingFacts::session_facts))]
pub fn records<A: Answering, S: Source, O: Sink>(
    alloc: Global,
    desk: &mut A,
    input: &mut S,
    output: &mut O,
) -> Ended
    // At `Closed` the output is its old content and the reply to each line of the input, in order.
    ensures closed { result ≡ Ended.Closed → Answered A.step desk.old desk.new (S.left input.old)
        (O.held output.old) (O.held output.new) }
    // However it ends, the output is its old content and a beginning of these replies.
    ensures begun { Begun A.step desk.old (S.left input.old) (O.held output.old)
        (O.held output.new) }
    ensures written { WritesWhole A.step desk.old desk.new result (S.left input.old)
        (S.left input.new) (O.held output.old) (O.held output.new) }
    // However it ends, the desk was asked the first lines of the input, in order, and no other.
    ensures carried { CarriesOut A.step desk.old desk.new (S.left input.old) (O.held output.old)
        (O.held output.new) }
    // It ends in one of the ways of a session over lines.
    ensures lines { IsOfLines result }
    ensures causes { HasCauses result (S.left input.old) (S.left input.new) (S.faults input.old)
        (S.faults input.new) (O.faults output.old) (O.faults output.new) }
    // Where neither stream failed, the input was read to its end or up to its limit, or memory ran out.
    ensures complete { Completes result (S.faults input.old) (S.faults input.new)
        (O.faults output.old) (O.faults output.new) }
{
    let mut reader = LineReader::new();
    let mut line = Vec::new(alloc);
    let mut waiting = String::new(alloc);
    'lines: loop {
        match send_due(&reader, &mut waiting, output) {
            Err(_) => return Ended::WriteFault,
            Ok(()) => {}
        }
        let whole = waiting.len();
        match next_reply(&mut reader, desk, &mut line, &mut waiting, input) {
            Ok(true) => {}
            Ok(false) => return end(Ended::Closed, waiting.as_bytes(), whole, output),
            // A reply that failed may be there in part: only those before it are written.
            Err(error) => return end(ended_by(error), waiting.as_bytes(), whole, output),
        }
    }
}
