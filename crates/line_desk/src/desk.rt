//! The desk that answers the lines of a session.

ghost use Rattle.std.specs.Prelude.{◌≡◌, ◌≤◌, ◌<◌, ◌++◌, length, List, ℕ, OnOk, OnErr, string_bytes};
ghost use Rattle.grid_exact.specs.Texts.{Extends};
ghost use Rattle.desk_machine.specs.States.{empty};
ghost use Rattle.line_desk.specs.Desk.{Answers, Serving, Step, serving};

use crate::fulfil::{ask, fulfil};
use filing_desk::Clerk;
use grid_exact::{LINE_LIMIT, NoMemory};
use oe_findings::Findings;
use oe_http::Answering;
use oe_keeper::{Keeper, NoKeeper};
use oe_wire::{ReadRefusal, RecordReader, Refusal, Reply, append_reply, question};
use std::alloc::Global;
use std::marker::Model;

/// A desk, seen as all that it holds (the airfields, the day, the closed days, the cases and the accepted requests) and its keeper.
#[derive(Drop)]
pub struct LineDesk<K: Keeper> {
    alloc: Global,
    clerk: Clerk<K>,
    records: RecordReader,
    list: Findings,
}

impl<K: Keeper> Model for LineDesk<K> {
    ghost use Rattle.line_desk.specs.Desk.{Serving, serving};

    ghost Value = { Serving K };

    ghost view = { λ d. serving d.clerk };
}

/// Makes the change that a line asks for, if it asks for one, and appends the reply to the line; an empty line has none. `records` and `list`
/// are buffers that are reused.
///
/// # Errors
///
/// `NoMemory` where memory was refused for the text. The clerk is then as after a reply to the line, a part of which may have been appended.
pub fn append_answer<K: Keeper>(
    alloc: Global,
    clerk: &mut Clerk<K>,
    records: &mut RecordReader,
    list: &mut Findings,
    line: &[u8],
    text: &mut String,
) -> Result<(), NoMemory>
    ensures ok { OnOk result (Answers K.IsSteady K.faults (serving clerk.old) line.now
        (string_bytes text.old) (string_bytes text.new) (serving clerk.new)) }
    ensures made { OnErr result ((reply : List ℕ) × Step K.IsSteady K.faults
        (serving clerk.old) line.now reply (serving clerk.new)) }
    ensures part { OnErr result (Extends (string_bytes text.old) (string_bytes text.new)) }
{
    if line.is_empty() {
        return Ok(());
    }
    if let Some(query) = question(line) {
        return ask(alloc, clerk, list, &query, text);
    }
    match records.record(line) {
        Ok(request) => fulfil(alloc, clerk, list, &request, text),
        Err(ReadRefusal::Malformed { field }) => {
            append_reply(text, &Reply::Refused(Refusal::Malformed { field }))
        }
        Err(ReadRefusal::NoMemory) => append_reply(text, &Reply::Refused(Refusal::NoMemory)),
    }
}

/// Appends the reply to a line that is too long.
fn append_too_long<K: Keeper>(text: &mut String) -> Result<(), NoMemory>
    ensures ok { OnOk result ((reply : List ℕ)
        × ((s : Serving K) (line : List ℕ) → LINE_LIMIT < length line
        → Step K.IsSteady K.faults s line reply s)
        × (string_bytes text.new ≡ string_bytes text.old ++ reply)) }
    ensures made { OnErr result ((reply : List ℕ)
        × ((s : Serving K) (line : List ℕ) → LINE_LIMIT < length line
        → Step K.IsSteady K.faults s line reply s)) }
    ensures part { OnErr result (Extends (string_bytes text.old) (string_bytes text.new)) }
{
    append_reply(text, &Reply::Refused(Refusal::Malformed { field: 0 }))
}

impl<K: Keeper> LineDesk<K> {
    /// A desk over this clerk. It allocates nothing.
    pub fn over(alloc: Global, clerk: Clerk<K>) -> LineDesk<K>
        ensures { result ≡ serving clerk }
    {
        LineDesk {
            alloc,
            clerk,
            records: RecordReader::new(alloc),
            list: Findings::new(alloc),
        }
    }

    /// Ends the desk and returns its clerk.
    pub fn into_clerk(self) -> Clerk<K>
        ensures { serving result ≡ self }
    {
        self.clerk
    }
}

impl LineDesk<NoKeeper> {
    /// An empty desk that is not stored. It allocates nothing.
    pub fn new(alloc: Global) -> LineDesk<NoKeeper>
        ensures { result.state ≡ empty }
    {
        LineDesk::over(alloc, Clerk::unkept(alloc))
    }
}

impl<K: Keeper> Answering for LineDesk<K> {
    ghost use Rattle.line_desk.specs.Desk.{StepOver};

    ghost step = { StepOver K.Tells K.IsSteady K.faults };

    fn answer(&mut self, line: &[u8], text: &mut String) -> Result<(), NoMemory> {
        let answered = append_answer(
            self.alloc,
            &mut self.clerk,
            &mut self.records,
            &mut self.list,
            line,
            text,
        );
        // what the keeper tells are the rows of the clerk
        self.clerk.keeper();
        answered
    }

    fn answer_long(&mut self, text: &mut String) -> Result<(), NoMemory> {
        // what the keeper tells are the rows of the clerk
        self.clerk.keeper();
        append_too_long::<K>(text)
    }
}
