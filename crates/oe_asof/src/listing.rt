//! The replies to lines that ask for a list.

ghost use Rattle.std.specs.Prelude.{◌≡◌, ◌≤◌, ◌<◌, length, OnOk, OnErr, string_bytes};
ghost use Rattle.grid_exact.specs.Texts.{Extends};
ghost use Rattle.oe_asof.specs.Versions.{IsDated};
ghost use Rattle.oe_asof.specs.Histories.{Appended, IsListed, IsToldBy};

use crate::answer::Dated;
use crate::history::History;
use crate::lookup::dated;
use crate::question::{AsOf, read_as_of};
use crate::told::{append_as_of, append_not_kept, append_refused};
use csv::ByteRecord;
use grid_exact::{LINE_LIMIT, NoMemory, Steps};
use std::alloc::Global;
use std::marker::Brand;
use std::sync::ledger::{Blank, Ledger};
use wire_requests::ReadRefusal;

/// The list that a line asks for; the steps are counted in the ledger that `blank` opens.
fn counted_list<L: Ledger>(alloc: Global, history: &History, question: &AsOf, blank: Blank) -> Dated
    requires name { blank.name ≡ L.name }
    requires parts { blank.parts ≡ L.parts }
    requires some { 0 < L.parts }
    requires versions { 0 < length history.now.versions }
    ensures { IsDated history.now.versions question.now.number question.now.filing result }
{
    dated(
        alloc,
        history,
        question.number,
        &question.filing,
        &mut Steps::<L>::new(blank),
    )
}

/// Appends the list that a line asks for, or why there is none.
fn append_list_of(
    alloc: Global,
    history: &History,
    question: &AsOf,
    text: &mut String,
) -> Result<(), NoMemory>
    requires some { 0 < length history.now.versions }
    ensures ok { OnOk result (IsListed history.now.versions question.now.number
        question.now.filing (string_bytes text.old) (string_bytes text.new)) }
    ensures part { OnErr result (Extends (string_bytes text.old) (string_bytes text.new)) }
{
    match counted_list::<Brand>(alloc, history, question, Blank::new(1)) {
        Dated::Found(list) => append_as_of(text, question.number, list.as_slice()),
        Dated::NotKept { first, last } => append_not_kept(text, first, last),
        Dated::NoMemory => append_refused(text, ReadRefusal::NoMemory),
    }
}

/// Appends the reply to a line that asks for a list, well or not.
pub(crate) fn append_told(
    alloc: Global,
    history: &History,
    row: &mut ByteRecord,
    line: &[u8],
    text: &mut String,
) -> Result<(), NoMemory>
    requires short { length line.now ≤ LINE_LIMIT }
    requires some { 0 < length history.now.versions }
    ensures ok { OnOk result (Appended (IsToldBy history.now.versions line.now)
        (string_bytes text.old) (string_bytes text.new)) }
    ensures part { OnErr result (Extends (string_bytes text.old) (string_bytes text.new)) }
{
    match read_as_of(alloc, line, row) {
        Ok(question) => append_list_of(alloc, history, &question, text),
        Err(refusal) => append_refused(text, refusal),
    }
}
