//! The desk that answers the lines of a session, and keeps what the airfields were.

ghost use Rattle.std.specs.Prelude.{◌≡◌, ◌≤◌, ◌<◌, ◌++◌, true, List, ℕ, length, IfOk, IfSome, OnOk, OnErr, string_bytes};
ghost use Rattle.grid_exact.specs.Texts.{Extends};
ghost use Rattle.desk_machine.specs.States.{last_number};
ghost use Rattle.line_desk.specs.Desk.{Answers, Serving, Step, serving};
ghost use Rattle.oe_asof.specs.Versions.{latest, version, with_version};
ghost use Rattle.oe_asof.specs.Histories.{HasAll, IsCurrent, base_in, opening_in};
ghost use Rattle.oe_asof.specs.Sessions.{DatedOver, opened_over};

use crate::history::History;
use crate::listing::append_told;
use crate::question::asks_as_of;
use crate::told::append_refused;
use csv::ByteRecord;
use filing_desk::Clerk;
use grid_exact::{LINE_LIMIT, NoMemory};
use line_desk::append_answer;
use oe_findings::Findings;
use oe_http::Answering;
use oe_keeper::Keeper;
use std::alloc::Global;
use std::marker::Model;
use std::sync::Arc;
use wire_requests::{ReadRefusal, RecordReader};

/// A desk with the versions of the airfields since it opened; seen as all that it holds, its keeper, and its opening.
#[derive(Drop)]
pub struct DatedDesk<K: Keeper> {
    alloc: Global,
    clerk: Clerk<K>,
    history: History,
    /// Whether the history has each version. Where memory was wanting for one, the desk answers no more.
    whole: bool,
    records: RecordReader,
    list: Findings,
    row: ByteRecord,
}

impl<K: Keeper> Model for DatedDesk<K> {
    ghost use Rattle.std.specs.Prelude.{◌≡◌, true};
    ghost use Rattle.line_desk.specs.Desk.{Serving, serving};
    ghost use Rattle.oe_asof.specs.Histories.{HasAll, base_in, opening_in};
    ghost use Rattle.oe_asof.specs.Sessions.{Dating};

    ghost Value = { Dating (Serving K) };

    ghost view = { λ d. record {
      serving = serving d.clerk;
      base = base_in d.history.versions;
      opening = opening_in d.history.versions;
    } };

    ghost invariant = { λ d. d.whole ≡ true → HasAll d.history.versions d.clerk.state };
}

/// Keeps the present airfields under the number of the last entry, unless they are kept.
fn keep_version<K: Keeper>(
    alloc: Global,
    clerk: &Clerk<K>,
    history: &mut History,
) -> Result<(), NoMemory>
    requires room { 1 ≤ history.old.spare }
    requires order { IfSome (latest history.old.versions)
        (λ v. v.number ≤ last_number clerk.now.state) }
    ensures kept { OnOk result (history.new.versions ≡ with_version history.old.versions
        (version (last_number clerk.now.state) clerk.now.state.register)) }
    ensures same { OnErr result (history.new.versions ≡ history.old.versions) }
{
    let number = clerk.accepted();
    if history.last() == Some(number) {
        return Ok(());
    }
    let sky = Arc::new(alloc, clerk.sky().share(alloc)?)?;
    history.keep(number, sky);
    Ok(())
}

/// A history that begins with the present airfields.
pub(crate) fn history_from<K: Keeper>(alloc: Global, clerk: &Clerk<K>) -> Result<History, NoMemory>
    ensures { IfOk result (λ h. IsCurrent (last_number clerk.now.state) clerk.now.state.register
        clerk.now.state h.versions) }
{
    let mut history = History::new(alloc);
    history.reserve()?;
    keep_version(alloc, clerk, &mut history)?;
    Ok(history)
}

/// Appends the reply to a line that asks for no earlier list, and keeps the version that it leads to.
fn serve<K: Keeper>(
    alloc: Global,
    clerk: &mut Clerk<K>,
    history: &mut History,
    records: &mut RecordReader,
    list: &mut Findings,
    line: &[u8],
    text: &mut String,
) -> Result<(), NoMemory>
    requires all { HasAll history.old.versions clerk.old.state }
    ensures ok { OnOk result (Answers K.IsSteady K.faults (serving clerk.old) line.now
        (string_bytes text.old) (string_bytes text.new) (serving clerk.new)) }
    ensures all { OnOk result (IsCurrent (base_in history.old.versions)
        (opening_in history.old.versions) clerk.new.state history.new.versions) }
    ensures made { OnErr result ((reply : List ℕ) × Step K.IsSteady K.faults (serving clerk.old)
        line.now reply (serving clerk.new)) }
    ensures same { OnErr result (history.new.versions ≡ history.old.versions) }
    ensures part { OnErr result (Extends (string_bytes text.old) (string_bytes text.new)) }
{
    if line.is_empty() {
        return Ok(());
    }
    match history.reserve() {
        Ok(()) => {}
        Err(_) => return append_refused(text, ReadRefusal::NoMemory),
    }
    append_answer(alloc, clerk, records, list, line, text)?;
    keep_version(alloc, clerk, history)
}

impl<K: Keeper> DatedDesk<K> {
    /// A desk over this clerk, with a history that begins with its airfields. It allocates
    /// nothing.
    pub fn over(alloc: Global, clerk: Clerk<K>, history: History) -> DatedDesk<K>
        requires begins { IsCurrent (last_number clerk.state) clerk.state.register
            clerk.state history.versions }
        ensures { result ≡ opened_over (serving clerk) }
    {
        DatedDesk {
            alloc,
            clerk,
            history,
            whole: true,
            records: RecordReader::new(alloc),
            list: Findings::new(alloc),
            row: ByteRecord::new(alloc),
        }
    }
}

impl<K: Keeper> Answering for DatedDesk<K> {
    ghost use Rattle.oe_asof.specs.Sessions.{DatedOver};

    ghost step = { DatedOver K.Tells K.IsSteady K.faults };

    fn answer(&mut self, line: &[u8], text: &mut String) -> Result<(), NoMemory> {
        if !self.whole {
            // what the keeper tells are the rows of the clerk
            self.clerk.keeper();
            return Err(NoMemory);
        }
        if asks_as_of(line) {
            return append_told(self.alloc, &self.history, &mut self.row, line, text);
        }
        self.whole = false;
        let served = serve(
            self.alloc,
            &mut self.clerk,
            &mut self.history,
            &mut self.records,
            &mut self.list,
            line,
            text,
        );
        // what the keeper tells are the rows of the clerk
        self.clerk.keeper();
        served?;
        self.whole = true;
        Ok(())
    }

    fn answer_long(&mut self, text: &mut String) -> Result<(), NoMemory> {
        // what the keeper tells are the rows of the clerk
        self.clerk.keeper();
        append_refused(text, ReadRefusal::Malformed { field: 0 })
    }
}
