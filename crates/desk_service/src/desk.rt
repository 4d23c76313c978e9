//! The desk that answers the lines of a session.

ghost use Rattle.std.specs.Prelude.{◌≡◌, ◌<◌, ◌++◌, List, ℕ, length, OnOk, OnErr, string_bytes};
ghost use Rattle.grid_exact.specs.Texts.{Extends};
ghost use Rattle.desk_service.specs.Sittings.{Sitting};
ghost use Rattle.desk_service.specs.Replies.{Appends, Line};

use crate::fulfil::{ask, fulfil};
use crate::place::Place;
use desk_machine::Entry;
use grid_exact::{LINE_LIMIT, NoMemory};
use oe_findings::{Findings, Sky};
use oe_http::Answering;
use oe_wire::{ReadRefusal, RecordReader, Refusal, Reply, append_reply, question};
use publishing_clerk::{Front, Opening};
use std::alloc::Global;
use std::marker::Model;
use std::sync::Wait;
use tree_versions::Seat;

/// A desk over a seat, which shows published versions, and a front, which asks the clerk. Screenings, verdicts and `sync` are answered over
/// what the seat shows; a determination and a revision are made on it. All else is asked of the clerk. Contracts see what the
/// session sees.
pub struct SeatDesk<'r, F: Front<J>, J: Opening, R: Wait> {
    alloc: Global,
    place: Place<'r, F, J, R>,
    records: RecordReader,
    list: Findings,
}

// By hand, so that no crate above proves again how what it holds is dropped.
impl<'r, F: Front<J> + Drop, J: Opening, R: Wait> Drop for SeatDesk<'r, F, J, R> {
    fn drop(self) {
        let SeatDesk {
            alloc: _,
            place: _,
            records: _,
            list: _,
        } = self;
    }
}

impl<'r, F: Front<J>, J: Opening, R: Wait> Model for SeatDesk<'r, F, J, R> {
    ghost use Rattle.desk_service.specs.Sittings.{Sitting};

    ghost Value = { Sitting F.Keeper };

    ghost view = { λ d. d.place };
}

/// Appends the reply to a line; an empty line has none.
fn append_answer<F: Front<J>, J: Opening, R: Wait>(
    alloc: Global,
    place: &mut Place<'_, F, J, R>,
    records: &mut RecordReader,
    list: &mut Findings,
    line: &[u8],
    text: &mut String,
) -> Result<(), NoMemory>
    ensures ok { OnOk result (Appends F.Keeper.IsSteady F.Keeper.faults J.first J.base J.opening
        place.old line.now (string_bytes text.old) (string_bytes text.new) place.new) }
    ensures made { OnErr result ((reply : List ℕ) × Line F.Keeper.IsSteady F.Keeper.faults
        J.first J.base J.opening place.old line.now reply place.new) }
    ensures part { OnErr result (Extends (string_bytes text.old) (string_bytes text.new)) }
{
    if line.is_empty() {
        return Ok(());
    }
    if let Some(query) = question(line) {
        return ask(alloc, place, list, &query, text);
    }
    match records.record(line) {
        Ok(request) => fulfil(alloc, place, list, &request, text),
        Err(ReadRefusal::Malformed { field }) => {
            append_reply(text, &Reply::Refused(Refusal::Malformed { field }))
        }
        Err(ReadRefusal::NoMemory) => append_reply(text, &Reply::Refused(Refusal::NoMemory)),
    }
}

/// Appends the reply to a line that is too long.
fn append_too_long<F: Front<J>, J: Opening>(text: &mut String) -> Result<(), NoMemory>
    ensures ok { OnOk result ((reply : List ℕ)
        × ((s : Sitting F.Keeper) (line : List ℕ) → LINE_LIMIT < length line
        → Line F.Keeper.IsSteady F.Keeper.faults J.first J.base J.opening s line reply s)
        × (string_bytes text.new ≡ string_bytes text.old ++ reply)) }
    ensures made { OnErr result ((reply : List ℕ)
        × ((s : Sitting F.Keeper) (line : List ℕ) → LINE_LIMIT < length line
        → Line F.Keeper.IsSteady F.Keeper.faults J.first J.base J.opening s line reply s)) }
    ensures part { OnErr result (Extends (string_bytes text.old) (string_bytes text.new)) }
{
    append_reply(text, &Reply::Refused(Refusal::Malformed { field: 0 }))
}

impl<'r, F: Front<J>, J: Opening, R: Wait> SeatDesk<'r, F, J, R> {
    /// A desk over this seat and this front, which come from one opening. It allocates nothing.
    pub fn over(
        rt: &'r R,
        alloc: Global,
        seat: Seat<Entry, Sky, J>,
        front: F,
    ) -> SeatDesk<'r, F, J, R>
        ensures { result ≡ record {
          clerk = F.clerk front;
          front = seat.front;
          told = seat.told;
          faults = F.faults front;
        } }
    {
        SeatDesk {
            alloc,
            place: Place { rt, seat, front },
            records: RecordReader::new(alloc),
            list: Findings::new(alloc),
        }
    }

    /// Ends the desk and returns its front.
    pub fn into_front(self) -> F
        ensures clerk { F.clerk result ≡ self.entry.clerk }
        ensures faults { F.faults result ≡ self.entry.faults }
    {
        let SeatDesk {
            alloc: _,
            place,
            records: _,
            list: _,
        } = self;
        let Place {
            rt: _,
            seat: _,
            front,
        } = place;
        front
    }
}

impl<'r, F: Front<J>, J: Opening, R: Wait> Answering for SeatDesk<'r, F, J, R> {
    ghost use Rattle.desk_service.specs.Replies.{LineOver};

    ghost step = { LineOver F.Keeper.Tells F.Keeper.IsSteady F.Keeper.faults J.first J.base J.opening };

    fn answer(&mut self, line: &[u8], text: &mut String) -> Result<(), NoMemory> {
        let answered = append_answer(
            self.alloc,
            &mut self.place,
            &mut self.records,
            &mut self.list,
            line,
            text,
        );
        // what a told clerk's keeper tells are its rows
        self.place.stands();
        answered
    }

    fn answer_long(&mut self, text: &mut String) -> Result<(), NoMemory> {
        // what a told clerk's keeper tells are its rows
        self.place.stands();
        append_too_long::<F, J>(text)
    }
}
