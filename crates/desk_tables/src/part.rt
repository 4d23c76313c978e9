//! The data read from the rows so far.

ghost use Rattle.std.specs.Prelude.{◌≡◌, ◌≢◌, ◌<◌, ◌-◌, ◌↔◌, ◌++◌, ◌∷◌, [], IfOk, IfErr, IsTrue, None, OnOk, Some, replicate, slice_get, slice_set};
ghost use Rattle.airport_register.specs.Amendments.{after_amendment, first_broken};
ghost use Rattle.case_acts.specs.Cases.{IsSound};
ghost use Rattle.row_register.specs.Desk.{IsValidDesk};
ghost use Rattle.desk_machine.specs.Machine.{version_of as version};
ghost use Rattle.desk_tables.specs.Parts.{Follows, IsListKnown, IsNewRequest, IsNext, IsNextCase, IsNextDay, IsSoundValue, entry_of_row, put_of as put, unread_part, with_desk_row, with_row};

use crate::layout::Layout;
use crate::unread::Untaken;
use crate::value::RowValue;
use airfields::Airfield;
use airport_register::{AmendRefusal, Amendment, Register};
use case_records::{KeptCase, KeptList, Outcome};
use desk_machine::{Entry, MOST_CASES};
use determination_dates::ClosedDays;
use grid_exact::NoMemory;
use jiff::civil::Date;
use row_cases::FilingRow;
use row_receipts::ReceiptRow;
use row_register::{DeskRow, RunwayRow};
use std::alloc::Global;
use std::marker::Model;

/// The airfields, the day, the closed days, the cases, and the accepted requests, each at the index of its number.
#[derive(Drop)]
pub(crate) struct Part {
    pub(crate) register: Register,
    has_format: bool,
    pub(crate) day: Option<Date>,
    pub(crate) closed: ClosedDays,
    pub(crate) cases: Vec<KeptCase>,
    pub(crate) requests: Vec<Option<Entry>>,
}

impl Model for Part {
    ghost use Rattle.std.specs.Prelude.{◌≤◌, ◌≡◌, ℕ, IfSome, length, slice_get, None, []};
    ghost use Rattle.case_acts.specs.Cases.{IsSound};
    ghost use Rattle.determination_dates.specs.Days.{IsLimited};
    ghost use Rattle.desk_machine.specs.declared.entry.TheConstants.{MOST_CASES};
    ghost use Rattle.desk_tables.specs.Parts.{Part as Seen};

    ghost Value = { Seen };

    ghost view = { λ p. record { register = p.register; has_format = p.has_format; day = p.day; closed = p.closed; cases = p.cases.items; requests = p.requests.items } };

    ghost invariant = { λ p. ((i : ℕ) → IfSome (slice_get p.cases.items i) IsSound) × IfSome p.day IsLimited × (length p.cases.items ≤ MOST_CASES) × (p.day ≡ None → p.cases.items ≡ []) };
}

/// The amendment that adds an airfield. An airport's runways have rows of their own.
fn put_of(field: &Airfield) -> Amendment
    ensures { result ≡ put field.now }
{
    match field {
        Airfield::Airport(airport) => Amendment::PutAirport {
            id: airport.id,
            category: airport.category,
            arp: airport.arp,
            elevation: airport.elevation,
        },
        Airfield::Heliport(heliport) => Amendment::PutHeliport(*heliport),
    }
}

/// The number of the last change that was accepted before the outcome's list was computed; 0 where it has none.
fn version_of(outcome: &Outcome) -> u64
    ensures { result ≡ version outcome.now }
{
    match outcome {
        Outcome::Determined { last, .. } => *last,
        Outcome::Revised { last, .. } => *last,
        _ => 0,
    }
}

/// An empty slot for each request.
fn no_requests(alloc: Global, count: usize) -> Result<Vec<Option<Entry>>, NoMemory>
    ensures { IfOk result (λ l. l.items ≡ replicate count None) }
{
    let mut requests = Vec::new(alloc);
    for made in 0..count {
        requests.push(None)?;
    }
    Ok(requests)
}

impl Part {
    /// Nothing read yet, of tables with this number of requests.
    pub(crate) fn unread(alloc: Global, requests: usize) -> Result<Part, NoMemory>
        ensures { IfOk result (λ p. p ≡ unread_part requests) }
    {
        Ok(Part {
            register: Register::empty(alloc),
            has_format: false,
            day: None,
            closed: ClosedDays::empty(alloc),
            cases: Vec::new(alloc),
            requests: no_requests(alloc, requests)?,
        })
    }

    fn amend(&mut self, alloc: Global, a: &Amendment) -> Result<(), Untaken>
        ensures ok { OnOk result ((first_broken self.old.register a.now ≡ None)
            × (self.new ≡ record self.old { register = after_amendment self.old.register a.now })) }
        ensures bad { IfErr result (λ why. why ≡ Untaken.Bad
            → first_broken self.old.register a.now ≢ None) }
    {
        match self.register.amend(alloc, a) {
            Ok(_) => {}
            Err(AmendRefusal::NoMemory) => return Err(Untaken::NoMemory),
            Err(_) => return Err(Untaken::Bad),
        }
        Ok(())
    }

    fn take_desk_row(&mut self, is_lone: bool, row: DeskRow) -> Result<(), Untaken>
        requires { IsValidDesk row }
        ensures ok { OnOk result (IsNextDay is_lone row × (self.new ≡ with_desk_row row self.old)) }
        ensures bad { IfErr result (λ why. why ≡ Untaken.Bad → IsNextDay is_lone row → ⊥) }
    {
        match row {
            DeskRow::Format => {
                if is_lone {
                    return Err(Untaken::Bad);
                }
                self.has_format = true;
            }
            DeskRow::Now(date) => self.day = Some(date),
            DeskRow::Closed(date) => self.closed.with(date)?,
        }
        Ok(())
    }

    /// Whether the version of a list is the number of an entry that exists.
    fn knows(&self, list: &Option<KeptList>) -> bool
        ensures { IsTrue result ↔ IsListKnown list.now self.now.requests }
    {
        match list {
            Some(kept) => kept.last <= self.requests.len() as u64,
            None => true,
        }
    }

    #[tactic(auto, using(crate::proofs::SoundFacts::sound_more))]
    fn take_case(&mut self, row: FilingRow) -> Result<(), Untaken>
        requires { IsSound row.case }
        ensures ok { OnOk result (IsNextCase self.old row
            × (self.new ≡ record self.old { cases = self.old.cases ++ row.case ∷ [] })) }
        ensures bad { IfErr result (λ why. why ≡ Untaken.Bad → IsNextCase self.old row → ⊥) }
    {
        let count = self.cases.len();
        if self.day.is_none() || count >= MOST_CASES {
            return Err(Untaken::Bad);
        }
        if row.number as usize != count + 1 || !self.knows(&row.case.list) {
            return Err(Untaken::Bad);
        }
        match self.cases.reserve(1) {
            Ok(()) => {}
            Err(_) => return Err(Untaken::NoMemory),
        }
        self.cases.push_reserved(row.case);
        Ok(())
    }

    /// Whether the number has a slot and the slot is free.
    fn is_free(&self, number: u64) -> bool
        ensures { IsTrue result ↔ ((0 < number)
            × (slice_get self.now.requests (number - 1) ≡ Some None)) }
    {
        if number == 0 {
            return false;
        }
        match self.requests.get((number - 1) as usize) {
            Some(None) => true,
            _ => false,
        }
    }

    fn take_request(&mut self, row: ReceiptRow) -> Result<(), Untaken>
        ensures ok { OnOk result (IsNewRequest self.old row
            × (self.new ≡ record self.old {
              requests = slice_set self.old.requests (row.number - 1)
                  (Some (entry_of_row row));
            })) }
        ensures bad { IfErr result (λ why. why ≡ Untaken.Bad → IsNewRequest self.old row → ⊥) }
    {
        if !self.is_free(row.number) || version_of(&row.outcome) > self.requests.len() as u64 {
            return Err(Untaken::Bad);
        }
        let place = (row.number - 1) as usize;
        self.requests[place] = Some(Entry {
            number: row.number,
            change: row.change,
            outcome: row.outcome,
        });
        Ok(())
    }

    /// Adds the data of the next row; `is_lone` says that the tables have no other row.
    ///
    /// # Errors
    ///
    /// `Bad` exactly where it may not come after the rows before it, `NoMemory` where memory ran out.
    fn follow(&mut self, alloc: Global, is_lone: bool, value: RowValue) -> Result<(), Untaken>
        requires { IsSoundValue value }
        ensures ok { OnOk result (Follows is_lone self.old value
            × (self.new ≡ with_row value self.old)) }
        ensures bad { IfErr result (λ why. why ≡ Untaken.Bad → Follows is_lone self.old value → ⊥) }
    {
        match value {
            RowValue::Airfield(field) => self.amend(alloc, &put_of(&field)),
            RowValue::Runway(row) => self.amend(
                alloc,
                &Amendment::PutRunway {
                    id: row.id,
                    runway: row.runway,
                },
            ),
            RowValue::Desk(row) => self.take_desk_row(is_lone, row),
            RowValue::Case(row) => self.take_case(row),
            RowValue::Request(row) => self.take_request(row),
        }
    }

    /// Adds the data of the next row of tables of this layout.
    ///
    /// # Errors
    ///
    /// `Bad` exactly where it may not come next in such tables, `NoMemory` where memory ran out.
    #[tactic(auto, using(crate::proofs::FormatFacts::taken_ok, crate::proofs::FormatFacts::not_allowed))]
    pub(crate) fn take(
        &mut self,
        alloc: Global,
        layout: Layout,
        value: RowValue,
    ) -> Result<(), Untaken>
        requires { IsSoundValue value }
        ensures ok { OnOk result (IsNext layout self.old value
            × (self.new ≡ with_row value self.old)) }
        ensures bad { IfErr result (λ why. why ≡ Untaken.Bad → IsNext layout self.old value → ⊥) }
    {
        if !layout.allows(&value) {
            return Err(Untaken::Bad);
        }
        self.follow(alloc, layout.is_lone, value)
    }
}
