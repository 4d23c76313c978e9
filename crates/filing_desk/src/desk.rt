//! The state of the desk.

ghost use Rattle.std.specs.Prelude.{◌≡◌, ◌≤◌, IfSome, length, option_copied, slice_get};
ghost use Rattle.case_acts.specs.Cases.{IsSound};
ghost use Rattle.determination_dates.specs.Days.{IsLimited};
ghost use Rattle.desk_machine.specs.declared.entry.TheConstants.{MOST_CASES};
ghost use Rattle.desk_machine.specs.States.{empty, case_at, entry_of};
ghost use Rattle.desk_machine.specs.Marks.{stands_in};
ghost use Rattle.filing_desk.specs.Desks.{AreSound};

use crate::view::status_on;
use case_acts::is_standing;
use case_records::KeptCase;
use desk_machine::Entry;
use desk_receipts::Receipts;
use determination_dates::ClosedDays;
use jiff::civil::Date;
use oe_findings::Sky;
use std::alloc::Global;
use std::marker::Model;
use wire_values::Word;

/// The airfields, the day, the closed days, the cases and the accepted requests.
#[derive(Drop)]
pub(crate) struct Desk {
    pub(crate) sky: Sky,
    pub(crate) today: Option<Date>,
    pub(crate) closed: ClosedDays,
    pub(crate) cases: Vec<KeptCase>,
    pub(crate) receipts: Receipts,
}

impl Model for Desk {
    ghost use Rattle.std.specs.Prelude.{IfSome, ◌≤◌, length};
    ghost use Rattle.determination_dates.specs.Days.{IsLimited};
    ghost use Rattle.desk_machine.specs.States.{State};
    ghost use Rattle.desk_machine.specs.declared.entry.TheConstants.{MOST_CASES};
    ghost use Rattle.filing_desk.specs.Desks.{AreSound};

    ghost Value = { State };

    ghost view = { λ d. record { register = d.sky; day = d.today; closed = d.closed; cases = d.cases.items; entries = d.receipts } };

    ghost invariant = { λ d. AreSound d.cases.items × IfSome d.today IsLimited × (length d.cases.items ≤ MOST_CASES) };
}

impl Desk {
    /// An empty desk. It allocates nothing.
    pub(crate) fn empty(alloc: Global) -> Desk
        ensures { result ≡ empty }
    {
        Desk {
            sky: Sky::empty(alloc),
            today: None,
            closed: ClosedDays::empty(alloc),
            cases: Vec::new(alloc),
            receipts: Receipts::empty(alloc),
        }
    }

    /// The case at this index.
    fn case_in(&self, place: usize) -> Option<&KeptCase>
        ensures { option_copied result ≡ slice_get self.now.cases place }
    {
        self.cases.get(place)
    }

    /// The number of cases.
    pub(crate) fn count(&self) -> usize
        ensures { result ≡ length self.now.cases }
    {
        self.cases.len()
    }

    /// Shows to a proof that the dates of the cases and their number are within their limits.
    pub(crate) fn soundness(&self)
        ensures cases { AreSound self.now.cases }
        ensures day { IfSome self.now.day IsLimited }
        ensures most { length self.now.cases ≤ MOST_CASES }
    {
        let _ = &self.cases;
    }

    /// The case of this number.
    #[tactic(auto, using(crate::proofs::Sound::sound_of, crate::proofs::Sound::numbered))]
    pub(crate) fn case(&self, number: u32) -> Option<&KeptCase>
        ensures value { option_copied result ≡ case_at self.now.cases number }
        ensures sound { IfSome result (λ c. IsSound c.now) }
    {
        self.soundness();
        if number == 0 {
            return None;
        }
        self.case_in(number as usize - 1)
    }

    /// The entry of this caller's key.
    pub(crate) fn entry(&self, caller: Word, key: Word) -> Option<&Entry>
        ensures { option_copied result ≡ entry_of caller key self.now.entries }
    {
        self.receipts.find(caller, key)
    }

    /// Whether the determination of the case of this number stands on the desk's day.
    pub(crate) fn stands(&self, number: u32) -> bool
        ensures { result ≡ stands_in self.now number }
    {
        match self.case(number) {
            Some(case) => is_standing(status_on(self.today, case)),
            None => false,
        }
    }

    /// The desk's day.
    pub(crate) fn day(&self) -> Option<Date>
        ensures value { result ≡ self.now.day }
        ensures limited { IfSome result IsLimited }
    {
        self.today
    }
}
