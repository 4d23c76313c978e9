//! Determinations: issuing one (77.31), affirming it after a petition (77.37), extending it and revising it (77.35).

ghost use Rattle.std.specs.Prelude.{◌≡◌, ◌<◌, ◌≤◌, IsSome, IfOk, OnOk, OnErr, List, true, false, Some, None, MatchResult};
ghost use Rattle.jiff_core.specs.Date.{epoch_day};
ghost use Rattle.jiff_core.specs.declared.civil.date.Date.{Date as Plain};
ghost use Rattle.determination_dates.specs.declared.determination.Record.{Record as Seen};
ghost use Rattle.determination_dates.specs.Days.{IsLimited};
ghost use Rattle.determination_dates.specs.Effects.{expiry_day, IsKept, IsInRange, IsWithinRange};
ghost use Rattle.determination_dates.specs.Computed.{Computes, issued_record, affirmed_record, extended_record, revised_record};
ghost use Rattle.determination_dates.specs.Determinations.{ordinary_day, fresh_record, IsIssued, record_affirmed_on, record_extended_to, record_revised_as, IsExtension};

use crate::closed::ClosedDays;
use crate::days::{days_later, months_later, number};
use crate::deadline::petition_deadline;
use crate::effects::{expiry, is_in_range};
use crate::limit::{DateRange, within};
use jiff::civil::Date;

/// Days after issuance on which a determination that may be petitioned becomes effective, where no petition was made (77.33(a)).
pub const EFFECTIVE_DAYS: i32 = 40;

/// Most months of one extension (77.35(b), (c)).
pub const EXTENSION_MONTHS: u8 = 18;

/// Greatest count of extensions that is stored; the count stays there.
pub const MOST_EXTENSIONS: u32 = 255;

/// Most revisions of one determination on new facts.
pub const MOST_REVISIONS: u32 = 255;

/// Whether a structure would be a hazard to air navigation (77.31).
#[derive(Clone, Copy, Debug, PartialEq, Eq)]
pub enum Decision {
    NoHazard,
    Hazard,
}

/// A determination and the later acts on it.
#[derive(Clone, Copy, Debug, PartialEq, Eq)]
pub struct Record {
    /// The day on which it was issued.
    pub issued: Date,
    pub decision: Decision,
    /// The last day for a petition; `None` exactly where the determination cannot be petitioned (77.37(b)).
    pub deadline: Option<Date>,
    /// The day on which it becomes effective where no petition is made.
    pub ordinary: Date,
    /// Whether a petition is pending.
    pub pending: bool,
    /// The day on which it was affirmed after a petition, if it was.
    pub affirmed: Option<Date>,
    /// The expiry set by an extension or by an FCC act, if any.
    pub set_expiry: Option<Date>,
    /// The number of extensions granted, counted up to `MOST_EXTENSIONS`.
    pub extensions: u32,
    /// The number of revisions on new facts, at most `MOST_REVISIONS`.
    pub revisions: u32,
}

/// The ordinary effective day of a determination that may be petitioned up to a deadline: 40 days after issuance (77.33(a)), or
/// the day after the deadline where closed days have moved the deadline to the fortieth day or past it.
fn ordinary_day(issued: Date, deadline: Date) -> Date
    requires issued { IsLimited issued }
    requires deadline { IsLimited deadline }
    ensures { epoch_day result ≡ ordinary_day (epoch_day issued) (Some (epoch_day deadline)) }
{
    let fortieth = days_later(issued, EFFECTIVE_DAYS);
    if number(deadline) < number(fortieth) {
        return fortieth;
    }
    days_later(deadline, 1)
}

impl Record {
    /// The record of a new determination.
    fn fresh(issued: Date, decision: Decision, deadline: Option<Date>, ordinary: Date) -> Record
        ensures { result ≡ fresh_record issued decision deadline ordinary }
    {
        Record {
            issued,
            decision,
            deadline,
            ordinary,
            pending: false,
            affirmed: None,
            set_expiry: None,
            extensions: 0,
            revisions: 0,
        }
    }

    /// The record of a new determination that may be petitioned.
    fn issue_reviewable(
        issued: Date,
        decision: Decision,
        closed: &ClosedDays,
    ) -> Result<Record, DateRange>
        requires { IsLimited issued }
        ensures made { IfOk result (IsIssued issued decision true closed.now) }
        ensures range { IfOk result IsWithinRange }
        ensures beyond { OnErr result ((r : Seen) → IsIssued issued decision true closed.now r →
            ¬ IsWithinRange r) }
    {
        let Ok(deadline) = petition_deadline(issued, closed) else {
            return Err(DateRange);
        };
        let Ok(ordinary) = within(ordinary_day(issued, deadline)) else {
            return Err(DateRange);
        };
        let record = Record::fresh(issued, decision, Some(deadline), ordinary);
        if is_in_range(&record) {
            Ok(record)
        } else {
            Err(DateRange)
        }
    }

    /// The record of a new determination that cannot be petitioned (77.37(b)): it is effective on the day of issuance (77.33(a)).
    fn issue_final(issued: Date, decision: Decision) -> Result<Record, DateRange>
        requires { IsLimited issued }
        ensures made { IfOk result (λ r. (closed : List Plain) →
            IsIssued issued decision false closed r) }
        ensures range { IfOk result IsWithinRange }
        ensures beyond { OnErr result ((closed : List Plain) (r : Seen) →
            IsIssued issued decision false closed r → ¬ IsWithinRange r) }
    {
        let record = Record::fresh(issued, decision, None, issued);
        if is_in_range(&record) {
            Ok(record)
        } else {
            Err(DateRange)
        }
    }

    /// The record of a determination issued on a day; it may be petitioned exactly where `reviewable`. The closed days are those known at
    /// issuance.
    ///
    /// # Errors
    ///
    /// `DateRange` exactly where its deadline, its ordinary or effective day or its expiry is outside the limit.
    pub fn issue(
        issued: Date,
        decision: Decision,
        reviewable: bool,
        closed: &ClosedDays,
    ) -> Result<Record, DateRange>
        requires { IsLimited issued }
        ensures made { IfOk result (IsIssued issued decision reviewable closed.now) }
        ensures range { IfOk result IsWithinRange }
        ensures beyond { OnErr result ((r : Seen) →
            IsIssued issued decision reviewable closed.now r → ¬ IsWithinRange r) }
        ensures computed { Computes result (issued_record issued decision reviewable closed.now) }
    {
        if reviewable {
            Record::issue_reviewable(issued, decision, closed)
        } else {
            Record::issue_final(issued, decision)
        }
    }

    /// Ends a petition: the determination is affirmed on that day (77.37).
    ///
    /// # Errors
    ///
    /// `DateRange` exactly where the resulting effective day or expiry is outside the limit; the record is then unchanged.
    #[tactic(auto, using(crate::proofs::ComputedFacts::affirmed_made, crate::proofs::ComputedFacts::affirmed_none))]
    pub fn affirm(&mut self, day: Date) -> Result<(), DateRange>
        requires kept { IsKept self.old }
        requires day { IsLimited day }
        ensures affirmed { OnOk result (self.new ≡ record_affirmed_on day self.old) }
        ensures range { OnOk result (IsWithinRange self.new) }
        ensures same { OnErr result (self.new ≡ self.old) }
        ensures beyond { OnErr result (¬ IsInRange (record_affirmed_on day self.old)) }
        ensures computed { MatchResult result (λ _. affirmed_record day self.old ≡ Some self.new)
            (λ _. affirmed_record day self.old ≡ None) }
    {
        let affirmed = Record {
            pending: false,
            affirmed: Some(day),
            ..*self
        };
        if !is_in_range(&affirmed) {
            return Err(DateRange);
        }
        *self = affirmed;
        Ok(())
    }

    /// Extends the current expiry by 1 to `EXTENSION_MONTHS` months (77.35(b), (c)).
    ///
    /// # Errors
    ///
    /// `DateRange` exactly where the new expiry is outside the limit; the record is then unchanged.
    pub fn extend(&mut self, months: u8) -> Result<(), DateRange>
        requires kept { IsKept self.old }
        requires stands { IsSome (expiry_day self.old) }
        requires months { (1 ≤ months) × (months ≤ EXTENSION_MONTHS) }
        ensures extended { OnOk result ((x : Plain) × IsExtension self.old months x
            × (self.new ≡ record_extended_to x self.old)) }
        ensures range { OnOk result (IsKept self.new) }
        ensures same { OnErr result (self.new ≡ self.old) }
        ensures beyond { OnErr result ((x : Plain) → IsExtension self.old months x →
            ¬ IsLimited x) }
        ensures computed { MatchResult result (λ _. extended_record months self.old
            ≡ Some self.new) (λ _. extended_record months self.old ≡ None) }
    {
        let Some(end) = expiry(self) else {
            unreachable!()
        };
        let Ok(moved) = within(months_later(end, months)) else {
            return Err(DateRange);
        };
        self.set_expiry = Some(moved);
        if self.extensions < MOST_EXTENSIONS {
            self.extensions += 1;
        }
        Ok(())
    }

    /// Revises the determination on new facts (77.35(a)): the one that `issue` makes on that day takes its place. The extensions that were
    /// granted still count, and there is one revision more.
    ///
    /// # Errors
    ///
    /// `DateRange` exactly where `issue` refuses; the record is then unchanged.
    #[tactic(auto, using(crate::proofs::ComputedFacts::revised_made, crate::proofs::ComputedFacts::revised_none, crate::proofs::ComputedFacts::revised_range))]
    pub fn revise(
        &mut self,
        day: Date,
        decision: Decision,
        reviewable: bool,
        closed: &ClosedDays,
    ) -> Result<(), DateRange>
        requires day { IsLimited day }
        requires few { self.old.revisions < MOST_REVISIONS }
        ensures revised { OnOk result ((r : Seen) × IsIssued day decision reviewable closed.now r
            × (self.new ≡ record_revised_as r self.old)) }
        ensures range { OnOk result (IsWithinRange self.new) }
        ensures same { OnErr result (self.new ≡ self.old) }
        ensures beyond { OnErr result ((r : Seen) →
            IsIssued day decision reviewable closed.now r → ¬ IsWithinRange r) }
        ensures computed { MatchResult result
            (λ _. revised_record day decision reviewable closed.now self.old ≡ Some self.new)
            (λ _. revised_record day decision reviewable closed.now self.old ≡ None) }
    {
        let Ok(issued) = Record::issue(day, decision, reviewable, closed) else {
            return Err(DateRange);
        };
        *self = Record {
            extensions: self.extensions,
            revisions: self.revisions + 1,
            ..issued
        };
        Ok(())
    }
}
