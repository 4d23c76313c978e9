//! The clerk of the desk.

ghost use Rattle.std.specs.Prelude.{◌≡◌, ◌≤◌, List, IfOk, drop, length, option_copied, option_map};
ghost use Rattle.desk_machine.specs.Reports.{IsExpiryOrder, expiry_rows, review_rows};
ghost use Rattle.oe_reports.specs.Tables.{expiry_table, review_table};
ghost use Rattle.oe_reports.specs.declared.rows.ExpiryRow.{ExpiryRow};
ghost use Rattle.desk_machine.specs.States.{case_at, entry_at, last_number};
ghost use Rattle.desk_machine.specs.Evaluations.{site_of};
ghost use Rattle.desk_machine.specs.Machine.{decide};
ghost use Rattle.desk_machine.specs.Marks.{case_view, marks};
ghost use Rattle.desk_tables.specs.Reachable.{IsDesk};
ghost use Rattle.filing_desk.specs.Answers.{decision};
ghost use Rattle.filing_desk.specs.Clerks.{Advances, HasOpening};
ghost use Rattle.desk_receipts.specs.Handed.{Told};
ghost use Rattle.filing_desk.specs.Served.{HasCause};

use crate::answer::Answer;
use crate::office::Office;
use airfields::Filing;
use case_records::{CaseList, CaseView};
use desk_machine::Entry;
use desk_receipts::{Evaluated, given_told};
use desk_tables::desk_goes_on;
use grid_exact::{NoMemory, Text};
use oe_findings::Sky;
use oe_keeper::Keeper;
use std::alloc::Global;
use std::marker::Model;
use wire_requests::Change;

/// Decides changing requests one after the other, and stores each accepted one in its keeper. Seen as its state, the requests accepted
/// since the opening, and the keeper. The state is always the replay of these requests from the state at the opening, and the keeper's
/// rows, where known, are those of the state.
pub struct Clerk<K: Keeper> {
    pub(crate) office: Office,
    pub(crate) keeper: K,
    /// The number of the last entry at the opening.
    pub(crate) base: u64,
}

// By hand, so that no crate above proves again how what it holds is dropped.
impl<K: Keeper + Drop> Drop for Clerk<K> {
    fn drop(self) {
        let Clerk {
            office: _,
            keeper: _,
            base: _,
        } = self;
    }
}

impl<K: Keeper> Model for Clerk<K> {
    ghost use Rattle.std.specs.Prelude.{drop};
    ghost use Rattle.filing_desk.specs.Clerks.{Clerking, IsClerk};

    ghost Value = { Clerking K };

    ghost view = { λ c. record { state = c.office; accepted = drop c.base c.office.entries; keeper = c.keeper } };

    ghost invariant = { λ c. IsClerk K.Tells K.IsLoaded c.base
        (record { state = c.office; accepted = drop c.base c.office.entries; keeper = c.keeper }) };
}

impl<K: Keeper> Clerk<K> {
    /// Decides a changing request on the desk's day. An accepted request is stored before it is answered. A request that was accepted
    /// before, from the same caller under the same key, gets the same answer again and changes nothing.
    ///
    /// # Errors
    ///
    /// The first rule that the request breaks, in the order of the rules; or `KeeperFault`, only where no rule is broken, an entry was to be
    /// made and the keeper failed; or `NoMemory` where memory ran out. Neither the desk nor, where they are known, its stored rows are then
    /// changed. The keeper is not asked where no entry is made.
    pub fn apply(&mut self, alloc: Global, c: &Change) -> Answer
        ensures answer { Advances (decision self.old.state c.now) self.old self.new result }
        ensures cause { HasCause K.IsSteady K.faults (decision self.old.state c.now)
            self.old.keeper self.new.keeper result }
        ensures told { Told K.Tells self.new.keeper self.new.state }
    {
        self.apply_with(alloc, c, None)
    }

    /// As `apply`, where a list may be given that was evaluated before. A determination or a revision is made on it where it is of the
    /// structure that the act evaluates and its number is at most that of the last entry; else on the list over the present airfields. It is marked exactly where its
    /// list differs from the one over the present airfields.
    ///
    /// # Errors
    ///
    /// Those of `apply`.
    pub fn apply_with(&mut self, alloc: Global, c: &Change, given: Option<&Evaluated>) -> Answer
        ensures answer { Advances (decide self.old.state (last_number self.old.state) c.now
            (option_copied given.entry)) self.old self.new result }
        ensures cause { HasCause K.IsSteady K.faults (decide self.old.state
            (last_number self.old.state) c.now (option_copied given.entry))
            self.old.keeper self.new.keeper result }
        ensures told { Told K.Tells self.new.keeper self.new.state }
    {
        desk_goes_on();
        c.has_record();
        given_told(given);
        let p = self.office.accepted();
        let answer = self.office.apply(alloc, &mut self.keeper, c, p, given);
        // the number of the last entry is one of the type
        self.office.accepted();
        answer
    }

    /// The keeper. Its rows, where known, are those of the clerk's state.
    pub fn keeper(&self) -> &K
        ensures same { result.now ≡ self.now.keeper }
        ensures told { Told K.Tells self.now.keeper self.now.state }
    {
        &self.keeper
    }

    /// Ends the clerk and returns its keeper.
    pub fn into_keeper(self) -> K
        ensures same { result ≡ self.keeper }
        ensures desk { IsDesk self.state }
        ensures told { Told K.Tells self.keeper self.state }
    {
        let Clerk {
            office: _,
            keeper,
            base: _,
        } = self;
        keeper
    }

    /// The case of this number; `None` exactly where there is no such case.
    pub fn case_view(&self, number: u32) -> Option<CaseView>
        ensures { result ≡ case_view self.now.state number }
    {
        self.office.case_view(number)
    }

    /// The numbers of the cases marked for review, rising: those whose determinations stand, and whose lists of findings over
    /// the present airfields differ from the lists that the determinations were made on.
    ///
    /// # Errors
    ///
    /// `NoMemory` where memory was refused.
    pub fn review(&self, alloc: Global) -> Result<CaseList, NoMemory>
        ensures { IfOk result (λ l. l ≡ marks self.now.state) }
    {
        self.office.review(alloc)
    }

    /// The report `review` of the marked cases, in rising order.
    ///
    /// # Errors
    ///
    /// `NoMemory` where memory was refused.
    pub fn review_report(&self, alloc: Global) -> Result<Text, NoMemory>
        ensures { IfOk result (λ t. t ≡ review_table (review_rows self.now.state)) }
    {
        self.office.review_report(alloc)
    }

    /// The report `expiry` of the standing determinations that have an expiry, by expiry and case.
    ///
    /// # Errors
    ///
    /// `NoMemory` where memory was refused.
    pub fn expiry_report(&self, alloc: Global) -> Result<Text, NoMemory>
        ensures { IfOk result (λ t. (rows : List ExpiryRow)
            × IsExpiryOrder (expiry_rows self.now.state) rows × (t ≡ expiry_table rows)) }
    {
        self.office.expiry_report(alloc)
    }

    /// The number of cases marked for review.
    pub fn marked(&self) -> u32
        ensures { result ≡ length (marks self.now.state) }
    {
        self.office.marked()
    }

    /// The structure of the case of this number; `None` exactly where there is no such case.
    pub fn filing(&self, number: u32) -> Option<Filing>
        ensures { result ≡ option_map site_of (case_at self.now.state.cases number) }
    {
        match self.office.desk.case(number) {
            Some(case) => Some(case.submission.filing),
            None => None,
        }
    }

    /// The number of the last entry, 0 where there is none.
    pub fn accepted(&self) -> u64
        ensures { result ≡ last_number self.now.state }
    {
        self.office.accepted()
    }

    /// The entry of this number; `None` exactly where there is none.
    pub fn entry(&self, number: u64) -> Option<&Entry>
        ensures { option_copied result ≡ entry_at self.now.state.entries number }
    {
        if number == 0 {
            return None;
        }
        self.office.desk.receipts.at(number as usize - 1)
    }

    /// Shows to a proof that rows can spell the desk.
    pub fn is_storable(&self)
        ensures { IsDesk self.now.state }
    {
        let _ = &self.base;
    }

    /// The number of the last entry at the opening. The later entries were accepted since, and the state is the replay of their requests
    /// from a state with the entries up to it.
    pub fn base(&self) -> u64
        ensures within { result ≤ last_number self.now.state }
        ensures accepted { self.now.accepted ≡ drop result self.now.state.entries }
        ensures opening { HasOpening result self.now }
    {
        self.base
    }

    /// The present airfields, with their surfaces.
    pub fn sky(&self) -> &Sky
        ensures { result.now ≡ self.now.state.register }
    {
        &self.office.desk.sky
    }
}
