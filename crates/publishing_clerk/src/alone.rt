//! The front of a clerk of one session.

ghost use Rattle.std.specs.Prelude.{◌≡◌, ◌≤◌, Some, option_copied};
ghost use mathlib.Core.List.{IsPrefix};
ghost use Rattle.publishing_clerk.specs.Evaluations.{given_in};
ghost use Rattle.desk_receipts.specs.Handed.{Told};
ghost use Rattle.publishing_clerk.specs.Publishing.{GoesOn};
ghost use Rattle.publishing_clerk.specs.Rulings.{IsRuled};
ghost use Rattle.publishing_clerk.specs.Fronts.{HasRuled, IsCounted, IsFilingOf, IsReplied, WasAsked};

use crate::answered::{Answered, ask};
use crate::case_filing::{CaseFiling, find};
use crate::clerk::PublishingClerk;
use crate::evaluation::Evaluation;
use crate::front::Front;
use crate::opening::Opening;
use crate::ruling::Ruling;
use desk_machine::Entry;
use oe_findings::Sky;
use oe_keeper::Keeper;
use oe_wire::{Change, Query};
use std::alloc::Global;
use std::sync::Wait;
use tree_versions::Note;

/// Holds the clerk of one session, and tells it. Its faults are those of its keeper. Use it up by `into_clerk`.
pub struct Alone<K: Keeper, J: Opening> {
    clerk: PublishingClerk<K, J>,
}

impl<K: Keeper, J: Opening> Alone<K, J> {
    /// Holds this clerk.
    pub fn new(clerk: PublishingClerk<K, J>) -> Alone<K, J>
        ensures { result.clerk ≡ clerk }
    {
        Alone { clerk }
    }

    /// Gives the clerk back.
    pub fn into_clerk(self) -> PublishingClerk<K, J>
        ensures { result ≡ self.clerk }
    {
        let Alone { clerk } = self;
        clerk
    }
}

impl<K: Keeper, J: Opening> Front<J> for Alone<K, J> {
    ghost use Rattle.std.specs.Prelude.{Some};

    type Keeper = K;

    ghost clerk = { λ a. Some a.clerk };

    ghost faults = { λ a. K.faults a.clerk.clerk.keeper };

    fn filing<R: Wait>(&mut self, _rt: &R, number: u32) -> CaseFiling<K, J>
        ensures number { result.number ≡ number }
        ensures case { IsFilingOf J.opening result }
        ensures told { (result.clerk ≡ self.old.clerk.clerk)
            × (result.note ≡ self.old.clerk.published) }
        ensures same { self.new.clerk ≡ self.old.clerk }
    {
        find(&mut self.clerk, number)
    }

    fn apply<R: Wait>(
        &mut self,
        rt: &R,
        alloc: Global,
        c: &Change,
        evaluated: Option<&Evaluation<J>>,
    ) -> Ruling<K, J>
        ensures request { result.request ≡ c.now }
        ensures given { result.given ≡ given_in J.base (option_copied evaluated.entry) }
        ensures ruled { IsRuled K.IsSteady K.faults J.base J.opening result }
        ensures told { HasRuled J.base (Some self.old.clerk) (Some self.new.clerk) result }
        ensures counted { IsCounted (K.faults self.old.clerk.clerk.keeper)
            (K.faults self.new.clerk.clerk.keeper) result.reply }
        ensures later { K.faults self.old.clerk.clerk.keeper
            ≤ K.faults self.new.clerk.clerk.keeper }
    {
        self.clerk.apply(rt, alloc, c, evaluated)
    }

    fn answer<R: Wait>(&mut self, _rt: &R, alloc: Global, q: &Query) -> Answered<K, J>
        ensures query { result.query ≡ q.now }
        ensures replied { IsReplied J.opening result }
        ensures told { WasAsked (Some self.old.clerk) result }
        ensures same { self.new.clerk ≡ self.old.clerk }
    {
        ask(alloc, &mut self.clerk, q)
    }

    fn note<R: Wait>(&mut self, _rt: &R) -> Note<Entry, Sky, J>
        ensures told { result ≡ self.old.clerk.published }
        ensures same { self.new.clerk ≡ self.old.clerk }
    {
        self.clerk.note()
    }

    fn goes_on(&self)
        ensures { GoesOn J.opening self.now.clerk.clerk
            × IsPrefix self.now.clerk.published self.now.clerk.clerk.accepted
            × Told K.Tells self.now.clerk.clerk.keeper self.now.clerk.clerk.state }
    {
        self.clerk.goes_on();
        self.clerk.clerk().keeper();
    }
}
