//! The front of a clerk that sessions share.

ghost use Rattle.std.specs.Prelude.{◌≡◌, ◌≤◌, option_copied};
ghost use Rattle.publishing_clerk.specs.Evaluations.{given_in};
ghost use Rattle.publishing_clerk.specs.Rulings.{IsRuled};
ghost use Rattle.publishing_clerk.specs.Fronts.{IsCounted, IsFilingOf, IsReplied};

use crate::answered::{Answered, ask};
use crate::case_filing::{CaseFiling, find};
use crate::clerk::PublishingClerk;
use crate::evaluation::Evaluation;
use crate::front::Front;
use crate::opening::Opening;
use crate::ruling::Ruling;
use desk_machine::Entry;
use oe_findings::Sky;
use oe_keeper::Keeper;
use oe_wire::{Change, Query, Refusal, Reply};
use std::alloc::Global;
use std::sync::{Mutex, Wait};
use tree_versions::Note;

/// Borrows a clerk behind a lock, and does not tell it. Each call holds the lock once. It counts the rulings that tell a fault of the
/// keeper.
#[derive(Drop)]
pub struct Locked<'a, K: Keeper, J: Opening> {
    clerk: &'a Mutex<PublishingClerk<K, J>>,
    faults: u64,
}

impl<'a, K: Keeper, J: Opening> Locked<'a, K, J> {
    /// Borrows this clerk. No fault is counted yet.
    pub fn new(clerk: &'a Mutex<PublishingClerk<K, J>>) -> Locked<'a, K, J>
        ensures none { result.faults ≡ 0 }
    {
        Locked { clerk, faults: 0 }
    }
}

/// The number of faults after this reply.
fn count_after(faults: u64, reply: &Reply) -> u64
    ensures counted { IsCounted faults result reply.now }
    ensures later { faults ≤ result }
{
    if let Reply::Refused(Refusal::KeeperFault) = reply {
        return faults.saturating_add(1);
    }
    faults
}

impl<'a, K: Keeper, J: Opening> Front<J> for Locked<'a, K, J> {
    ghost use Rattle.std.specs.Prelude.{None};

    type Keeper = K;

    ghost clerk = { λ l. None };

    ghost faults = { λ l. l.faults };

    fn filing<R: Wait>(&mut self, rt: &R, number: u32) -> CaseFiling<K, J>
        ensures number { result.number ≡ number }
        ensures case { IsFilingOf J.opening result }
        ensures faults { self.new.faults ≡ self.old.faults }
    {
        let mut clerk = self.clerk.lock(rt);
        find(&mut clerk, number)
    }

    fn apply<R: Wait>(
        &mut self,
        rt: &R,
        alloc: Global,
        c: &Change,
        evaluated: Option<&Evaluation<J>>,
    ) -> Ruling<K, J>
        ensures request { result.request ≡ c.now }
        ensures given { result.given ≡ given_in J.base (option_copied evaluated.entry) }
        ensures ruled { IsRuled K.IsSteady K.faults J.base J.opening result }
        ensures counted { IsCounted self.old.faults self.new.faults result.reply }
        ensures later { self.old.faults ≤ self.new.faults }
    {
        let ruling = self.clerk.lock(rt).apply(rt, alloc, c, evaluated);
        self.faults = count_after(self.faults, ruling.reply());
        ruling
    }

    fn answer<R: Wait>(&mut self, rt: &R, alloc: Global, q: &Query) -> Answered<K, J>
        ensures query { result.query ≡ q.now }
        ensures replied { IsReplied J.opening result }
        ensures faults { self.new.faults ≡ self.old.faults }
    {
        let mut clerk = self.clerk.lock(rt);
        ask(alloc, &mut clerk, q)
    }

    fn note<R: Wait>(&mut self, rt: &R) -> Note<Entry, Sky, J>
        ensures faults { self.new.faults ≡ self.old.faults }
    {
        self.clerk.lock(rt).note()
    }

    fn goes_on(&self) {}
}
