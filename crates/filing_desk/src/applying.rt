//! Deciding changing requests.

ghost use Rattle.std.specs.Prelude.{◌≡◌, ◌≢◌, true, None, Ok, option_copied};
ghost use Rattle.case_requests.specs.contracts.act.ActPartialEq.TheImpl as act;
ghost use Rattle.case_acts.specs.Cases.{IsSoundStep};
ghost use Rattle.desk_machine.specs.States.{State, entry_of};
ghost use Rattle.desk_machine.specs.Machine.{decide, decide_new, register_effect, answer_of_repeat as repeat};
ghost use Rattle.desk_machine.specs.Marks.{Goes, IsPresent};
ghost use Rattle.desk_tables.specs.Changes.{HasRoom, IsNamed};
ghost use Rattle.wire_values.specs.Words.{IsWord};
ghost use Rattle.filing_desk.specs.Answers.{Answers, IfRefused};
ghost use Rattle.filing_desk.specs.Served.{Serves};

use crate::answer::Answer;
use crate::office::Office;
use airport_register::Amendment;
use case_acts::{Effect, Step};
use case_records::Refusal;
use case_requests::Act;
use desk_machine::Entry;
use desk_receipts::{Accepted, Evaluated};
use oe_keeper::Keeper;
use std::alloc::Global;
use wire_requests::Change;

/// Whether two acts are the same.
fn is_same(a: &Act, b: &Act) -> bool
    ensures { result ≡ act.ghosts.eq a.now b.now }
{
    a == b
}

/// Shows to a proof that an amended airfield has a valid name.
fn name_of(step: &Step)
    ensures { IsNamed step.now }
{
    match step {
        Step::Amended(amendment) => match amendment {
            Amendment::PutAirport { id, .. } => {
                id.as_bytes();
            }
            Amendment::PutRunway { id, .. } => {
                id.as_bytes();
            }
            Amendment::DropRunway { id, .. } => {
                id.as_bytes();
            }
            Amendment::PutHeliport(heliport) => {
                heliport.id.as_bytes();
            }
            Amendment::Drop(id) => {
                id.as_bytes();
            }
        },
        _ => {}
    }
}

/// Shows to a proof that a caller has a valid name.
fn caller_of(c: &Change)
    ensures { IsWord c.now.caller }
{
    c.caller.as_bytes();
}

/// The answer to a request whose caller's key belongs to an entry.
#[tactic(auto, using(crate::proofs::Deciding::reused, crate::proofs::Deciding::told_again))]
fn repeated(alloc: Global, entry: &Entry, c: &Change) -> Answer
    ensures answer { (s : State) → Answers (repeat entry.now c.now) s s result }
    ensures cause { IfRefused result (λ why. why ≢ Refusal.KeeperFault) }
{
    if !is_same(&entry.change.act, &c.act) {
        return Answer::Refused(Refusal::KeyReused {
            entry: entry.number,
        });
    }
    match entry.outcome.copy(alloc) {
        Ok(outcome) => Answer::Accepted {
            entry: entry.number,
            outcome,
        },
        Err(_) => Answer::Refused(Refusal::NoMemory),
    }
}

impl Office {
    /// Accepts a request with this effect, where the rules of the register allow it. Where `own` is true, a determination is made on the
    /// list over the present airfields.
    fn accept<K: Keeper>(
        &mut self,
        alloc: Global,
        keeper: &mut K,
        c: &Change,
        effect: Effect,
        own: bool,
    ) -> Answer
        requires new { entry_of c.now.caller c.now.key self.old.entries ≡ None }
        requires sound { IsSoundStep effect.step }
        requires room { HasRoom self.old.cases effect.step }
        requires goes { Goes self.old effect.step }
        requires present { own ≡ true → IsPresent self.old effect.step }
        requires loaded { ∥ K.IsLoaded keeper.old ∥₁ }
        ensures answer { Answers
            (decide_new self.old c.now (register_effect self.old.register (Ok effect)))
            self.old self.new result }
        ensures serves { Serves K.Tells K.IsLoaded K.IsSteady K.faults
            (decide_new self.old c.now (register_effect self.old.register (Ok effect)))
            keeper.old keeper.new self.old self.new result }
    {
        let Some(number) = (self.desk.receipts.len() as u64).checked_add(1) else {
            return Answer::Refused(Refusal::NoMemory);
        };
        let Ok(outcome) = effect.outcome.copy(alloc) else {
            return Answer::Refused(Refusal::NoMemory);
        };
        let entry = Entry {
            number,
            change: *c,
            outcome: effect.outcome,
        };
        let step = effect.step;
        name_of(&step);
        caller_of(c);
        self.desk.soundness();
        let Ok(changes) = self.desk.changes(alloc, keeper, &entry, &step) else {
            return Answer::Refused(Refusal::NoMemory);
        };
        match self.take(alloc, keeper, Accepted { entry, changes }, step, own) {
            Ok(()) => Answer::Accepted {
                entry: number,
                outcome,
            },
            Err(why) => Answer::Refused(why),
        }
    }

    /// Decides a changing request, where `p` is the number of the last published entry and a list may be given.
    #[tactic(auto, using(crate::proofs::Deciding::known_as, crate::proofs::Deciding::refused_as, crate::proofs::Deciding::accepted_as))]
    pub(crate) fn apply<K: Keeper>(
        &mut self,
        alloc: Global,
        keeper: &mut K,
        c: &Change,
        p: u64,
        given: Option<&Evaluated>,
    ) -> Answer
        requires { ∥ K.IsLoaded keeper.old ∥₁ }
        ensures answer { Answers (decide self.old p c.now (option_copied given.entry))
            self.old self.new result }
        ensures serves { Serves K.Tells K.IsLoaded K.IsSteady K.faults
            (decide self.old p c.now (option_copied given.entry))
            keeper.old keeper.new self.old self.new result }
    {
        match self.desk.entry(c.caller, c.key) {
            Some(entry) => return repeated(alloc, entry, c),
            None => {}
        }
        c.has_record();
        c.has_facts();
        let own = self.desk.is_own(&c.act, p, given);
        match self.desk.acted(alloc, &c.act, p, given) {
            Ok(effect) => self.accept(alloc, keeper, c, effect, own),
            Err(why) => Answer::Refused(why),
        }
    }
}
