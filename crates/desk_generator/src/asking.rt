//! Makes the generated requests to the clerk.

ghost use Rattle.std.specs.Prelude.{◌≡◌, ◌≢◌, ◌<◌, OnOk, false};
ghost use Rattle.finding_lists.specs.Verdicts.{is_obstruction};
ghost use Rattle.oe_findings.specs.List.{findings_of};
ghost use Rattle.case_records.specs.declared.refusal.Refusal.TheVariants as refusals;
ghost use Rattle.desk_machine.specs.Machine.{state_after};
ghost use Rattle.filing_desk.specs.Answers.{decision};
ghost use Rattle.filing_desk.specs.declared.answer.Answer.TheVariants as answers;
ghost use Rattle.desk_generator.specs.Requests.{HasRecord, request};
ghost use Rattle.desk_generator.specs.Desks.{ask, finding};

use crate::draws::Draws;
use crate::names::{caller, key};
use airfields::Filing;
use case_records::Refusal;
use case_requests::{Act, Impact};
use filing_desk::{Answer, Clerk};
use grid_exact::{NoMemory, Steps};
use oe_findings::Sky;
use oe_keeper::NoKeeper;
use std::alloc::Global;
use std::marker::{Brand, Model};
use std::sync::ledger::{Blank, Ledger};
use wire_requests::Change;

/// The generator: its source of draws, its clerk, and its number of requests so far.
#[derive(Drop)]
pub(crate) struct Generator {
    pub(crate) alloc: Global,
    pub(crate) draws: Draws,
    pub(crate) asked: u32,
    pub(crate) clerk: Clerk<NoKeeper>,
}

impl Model for Generator {
    ghost use Rattle.desk_generator.specs.Desks.{Course};

    ghost Value = { Course };

    ghost view = { λ g. record { source = g.draws; asked = g.asked; state = g.clerk.state } };
}

/// Whether a structure exceeds a standard; the steps of the search are counted in the ledger that `blank` opens.
fn is_counted_obstruction<L: Ledger>(sky: &Sky, filing: &Filing, blank: Blank) -> bool
    requires name { blank.name ≡ L.name }
    requires parts { blank.parts ≡ L.parts }
    requires some { 0 < L.parts }
    ensures { result ≡ is_obstruction (findings_of sky.now filing.now) }
{
    sky.is_obstruction(filing, &mut Steps::<L>::new(blank))
}

/// Whether a structure exceeds a standard.
fn is_obstruction(sky: &Sky, filing: &Filing) -> bool
    ensures { result ≡ is_obstruction (findings_of sky.now filing.now) }
{
    is_counted_obstruction::<Brand>(sky, filing, Blank::new(1))
}

/// The request of this number.
#[tactic(auto, using(crate::proofs::ActFacts::change_record))]
fn request(number: u32, act: Act) -> Change
    requires { HasRecord act }
    ensures { result ≡ request number act }
{
    Change {
        caller: caller(),
        key: key(number),
        act,
    }
}

/// Whether a request was refused for lack of memory.
fn is_wanting(answer: &Answer) -> bool
    ensures { result ≡ false → answer.now ≢ answers.Refused refusals.NoMemory }
{
    matches!(answer, Answer::Refused(Refusal::NoMemory))
}

/// Makes a request to the clerk.
#[tactic(auto, using(crate::proofs::CourseFacts::went_on))]
fn make(alloc: Global, clerk: &mut Clerk<NoKeeper>, c: &Change) -> Result<(), NoMemory>
    ensures { OnOk result (clerk.new.state ≡ state_after clerk.old.state
        (decision clerk.old.state c.now)) }
{
    let answer = clerk.apply(alloc, c);
    if is_wanting(&answer) {
        return Err(NoMemory);
    }
    Ok(())
}

impl Generator {
    /// Makes a request.
    ///
    /// # Errors
    ///
    /// `NoMemory` where memory was refused.
    #[tactic(auto, unfolding(crate::specs::Desks::ask))]
    pub(crate) fn ask(&mut self, act: Act) -> Result<(), NoMemory>
        requires { HasRecord act }
        ensures { OnOk result (self.new ≡ ask act self.old) }
    {
        let Some(number) = self.asked.checked_add(1) else {
            return Err(NoMemory);
        };
        self.asked = number;
        make(self.alloc, &mut self.clerk, &request(number, act))
    }

    /// The finding for a determination on this structure.
    #[tactic(auto, unfolding(crate::specs::Desks::finding))]
    pub(crate) fn finding(&self, filing: &Filing) -> Option<Impact>
        ensures { result ≡ finding self.now.state filing.now }
    {
        if is_obstruction(self.clerk.sky(), filing) {
            Some(Impact::NotSubstantial)
        } else {
            None
        }
    }
}
