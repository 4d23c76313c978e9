//! The place of a session: its seat, and the front of its clerk.

ghost use Rattle.std.specs.Prelude.{◌≡◌, ◌≤◌, ◌++◌, IfOk, IfSome, OnOk, OnErr, option_copied, string_bytes};
ghost use Rattle.std.specs.Arc.{arc_value};
ghost use mathlib.Core.List.{IsPrefix};
ghost use Rattle.grid_exact.specs.Texts.{Extends};
ghost use Rattle.desk_machine.specs.Evaluations.{evaluated_site};
ghost use Rattle.publishing_clerk.specs.Evaluations.{given_in};
ghost use Rattle.publishing_clerk.specs.Rulings.{IsRuled};
ghost use Rattle.publishing_clerk.specs.Fronts.{HasRuled, IsCounted, IsReplied, WasAsked};
ghost use Rattle.desk_service.specs.Sittings.{HasRuling, IsAskedOfClerk, IsEvaluated, IsVersion, Looks, Stands, Stays};
ghost use Rattle.desk_service.specs.Replies.{IsAfter, Tells};
ghost use Rattle.wire_replies.specs.Replies.{reply_text};
ghost use Rattle.wire_replies.specs.declared.reply.Reply.{Reply};
ghost use Rattle.wire_requests.specs.declared.request.Request.TheVariants as requests;

use airfields::Filing;
use desk_machine::Entry;
use grid_exact::NoMemory;
use oe_findings::Sky;
use oe_wire::{Change, Query, Refusal, Reply, append_reply};
use publishing_clerk::{Answered, Evaluation, Front, Opening, Ruling};
use std::alloc::Global;
use std::marker::Model;
use std::sync::Wait;
use tree_versions::{Note, Seat, Snapshot};

/// The seat of a session and the front of its clerk, which come from one opening.
#[derive(Drop)]
pub(crate) struct Place<'r, F: Front<J>, J: Opening, R: Wait> {
    pub rt: &'r R,
    pub seat: Seat<Entry, Sky, J>,
    pub front: F,
}

impl<'r, F: Front<J>, J: Opening, R: Wait> Model for Place<'r, F, J, R> {
    ghost use Rattle.desk_service.specs.Sittings.{Sitting};

    ghost Value = { Sitting F.Keeper };

    ghost view = { λ p. record {
      clerk = F.clerk p.front;
      front = p.seat.front;
      told = p.seat.told;
      faults = F.faults p.front;
    } };
}

impl<'r, F: Front<J>, J: Opening, R: Wait> Place<'r, F, J, R> {
    /// What the seat shows.
    ///
    /// # Errors
    ///
    /// `NoMemory` where memory was refused.
    pub fn look(&mut self) -> Result<Snapshot<Entry, Sky, J>, NoMemory>
        ensures stays { Stays self.old self.new }
        ensures front { IfOk result (λ s. s.front ≡ self.new.front) }
        ensures looks { IfOk result (λ s. Looks self.old self.new) }
        ensures version { IfOk result (λ s. IsVersion J.first s.front (arc_value s.value)) }
    {
        self.seat.current()
    }

    /// Tells the seat of a note.
    fn hear(&mut self, note: Note<Entry, Sky, J>)
        ensures stays { Stays self.old self.new }
        ensures front { self.new.front ≡ self.old.front }
        ensures note { IsPrefix note self.new.told }
    {
        self.seat.learn(note);
    }

    /// A note of what is published.
    fn note(&mut self) -> Note<Entry, Sky, J>
        ensures same { self.new ≡ self.old }
        ensures told { IfSome self.old.clerk (λ c. result ≡ c.published) }
    {
        self.front.note(self.rt)
    }

    /// Tells the seat what is published.
    pub fn learn(&mut self)
        ensures stays { Stays self.old self.new }
        ensures told { IfSome self.old.clerk (λ c. IsPrefix c.published self.new.told) }
    {
        let note = self.note();
        self.hear(note);
    }

    /// Has a query answered by the clerk.
    fn answer(&mut self, alloc: Global, query: &Query) -> Answered<F::Keeper, J>
        ensures query { result.query ≡ query.now }
        ensures replied { IsReplied J.opening result }
        ensures own { WasAsked self.old.clerk result }
        ensures same { self.new ≡ self.old }
    {
        self.front.answer(self.rt, alloc, query)
    }

    /// Has a query answered by the clerk, and appends the reply.
    pub fn ask(&mut self, alloc: Global, query: &Query, text: &mut String) -> Result<(), NoMemory>
        requires { IsAskedOfClerk query.now }
        ensures ok { OnOk result (Tells F.Keeper.IsSteady F.Keeper.faults J.first J.base J.opening
            self.old (requests.Query query.now)
            (string_bytes text.old) (string_bytes text.new) self.new) }
        ensures made { OnErr result (IsAfter F.Keeper.IsSteady F.Keeper.faults J.first J.base J.opening
            self.old (requests.Query query.now) self.new) }
        ensures part { OnErr result (Extends (string_bytes text.old) (string_bytes text.new)) }
    {
        let answered = self.answer(alloc, query);
        let appended = append_reply(text, answered.reply());
        self.hear(answered.into_note());
        appended
    }

    /// The structure that a change evaluates: for a determination that of its case, for a revision the same with the new facts; `None` where
    /// there is none.
    #[tactic(auto, using(crate::proofs::Structures::none_told, crate::proofs::Structures::case_told))]
    fn structure(&mut self, change: &Change) -> Option<Filing>
        ensures same { self.new ≡ self.old }
        ensures told { IfSome self.old.clerk (λ c.
            result ≡ evaluated_site c.clerk.state change.now.act) }
    {
        change.has_facts();
        let Some(case) = change.act.evaluated_case() else {
            return None;
        };
        match self.front.filing(self.rt, case).filing() {
            Some(filing) => Some(change.act.evaluated(&filing)),
            None => None,
        }
    }

    /// What is evaluated for a change: for a determination or a revision of a case, the structure that it evaluates, over the version that the
    /// seat shows.
    ///
    /// # Errors
    ///
    /// `NoMemory` where memory was refused.
    fn evaluate(
        &mut self,
        alloc: Global,
        change: &Change,
    ) -> Result<Option<Evaluation<J>>, NoMemory>
        ensures stays { Stays self.old self.new }
        ensures evaluated { IfOk result (λ o. IsEvaluated J.first change.now self.old o self.new) }
    {
        let Some(filing) = self.structure(change) else {
            return Ok(None);
        };
        let shown = self.look()?;
        let evaluation = Evaluation::over(alloc, &shown, &filing)?;
        evaluation.is_over();
        Ok(Some(evaluation))
    }

    /// Has a change decided by the clerk, a determination or a revision on what the seat shows, and appends the reply.
    pub fn change(
        &mut self,
        alloc: Global,
        change: &Change,
        text: &mut String,
    ) -> Result<(), NoMemory>
        ensures ok { OnOk result (Tells F.Keeper.IsSteady F.Keeper.faults J.first J.base J.opening
            self.old (requests.Change change.now)
            (string_bytes text.old) (string_bytes text.new) self.new) }
        ensures made { OnErr result (IsAfter F.Keeper.IsSteady F.Keeper.faults J.first J.base J.opening
            self.old (requests.Change change.now) self.new) }
        ensures part { OnErr result (Extends (string_bytes text.old) (string_bytes text.new)) }
    {
        let Ok(evaluated) = self.evaluate(alloc, change) else {
            return append_reply(text, &Reply::Refused(Refusal::NoMemory));
        };
        self.decide(alloc, change, evaluated, text)
    }

    /// Has a change decided by the clerk, on what was evaluated.
    fn apply(
        &mut self,
        alloc: Global,
        change: &Change,
        evaluated: Option<&Evaluation<J>>,
    ) -> Ruling<F::Keeper, J>
        ensures request { result.request ≡ change.now }
        ensures given { result.given ≡ given_in J.base (option_copied evaluated.entry) }
        ensures ruled { IsRuled F.Keeper.IsSteady F.Keeper.faults J.base J.opening result }
        ensures own { HasRuled J.base self.old.clerk self.new.clerk result }
        ensures counted { IsCounted self.old.faults self.new.faults result.reply }
        ensures later { self.old.faults ≤ self.new.faults }
        ensures front { self.new.front ≡ self.old.front }
        ensures told { self.new.told ≡ self.old.told }
    {
        self.front.apply(self.rt, alloc, change, evaluated)
    }

    /// Has a change decided on what was evaluated, and appends the reply.
    fn decide(
        &mut self,
        alloc: Global,
        change: &Change,
        evaluated: Option<Evaluation<J>>,
        text: &mut String,
    ) -> Result<(), NoMemory>
        ensures ok { OnOk result ((reply : Reply)
            × HasRuling F.Keeper.IsSteady F.Keeper.faults J.base J.opening change.now evaluated
            self.old reply self.new
            × (string_bytes text.new ≡ string_bytes text.old ++ reply_text reply)) }
        ensures made { OnErr result ((reply : Reply)
            × HasRuling F.Keeper.IsSteady F.Keeper.faults J.base J.opening change.now evaluated
            self.old reply self.new) }
        ensures same { self.new.front ≡ self.old.front }
        ensures part { OnErr result (Extends (string_bytes text.old) (string_bytes text.new)) }
    {
        let ruling = self.apply(alloc, change, evaluated.as_ref());
        let appended = append_reply(text, ruling.reply());
        self.hear(ruling.into_note());
        appended
    }

    /// Shows to a proof that a told clerk went on from the opening.
    pub fn stands(&self)
        ensures { Stands F.Keeper.Tells J.opening self.now }
    {
        self.front.goes_on();
    }
}
