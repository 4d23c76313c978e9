//! Lists of findings that are evaluated over a version that a seat showed.

ghost use Rattle.std.specs.Prelude.{◌≡◌, ◌+◌, ◌<◌, ◌≤◌, ℕ, Some, IfOk, length};
ghost use Rattle.std.specs.Arc.{arc_value};
ghost use Rattle.surface_tree.specs.declared.square.TheConstants.{TOP_LEVEL};
ghost use Rattle.oe_findings.specs.List.{findings_of};
ghost use Rattle.oe_findings.specs.Nearness.{AreNear};
ghost use Rattle.wire_cursor.specs.Groups.{IsValidSite};
ghost use Rattle.desk_tables.specs.Reachable.{IsTold};
ghost use Rattle.publishing_clerk.specs.Evaluations.{Evaluating, IsEvaluation, given_as};

use crate::opening::Opening;
use airfields::Filing;
use desk_machine::Entry;
use filing_desk::Evaluated;
use finding_lists::Findings;
use grid_exact::{NoMemory, Steps};
use oe_findings::Sky;
use std::alloc::Global;
use std::marker::{Brand, Model};
use std::sync::ledger::{Blank, Ledger};
use tree_versions::{Front, Snapshot};

/// The list of findings of a structure over a version that a seat showed. Contracts see both, and the front of the version.
#[derive(Drop)]
pub struct Evaluation<J: Opening> {
    filing: Filing,
    front: Front<Entry, Sky, J>,
    list: Findings,
}

impl<J: Opening> Model for Evaluation<J> {
    ghost use Rattle.publishing_clerk.specs.Evaluations.{Evaluating, IsEvaluation};

    ghost Value = { Evaluating };

    ghost view = { λ e. record { filing = e.filing; front = e.front; list = e.list } };

    ghost invariant = { λ e. IsEvaluation J.first
        (record { filing = e.filing; front = e.front; list = e.list }) };
}

/// As `Evaluation::over`; the steps are counted in the ledger that `blank` opens.
fn counted_evaluation<J: Opening, L: Ledger>(
    alloc: Global,
    snapshot: &Snapshot<Entry, Sky, J>,
    filing: &Filing,
    blank: Blank,
) -> Result<Evaluation<J>, NoMemory>
    requires name { blank.name ≡ L.name }
    requires parts { blank.parts ≡ L.parts }
    requires some { 0 < L.parts }
    ensures list { IfOk result (λ e. e ≡ record {
      filing = filing.now;
      front = snapshot.now.front;
      list = findings_of (arc_value snapshot.now.value) filing.now;
    }) }
{
    Evaluation::of(alloc, snapshot, filing, &mut Steps::<L>::new(blank))
}

impl<J: Opening> Evaluation<J> {
    /// Evaluates a structure over the version of a snapshot, in steps that nobody counts.
    ///
    /// # Errors
    ///
    /// `NoMemory` if memory was refused.
    pub fn over(
        alloc: Global,
        snapshot: &Snapshot<Entry, Sky, J>,
        filing: &Filing,
    ) -> Result<Evaluation<J>, NoMemory>
        ensures list { IfOk result (λ e. e ≡ record {
          filing = filing.now;
          front = snapshot.now.front;
          list = findings_of (arc_value snapshot.now.value) filing.now;
        }) }
    {
        counted_evaluation::<J, Brand>(alloc, snapshot, filing, Blank::new(1))
    }

    /// Evaluates a structure over the version of a snapshot.
    ///
    /// # Errors
    ///
    /// `NoMemory` where memory was refused.
    pub fn of<L: Ledger>(
        alloc: Global,
        snapshot: &Snapshot<Entry, Sky, J>,
        filing: &Filing,
        steps: &mut Steps<L>,
    ) -> Result<Evaluation<J>, NoMemory>
        ensures list { IfOk result (λ e. e ≡ record {
          filing = filing.now;
          front = snapshot.now.front;
          list = findings_of (arc_value snapshot.now.value) filing.now;
        }) }
        ensures steps { steps.new ≤ steps.old + (TOP_LEVEL + 1)
            + length (arc_value snapshot.now.value) }
        ensures near { (n : ℕ) → AreNear (arc_value snapshot.now.value) filing.now.at n
            → steps.new ≤ steps.old + (TOP_LEVEL + 1) + n }
    {
        spell(filing);
        snapshot.value.register().limits();
        let list = snapshot.value.findings(alloc, filing, steps)?;
        Ok(Evaluation {
            filing: *filing,
            front: snapshot.front.copy(),
            list,
        })
    }

    /// The structure.
    pub fn filing(&self) -> &Filing
        ensures { result.now ≡ self.now.filing }
    {
        &self.filing
    }

    /// The front of the version.
    pub fn front(&self) -> &Front<Entry, Sky, J>
        ensures { result.now ≡ self.now.front }
    {
        &self.front
    }

    /// The list.
    pub fn list(&self) -> &Findings
        ensures { result.now ≡ self.now.list }
    {
        &self.list
    }

    /// Shows to a proof that the list is that of the structure over the airfields at the opening after the front's entries.
    pub fn is_over(&self)
        ensures { IsEvaluation J.first self.now }
    {
        let _ = &self.list;
    }

    /// As a decision takes it, with a copy of the list.
    ///
    /// # Errors
    ///
    /// `NoMemory` where memory was refused.
    pub(crate) fn list_for_decision(&self, alloc: Global, base: u64) -> Result<Evaluated, NoMemory>
        requires base { base ≡ J.base }
        requires told { IsTold (Some (given_as base self.now)) }
        ensures { IfOk result (λ g. g ≡ given_as base self.now) }
    {
        let list = self.list.copy(alloc)?;
        Ok(Evaluated::new(self.filing, base + self.front.len(), list))
    }
}

/// Shows to a proof that a record can spell the structure.
fn spell(filing: &Filing)
    ensures { IsValidSite filing.now }
{
    filing.limits();
    match &filing.on {
        Some(name) => {
            name.as_bytes();
        }
        None => {}
    }
}
