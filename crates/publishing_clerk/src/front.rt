//! What a session asks of its clerk.

ghost use Rattle.std.specs.Prelude.{◌≡◌, ◌≤◌, ℕ, Option, IfSome, option_copied};
ghost use mathlib.Core.List.{IsPrefix};
ghost use Rattle.publishing_clerk.specs.Evaluations.{given_in};
ghost use Rattle.desk_receipts.specs.Handed.{Told};
ghost use Rattle.publishing_clerk.specs.Publishing.{GoesOn, Publishing};
ghost use Rattle.publishing_clerk.specs.Rulings.{IsRuled};
ghost use Rattle.publishing_clerk.specs.Fronts.{HasRuled, IsCounted, IsFilingOf, IsReplied, WasAsked};

use crate::answered::Answered;
use crate::case_filing::CaseFiling;
use crate::evaluation::Evaluation;
use crate::opening::Opening;
use crate::ruling::Ruling;
use desk_machine::Entry;
use oe_findings::Sky;
use oe_keeper::Keeper;
use oe_wire::{Change, Query};
use std::alloc::Global;
use std::sync::Wait;
use tree_versions::Note;

/// Asks the clerk of the opening that the name says, for one session. Where it tells its clerk, each call is the clerk's own.
pub trait Front<J: Opening> {
    type Keeper: Keeper;

    /// The clerk, where it tells it.
    ghost clerk: { Self → Option (Publishing Self.Keeper) };

    /// The number of its faults. It never falls.
    ghost faults: { Self → ℕ };

    /// The structure of the case of this number, as the clerk has it. Nothing changes.
    fn filing<R: Wait>(&mut self, rt: &R, number: u32) -> CaseFiling<Self::Keeper, J>
        ensures number { result.number ≡ number }
        ensures case { IsFilingOf J.opening result }
        ensures told { IfSome (clerk self.old) (λ c.
            (result.clerk ≡ c.clerk) × (result.note ≡ c.published)) }
        ensures same { clerk self.new ≡ clerk self.old }
        ensures faults { faults self.new ≡ faults self.old };

    /// Has a changing request decided, stored and published. A determination or a revision is made on the list that was evaluated, if
    /// one is given.
    ///
    /// # Errors
    ///
    /// Those of the clerk. The reply tells `KeeperFault` only where the number of faults rose, or stands at its last value.
    fn apply<R: Wait>(
        &mut self,
        rt: &R,
        alloc: Global,
        c: &Change,
        evaluated: Option<&Evaluation<J>>,
    ) -> Ruling<Self::Keeper, J>
        ensures request { result.request ≡ c.now }
        ensures given { result.given ≡ given_in J.base (option_copied evaluated.entry) }
        ensures ruled { IsRuled Self.Keeper.IsSteady Self.Keeper.faults J.base J.opening result }
        ensures told { HasRuled J.base (clerk self.old) (clerk self.new) result }
        ensures counted { IsCounted (faults self.old) (faults self.new) result.reply }
        ensures later { faults self.old ≤ faults self.new };

    /// Has a query answered over the present state. Nothing changes.
    fn answer<R: Wait>(&mut self, rt: &R, alloc: Global, q: &Query) -> Answered<Self::Keeper, J>
        ensures query { result.query ≡ q.now }
        ensures replied { IsReplied J.opening result }
        ensures told { WasAsked (clerk self.old) result }
        ensures same { clerk self.new ≡ clerk self.old }
        ensures faults { faults self.new ≡ faults self.old };

    /// A note of what is published. Nothing changes.
    fn note<R: Wait>(&mut self, rt: &R) -> Note<Entry, Sky, J>
        ensures told { IfSome (clerk self.old) (λ c. result ≡ c.published) }
        ensures same { clerk self.new ≡ clerk self.old }
        ensures faults { faults self.new ≡ faults self.old };

    /// Shows to a proof that a told clerk went on from the opening of the name, that its published entries begin the accepted ones, and that
    /// its keeper's rows, where known, are those of its state.
    fn goes_on(&self)
        ensures { IfSome (clerk self.now) (λ c. GoesOn J.opening c.clerk
            × IsPrefix c.published c.clerk.accepted
            × Told Self.Keeper.Tells c.clerk.keeper c.clerk.state) };
}
