//! Laws of the rows.

ghost use Rattle.std.specs.Prelude.{◌≡◌};
ghost use Rattle.oe_keeper.specs.Kept.{Kept, rows_after_changes};
ghost use Rattle.case_acts.specs.declared.effect.Step.{Step};
ghost use Rattle.std.specs.FinMap as maps;
ghost use Rattle.desk_machine.specs.States.{State, empty, state_after_step, with_entry};
ghost use Rattle.desk_machine.specs.declared.entry.Entry.{Entry};
ghost use Rattle.desk_tables.specs.Rows.{AreRows};
ghost use Rattle.desk_tables.specs.Changes.{changes, Fits};

/// The changes for an accepted request turn the rows of the state before it into those of the state after it.
#[tactic(auto, using(crate::proofs::Keeping::rows_kept))]
pub fn keeps_rows()
    ensures { (s : State) (e : Entry) (step : Step) (kept : Kept) → Fits s e step → AreRows s kept →
        AreRows (with_entry e (state_after_step step s))
        (rows_after_changes kept (changes s e step)) }
{}

/// A state has one set of rows.
#[tactic(auto, using(crate::proofs::OneRows::one_rows))]
pub fn one_rows()
    ensures { (s : State) (a b : Kept) → AreRows s a → AreRows s b → a ≡ b }
{}

/// An empty desk has no rows.
#[tactic(auto, using(crate::proofs::Bare::bare_rows))]
pub fn no_rows()
    ensures { AreRows empty maps.empty }
{}
