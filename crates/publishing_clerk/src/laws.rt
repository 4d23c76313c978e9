//! Laws of clerks that go on from an opening.

ghost use Rattle.desk_machine.specs.States.{State};
ghost use Rattle.filing_desk.specs.Clerks.{Clerking};
ghost use Rattle.publishing_clerk.specs.Publishing.{AreMade, GoesOn};

use oe_keeper::Keeper;

/// Each entry that a clerk accepted since the opening is the one that its request makes in its turn, with its number and outcome.
pub fn each_entry_is_made<K: Keeper>()
    ensures { (opening : State) (k : Clerking K) → GoesOn opening k → AreMade opening k.accepted }
{}
