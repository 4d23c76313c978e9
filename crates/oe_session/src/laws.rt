//! The law of interleavings.

ghost use Rattle.std.specs.Prelude.{ℕ, List};
ghost use Rattle.desk_machine.specs.States.{State};
ghost use Rattle.oe_session.specs.World.{Event, IsOrderly, opening_world, world_after_all};

/// A lemma, never run: what holds however many sessions there are, and whatever they do in whichever order. No session is lost. The front of each session begins
/// the published list, and that list begins the entries accepted since the opening. Each front of a session extends every front that it had
/// before and everything that it was told before. Each determination issued or revised since the opening rests on the findings of its structure over the
/// airfields at the opening after the amendments of the first of these entries, up to the number that the list names.
pub fn interleaved()
    ensures { (opening : State) (count : ℕ) (events : List Event) →
        IsOrderly opening count (world_after_all opening events (opening_world opening count)) }
{}
