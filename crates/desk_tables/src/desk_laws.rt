//! Laws of reachable desks.

ghost use Rattle.std.specs.Prelude.{◌<◌, ◌≤◌, ◌+◌, ◌^◌, ℕ, Option};
ghost use Rattle.desk_machine.specs.Evaluations.{Given};
ghost use Rattle.desk_machine.specs.Machine.{state_after, decide};
ghost use Rattle.desk_machine.specs.States.{State, empty, last_number};
ghost use Rattle.desk_tables.specs.Opening.{Opens};
ghost use Rattle.oe_keeper.specs.Kept.{Kept};
ghost use Rattle.desk_tables.specs.Reachable.{IsDesk, IsTold};
ghost use Rattle.wire_requests.specs.Changes.{Asked};
ghost use Rattle.wire_requests.specs.Limits.{IsChangeRecord};

use crate::{findings_are_told, names_go_on, register_goes_on};

/// Rows can spell the empty desk.
#[tactic(auto, using(crate::proofs::DesksGoOn::desk_starts))]
pub fn desk_starts()
    ensures { IsDesk empty }
{}

/// If rows can spell a desk, they can spell the desk after any request, as long as entry numbers do not run out. A determination may be
/// made on a list that was evaluated before, if the list fits in a row: it is used only where its number is at most `p`, which is at most
/// that of the last entry.
pub fn desk_goes_on()
    ensures { (s : State) (p : ℕ) (q : Asked) (given : Option Given) → IsDesk s → IsChangeRecord q
        → p ≤ last_number s → IsTold given → last_number s + 1 < 2 ^ 64
        → IsDesk (state_after s (decide s p q given)) }
{
    register_goes_on();
    names_go_on();
    findings_are_told();
}

/// A desk that is opened from tables is storable: each entry has the number of its place.
pub fn opened_is_desk()
    ensures { (s : State) (kept : Kept) → Opens kept s → IsDesk s }
{
    register_goes_on();
    names_go_on();
}
