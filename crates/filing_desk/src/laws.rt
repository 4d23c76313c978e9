//! Laws of the clerk.

ghost use Rattle.std.specs.Prelude.{ℕ, Option};
ghost use Rattle.wire_requests.specs.Changes.{Asked};
ghost use Rattle.desk_machine.specs.States.{State};
ghost use Rattle.desk_machine.specs.Evaluations.{Given};
ghost use Rattle.desk_machine.specs.Machine.{decide};
ghost use Rattle.filing_desk.specs.Clerks.{Advances, Clerking, IsReplay};
ghost use Rattle.filing_desk.specs.declared.answer.Answer.{Answer};

use oe_keeper::Keeper;

/// A clerk whose state is the replay of the accepted requests from an opening state goes on being so, whatever is asked and given.
pub fn goes_on<K: Keeper>()
    ensures { (opening : State) (p : ℕ) (q : Asked) (given : Option Given) (k l : Clerking K)
        (answer : Answer) → IsReplay opening k → Advances (decide k.state p q given) k l answer
        → IsReplay opening l }
{}
