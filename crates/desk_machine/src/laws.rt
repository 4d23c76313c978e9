//! Laws of the desk as a machine.

ghost use Rattle.std.specs.Prelude.{◌≡◌, ◌++◌, ℕ, List, Option, Some, false};
ghost use Rattle.case_requests.specs.contracts.act.ActPartialEq.TheImpl as act;
ghost use Rattle.case_records.specs.declared.refusal.Refusal.TheVariants as refusals;
ghost use Rattle.wire_requests.specs.Changes.{Asked};
ghost use Rattle.case_acts.specs.declared.effect.Step.{Step};
ghost use Rattle.desk_machine.specs.declared.entry.Entry.{Entry as Seen};
ghost use Rattle.desk_machine.specs.States.{State, entry_of};
ghost use Rattle.desk_machine.specs.Evaluations.{Given};
ghost use Rattle.desk_machine.specs.Machine.{Done, Kept, No, decide, state_after, decide_again, replay, entries_of_answer};

use crate::entry::MOST_CASES;

/// A lemma, never run: the greatest number of cases, as a numeral.
pub fn most_cases()
    ensures { MOST_CASES ≡ 300_000 }
{}

/// Deciding an entry's request again, with what its outcome records, gives the same entry; so a state that is the replay of its entries
/// stays so after every request.
pub fn replays()
    ensures again { (s : State) (p : ℕ) (q : Asked) (given : Option Given) (e : Seen)
        (step : Step) →
        decide s p q given ≡ Done e step → decide_again s e ≡ Done e step }
    ensures always { (opening s : State) (es : List Seen) (p : ℕ) (q : Asked)
        (given : Option Given) → s ≡ replay opening es →
        state_after s (decide s p q given) ≡ replay opening (es ++ entries_of_answer
        (decide s p q given)) }
{}

/// An accepted request that is repeated is answered with its entry and changes nothing. Another act under the key of an entry is refused
/// with the number of that entry.
pub fn repeats()
    ensures kept { (s : State) (p n : ℕ) (q : Asked) (given other : Option Given) (e : Seen)
        (step : Step) →
        decide s p q given ≡ Done e step → decide (state_after s (Done e step)) n q other ≡ Kept e }
    ensures reused { (s : State) (p : ℕ) (q : Asked) (given : Option Given) (e : Seen)
        → entry_of q.caller q.key s.entries ≡ Some e →
        act.ghosts.eq e.change.act q.act ≡ false
        → decide s p q given ≡ No (refusals.KeyReused e.number) }
{}
