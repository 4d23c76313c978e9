//! Laws of what is answered. Want of memory alone may refuse at any time.

ghost use Rattle.std.specs.Prelude.{◌≡◌, ◌≢◌, ◌⊎◌, [], ◌∷◌, true, List, ℕ};
ghost use Rattle.wire_requests.specs.Changes.{Asked};
ghost use Rattle.wire_requests.specs.Requests.{IsMalformed, IsRecord};
ghost use Rattle.wire_requests.specs.declared.request.Request.{Request};
ghost use Rattle.wire_requests.specs.declared.request.Request.TheVariants as requests;
ghost use Rattle.wire_replies.specs.declared.reply.Reply.TheVariants as replies;
ghost use Rattle.case_records.specs.declared.refusal.Refusal.TheVariants as refusals;
ghost use Rattle.desk_machine.specs.declared.entry.Entry.{Entry};
ghost use Rattle.desk_machine.specs.States.{State};
ghost use Rattle.desk_machine.specs.Machine.{Answer as Decided, entries_of_answer};
ghost use Rattle.filing_desk.specs.Answers.{answer_of, decision};
ghost use Rattle.filing_desk.specs.Clerks.{Advances, Clerking};
ghost use Rattle.filing_desk.specs.Served.{HasCause};
ghost use Rattle.filing_desk.specs.declared.answer.Answer.{Answer};
ghost use Rattle.filing_desk.specs.declared.answer.Answer.TheVariants as answers;
ghost use Rattle.line_desk.specs.Desk.{Plain, Serving, StepOver};
ghost use Rattle.line_desk.specs.Complete.{HasReply, IsAnswered, IsTextOf, IsUnkept};

use oe_keeper::Keeper;
use wire_requests::one_reading;

/// What a clerk that is asked for a change ensures leaves it no other answer than the decided one: only where memory ran out, or where an entry
/// was to be made and the keeper failed, is the change refused otherwise. A keeper that never fails leaves want of memory alone.
pub fn each_change_is_answered<K: Keeper>()
    ensures answered { (d : Decided) (k l : Clerking K) (answer : Answer) → Advances d k l answer
        → HasCause K.IsSteady K.faults d k.keeper l.keeper answer
        → IsAnswered K.IsSteady K.faults d k l answer }
    ensures steady { (d : Decided) (k l : Clerking K) (answer : Answer) → K.IsSteady k.keeper
        → IsAnswered K.IsSteady K.faults d k l answer
        → (answer ≡ answer_of d) ⊎ (answer ≡ answers.Refused refusals.NoMemory) }
{}

/// Each record of a session has the reply to its request, or memory was wanting, or it is a change that was to make an entry and the keeper
/// failed. Over a keeper that never fails want of memory alone is free: a change that breaks no rule is then accepted with its outcome.
/// Any other line but the empty one is refused at its first wrong field.
pub fn each_record_is_answered<K: Keeper>()
    ensures told { (s t : State) (line text : List ℕ) (r : Request) → IsRecord line r
        → Plain s line text t → HasReply s r text t }
    ensures kept { (s t : Serving K) (line text : List ℕ) (r : Request) → IsRecord line r
        → StepOver K.Tells K.IsSteady K.faults s line text t
        → HasReply s.state r text t.state ⊎ IsUnkept K.IsSteady K.faults s r text t }
    ensures accepted { (s t : State) (line text : List ℕ) (change : Asked) (e : Entry)
        → IsRecord line (requests.Change change)
        → entries_of_answer (decision s change) ≡ e ∷ []
        → Plain s line text t → IsTextOf (replies.Accepted e.number true e.outcome) text }
    ensures malformed { (s t : State) (line text : List ℕ) (field : ℕ) → line ≢ []
        → IsMalformed line field → Plain s line text t
        → IsTextOf (replies.Refused (refusals.Malformed field)) text }
{
    one_reading();
}
