//! The texts of cases.

ghost use Rattle.std.specs.Prelude.{◌≡◌, [], ◌∷◌, ◌++◌, OnOk, OnErr, codes, string_bytes};
ghost use Rattle.std.specs.Fmt.{decimal};
ghost use Rattle.grid_exact.specs.Texts.{Extends};
ghost use Rattle.wire_values.specs.Commas.{joined, with_commas};
ghost use Rattle.wire_replies.specs.States.{day_text, status_word as status_text};
ghost use Rattle.wire_replies.specs.Cases as spec;

use crate::dates::append_next_day;
use crate::fields::{append_next_number, append_next_word};
use crate::states::status_word;
use case_records::CaseView;
use determination_dates::Decision;
use grid_exact::NoMemory;
use wire_values::{append_text, decision_word};

fn decision_text(decision: Option<Decision>) -> &'static str
    ensures { result.now ≡ spec.decision_text decision }
{
    match decision {
        Some(decision) => decision_word(decision),
        None => "-",
    }
}

fn mark_word(marked: bool) -> &'static str
    ensures { result.now ≡ spec.mark_word marked }
{
    if marked { "marked" } else { "-" }
}

// Appends a case's number, status and decision.
#[tactic(auto, using(grid_exact::proofs::Extending::extending))]
fn append_standing(text: &mut String, view: &CaseView) -> Result<(), NoMemory>
    ensures ok { OnOk result (string_bytes text.new
        ≡ string_bytes text.old ++ joined
        (codes "case" ∷ decimal view.now.case ∷ status_text view.now.status ∷ spec.decision_text view.now.decision ∷ [])) }
    ensures part { OnErr result (Extends (string_bytes text.old) (string_bytes text.new)) }
{
    append_text(text, "case")?;
    append_next_number(text, u64::from(view.case))?;
    append_next_word(text, status_word(view.status))?;
    append_next_word(text, decision_text(view.decision))
}

// Appends the days of a case, a comma before each.
#[tactic(auto, using(grid_exact::proofs::Extending::extending))]
fn append_days(text: &mut String, view: &CaseView) -> Result<(), NoMemory>
    ensures ok { OnOk result (string_bytes text.new
        ≡ string_bytes text.old ++ with_commas
        (day_text view.now.issued ∷ day_text view.now.deadline ∷ day_text view.now.effective ∷ day_text view.now.expiry ∷ day_text view.now.last_day ∷ [])) }
    ensures part { OnErr result (Extends (string_bytes text.old) (string_bytes text.new)) }
{
    append_next_day(text, view.issued)?;
    append_next_day(text, view.deadline)?;
    append_next_day(text, view.effective)?;
    append_next_day(text, view.expiry)?;
    append_next_day(text, view.last_day)
}

// Appends the reply that shows a case.
#[tactic(auto, using(grid_exact::proofs::Extending::extending))]
pub(crate) fn append_case(text: &mut String, view: &CaseView) -> Result<(), NoMemory>
    ensures ok { OnOk result (string_bytes text.new
        ≡ string_bytes text.old ++ spec.case_text view.now) }
    ensures part { OnErr result (Extends (string_bytes text.old) (string_bytes text.new)) }
{
    append_standing(text, view)?;
    append_days(text, view)?;
    append_next_word(text, mark_word(view.marked))?;
    append_text(text, "\n")
}
