//! Laws of the texts of outcomes.

ghost use Rattle.std.specs.Prelude.{◌≡◌};
ghost use Rattle.case_requests.specs.declared.act.Act.{Act};
ghost use Rattle.case_records.specs.declared.outcome.Outcome.{Outcome};
ghost use Rattle.wire_requests.specs.Limits.{IsValidAct};
ghost use Rattle.wire_replies.specs.Outcomes.{outcome_text};
ghost use Rattle.row_receipts.specs.Kinds.{CanLeadTo};

use row_cases::one_filing_row;

/// No two outcomes of one act have the same text, so what is written is read back unchanged.
pub fn one_outcome()
    ensures { (act : Act) (a b : Outcome) → IsValidAct act → CanLeadTo act a → CanLeadTo act b
        → outcome_text a ≡ outcome_text b → a ≡ b }
{
    one_filing_row();
}
