//! Outcomes that follow from the request alone.

ghost use Rattle.std.specs.Prelude.{◌≡◌, ◌↔◌, IsTrue, IfOk};
ghost use Rattle.wire_replies.specs.Outcomes.{outcome_text};
ghost use Rattle.row_receipts.specs.Kinds.{Reads};

use case_records::Outcome;
use grid_exact::NoMemory;
use std::alloc::Global;
use wire_replies::append_outcome;

// Whether the text spells this outcome.
fn tells(alloc: Global, text: &[u8], outcome: &Outcome) -> Result<bool, NoMemory>
    ensures { IfOk result (λ b. IsTrue b ↔ text.now ≡ outcome_text outcome.now) }
{
    let mut told = String::new(alloc);
    append_outcome(&mut told, outcome)?;
    match told.as_str().strip_prefix(",") {
        Some(rest) => Ok(rest.as_bytes() == text),
        None => unreachable!(),
    }
}

/// Returns `outcome` where the text spells it.
///
/// # Errors
///
/// `NoMemory` where memory was refused.
pub(crate) fn only(
    alloc: Global,
    text: &[u8],
    outcome: Outcome,
) -> Result<Option<Outcome>, NoMemory>
    ensures { IfOk result (λ o. Reads (λ v. v ≡ outcome) text.now o) }
{
    if tells(alloc, text, &outcome)? {
        Ok(Some(outcome))
    } else {
        Ok(None)
    }
}
