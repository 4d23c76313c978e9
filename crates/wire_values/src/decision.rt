//! Decisions in replies and reports.

ghost use Rattle.std.specs.Prelude.{◌≡◌};
ghost use Rattle.wire_values.specs.Words as spec;

use determination_dates::Decision;

/// The word for a decision.
pub fn decision_word(decision: Decision) -> &'static str
    ensures { result.now ≡ spec.decision_word decision }
{
    match decision {
        Decision::NoHazard => "nohazard",
        Decision::Hazard => "hazard",
    }
}
