//! The texts of lists of cases.

ghost use Rattle.std.specs.Prelude.{◌≡◌, ◌++◌, map, OnOk, OnErr, string_bytes};
ghost use Rattle.std.specs.Fmt.{decimal};
ghost use Rattle.grid_exact.specs.Texts.{Extends};
ghost use Rattle.wire_values.specs.Commas.{with_commas};
ghost use Rattle.wire_replies.specs.Replies.{review_text};

use crate::fields::{append_next_number, append_number};
use grid_exact::NoMemory;
use wire_values::append_text;

// Appends the number of each case, a comma before it.
#[tactic(auto, using(grid_exact::proofs::Extending::extending))]
fn append_cases(text: &mut String, cases: &[u32]) -> Result<(), NoMemory>
    ensures ok { OnOk result (string_bytes text.new
        ≡ string_bytes text.old ++ with_commas (map decimal cases.now)) }
    ensures part { OnErr result (Extends (string_bytes text.old) (string_bytes text.new)) }
{
    for case in cases {
        append_next_number(text, u64::from(*case))?;
    }
    Ok(())
}

// Appends the reply of the cases that are marked for review.
#[tactic(auto, using(grid_exact::proofs::Extending::extending))]
pub(crate) fn append_review(text: &mut String, cases: &[u32]) -> Result<(), NoMemory>
    ensures ok { OnOk result (string_bytes text.new
        ≡ string_bytes text.old ++ review_text cases.now) }
    ensures part { OnErr result (Extends (string_bytes text.old) (string_bytes text.new)) }
{
    append_text(text, "review,")?;
    append_number(text, cases.len() as u64)?;
    append_cases(text, cases)?;
    append_text(text, "\n")
}
