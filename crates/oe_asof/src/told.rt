//! The texts of replies.

ghost use Rattle.std.specs.Prelude.{◌≡◌, ◌++◌, OnOk, OnErr, string_bytes};
ghost use Rattle.grid_exact.specs.Texts.{Extends};
ghost use Rattle.oe_asof.specs.Replies.{as_of_text, not_kept_text, refusal_text};

use finding_lists::Finding;
use grid_exact::NoMemory;
use wire_replies::{Refusal, Reply, append_list, append_next_number, append_number, append_reply};
use wire_requests::ReadRefusal;
use wire_values::append_text;

/// Appends a list as of the entry of a number.
#[tactic(auto, using(grid_exact::proofs::Extending::extending))]
pub(crate) fn append_as_of(text: &mut String, number: u64, list: &[Finding]) -> Result<(), NoMemory>
    ensures ok { OnOk result (string_bytes text.new
        ≡ string_bytes text.old ++ as_of_text number list.now) }
    ensures part { OnErr result (Extends (string_bytes text.old) (string_bytes text.new)) }
{
    append_text(text, "asof,")?;
    append_number(text, number)?;
    append_list(text, list)?;
    append_text(text, "\n")
}

/// Appends the refusal of a number of which no airfields are kept.
#[tactic(auto, using(grid_exact::proofs::Extending::extending))]
pub(crate) fn append_not_kept(text: &mut String, first: u64, last: u64) -> Result<(), NoMemory>
    ensures ok { OnOk result (string_bytes text.new
        ≡ string_bytes text.old ++ not_kept_text first last) }
    ensures part { OnErr result (Extends (string_bytes text.old) (string_bytes text.new)) }
{
    append_text(text, "no,39,NotKept,")?;
    append_number(text, first)?;
    append_next_number(text, last)?;
    append_text(text, "\n")
}

/// Appends the refusal of a line.
pub(crate) fn append_refused(text: &mut String, refusal: ReadRefusal) -> Result<(), NoMemory>
    ensures ok { OnOk result (string_bytes text.new
        ≡ string_bytes text.old ++ refusal_text refusal) }
    ensures part { OnErr result (Extends (string_bytes text.old) (string_bytes text.new)) }
{
    match refusal {
        ReadRefusal::Malformed { field } => {
            append_reply(text, &Reply::Refused(Refusal::Malformed { field }))
        }
        ReadRefusal::NoMemory => append_reply(text, &Reply::Refused(Refusal::NoMemory)),
    }
}
