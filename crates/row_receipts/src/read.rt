//! Reads outcomes from their texts.

ghost use Rattle.std.specs.Prelude.{IfOk};
ghost use Rattle.row_receipts.specs.Kinds.{CanLeadTo, Reads};

use crate::course::{decided_petition, extension, fcc_act};
use crate::determination::{determined, revised};
use crate::filed::{form_came, opened_case};
use crate::only::only;
use case_records::Outcome;
use grid_exact::NoMemory;
use std::alloc::Global;
use wire_requests::{Act, plain_of};
use wire_values::Plain;

/// Reads the outcome of an act; `None` exactly where the text spells no outcome that the act can have.
///
/// # Errors
///
/// `NoMemory` where memory was refused.
pub fn read_outcome(alloc: Global, act: &Act, text: &[u8]) -> Result<Option<Outcome>, NoMemory>
    ensures { IfOk result (λ o. Reads (CanLeadTo act.now) text.now o) }
{
    match act {
        Act::Amend(amendment) => only(alloc, text, Outcome::Plain(plain_of(amendment))),
        Act::Day(_) => only(alloc, text, Outcome::Plain(Plain::Day)),
        Act::Closed(_) => only(alloc, text, Outcome::Plain(Plain::Closed)),
        Act::File(_) => Ok(opened_case(text)),
        Act::Form(case) => Ok(form_came(text, *case)),
        Act::Determine { case, .. } => determined(alloc, text, *case),
        Act::Petition { case, .. } => only(alloc, text, Outcome::Petitioned { case: *case }),
        Act::Dispose { case, .. } => Ok(decided_petition(text, *case)),
        Act::Extend { case, .. } => Ok(extension(text, *case)),
        Act::Revise { case, .. } => revised(alloc, text, *case),
        Act::Fcc { case, .. } => Ok(fcc_act(text, *case)),
        Act::Abandon(case) => only(alloc, text, Outcome::Abandoned { case: *case }),
    }
}
