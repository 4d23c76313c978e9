//! The entries of a list of findings that are about one airfield.

ghost use Rattle.std.specs.Prelude.{◌≡◌, ◌∷◌, ◌++◌, [], IfOk, OnOk, cond};
ghost use Rattle.review_marks.specs.Shares.{about, is_about as is_about_of};

use airfields::FieldId;
use finding_lists::{Finding, Findings};
use grid_exact::NoMemory;
use std::alloc::Global;

/// Whether the finding is about the airfield of this name.
fn is_about(id: &FieldId, finding: &Finding) -> bool
    ensures { result ≡ is_about_of id.now finding.now }
{
    match &finding.key.field {
        Some(field) => id == field,
        None => false,
    }
}

/// Appends a finding, where it is about the airfield.
fn put_about(own: &mut Findings, id: &FieldId, finding: &Finding) -> Result<(), NoMemory>
    ensures { OnOk result (own.new ≡ own.old ++ cond (is_about_of id.now finding.now)
        (finding.now ∷ []) []) }
{
    if is_about(id, finding) {
        own.push(*finding)?;
    }
    Ok(())
}

/// The entries of a list that are about the airfield of this name.
///
/// # Errors
///
/// `NoMemory` where memory was refused.
#[tactic(auto, using(std::proofs::lemmas::List::Elements::filter_more))]
pub(crate) fn entries_about(
    alloc: Global,
    id: &FieldId,
    list: &Findings,
) -> Result<Findings, NoMemory>
    ensures { IfOk result (λ l. l ≡ about id.now list.now) }
{
    let mut own = Findings::new(alloc);
    for finding in list.as_slice() {
        put_about(&mut own, id, finding)?;
    }
    Ok(own)
}
