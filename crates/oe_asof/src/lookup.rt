//! Lists as of an earlier entry.

ghost use Rattle.std.specs.Prelude.{◌≡◌, ◌<◌, ℕ, length};
ghost use Rattle.oe_asof.specs.Versions.{AreEnds, IsDated};
ghost use Rattle.oe_asof.specs.declared.answer.Dated.TheVariants as answers;

use crate::answer::Dated;
use crate::history::History;
use airfields::Filing;
use grid_exact::{NoMemory, Steps};
use std::alloc::Global;
use std::sync::ledger::Ledger;

/// The list of findings of a structure over the airfields that are kept under a number. `NotKept` exactly where none are.
pub fn dated<L: Ledger>(
    alloc: Global,
    history: &History,
    number: u64,
    filing: &Filing,
    steps: &mut Steps<L>,
) -> Dated
    requires some { 0 < length history.now.versions }
    ensures { IsDated history.now.versions number filing.now result }
{
    let Some(sky) = history.at(number) else {
        return not_kept(history);
    };
    match sky.findings(alloc, filing, steps) {
        Ok(list) => Dated::Found(list),
        Err(NoMemory) => Dated::NoMemory,
    }
}

/// The refusal of a number under which nothing is kept.
fn not_kept(history: &History) -> Dated
    requires some { 0 < length history.now.versions }
    ensures { (first last : ℕ) × (result ≡ answers.NotKept first last)
        × AreEnds history.now.versions first last }
{
    let Some(first) = history.first() else {
        unreachable!();
    };
    let Some(last) = history.last() else {
        unreachable!();
    };
    Dated::NotKept { first, last }
}
