//! Findings and verdicts of structures, whose searches nobody counts.

ghost use Rattle.std.specs.Prelude.{◌≡◌, ◌<◌, OnErr, OnOk, []};
ghost use Rattle.oe_findings.specs.List.{findings_of};
ghost use Rattle.finding_lists.specs.Verdicts.{verdict_of};

use airfields::Filing;
use finding_lists::{Findings, Verdict};
use grid_exact::{NoMemory, Steps};
use oe_findings::Sky;
use std::alloc::Global;
use std::marker::Brand;
use std::sync::ledger::{Blank, Ledger};

/// As `screen`; the steps are counted in the ledger that `blank` opens.
fn counted_screen<L: Ledger>(
    alloc: Global,
    sky: &Sky,
    list: &mut Findings,
    filing: &Filing,
    blank: Blank,
) -> Result<(), NoMemory>
    requires name { blank.name ≡ L.name }
    requires parts { blank.parts ≡ L.parts }
    requires some { 0 < L.parts }
    ensures found { OnOk result (list.new ≡ findings_of sky.now filing.now) }
    ensures empty { OnErr result (list.new ≡ []) }
{
    sky.find(alloc, list, filing, &mut Steps::<L>::new(blank))
}

/// Makes `list` the findings of a structure over these airfields. The memory of the list is reused.
///
/// # Errors
///
/// `NoMemory` if memory was refused; the list is then empty.
pub fn screen(
    alloc: Global,
    sky: &Sky,
    list: &mut Findings,
    filing: &Filing,
) -> Result<(), NoMemory>
    ensures found { OnOk result (list.new ≡ findings_of sky.now filing.now) }
    ensures empty { OnErr result (list.new ≡ []) }
{
    counted_screen::<Brand>(alloc, sky, list, filing, Blank::new(1))
}

/// As `verdict`; the steps are counted in the ledger that `blank` opens.
fn counted_verdict<L: Ledger>(sky: &Sky, filing: &Filing, blank: Blank) -> Verdict
    requires name { blank.name ≡ L.name }
    requires parts { blank.parts ≡ L.parts }
    requires some { 0 < L.parts }
    ensures { result ≡ verdict_of (findings_of sky.now filing.now) }
{
    sky.verdict(filing, &mut Steps::<L>::new(blank))
}

/// The verdict on the findings of a structure over these airfields. It takes no memory.
pub fn verdict(sky: &Sky, filing: &Filing) -> Verdict
    ensures { result ≡ verdict_of (findings_of sky.now filing.now) }
{
    counted_verdict::<Brand>(sky, filing, Blank::new(1))
}
