//! Computes the list of a structure anew.

ghost use Rattle.std.specs.Prelude.{◌≡◌, ◌<◌, IfOk};
ghost use Rattle.oe_findings.specs.List.{findings_of};
ghost use Rattle.review_marks.specs.Books.{differs};

use airfields::Filing;
use finding_lists::Findings;
use grid_exact::{NoMemory, Steps};
use oe_findings::Sky;
use std::alloc::Global;
use std::marker::Brand;
use std::sync::ledger::{Blank, Ledger};

/// The findings of a structure; the steps are counted in the ledger that `blank` opens.
fn counted_findings<L: Ledger>(
    alloc: Global,
    sky: &Sky,
    filing: &Filing,
    blank: Blank,
) -> Result<Findings, NoMemory>
    requires name { blank.name ≡ L.name }
    requires parts { blank.parts ≡ L.parts }
    requires some { 0 < L.parts }
    ensures { IfOk result (λ list. list ≡ findings_of sky.now filing.now) }
{
    sky.findings(alloc, filing, &mut Steps::<L>::new(blank))
}

/// The findings of a structure.
pub fn findings(alloc: Global, sky: &Sky, filing: &Filing) -> Result<Findings, NoMemory>
    ensures { IfOk result (λ list. list ≡ findings_of sky.now filing.now) }
{
    counted_findings::<Brand>(alloc, sky, filing, Blank::new(1))
}

/// Whether two lists differ, in an entry, an excess or their order.
#[tactic(auto, using(crate::proofs::Unconcerned::differing_from))]
pub(crate) fn differ(stored: &Findings, found: &Findings) -> bool
    ensures { result ≡ differs stored.now found.now }
{
    !stored.equal(found)
}
