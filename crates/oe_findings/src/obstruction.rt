//! Whether a structure exceeds a standard: a visitor of the airfields over its point, which stops computing at the first that shows it.

ghost use Rattle.std.specs.Prelude.{◌≡◌, false, map};
ghost use Rattle.airfield_findings.specs.Entries.{of_airfield};
ghost use Rattle.airfield_findings.specs.Prepared.{airfield_of};
ghost use Rattle.finding_lists.specs.Verdicts.{is_obstruction};
ghost use Rattle.oe_findings.specs.Screenings.{exceeds_over};

use airfield_findings::{Prepared, put_airfield};
use finding_lists::Verdict;
use grid_exact::NoMemory;
use height_rules::Structure;
use surface_tree::Visitor;

/// Whether a structure exceeds a standard of one of the airfields visited so far.
#[derive(Drop)]
pub(crate) struct Obstruction {
    pub(crate) structure: Structure,
    pub(crate) is_found: bool,
}

/// Whether a structure exceeds a standard of one airfield.
fn exceeds(structure: &Structure, prepared: &Prepared) -> bool
    ensures { result ≡ is_obstruction (of_airfield structure.now (airfield_of prepared.now)) }
{
    let mut verdict = Verdict::none();
    match put_airfield(&mut verdict, structure, prepared) {
        Ok(()) => verdict.obstruction,
        Err(NoMemory) => unreachable!(),
    }
}

impl Visitor<Prepared> for Obstruction {
    ghost use Rattle.std.specs.Prelude.{map, ◌≡◌, false};
    ghost use Rattle.airfield_findings.specs.Prepared.{airfield_of};
    ghost use Rattle.oe_findings.specs.Screenings.{exceeds_over};

    ghost seen = { λ start s items. (s.structure ≡ start.structure) × (start.is_found ≡ false → s.is_found ≡ exceeds_over s.structure (map airfield_of items)) };

    #[tactic(auto, using(crate::proofs::Standards::exceeds_more, crate::proofs::Standards::exceeds_still))]
    fn item(&mut self, item: &Prepared) {
        if self.is_found {
            return;
        }
        self.is_found = exceeds(&self.structure, item);
    }
}
