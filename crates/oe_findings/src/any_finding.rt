//! Whether a structure has any finding: a visitor of the airfields over its point, which stops computing at the first that shows it.

ghost use Rattle.std.specs.Prelude.{◌≡◌};
ghost use Rattle.airfield_findings.specs.Entries.{of_airfield, slope_entries};
ghost use Rattle.airfield_findings.specs.Prepared.{airfield_of};
ghost use Rattle.oe_findings.specs.Screenings.{gives_entry, has_entry};

use airfield_findings::{Prepared, put_airfield, put_slope};
use finding_lists::Verdict;
use grid_exact::NoMemory;
use height_rules::Structure;
use surface_tree::Visitor;

/// Whether a structure has a finding for one of the airfields visited so far.
#[derive(Drop)]
pub(crate) struct AnyFinding {
    pub(crate) structure: Structure,
    pub(crate) is_due: bool,
    pub(crate) is_found: bool,
}

/// Whether a structure exceeds a standard of one airfield.
fn has_standard(structure: &Structure, prepared: &Prepared) -> bool
    ensures { result ≡ has_entry (of_airfield structure.now (airfield_of prepared.now)) }
{
    let mut verdict = Verdict::none();
    match put_airfield(&mut verdict, structure, prepared) {
        Ok(()) => verdict.entries > 0,
        Err(NoMemory) => unreachable!(),
    }
}

/// Whether a structure exceeds a notice slope of one airfield.
fn has_slope(structure: &Structure, prepared: &Prepared) -> bool
    ensures { result ≡ has_entry (slope_entries structure.now (airfield_of prepared.now)) }
{
    let mut verdict = Verdict::none();
    match put_slope(&mut verdict, structure, prepared) {
        Ok(()) => verdict.entries > 0,
        Err(NoMemory) => unreachable!(),
    }
}

/// Whether a structure has a finding for one airfield. A notice slope is tested first, since there is one an airfield.
fn has_finding(structure: &Structure, is_due: bool, prepared: &Prepared) -> bool
    ensures { result ≡ gives_entry structure.now is_due (airfield_of prepared.now) }
{
    is_due && has_slope(structure, prepared) || has_standard(structure, prepared)
}

impl Visitor<Prepared> for AnyFinding {
    ghost use Rattle.std.specs.Prelude.{◌≡◌};
    ghost use Rattle.std.specs.List.{list_any};
    ghost use Rattle.airfield_findings.specs.Prepared.{airfield_of};
    ghost use Rattle.oe_findings.specs.Screenings.{gives_entry};

    ghost seen = { λ start s items. (s.structure ≡ start.structure) × (s.is_due ≡ start.is_due) × (s.is_found ≡ list_any (λ p. gives_entry s.structure s.is_due (airfield_of p)) items) };

    #[tactic(auto, using(crate::proofs::Clears::any_more, crate::proofs::Clears::any_still))]
    fn item(&mut self, item: &Prepared) {
        if self.is_found {
            return;
        }
        self.is_found = has_finding(&self.structure, self.is_due, item);
    }
}
