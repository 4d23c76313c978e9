//! The airfields of a register with their surfaces, found by the points that the surfaces cover.

ghost use Rattle.std.specs.Prelude.{◌≡◌, ◌≤◌, ◌+◌, ℕ, [], length, IfOk, IfSome, option_map};
ghost use Rattle.std.specs.Arc.{arc_value};
ghost use Rattle.std.specs.List.{list_any};
ghost use Rattle.ordered_list.specs.Ordered.{Rises};
ghost use Rattle.airfields.specs.Airfields.{IsHeld, id_of};
ghost use Rattle.airfields.specs.Names.{name_cmp};
ghost use Rattle.airport_register.specs.Amendments.{list_with_replaced};
ghost use Rattle.surface_tree.specs.declared.square.TheConstants.{TOP_LEVEL};
ghost use Rattle.grid_exact.specs.declared.point.Point.{Point as APoint};
ghost use Rattle.oe_findings.specs.Nearness.{AreNear, HasOneNear};
ghost use Rattle.oe_findings.specs.Screenings.{exceeds_over, gives_entry, HasGathered, HasSeen};

use crate::any_finding::AnyFinding;
use crate::obstruction::Obstruction;
use crate::screening::Screening;
use airfield_findings::Prepared;
use airfields::Filing;
use airport_register::{Changed, Register};
use finding_lists::Collector;
use grid_exact::{NoMemory, Steps};
use height_rules::Structure;
use std::alloc::Global;
use std::marker::Model;
use std::sync::Arc;
use std::sync::ledger::Ledger;
use surface_tree::Tree;

/// The airfields of a register with their surfaces, which contracts see as the list of the airfields in rising order of name.
#[derive(Drop)]
pub(crate) struct Surroundings {
    tree: Tree<Prepared>,
}

impl Model for Surroundings {
    ghost use Rattle.std.specs.Prelude.{List, map};
    ghost use Rattle.airfields.specs.declared.airfield.Airfield.{Airfield};
    ghost use Rattle.airfield_findings.specs.Prepared.{airfield_of};

    ghost Value = { List Airfield };

    ghost view = { λ s. map airfield_of s.tree };
}

impl Surroundings {
    /// An empty set of airfields. It takes no memory.
    pub(crate) fn empty(alloc: Global) -> Surroundings
        ensures { result ≡ [] }
    {
        Surroundings {
            tree: Tree::empty(alloc),
        }
    }

    /// The same airfields once more, which are shared.
    pub(crate) fn share(&self) -> Result<Surroundings, NoMemory>
        ensures { IfOk result (λ s. s ≡ self.now) }
    {
        Ok(Surroundings {
            tree: self.tree.share()?,
        })
    }

    /// The airfields of a register, each with its surfaces prepared.
    pub(crate) fn of(alloc: Global, register: &Register) -> Result<Surroundings, NoMemory>
        ensures { IfOk result (λ s. s ≡ register.now) }
    {
        register.limits();
        let mut tree = Tree::empty(alloc);
        for i in 0..register.len() {
            let Some(airfield) = register.nth(i) else {
                unreachable!();
            };
            tree = tree.with(alloc, Arc::new(alloc, Prepared::of(alloc, airfield)?)?)?;
        }
        Ok(Surroundings { tree })
    }

    /// The airfields after a change of one of them; the others share their surfaces with these.
    pub(crate) fn replaced(
        &self,
        alloc: Global,
        changed: &Changed,
    ) -> Result<Surroundings, NoMemory>
        requires held { IfSome (option_map arc_value changed.now.after) (λ f. IsHeld f) }
        ensures { IfOk result (λ s. s ≡ list_with_replaced changed.now.id
            (option_map arc_value changed.now.after) self.now) }
    {
        match &changed.after {
            Some(airfield) => {
                let prepared = Arc::new(alloc, Prepared::of(alloc, airfield)?)?;
                Ok(Surroundings {
                    tree: self.tree.with(alloc, prepared)?,
                })
            }
            None => Ok(Surroundings {
                tree: self.tree.without_key(alloc, changed.id)?,
            }),
        }
    }

    /// Shows to a proof that each point has one number of near surfaces.
    pub(crate) fn near_number(&self)
        ensures { (x : APoint) → HasOneNear self.now x }
    {
        let _ = &self.tree; // a proof knows what stands in a tree where it reads it
    }

    /// Shows a screening that has seen no airfield all airfields that reach over its structure's point. As the others give no entry, and
    /// the names of airfields rise, it has then gathered what all airfields give, in order.
    pub(crate) fn visit<C: Collector + Drop, L: Ledger>(
        &self,
        screening: &mut Screening<C>,
        steps: &mut Steps<L>,
    )
        requires { HasGathered C.taken C.fails screening.old.structure screening.old.is_due screening.old.standards screening.old.notices screening.old.refused [] }
        ensures filing { screening.new.structure ≡ screening.old.structure }
        ensures due { screening.new.is_due ≡ screening.old.is_due }
        ensures seen { Rises name_cmp id_of self.now
            → HasSeen C.taken C.fails screening.new.structure screening.new.is_due screening.new.standards screening.new.notices screening.new.refused self.now }
        ensures steps { steps.new ≤ steps.old + (TOP_LEVEL + 1) + length self.now }
        ensures near { (n : ℕ) → AreNear self.now screening.old.structure.at n
            → steps.new ≤ steps.old + (TOP_LEVEL + 1) + n }
    {
        // the contracts of these calls state that both tops are levels
        let _standards = screening.structure.standards_top();
        let _notice = screening.structure.notice_top();
        let at = *screening.structure.at();
        self.tree.visit(&at, screening, steps);
    }

    /// Whether a structure exceeds a standard of one of the airfields.
    pub(crate) fn exceeded<L: Ledger>(&self, filing: &Filing, steps: &mut Steps<L>) -> bool
        ensures found { result ≡ exceeds_over filing.now self.now }
        ensures steps { steps.new ≤ steps.old + (TOP_LEVEL + 1) + length self.now }
        ensures near { (n : ℕ) → AreNear self.now filing.now.at n
            → steps.new ≤ steps.old + (TOP_LEVEL + 1) + n }
    {
        let mut obstruction = Obstruction {
            structure: Structure::of(filing),
            is_found: false,
        };
        self.tree.visit(&filing.at, &mut obstruction, steps);
        obstruction.is_found
    }

    /// Whether a structure has a finding for one of the airfields; a notice slope counts where notice is due.
    pub(crate) fn has_finding<L: Ledger>(
        &self,
        filing: &Filing,
        is_due: bool,
        steps: &mut Steps<L>,
    ) -> bool
        ensures found { result ≡ list_any (gives_entry filing.now is_due) self.now }
        ensures steps { steps.new ≤ steps.old + (TOP_LEVEL + 1) + length self.now }
        ensures near { (n : ℕ) → AreNear self.now filing.now.at n
            → steps.new ≤ steps.old + (TOP_LEVEL + 1) + n }
    {
        let mut any = AnyFinding {
            structure: Structure::of(filing),
            is_due,
            is_found: false,
        };
        self.tree.visit(&filing.at, &mut any, steps);
        any.is_found
    }
}
