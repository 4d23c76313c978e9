//! Airfields with their surfaces, prepared for many structures.

ghost use Rattle.std.specs.Prelude.{◌≡◌, nat_eq, IfOk};
ghost use Rattle.airfields.specs.Airfields.{IsHeld};
ghost use Rattle.airfield_findings.specs.declared.plots.TheConstants.{SMALL_LEVEL};
ghost use Rattle.airfield_findings.specs.Surfaces.{airfield_with};
ghost use Rattle.airfield_findings.specs.Reaches.{IsInPlace};

use crate::plots::SMALL_LEVEL;
use crate::surfaces::Surfaces;
use airfields::{Airfield, FieldId};
use grid_exact::NoMemory;
use std::alloc::Global;
use surface_tree::{Placed, Plot};

/// An airfield with its surfaces, and its plot; it has no findings for structures outside the plot's area.
pub struct Prepared {
    pub(crate) surfaces: Surfaces,
    pub(crate) plot: Plot,
    ghost in_place: { IsInPlace plot (airfield_with surfaces) },
}

// By hand, so that no crate above proves again how what it holds is dropped.
impl Drop for Prepared {
    fn drop(self) {
        let Prepared {
            surfaces: _,
            plot: _,
        } = self;
    }
}

impl Prepared {
    /// The airfield with its surfaces prepared.
    ///
    /// # Errors
    ///
    /// `NoMemory` where memory was refused.
    pub fn of(alloc: Global, airfield: &Airfield) -> Result<Prepared, NoMemory>
        requires held { IsHeld airfield.now }
        ensures airfield { IfOk result (λ p. airfield_with p.surfaces ≡ airfield.now) }
    {
        let (surfaces, plot) = Surfaces::of(alloc, airfield)?;
        Ok(Prepared { surfaces, plot })
    }

    /// Whether its plot is stored in the smaller squares. A visit gives such airfields last.
    #[inline(always)]
    pub fn is_small(&self) -> bool
        ensures { result ≡ nat_eq self.now.plot.level SMALL_LEVEL }
    {
        self.plot.level == SMALL_LEVEL
    }
}

/// In a tree of areas, a prepared airfield has the airfield's name as its key, and its own plot.
impl Placed for Prepared {
    ghost use Rattle.airfields.specs.Airfields.{id_of};
    ghost use Rattle.airfield_findings.specs.declared.plots.TheConstants.{SMALL_LEVEL};
    ghost use Rattle.airfield_findings.specs.Surfaces.{airfield_with};

    type Key = FieldId;

    ghost plot_of = { λ p. p.plot };

    ghost key_of = { λ p. id_of (airfield_with p.surfaces) };

    fn plot(&self) -> Plot {
        self.plot
    }

    fn key(&self) -> FieldId {
        *self.surfaces.id()
    }
}
