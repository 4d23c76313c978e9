//! Airports with their surfaces, prepared for many structures.

ghost use Rattle.std.specs.Prelude.{◌≡◌, ℤ, [], List, IfOk, false};
ghost use Rattle.airfields.specs.Airfields.{IsHeldAirport};
ghost use Rattle.grid_exact.specs.Level.{IsLevel};
ghost use Rattle.height_rules.specs.Heights.{notice_top};
ghost use Rattle.height_rules.specs.NearAirport.{near_excess};
ghost use Rattle.horizontal_hull.specs.Arcs.{dome_of};
ghost use Rattle.runway_notice.specs.Notices.{notice_slope};
ghost use Rattle.airfields.specs.declared.airfield.Airfield.TheVariants.{Airport as AnAirport};
ghost use Rattle.airfield_findings.specs.Entries.{of_surfaces};
ghost use Rattle.airfield_findings.specs.Reaches.{IsInPlace};

use crate::bounds::bounds_of;
use crate::datum::Datum;
use crate::plots::airport_plot;
use crate::reach::surfaces_area;
use crate::strips::Strips;
use airfields::{Airport, Category, FieldId};
use grid_exact::{NoMemory, Point};
use height_rules::{Structure, excess_near_limited, near_area};
use horizontal_hull::Hull;
use imaginary_surfaces::Strip;
use outline_boxes::{Bounds, Spot};
use runway_notice::{LoneRunway, Slope, excess_notice, notice_area};
use std::alloc::Global;
use std::marker::Model;
use surface_tree::Plot;

/// An airport with its surfaces; contracts see it as the airport.
#[derive(Drop)]
pub struct PreparedAirport {
    /// The box of 77.17(a)(2), if the airport has that limit. The boxes are stored beside the airport, since each structure near it reads
    /// them, and reads more only where one of them contains its point.
    near: Bounds,
    /// The box of the surfaces of 77.19, if the airport has them.
    surfaces: Bounds,
    /// The box of 77.9(b), if the airport has a notice slope.
    notice: Bounds,
    /// The reference point and elevation are stored next to the boxes, since they are read first.
    datum: Datum,
    /// The airport's name, which each entry contains.
    id: FieldId,
    category: Category,
    hull: Hull,
    /// The runway from which notice is measured, prepared, if it is the airport's only one.
    lone: Option<LoneRunway>,
    strips: Strips,
    airport: Airport,
}

impl Model for PreparedAirport {
    ghost use Rattle.airfields.specs.declared.airfield.Airport.{Airport};
    ghost use Rattle.std.specs.Prelude.{Some};
    ghost use Rattle.outline_boxes.specs.Bounds.{box_of};
    ghost use Rattle.airfield_findings.specs.PreparedAirports.{IsPreparedAirport};
    ghost use Rattle.airfield_findings.specs.StripLists.{runways_of};

    ghost Value = { Airport };

    ghost view = { λ p. p.airport };

    ghost invariant = { λ p. IsPreparedAirport p.airport p.datum p.id p.category p.hull (runways_of p.strips) p.lone (Some (box_of p.near)) (Some (box_of p.notice)) (Some (box_of p.surfaces)) };
}

impl PreparedAirport {
    /// Prepares the surfaces of the airport, and its plot.
    pub fn of(alloc: Global, airport: &Airport) -> Result<(PreparedAirport, Plot), NoMemory>
        requires held { IsHeldAirport airport.now }
        ensures airport { IfOk result (λ p. p.0 ≡ airport.now) }
        ensures plot { IfOk result (λ p. IsInPlace p.1 (AnAirport airport.now)) }
    {
        let hull = Hull::of(alloc, airport)?;
        let strips = Strips::of(alloc, airport.runways.as_slice())?;
        let near_box = near_area(airport);
        let notice_box = notice_area(airport);
        let surfaces_box = surfaces_area(&hull, strips.as_slice());
        let plot = airport_plot(airport, &near_box, &notice_box, &surfaces_box);
        let near = bounds_of(&near_box);
        let notice = bounds_of(&notice_box);
        let surfaces = bounds_of(&surfaces_box);
        let lone = LoneRunway::of(airport);
        let datum = Datum::of(&airport.arp, airport.elevation);
        let id = airport.id;
        let category = airport.category;
        let airport = Airport {
            id,
            category,
            arp: airport.arp,
            elevation: airport.elevation,
            runways: airport.runways.copy(alloc)?,
        };
        let prepared = PreparedAirport {
            near,
            surfaces,
            notice,
            datum,
            id,
            category,
            hull,
            lone,
            strips,
            airport,
        };
        Ok((prepared, plot))
    }

    /// The airport.
    pub fn airport(&self) -> &Airport
        ensures airport { result.now ≡ self.now }
        ensures held { IsHeldAirport result.now }
    {
        &self.airport
    }

    /// Its name.
    #[inline(always)]
    pub(crate) fn id(&self) -> FieldId
        ensures { result ≡ self.now.id }
    {
        self.id
    }

    /// Its category.
    #[inline(always)]
    pub(crate) fn category(&self) -> Category
        ensures { result ≡ self.now.category }
    {
        self.category
    }

    /// Its horizontal and conical surfaces.
    pub fn hull(&self) -> &Hull
        ensures { result.now ≡ dome_of self.now }
    {
        &self.hull
    }

    /// The surfaces of its runways, in order of their names.
    pub fn strips(&self) -> &[Strip]
        ensures strips { result.now ≡ self.now.runways }
    {
        self.strips.as_slice()
    }

    /// The structure's excess over the limit near the airport (77.17(a)(2)), in tenths of a foot; `None` where it is not above.
    #[inline(always)]
    pub(crate) fn excess_near(&self, structure: &Structure) -> Option<u32>
        ensures { result ≡ near_excess self.now structure.now }
    {
        if !self.near.has(structure.spot()) {
            return None;
        }
        excess_near_limited(&self.datum.point(), self.datum.elevation(), structure)
    }

    /// The notice slope of 77.9(b) that the structure is above, with the excess; `None` where there is none.
    #[inline(always)]
    pub(crate) fn excess_notice(&self, structure: &Structure) -> Option<Slope>
        ensures { result ≡ notice_slope self.now structure.now.at (notice_top structure.now) }
    {
        let top = structure.notice_top();
        if !self.notice.has(structure.spot()) {
            return None;
        }
        self.slope_over(structure.at(), top)
    }

    /// The notice slope of 77.9(b) that a top is above, where the box of 77.9(b) may contain its point.
    #[inline(never)]
    fn slope_over(&self, at: &Point, top: i64) -> Option<Slope>
        requires { IsLevel top }
        ensures { result ≡ notice_slope self.now at.now top }
    {
        match &self.lone {
            Some(lone) => lone.excess(&self.airport, at, top),
            None => excess_notice(&self.airport, at, top),
        }
    }

    /// Whether a surface of 77.19 may cover the point.
    #[inline(always)]
    pub(crate) fn has_surfaces_over(&self, spot: &Spot) -> bool
        ensures none { result ≡ false → (top : ℤ) → IsLevel top
            → of_surfaces spot.now top self.now ≡ [] }
    {
        self.surfaces.has(spot)
    }
}
