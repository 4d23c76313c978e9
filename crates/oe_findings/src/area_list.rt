//! The list of an airfield's areas.

ghost use Rattle.std.specs.Prelude.{◌≡◌, ◌++◌, List, IfOk, OnOk};
ghost use Rattle.std.specs.List.{list_any};
ghost use Rattle.std.specs.Option.{option_to_list};
ghost use Rattle.airfields.specs.Airfields.{IsHeld, IsHeldAirport, IsHeldHeliport};
ghost use Rattle.grid_exact.specs.Area.{has_point};
ghost use Rattle.airfields.specs.declared.airfield.Airfield.TheVariants.{Airport as AnAirport, Heliport as AHeliport};
ghost use Rattle.airfield_findings.specs.Areas.{AreAirportAreas, AreAreas, AreHeliportAreas, AreSurfaceAreas};
ghost use Rattle.oe_findings.specs.Outside.{LeavesOut, LeavesSurfacesOut};

use crate::runways::push_runways;
use airfields::{Airfield, Airport, Heliport};
use grid_exact::{Area, NoMemory, Point};
use height_rules::near_area;
use heliport_surfaces::Pad;
use horizontal_hull::Hull;
use runway_notice::notice_area;
use std::alloc::Global;
use std::marker::Model;

/// The areas of the surfaces of an airfield, one for each of its surfaces. For an airport these are the areas of the limit of
/// 77.17(a)(2), of the horizontal and conical surfaces of 77.19(a) and (b), of the six surfaces of 77.19(c) to (e) of each runway, and of
/// the notice slope of 77.9(b)(1) or (2); for a heliport, of the six surfaces of 77.23 and of the notice slope of 77.9(b)(3). Contracts
/// see it as their list, in that order.
#[derive(Drop)]
pub struct AreaList {
    areas: Vec<Area>,
}

impl Model for AreaList {
    ghost use Rattle.std.specs.Prelude.{List};
    ghost use Rattle.grid_exact.specs.declared.area.Area.{Area};

    ghost Value = { List Area };

    ghost view = { λ l. l.areas.items };
}

/// Appends an area, if there is one.
fn push_some(areas: &mut Vec<Area>, area: &Option<Area>) -> Result<(), NoMemory>
    ensures { OnOk result (areas.new.items ≡ areas.old.items ++ option_to_list area.now) }
{
    if let Some(area) = area {
        areas.push(*area)?;
    }
    Ok(())
}

/// Appends the areas of an airport's surfaces of 77.19: of the horizontal and conical surfaces, and of the surfaces of its runways.
fn push_surfaces(alloc: Global, areas: &mut Vec<Area>, airport: &Airport) -> Result<(), NoMemory>
    requires held { IsHeldAirport airport.now }
    ensures { OnOk result ((more : List Area) × AreSurfaceAreas airport.now more
        × LeavesSurfacesOut airport.now more × (areas.new.items ≡ areas.old.items ++ more)) }
{
    let hull = Hull::of(alloc, airport)?;
    let Some(surfaces) = hull.areas() else {
        return Ok(());
    };
    areas.push(surfaces.horizontal)?;
    areas.push(surfaces.conical)?;
    push_runways(areas, airport.runways.as_slice(), &surfaces.conical)
}

/// The areas of an airport.
fn of_airport(alloc: Global, airport: &Airport) -> Result<Vec<Area>, NoMemory>
    requires held { IsHeldAirport airport.now }
    ensures areas { IfOk result (λ l. AreAirportAreas airport.now l.items) }
    ensures outside { IfOk result (λ l. LeavesOut (AnAirport airport.now) l.items) }
{
    let mut areas = Vec::new(alloc);
    push_some(&mut areas, &near_area(airport))?;
    push_surfaces(alloc, &mut areas, airport)?;
    push_some(&mut areas, &notice_area(airport))?;
    Ok(areas)
}

/// The areas of a heliport.
fn of_heliport(alloc: Global, heliport: &Heliport) -> Result<Vec<Area>, NoMemory>
    requires held { IsHeldHeliport heliport.now }
    ensures areas { IfOk result (λ l. AreHeliportAreas heliport.now l.items) }
    ensures outside { IfOk result (λ l. LeavesOut (AHeliport heliport.now) l.items) }
{
    if !heliport.category.described() {
        return Ok(Vec::new(alloc));
    }
    Ok(Vec::from_slice(alloc, &Pad::of(heliport).areas())?)
}

impl AreaList {
    /// The areas of an airfield within the limits of the register. The airfield has no standard and no notice slope for a structure at a
    /// point outside all of them.
    ///
    /// # Errors
    ///
    /// `NoMemory` where memory was refused.
    pub fn of(alloc: Global, a: &Airfield) -> Result<AreaList, NoMemory>
        requires held { IsHeld a.now }
        ensures areas { IfOk result (λ l. AreAreas a.now l) }
        ensures outside { IfOk result (λ l. LeavesOut a.now l) }
    {
        let areas = match a {
            Airfield::Airport(airport) => of_airport(alloc, airport)?,
            Airfield::Heliport(heliport) => of_heliport(alloc, heliport)?,
        };
        Ok(AreaList { areas })
    }

    /// Whether one of the areas contains the point.
    pub fn has(&self, x: &Point) -> bool
        ensures { result ≡ list_any (λ a. has_point a x.now) self.now }
    {
        self.areas.iter().any(|area| area.has(x))
    }
}
