//! The areas of the surfaces of an airport's runways.

ghost use Rattle.std.specs.Prelude.{◌≡◌, ◌++◌, List, OnOk};
ghost use Rattle.std.specs.List.{All};
ghost use Rattle.airfields.specs.Runways.{IsProper};
ghost use Rattle.grid_exact.specs.declared.area.Area.{Area as AnArea};
ghost use Rattle.airfield_findings.specs.Areas.{AreRunwayAreas};
ghost use Rattle.oe_findings.specs.Outside.{LeavesRunwaysOut};

use airfields::Runway;
use grid_exact::{Area, NoMemory};
use imaginary_surfaces::Strip;

/// Appends the areas of the surfaces of runways (77.19(c) to (e)), one runway after the other. `hull` is the area of the conical surface,
/// at which transitional surfaces end.
pub(crate) fn push_runways(
    areas: &mut Vec<Area>,
    runways: &[Runway],
    hull: &Area,
) -> Result<(), NoMemory>
    requires proper { All IsProper runways.now }
    ensures { OnOk result ((more : List AnArea) × AreRunwayAreas hull.now runways.now more
        × LeavesRunwaysOut hull.now runways.now more
        × (areas.new.items ≡ areas.old.items ++ more)) }
{
    for runway in runways {
        areas.extend_from_slice(&Strip::of(runway).areas(hull))?;
    }
    Ok(())
}
