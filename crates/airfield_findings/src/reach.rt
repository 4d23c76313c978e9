//! The areas covered by the surfaces of an airport.

ghost use Rattle.std.specs.Prelude.{◌≡◌, ◌∷◌, ◌<◌, ℤ, [], List, length};
ghost use Rattle.std.specs.List.{All};
ghost use Rattle.grid_exact.specs.Level.{IsLevel};
ghost use Rattle.grid_exact.specs.declared.area.Area.{Area as AnArea};
ghost use Rattle.grid_exact.specs.declared.point.Point.{Point as APoint};
ghost use Rattle.airfields.specs.Airfields.{IsHeldAirport};
ghost use Rattle.airfields.specs.declared.airfield.Airport.{Airport as AnAirport};
ghost use Rattle.horizontal_hull.specs.Arcs.{dome_of};
ghost use Rattle.imaginary_surfaces.specs.Areas.{AreStripAreas};
ghost use Rattle.outline_boxes.specs.Boxes.{Encloses, IsLeastBox};
ghost use Rattle.airfield_findings.specs.Areas.{AreRunwayAreas, AreSurfaceAreas};
ghost use Rattle.airfield_findings.specs.Plots.{IsJoin, IsOver};
ghost use Rattle.airfield_findings.specs.Entries.{of_surfaces};
ghost use Rattle.airfield_findings.specs.Reaches.{IsRunwayReach};

use grid_exact::Area;
use horizontal_hull::Hull;
use imaginary_surfaces::Strip;
use outline_boxes::joined;

/// The least box that contains several boxes.
fn joined_all(areas: &[Area]) -> Area
    requires some { 0 < length areas.now }
    ensures { IsLeastBox (λ b. All (λ a. Encloses b a) areas.now) result }
{
    let mut all = areas[0];
    for area in areas {
        all = joined(&all, area);
    }
    all
}

/// The box of all surfaces of a runway.
fn strip_area(strip: &Strip, hull: &Area) -> Area
    ensures reach { IsRunwayReach hull.now strip.now result }
    ensures listed { (six : List AnArea) × AreStripAreas strip.now hull.now six
        × IsLeastBox (λ b. All (λ a. Encloses b a) six) result }
{
    joined_all(&strip.areas(hull))
}

/// The box of the surfaces of an airport's runways, and of its horizontal and conical surfaces, whose box is `hull`.
fn strips_area(strips: &[Strip], hull: &Area) -> Area
    ensures runways { All (λ r. IsRunwayReach hull.now r result) strips.now }
    ensures listed { (areas : List AnArea) × AreRunwayAreas hull.now strips.now areas
        × IsLeastBox (λ b. All (λ a. Encloses b a) (hull.now ∷ areas)) result }
{
    let mut all = *hull;
    for strip in strips {
        all = joined(&all, &strip_area(strip, hull));
    }
    all
}

/// The box of the surfaces of 77.19 of an airport; `None` where it has none.
pub(crate) fn surfaces_area(hull: &Hull, strips: &[Strip]) -> Option<Area>
    ensures outside { (a : AnAirport) → IsHeldAirport a → hull.now ≡ dome_of a
        → strips.now ≡ a.runways → (x : APoint) (top : ℤ) → IsLevel top → ¬ IsOver result x
        → of_surfaces x top a ≡ [] }
    ensures listed { (a : AnAirport) → hull.now ≡ dome_of a → strips.now ≡ a.runways
        → (areas : List AnArea) × AreSurfaceAreas a areas × IsJoin areas result }
{
    let Some(areas) = hull.areas() else {
        return None;
    };
    Some(strips_area(strips, &areas.conical))
}
