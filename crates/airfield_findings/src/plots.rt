//! The placement of an airfield in a tree of areas.

ghost use Rattle.std.specs.Prelude.{◌≡◌, ◌++◌, true, false};
ghost use Rattle.std.specs.List.{All};
ghost use Rattle.std.specs.Option.{option_to_list};
ghost use Rattle.grid_exact.specs.Area.{Has, has_point};
ghost use Rattle.grid_exact.specs.declared.point.Point.{Point as APoint};
ghost use Rattle.airfields.specs.Airfields.{IsHeldAirport, IsHeldHeliport};
ghost use Rattle.airfields.specs.Categories.{is_described};
ghost use Rattle.airfields.specs.declared.airfield.Airfield.TheVariants.{Airport as AnAirport, Heliport as AHeliport};
ghost use Rattle.heliport_surfaces.specs.Areas.{ArePadAreas};
ghost use Rattle.airfield_findings.specs.Beside.{IsBeside};
ghost use Rattle.airfield_findings.specs.Plots.{AreParts, IsJoin, IsOver, IsPlotOf};

use airfields::{Airport, Heliport};
use grid_exact::{Area, Point};
use outline_boxes::{PLANE_LIMIT, joined};
use surface_tree::Plot;

/// The level of the squares for airports with the limit of 77.17(a)(2), whose side of 2^19 tenths of a foot suits the range of that limit.
pub const LARGE_LEVEL: u32 = 7;

/// The level of the squares for all other airfields, with a side of 2^17 tenths of a foot.
pub const SMALL_LEVEL: u32 = 5;

/// The side of the smaller squares.
const SMALL_SIDE: i64 = 131_072;

/// The index of the notice slope's area among the areas of a heliport.
const NOTICE: usize = 6;

/// The least box that contains two boxes, either of which may be absent.
fn joined_some(first: &Option<Area>, second: &Option<Area>) -> Option<Area>
    ensures { IsJoin (option_to_list first.now ++ option_to_list second.now) result }
{
    match first {
        None => *second,
        Some(a) => match second {
            None => *first,
            Some(b) => Some(joined(a, b)),
        },
    }
}

/// A plot east of the grid, where no structure is, for an airfield without surfaces.
fn beside_grid(point: &Point) -> Plot
    ensures { IsBeside point.now result }
{
    Plot {
        area: Area {
            x0: PLANE_LIMIT - SMALL_SIDE,
            y0: point.y,
            x1: PLANE_LIMIT - 1,
            y1: point.y,
        },
        level: SMALL_LEVEL,
    }
}

/// The plot of an airport, from the boxes of its parts: of the limit of 77.17(a)(2), of the notice slope of 77.9(b), and of its surfaces
/// of 77.19. An airport with none of them is placed east of the grid.
pub(crate) fn airport_plot(
    airport: &Airport,
    near: &Option<Area>,
    notice: &Option<Area>,
    surfaces: &Option<Area>,
) -> Plot
    requires held { IsHeldAirport airport.now }
    requires parts { AreParts airport.now near.now notice.now surfaces.now }
    ensures plot { IsPlotOf (AnAirport airport.now) result }
    ensures outside { (x : APoint) → has_point result.area x ≡ false
        → (¬ IsOver near.now x) × (¬ IsOver notice.now x) × (¬ IsOver surfaces.now x) }
{
    let Some(area) = joined_some(near, &joined_some(notice, surfaces)) else {
        return beside_grid(&airport.arp);
    };
    let level = if near.is_some() {
        LARGE_LEVEL
    } else {
        SMALL_LEVEL
    };
    Plot { area, level }
}

/// The plot of a heliport: the area of its notice slope of 77.9(b)(3), which contains those of its surfaces of 77.23. A heliport whose
/// category is not described has no surfaces and is placed east of the grid.
pub(crate) fn heliport_plot(heliport: &Heliport, areas: &[Area]) -> Plot
    requires held { IsHeldHeliport heliport.now }
    requires areas { ArePadAreas heliport.now areas.now }
    ensures plot { IsPlotOf (AHeliport heliport.now) result }
    ensures outside { is_described heliport.now.category ≡ true → (x : APoint)
        → has_point result.area x ≡ false → All (λ a. ¬ Has a x) areas.now }
{
    if !heliport.category.described() {
        return beside_grid(&heliport.a);
    }
    Plot {
        area: areas[NOTICE],
        level: SMALL_LEVEL,
    }
}
