//! The area in which the limit near an airport applies.

ghost use Rattle.std.specs.Prelude.{◌≡◌, ◌↔◌, None, IsTrue};
ghost use Rattle.std.specs.Option.{IsSomeAnd, MatchOption};
ghost use Rattle.grid_exact.specs.Area.{Has};
ghost use Rattle.outline_boxes.specs.Boxes.{IsLeastBox};
ghost use Rattle.airfields.specs.Sites.{Site};
ghost use Rattle.height_rules.specs.NearAirport.{near_surface, near_excess};
ghost use Rattle.height_rules.specs.NearAreas.{HasLimit, HoldsDisc, IsNearArea};

use crate::limit::NAUTICAL_MILE;
use crate::near_airport::OUTER_HUNDREDTHS;
use airfields::Airport;
use grid_exact::{Area, Point};

/// Extent of the limit in each coordinate, in whole tenths of a foot: 5.99 nautical miles, rounded down (77.17(a)(2)).
pub const OUTER_REACH: i64 = OUTER_HUNDREDTHS * NAUTICAL_MILE / 100;

/// Whether the airport has the limit: its category is described and it has a long runway.
pub(crate) fn has_limit(airport: &Airport) -> bool
    ensures { IsTrue result ↔ HasLimit airport.now }
{
    airport.category.described() && airport.runways.has_long()
}

/// The least box that contains the disc of 5.99 nautical miles about the reference point.
fn disc_box(arp: &Point) -> Area
    ensures { IsLeastBox (HoldsDisc arp.now) result }
{
    Area {
        x0: arp.x - OUTER_REACH,
        y0: arp.y - OUTER_REACH,
        x1: arp.x + OUTER_REACH,
        y1: arp.y + OUTER_REACH,
    }
}

/// The area of this airport's limit (77.17(a)(2)): the least whole box that contains each whole point within 5.99 nautical miles of
/// its reference point, and so each site that the limit covers. `None` exactly where the airport has no limit: where its category
/// is not described, or no runway is longer than 3,200 feet.
pub fn near_area(airport: &Airport) -> Option<Area>
    ensures exact { MatchOption result (¬ HasLimit airport.now) (IsNearArea airport.now) }
    ensures covers { (s : Site) → (near_surface airport.now s).Covers →
        IsSomeAnd result (λ area. Has area s.at) }
    ensures skips { (s : Site) → ¬ IsSomeAnd result (λ area. Has area s.at) →
        near_excess airport.now s ≡ None }
{
    if !has_limit(airport) {
        return None;
    }
    Some(disc_box(&airport.arp))
}
