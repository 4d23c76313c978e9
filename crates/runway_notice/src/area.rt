//! The area of the notice slope from the runways of an airport.

ghost use Rattle.std.specs.Prelude.{◌≡◌, ◌<◌, ◌≤ℤ◌, ℤ, pos, length, None};
ghost use Rattle.std.specs.List.{Contains};
ghost use Rattle.std.specs.Option.{IsSomeAnd, MatchOption};
ghost use Rattle.grid_exact.specs.Area.{Has};
ghost use Rattle.grid_exact.specs.declared.point.Point.{Point};
ghost use Rattle.outline_boxes.specs.Boxes.{IsLeastBox};
ghost use Rattle.airfields.specs.Airfields.{IsHeldAirport};
ghost use Rattle.airfields.specs.declared.runway.Runway.{Runway};
ghost use Rattle.runway_notice.specs.NoticeAreas.{HasSlope, HoldsEnds, HoldsRunways, IsNoticeArea, area_around as around_of};
ghost use Rattle.runway_notice.specs.Notices.{notice_slope};
ghost use Rattle.runway_notice.specs.Surfaces.{slope_surface};

use crate::notice::sub_of;
use crate::slope::RANGE_B1;
use airfields::{Airport, Runway};
use grid_exact::{Area, Point};
use outline_boxes::joined;

/// The box of the disc of a radius about a point.
fn around(point: &Point, radius: i64) -> Area
    requires least { pos 0 ≤ℤ radius }
    requires most { radius ≤ℤ RANGE_B1 }
    ensures { result ≡ around_of point.now radius }
{
    Area {
        x0: point.x - radius,
        y0: point.y - radius,
        x1: point.x + radius,
        y1: point.y + radius,
    }
}

/// The least box that contains the discs about both ends of a runway.
fn ends_box(runway: &Runway, radius: i64) -> Area
    requires least { pos 0 ≤ℤ radius }
    requires most { radius ≤ℤ RANGE_B1 }
    ensures { IsLeastBox (HoldsEnds radius runway.now) result }
{
    joined(
        &around(&runway.end1.at, radius),
        &around(&runway.end2.at, radius),
    )
}

/// The least box that contains the discs about the ends of all runways.
fn runways_box(runways: &[Runway], radius: i64) -> Area
    requires some { 0 < length runways.now }
    requires least { pos 0 ≤ℤ radius }
    requires most { radius ≤ℤ RANGE_B1 }
    ensures { IsLeastBox (HoldsRunways radius runways.now) result }
{
    let mut least = ends_box(&runways[0], radius);
    for runway in runways {
        least = joined(&least, &ends_box(runway, radius));
    }
    least
}

/// The area of the slope of 77.9(b)(1) or (2) from the runways of an airport: the least whole box that contains the ends of all runways
/// with a margin of the slope's horizontal distance, 20,000 feet where a runway is longer than 3,200 feet, else 10,000 feet. It contains
/// every point that a slope from a runway covers. `None` exactly where the airport has no slope: where its category is not described, or
/// it has no runway.
pub fn notice_area(a: &Airport) -> Option<Area>
    requires held { IsHeldAirport a.now }
    ensures exact { MatchOption result (¬ HasSlope a.now) (IsNoticeArea a.now) }
    ensures covers { (r : Runway) (x : Point) → Contains a.now.runways r →
        (slope_surface a.now r x).Covers → IsSomeAnd result (λ area. Has area x) }
    ensures skips { (x : Point) (top : ℤ) → ¬ IsSomeAnd result (λ area. Has area x) →
        notice_slope a.now x top ≡ None }
{
    if !a.category.described() {
        return None;
    }
    let runways = a.runways.as_slice();
    if runways.is_empty() {
        return None;
    }
    Some(runways_box(runways, sub_of(&a.runways).range()))
}
