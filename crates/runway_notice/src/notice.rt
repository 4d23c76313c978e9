//! Notice by the slope from the nearest runway of an airport.

ghost use Rattle.std.specs.Prelude.{◌≡◌, ◌≤◌, ◌^◌, true, unsigned_abs};
ghost use Rattle.grid_exact.specs.Level.{IsLevel};
ghost use Rattle.airfields.specs.Airfields.{IsHeldAirport};
ghost use Rattle.airfields.specs.Categories.{is_described};
ghost use Rattle.runway_notice.specs.Areas.{is_far as is_far_from};
ghost use Rattle.runway_notice.specs.Candidates.{IsCandidate};
ghost use Rattle.runway_notice.specs.Measures.{fraction};
ghost use Rattle.runway_notice.specs.Slopes.{ratio_of, sub_of as sub_of_runways};
ghost use Rattle.runway_notice.specs.Surfaces.{slope_excess};
ghost use Rattle.runway_notice.specs.Notices.{IsNoticeSlope, notice_slope};

use crate::candidate::Candidate;
use crate::guesses::Guesses;
use crate::limit::SlopeLimit;
use crate::nearest::nearest;
use crate::slope::{RANGE_B1, Slope, Sub};
use crate::square_distance::SquareDistance;
use airfields::{Airport, RUNWAY_REACH, Runways};
use grid_exact::Point;

/// Greatest distance in one coordinate from the airport's reference point to a point that a runway's slope covers, in tenths of a foot:
/// the reach of runway ends plus the range of the slope of 77.9(b)(1), the longer one.
pub const SLOPE_REACH: u64 = RUNWAY_REACH + RANGE_B1 as u64;

/// The slope that the runways of an airport have (77.9(b)(1), (2)).
pub(crate) fn sub_of(runways: &Runways) -> Sub
    ensures { result ≡ sub_of_runways runways.now }
{
    if runways.has_long() { Sub::B1 } else { Sub::B2 }
}

/// Whether the point is too far from the airport's reference point for any slope from its runways. It is tested first, since most airports
/// are far from most structures, and their runways then need not be measured.
fn is_far(arp: &Point, point: &Point) -> bool
    ensures { result ≡ is_far_from arp.now point.now }
{
    point.x.abs_diff(arp.x) > SLOPE_REACH || point.y.abs_diff(arp.y) > SLOPE_REACH
}

/// The slope from the elevation `base` at a point at this distance.
fn limit(distance: SquareDistance, base: i64, sub: Sub) -> SlopeLimit
    requires size { unsigned_abs base ≤ 2 ^ 19 }
    ensures distance { fraction result.distance ≡ fraction distance }
    ensures base { result.base ≡ base }
    ensures ratio { result.ratio ≡ ratio_of sub }
{
    SlopeLimit {
        distance,
        base,
        ratio: sub.ratio(),
    }
}

/// The excess of `top` over the slope from a runway of the airport at the point. A top that is not above the runway is rejected before any
/// distance is compared.
#[inline(always)]
pub(crate) fn excess_over(
    airport: &Airport,
    runway: &Candidate,
    guesses: &Guesses,
    sub: Sub,
    point: &Point,
    top: i64,
) -> Option<u32>
    requires described { is_described airport.now.category ≡ true }
    requires candidate { IsCandidate point.now runway.now }
    requires sub { sub ≡ sub_of_runways airport.now.runways }
    requires top { IsLevel top }
    ensures { result ≡ slope_excess airport.now runway.now.runway.now point.now top }
{
    let base = runway.elevation(point, guesses);
    if top <= base {
        return None;
    }
    let distance = runway.distance();
    if !distance.is_at_most(sub.range()) {
        return None;
    }
    limit(distance, base, sub).excess(runway, guesses, sub, point, top)
}

/// The slope that `top` is above, the same as `excess_notice`. It is a function of its own so that the further contract of `excess_notice`
/// is proved once, from this and the lemma, and not at each return.
fn slope_over(a: &Airport, x: &Point, top: i64) -> Option<Slope>
    requires held { IsHeldAirport a.now }
    requires top { IsLevel top }
    ensures { result ≡ notice_slope a.now x.now top }
{
    if !a.category.described() {
        return None;
    }
    if is_far(&a.arp, x) {
        return None;
    }
    // No `?` here: it gets no proof on a struct with an `Offset` beside a reference.
    let Some(nearest) = nearest(a.runways.as_slice(), x) else {
        return None;
    };
    let sub = sub_of(&a.runways);
    let guesses = Guesses::of(nearest.runway);
    let excess = excess_over(a, &nearest, &guesses, sub, x, top)?;
    Some(Slope {
        sub,
        runway: nearest.runway.name,
        excess,
    })
}

/// The excess of `top` over the slope of 77.9(b)(1) or (2) at the point, in tenths of a foot, with the slope and the runway. The slope
/// rises from the nearest point of the nearest runway of a described airport: 100 to 1 for 20,000 feet where the longest runway is longer
/// than 3,200 feet, else 50 to 1 for 10,000 feet. `None` where the top is not above it, the point is farther away, the category is not
/// described, or there is no runway. Of runways at the same distance the one with the lower centerline counts, then the first by name.
pub fn excess_notice(a: &Airport, x: &Point, top: i64) -> Option<Slope>
    requires held { IsHeldAirport a.now }
    requires top { IsLevel top }
    ensures exact { IsNoticeSlope a.now x.now top result }
    ensures value { result ≡ notice_slope a.now x.now top }
{
    slope_over(a, x, top)
}
