//! Heights near an airport's reference point.

ghost use Rattle.std.specs.Prelude.{◌≡◌, ◌↔◌, ◌*◌, ◌≤◌, ◌^◌, ◌≤ℤ◌, ◌-ℤ◌, ◌*ℤ◌, pos, IsTrue, IfSome};
ghost use Rattle.std.specs.Int.{int_max};
ghost use Rattle.grid_exact.specs.Excess.{IsExcess, covering_surface};
ghost use Rattle.grid_exact.specs.Level.{IsLevel};
ghost use Rattle.grid_exact.specs.Root.{AtLeastRoot};
ghost use Rattle.grid_exact.specs.Vector.{length_of};
ghost use Rattle.airfields.specs.declared.airfield.Airport.{Airport as AnAirport};
ghost use Rattle.airfields.specs.declared.limits.TheConstants.{ELEVATION_LEAST};
ghost use Rattle.height_rules.specs.Heights.{standards_top};
ghost use Rattle.height_rules.specs.NearAirport.{near_surface, near_excess};
ghost use Rattle.height_rules.specs.Limits.{IsAboveLimit, IsAtLimit, IsLow};
ghost use Rattle.height_rules.specs.NearAreas.{IsLimited};

use crate::area::has_limit;
use crate::heights::TOP_MOST;
use crate::limit::{INNER_HEIGHT, NAUTICAL_MILE, NearLimit, is_inside};
use crate::structure::Structure;
use airfields::{Airport, Filing};
use grid_exact::{Point, Vector, flat_excess};

/// Range of the limit in hundredths of a nautical mile: 5.99 nautical miles (77.17(a)(2)).
pub const OUTER_HUNDREDTHS: i64 = 599;

/// The square of the greatest distance at which the limit applies, in square tenths of a foot, rounded down.
const OUTER_SQUARE: u64 = (OUTER_HUNDREDTHS * NAUTICAL_MILE * (OUTER_HUNDREDTHS * NAUTICAL_MILE)
    / 10_000) as u64;

/// The square of a number that is small enough.
fn squared(number: u64) -> u64
    requires { number ≤ 2 ^ 27 }
    ensures value { result ≡ number * number }
    ensures size { result ≤ 2 ^ 54 }
{
    number * number
}

/// The square of the distance between the structure and the airport's reference point.
fn square_distance(arp: &Point, at: &Point) -> u64
    ensures value { result ≡ length_of (at.now.x -ℤ arp.now.x) (at.now.y -ℤ arp.now.y) }
    ensures size { result ≤ 2 ^ 55 }
{
    let way = Vector::between(arp, at);
    squared(way.x.unsigned_abs()) + squared(way.y.unsigned_abs())
}

/// Whether a point at this squared distance is at most 5.99 nautical miles from the airport's reference point.
#[tactic(auto, using(crate::proofs::NearFacts::outer))]
fn is_within(square_distance: u64) -> bool
    ensures reach { IsTrue result ↔ AtLeastRoot (OUTER_HUNDREDTHS *ℤ NAUTICAL_MILE) (pos 100)
        square_distance }
    ensures size { IsTrue result → square_distance ≤ 2 ^ 40 }
{
    square_distance <= OUTER_SQUARE
}

/// The higher of the ground elevation at the site and the airport elevation.
fn base(elevation: i64, filing: &Filing) -> i64
    ensures value { result ≡ int_max filing.now.terrain elevation }
    ensures least { ELEVATION_LEAST ≤ℤ result }
{
    filing.ground.max(elevation)
}

/// The excess of `top` over the limit at a point at this squared distance; `None` where it is not above.
fn excess_at(base: i64, square_distance: u64, top: i64) -> Option<u32>
    requires low { IsLow base }
    requires short { square_distance ≤ 2 ^ 40 }
    requires top { IsLevel top }
    ensures exact { IsExcess (covering_surface (IsAboveLimit square_distance base)
        (IsAtLimit square_distance base)) top result }
    ensures size { IfSome result (λ e. e ≤ 2 ^ 26) }
{
    if is_inside(square_distance) {
        return flat_excess(base + INNER_HEIGHT, top);
    }
    NearLimit::new(base, square_distance).excess(top)
}

/// The structure's excess over the limit of any airport that has one, with this reference point and elevation. A top not above the
/// lowest level of the limit is rejected before any distance is computed; that also rejects airports with an elevation that nothing
/// else here bounds.
#[inline(always)]
fn excess_over_limit(arp: &Point, elevation: i64, filing: &Filing, top: i64) -> Option<u32>
    requires top { top ≡ standards_top filing.now }
    requires level { IsLevel top }
    requires most { top ≤ℤ TOP_MOST }
    ensures exact { (a : AnAirport) → IsLimited a arp.now elevation →
        IsExcess (near_surface a filing.now) (standards_top filing.now) result }
    ensures size { IfSome result (λ e. e ≤ 2 ^ 26) }
{
    let base = base(elevation, filing);
    if top - INNER_HEIGHT <= base {
        return None;
    }
    let square = square_distance(arp, &filing.at);
    if !is_within(square) {
        return None;
    }
    excess_at(base, square, top)
}

/// The structure's excess over the limit of 77.17(a)(2) of an airport that is known to have one, from its reference point and
/// elevation alone.
#[tactic(auto, using(crate::proofs::NearFacts::near_listed))]
#[inline(always)]
pub fn excess_near_limited(arp: &Point, elevation: i64, structure: &Structure) -> Option<u32>
    ensures exact { (a : AnAirport) → IsLimited a arp.now elevation →
        IsExcess (near_surface a structure.now) (standards_top structure.now) result }
    ensures value { (a : AnAirport) → IsLimited a arp.now elevation →
        result ≡ near_excess a structure.now }
{
    excess_over_limit(
        arp,
        elevation,
        structure.filing(),
        structure.standards_top(),
    )
}

/// The elevation of an airport.
fn elevation(airport: &Airport) -> i64
    ensures { result ≡ airport.now.elevation }
{
    airport.elevation
}

/// The structure's excess over this airport's limit (77.17(a)(2)), in tenths of a foot. The limit is 200 feet above the higher of
/// ground and airport within 3 nautical miles of the reference point, and rises by 100 feet for each further mile up to 5.99. `None`
/// where the top is not above it, the category is not described, or no runway is longer than 3,200 feet.
pub fn excess_near_airport(airport: &Airport, filing: &Filing) -> Option<u32>
    ensures exact { IsExcess (near_surface airport.now filing.now) (standards_top filing.now)
        result }
    ensures value { result ≡ near_excess airport.now filing.now }
{
    if !has_limit(airport) {
        return None;
    }
    excess_near_limited(&airport.arp, elevation(airport), &Structure::of(filing))
}
