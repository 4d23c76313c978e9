//! The limits of one runway, and of one heliport.

ghost use Rattle.std.specs.Prelude.{◌≡◌, ◌≤◌, ◌↔◌, IsTrue};
ghost use Rattle.airfields.specs.Runways.{distance_apart, length_square, is_within_length, is_elevation, has_elevations, IsProper};
ghost use Rattle.airfields.specs.Runways.{effective, is_planned, is_precision, is_precision_on_utility, is_near, has_near_ends, HasNearEnds};
ghost use Rattle.airfields.specs.Airfields.{axis_square, is_axis, is_width, has_heliport_shape, IsHeldAirport, IsHeldHeliport};

use crate::airfield::{Airport, Heliport};
use crate::runway::{Runway, RunwayEnd};
use crate::runways::MOST_RUNWAYS;
use grid_exact::{COORDINATE_LIMIT, Point, Vector};
use runway_classes::ApproachKind;

/// The least allowed elevation, in tenths of a foot.
pub const ELEVATION_LEAST: i64 = -20_000;

/// The greatest allowed elevation, in tenths of a foot.
pub const ELEVATION_MOST: i64 = 200_000;

/// The least length of a runway, from end to end, in tenths of a foot.
pub const RUNWAY_LEAST: u64 = 1_000;

/// The greatest length of a runway, from end to end, in tenths of a foot.
pub const RUNWAY_MOST: u64 = 200_000;

/// Greatest distance of a runway end from the airport's reference point in each coordinate, in tenths of a foot.
pub const RUNWAY_REACH: u64 = 400_000;

/// The least length of the axis of a heliport's takeoff and landing area, in tenths of a foot.
pub const HELIPORT_AXIS_LEAST: u64 = 100;

/// The greatest length of the axis of a heliport's takeoff and landing area, in tenths of a foot.
pub const HELIPORT_AXIS_MOST: u64 = 10_000;

/// The least width of a heliport's takeoff and landing area, in tenths of a foot.
pub const HELIPORT_WIDTH_LEAST: i64 = 100;

/// The greatest width of a heliport's takeoff and landing area, in tenths of a foot.
pub const HELIPORT_WIDTH_MOST: i64 = 5_000;

/// Greatest distance of two points of the grid in one coordinate, in tenths of a foot.
const GRID_SPAN: u64 = 2 * COORDINATE_LIMIT as u64;

/// The distance of two points from east to west, in tenths of a foot.
fn east_span(a: &Point, b: &Point) -> u64
    ensures value { result ≡ distance_apart a.now.x b.now.x }
    ensures most { result ≤ GRID_SPAN }
{
    a.x.abs_diff(b.x)
}

/// The distance of two points from north to south, in tenths of a foot.
fn north_span(a: &Point, b: &Point) -> u64
    ensures value { result ≡ distance_apart a.now.y b.now.y }
    ensures most { result ≤ GRID_SPAN }
{
    a.y.abs_diff(b.y)
}

/// Whether an elevation is within its limits.
pub fn is_allowed_elevation(z: &i64) -> bool
    ensures { result ≡ is_elevation z.now }
{
    ELEVATION_LEAST <= *z && *z <= ELEVATION_MOST
}

impl RunwayEnd {
    /// Whether it has or is planned for precision instrument approaches.
    pub fn is_precision(&self) -> bool
        ensures { result ≡ is_precision (effective self.now) }
    {
        matches!(self.effective(), ApproachKind::Precision)
    }

    /// Whether the end is near enough to the reference point in each coordinate.
    fn is_near(&self, arp: &Point) -> bool
        ensures { result ≡ is_near arp.now self.now.at }
    {
        east_span(&self.at, arp) <= RUNWAY_REACH && north_span(&self.at, arp) <= RUNWAY_REACH
    }
}

impl Runway {
    /// The exact square of the runway's length, from end to end, in square tenths of a foot.
    #[tactic(auto, using(crate::proofs::Lengths::squares_fit))]
    pub fn square_length(&self) -> u64
        ensures { result ≡ length_square self.now }
    {
        let east = east_span(&self.end1.at, &self.end2.at);
        let north = north_span(&self.end1.at, &self.end2.at);
        east * east + north * north
    }

    /// Whether the runway's length is within its limits; the exact square is compared.
    pub fn is_within_length(&self) -> bool
        ensures { result ≡ is_within_length self.now }
    {
        let square = self.square_length();
        RUNWAY_LEAST * RUNWAY_LEAST <= square && square <= RUNWAY_MOST * RUNWAY_MOST
    }

    /// Whether an approach is planned for one of its ends.
    pub fn is_planned(&self) -> bool
        ensures { result ≡ is_planned self.now }
    {
        self.end1.planned.is_some() || self.end2.planned.is_some()
    }

    /// Whether the elevations of both ends are within their limits.
    pub fn has_elevations(&self) -> bool
        ensures { result ≡ has_elevations self.now }
    {
        is_allowed_elevation(&self.end1.z) && is_allowed_elevation(&self.end2.z)
    }

    /// Whether it is a utility runway with an end that has or is planned for precision approaches.
    pub fn is_precision_on_utility(&self) -> bool
        ensures { result ≡ is_precision_on_utility self.now }
    {
        self.utility && (self.end1.is_precision() || self.end2.is_precision())
    }

    /// Whether the runway is within all limits that do not depend on its airport.
    pub fn is_proper(&self) -> bool
        ensures { IsTrue result ↔ IsProper self.now }
    {
        self.is_within_length() && self.has_elevations() && !self.is_precision_on_utility()
    }

    /// Whether both ends are near enough to the reference point.
    pub fn has_near_ends(&self, arp: &Point) -> bool
        ensures value { result ≡ has_near_ends arp.now self.now }
        ensures near { IsTrue result ↔ HasNearEnds arp.now self.now }
    {
        self.end1.is_near(arp) && self.end2.is_near(arp)
    }
}

/// Whether the width of a heliport's takeoff and landing area is within its limits.
fn is_allowed_width(width: &i64) -> bool
    ensures { result ≡ is_width width.now }
{
    HELIPORT_WIDTH_LEAST <= *width && *width <= HELIPORT_WIDTH_MOST
}

impl Heliport {
    /// The exact square of the length of the axis of its takeoff and landing area, in square tenths of a foot.
    pub fn square_axis(&self) -> u128
        ensures { result ≡ axis_square self.now }
    {
        Vector::between(&self.a, &self.b).square_length()
    }

    /// Whether the length of the axis is within its limits; the exact square is compared.
    fn has_allowed_axis(&self) -> bool
        ensures { result ≡ is_axis self.now }
    {
        let square = self.square_axis();
        (HELIPORT_AXIS_LEAST * HELIPORT_AXIS_LEAST) as u128 <= square
            && square <= (HELIPORT_AXIS_MOST * HELIPORT_AXIS_MOST) as u128
    }

    /// Whether the axis and the width of its takeoff and landing area are within their limits.
    pub fn has_allowed_shape(&self) -> bool
        ensures { result ≡ has_heliport_shape self.now }
    {
        self.has_allowed_axis() && is_allowed_width(&self.width)
    }

    /// Whether the heliport may stand in the register: its elevation and its shape are within their limits.
    pub fn is_held(&self) -> bool
        ensures { IsTrue result ↔ IsHeldHeliport self.now }
    {
        is_allowed_elevation(&self.elevation) && self.has_allowed_shape()
    }
}

impl Airport {
    /// Whether the airport may stand in the register: at most `MOST_RUNWAYS` runways, each within its limits and near the reference point,
    /// and the elevation within its limits.
    pub fn is_held(&self) -> bool
        ensures { IsTrue result ↔ IsHeldAirport self.now }
    {
        let runways = self.runways.as_slice(); // its contract says that they stand in order of name
        is_allowed_elevation(&self.elevation)
            && runways.len() <= MOST_RUNWAYS
            && self.runways.have_near_ends(&self.arp)
            && self.runways.are_proper()
    }
}
