//! The numbers of the horizontal and conical surfaces, and bounds on the distances between their parts.

use airfields::RUNWAY_REACH;
use grid_exact::SETBACK;
use runway_classes::RADIUS_MOST;

/// Height of the horizontal surface above the established airport elevation, in tenths of a foot: 150 feet (77.19(a)).
pub const HORIZONTAL_RISE: i64 = 1_500;

/// Extent of the conical surface outward from the edge of the horizontal one, in tenths of a foot: 4,000 feet (77.19(b)).
pub const CONICAL_RUN: u32 = 40_000;

/// Slope of the conical surface outward: 20 to 1 (77.19(b)).
pub const CONICAL_SLOPE: u32 = 20;

/// Height of the conical surface's outer edge above the horizontal surface, in tenths of a foot.
pub const CONICAL_RISE: u32 = CONICAL_RUN / CONICAL_SLOPE;

/// Greatest radius of an arc, in tenths of a foot.
pub(crate) const ARC_MOST: u32 = RADIUS_MOST as u32;

/// Greatest extent of either surface from the nearest center in one coordinate, in tenths of a foot.
pub(crate) const OUTER_MOST: u32 = ARC_MOST + CONICAL_RUN;

/// Greatest distance of a center from the airport's reference point in one coordinate: a center is a runway end or a setback past it.
pub(crate) const CENTER_REACH: u64 = RUNWAY_REACH + SETBACK as u64;

/// Greatest distance of two centers of an airport in one coordinate.
pub(crate) const CENTERS_APART: u64 = 2 * CENTER_REACH;

/// Greatest extent of either surface from the airport's reference point in one coordinate.
pub(crate) const BOX_REACH: u64 = CENTER_REACH + OUTER_MOST as u64;

/// Greatest distance from a center to a point of the surfaces' box in one coordinate.
pub(crate) const POINT_APART: u64 = CENTERS_APART + OUTER_MOST as u64;
