//! The numbers of 77.23 and 77.9(b)(3). Lengths are in tenths of a foot; a slope is the outward distance per unit of rise.

/// Length of an approach surface: 4,000 feet (77.23(b)).
pub(crate) const APPROACH_LENGTH: i64 = 40_000;

/// Width of an approach surface at its outer end: 500 feet (77.23(b)).
pub(crate) const APPROACH_WIDTH: i64 = 5_000;

/// The slope of the approach surfaces of civil heliports: 8 to 1 (77.23(b)).
pub(crate) const CIVIL_SLOPE: i64 = 8;

/// The slope of the approach surfaces of military heliports: 10 to 1 (77.23(b)).
pub(crate) const MILITARY_SLOPE: i64 = 10;

/// The slope of the transitional surfaces: 2 to 1 (77.23(c)).
pub(crate) const TRANSITION_SLOPE: i64 = 2;

/// Greatest distance of the transitional surfaces from the axis: 250 feet (77.23(c)).
pub(crate) const TRANSITION_REACH: i64 = 2_500;

/// The slope of notice, outward from the takeoff and landing area: 25 to 1 (77.9(b)(3)).
pub(crate) const NOTICE_SLOPE: u128 = 25;

/// Extent of the slope of notice from the nearest point of the area: 5,000 feet (77.9(b)(3)).
pub(crate) const NOTICE_RANGE: u128 = 50_000;

/// Total rise of the slope of notice: 200 feet.
pub(crate) const NOTICE_RISE: i64 = (NOTICE_RANGE / NOTICE_SLOPE) as i64;

/// Denominator of the growth of an approach surface's half width.
pub(crate) const SIDE_SCALE: i64 = 2 * APPROACH_LENGTH;

/// Factor of heights beside a boundary, where distances to a side are doubled.
pub(crate) const SIDE_SLOPE: i64 = 2 * TRANSITION_SLOPE;

/// Denominator of heights beside an approach surface, in addition to its slope.
pub(crate) const RISE_SCALE: i64 = APPROACH_LENGTH * SIDE_SLOPE;
