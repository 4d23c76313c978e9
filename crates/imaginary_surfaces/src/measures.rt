//! The numbers of 77.19(d) and (e) that are the same for all classes, and numbers derived from them. Lengths and elevations are in
//! tenths of a foot.

use runway_classes::{PRECISION_SLOPE, PRECISION_SLOPE2, PRECISION_SPLIT, WIDENING_SCALE};

/// Slope of a transitional surface: 7 to 1, at right angles to the runway centerline (77.19(e)).
pub const TRANSITION_SLOPE: i64 = 7;

/// Extent of a transitional surface beside the part of a precision approach surface beyond the limits of the conical surface, in tenths
/// of a foot: 5,000 feet (77.19(e)).
pub const TRANSITION_REACH: i64 = 50_000;

/// The second slope of a precision approach surface begins where the first ends, 200 feet above the end of the primary surface. It is the
/// slope that would begin 50 feet below that end, since 40 to 1 rises by 250 feet over the same distance (77.19(d)).
pub const SECOND_SLOPE_DROP: i64 = PRECISION_SPLIT / PRECISION_SLOPE2
    - PRECISION_SPLIT / PRECISION_SLOPE;

/// Factor from a width to half the width in fortieths.
pub(crate) const HALF_WIDTH_SCALE: i64 = WIDENING_SCALE / 2;

/// Factor of heights beside the primary surface: distances there are doubled, since half of a width need not be whole.
pub(crate) const PRIMARY_FACTOR: i64 = 2 * TRANSITION_SLOPE;

/// Factor of heights beside an approach surface, per unit of its slope: distances there are in fortieths, times the slope.
pub(crate) const APPROACH_FACTOR: i64 = WIDENING_SCALE * TRANSITION_SLOPE;

/// The 5,000 feet in fortieths.
pub(crate) const SCALED_REACH: i64 = WIDENING_SCALE * TRANSITION_REACH;

/// Greatest growth of an approach surface's half width per 40 of distance.
pub(crate) const MOST_WIDENING: i64 = 6;
