//! The sizes and slopes of a class of runways.

/// Denominator of the growth of an approach surface's half width, which grows by `k` per 40 of distance (77.19(d)).
pub const WIDENING_SCALE: i64 = 40;

/// Inner slope of a precision approach surface, for its first 10,000 feet: 50 to 1 (77.19(d)).
pub const PRECISION_SLOPE: i64 = 50;

/// Outer slope of a precision approach surface, beyond its first 10,000 feet: 40 to 1 (77.19(d)).
pub const PRECISION_SLOPE2: i64 = 40;

/// Length of the inner part of a precision approach in tenths of a foot: 10,000 feet (77.19(d)).
pub const PRECISION_SPLIT: i64 = 100_000;

/// The approach surface of one end of a runway (77.19(d)).
#[derive(Clone, Copy, Debug, PartialEq, Eq)]
pub struct EndClass {
    /// Width at the outer end, in tenths of a foot.
    pub outer: i64,
    /// Length along the extended centerline, in tenths of a foot.
    pub length: i64,
    /// The slope up to `split`: `slope` to 1.
    pub slope: i64,
    /// The distance at which the second slope begins, in tenths of a foot; the length, where there is only one slope.
    pub split: i64,
    /// The slope beyond `split`: `slope2` to 1; equal to `slope` where there is only one.
    pub slope2: i64,
    /// The half width grows by `k` per `WIDENING_SCALE` of distance.
    pub k: i64,
}

/// The surfaces of a runway of one class.
#[derive(Clone, Copy, Debug, PartialEq, Eq)]
pub struct RunwayClass {
    /// Width of the primary surface in tenths of a foot: that of the most precise approach to either end (77.19(c)).
    pub width: i64,
    /// Radius of the arcs of the horizontal surface about both ends, in tenths of a foot (77.19(a)).
    pub radius: i64,
    pub end1: EndClass,
    pub end2: EndClass,
}

/// The error of a utility runway with a precision end: a utility runway has no precision instrument approaches (77.3).
#[derive(Clone, Copy, Debug, PartialEq, Eq)]
pub struct PrecisionOnUtility;
