//! The table of runway classes.

ghost use Rattle.std.specs.Prelude.{◌≡◌, MatchResult, IfOk};
ghost use Rattle.runway_classes.specs.Class.{more_precise as more_precise_of, width as width_of, radius as radius_of, end_class as end_class_of, single as single_of, runway_class as runway_class_of, IsPrecisionOnUtility, IsFlared, IsSized};

use crate::ApproachKind;
use crate::class::{
    EndClass, PRECISION_SLOPE, PRECISION_SLOPE2, PRECISION_SPLIT, PrecisionOnUtility, RunwayClass,
};

/// The greater radius of the horizontal surface's arcs, in tenths of a foot: 10,000 feet (77.19(a)).
pub const RADIUS_MOST: i64 = 100_000;

/// The more precise of two kinds, in the order of `ApproachKind`.
pub fn more_precise(a: ApproachKind, b: ApproachKind) -> ApproachKind
    ensures { result ≡ more_precise_of a b }
{
    if (a as u8) < (b as u8) { b } else { a }
}

/// The width of the primary surface, in tenths of a foot (77.19(c)).
fn width(utility: bool, most: ApproachKind) -> i64
    ensures { result ≡ width_of utility most }
{
    match (utility, most) {
        (true, ApproachKind::Visual) => 2_500,
        (true, _) => 5_000,
        (false, ApproachKind::Visual | ApproachKind::NonprecisionAbove) => 5_000,
        (false, ApproachKind::NonprecisionLow | ApproachKind::Precision) => 10_000,
    }
}

/// The radius of the arcs of the horizontal surface, in tenths of a foot (77.19(a)).
fn radius(utility: bool, most: ApproachKind) -> i64
    ensures { result ≡ radius_of utility most }
{
    match (utility, most) {
        (true, _) | (false, ApproachKind::Visual) => 50_000,
        (false, _) => RADIUS_MOST,
    }
}

/// An approach surface with one slope.
fn single(outer: i64, length: i64, slope: i64, k: i64) -> EndClass
    ensures { result ≡ single_of outer length slope k }
{
    EndClass {
        outer,
        length,
        slope,
        split: length,
        slope2: slope,
        k,
    }
}

/// The approach surface of an end with a visual approach.
fn visual(utility: bool, most: ApproachKind) -> EndClass
    ensures { result ≡ end_class_of utility ApproachKind.Visual most }
{
    match (utility, most) {
        (true, ApproachKind::Visual) => single(12_500, 50_000, 20, 4),
        (true, _) => single(12_500, 50_000, 20, 3),
        (false, ApproachKind::Visual | ApproachKind::NonprecisionAbove) => single(
            15_000, 50_000, 20, 4,
        ),
        (false, ApproachKind::NonprecisionLow | ApproachKind::Precision) => single(
            15_000, 50_000, 20, 2,
        ),
    }
}

/// The approach surface of an end with a nonprecision approach with minimums above three-fourths of a mile.
fn nonprecision_above(utility: bool, most: ApproachKind) -> EndClass
    ensures { result ≡ end_class_of utility ApproachKind.NonprecisionAbove most }
{
    match (utility, most) {
        (true, _) => single(20_000, 50_000, 20, 6),
        (false, ApproachKind::Visual | ApproachKind::NonprecisionAbove) => single(
            35_000, 100_000, 34, 6,
        ),
        (false, ApproachKind::NonprecisionLow | ApproachKind::Precision) => single(
            35_000, 100_000, 34, 5,
        ),
    }
}

/// The approach surface of an end with this kind of approach, where `most` is the more precise of the kinds of both ends.
fn end_class(utility: bool, kind: ApproachKind, most: ApproachKind) -> EndClass
    ensures { result ≡ end_class_of utility kind most }
{
    match (utility, kind) {
        (_, ApproachKind::Visual) => visual(utility, most),
        (_, ApproachKind::NonprecisionAbove) => nonprecision_above(utility, most),
        (true, _) => single(20_000, 50_000, 20, 6),
        (false, ApproachKind::NonprecisionLow) => single(40_000, 100_000, 34, 6),
        (false, ApproachKind::Precision) => EndClass {
            outer: 160_000,
            length: 500_000,
            slope: PRECISION_SLOPE,
            split: PRECISION_SPLIT,
            slope2: PRECISION_SLOPE2,
            k: 6,
        },
    }
}

/// The class of a runway that may exist: a utility runway has no precision end.
fn runway_class(utility: bool, a: ApproachKind, b: ApproachKind) -> RunwayClass
    ensures { result ≡ runway_class_of utility a b }
{
    let most = more_precise(a, b);
    RunwayClass {
        width: width(utility, most),
        radius: radius(utility, most),
        end1: end_class(utility, a, most),
        end2: end_class(utility, b, most),
    }
}

/// The class of a runway, by its use and the approaches to its two ends (77.19(a), (c) and (d)).
///
/// # Errors
///
/// `PrecisionOnUtility` exactly where it is a utility runway and an end has a precision approach.
pub fn classify(
    utility: bool,
    a: ApproachKind,
    b: ApproachKind,
) -> Result<RunwayClass, PrecisionOnUtility>
    ensures exact { MatchResult result (λ c. (c ≡ runway_class_of utility a b)
        × (¬ IsPrecisionOnUtility utility a b)) (λ _. IsPrecisionOnUtility utility a b) }
    ensures flared { IfOk result (λ c. IsFlared c.width c.end1 × IsFlared c.width c.end2) }
    ensures sized { IfOk result (λ c. IsSized c) }
{
    if utility && more_precise(a, b) == ApproachKind::Precision {
        return Err(PrecisionOnUtility);
    }
    Ok(runway_class(utility, a, b))
}
