//! The square of a distance.

ghost use Rattle.std.specs.Prelude.{◌≡◌, ◌↔◌, ◌*◌, ◌^◌, ◌≤◌, IsTrue, unsigned_abs};
ghost use Rattle.grid_exact.specs.Lines.{IsReach};
ghost use Rattle.runway_notice.specs.Distances.{IsMeasure, distance_beyond as beyond_of};
ghost use Rattle.runway_notice.specs.Places.{place_offset};

use crate::parts::Place;
use std::cmp::Ordering;

/// The square of the distance from a point to a line, in square tenths of a foot, as the fraction `part` / `whole`.
#[derive(Clone, Copy)]
pub(crate) struct SquareDistance {
    part: u128,
    whole: u64,
    ghost measure: { IsMeasure part whole },
}

/// The distance of a point with this offset before the start or past the end of a line, times the line's length.
fn beyond(at: &Place) -> u64
    ensures value { result ≡ beyond_of (place_offset at.now) }
    ensures reach { IsReach result at.now.square }
{
    if at.along < 0 {
        return at.along.unsigned_abs();
    }
    let square = at.square as i64;
    if square < at.along {
        return (at.along - square).unsigned_abs();
    }
    0
}

/// The square of a number that is small enough.
fn squared(number: u64) -> u128
    requires { number ≤ 2 ^ 45 }
    ensures value { result ≡ number * number }
    ensures size { result ≤ 2 ^ 90 }
{
    number as u128 * number as u128
}

impl SquareDistance {
    ghost use Rattle.runway_notice.specs.Distances.{square_distance, fraction_cmp, IsAtLeastRootOf, IsAboveRootOf};
    ghost use Rattle.runway_notice.specs.Measures.{fraction};

    /// The distance from a line to a point with this offset.
    pub(crate) fn of(at: &Place) -> SquareDistance
        ensures { fraction result ≡ square_distance (place_offset at.now) }
    {
        SquareDistance {
            part: squared(beyond(at)) + squared(at.aside),
            whole: at.square,
        }
    }

    /// Compares two distances.
    pub(crate) fn compare(&self, other: &SquareDistance) -> Ordering
        ensures { result ≡ fraction_cmp (fraction self.now) (fraction other.now) }
    {
        (self.part * other.whole as u128).cmp(&(other.part * self.whole as u128))
    }

    /// Whether a number is at least the distance.
    pub(crate) fn is_at_most(&self, number: i64) -> bool
        requires { unsigned_abs number ≤ 2 ^ 40 }
        ensures { IsTrue result ↔ IsAtLeastRootOf (fraction self.now) number }
    {
        if number < 0 {
            return false;
        }
        self.part <= squared(number.unsigned_abs()) * self.whole as u128
    }

    /// Whether a number is above the distance.
    pub(crate) fn is_below(&self, number: i64) -> bool
        requires { unsigned_abs number ≤ 2 ^ 40 }
        ensures { IsTrue result ↔ IsAboveRootOf (fraction self.now) number }
    {
        if number < 0 {
            return false;
        }
        self.part < squared(number.unsigned_abs()) * self.whole as u128
    }
}
