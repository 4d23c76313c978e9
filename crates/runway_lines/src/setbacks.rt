//! The points 200 feet past the ends of a runway.

ghost use Rattle.std.specs.Prelude.{◌≡◌, ◌*◌, ◌<◌, ◌≤◌, ◌^◌, ◌+ℤ◌, ◌-ℤ◌, pos, unsigned_abs, true, IsTrue};
ghost use Rattle.grid_exact.specs.Lines.{IsSquare};
ghost use Rattle.grid_exact.specs.Root.{AtMostRoot};
ghost use Rattle.runway_lines.specs.Centers.{IsSetback, point_beyond as extended_of};

use grid_exact::{Point, SETBACK, Start, Vector, is_at_most_root, least_coordinate, product};
use std::num::{nearest_i64_to_f64, nearest_u64_to_f64, saturating_f64_to_u32};

/// The approximate setback in one coordinate; correctness does not depend on it.
fn about_setback(toward: i64, square: u128) -> i64
    ensures size { unsigned_abs result ≤ 2 ^ 33 }
{
    let square = square.min(u128::from(u64::MAX)) as u64;
    let setback = nearest_i64_to_f64(SETBACK);
    let part = setback * nearest_i64_to_f64(toward) / nearest_u64_to_f64(square).sqrt();
    SETBACK - i64::from(saturating_f64_to_u32(setback - part))
}

/// Whether `number` is the least whole number with `part <= number * sqrt(square)`.
#[tactic(auto, using(grid_exact::proofs::Sizes::fits))]
fn is_least(part: i128, number: i64, square: u128) -> bool
    requires part { unsigned_abs part < 2 ^ 63 }
    requires number { unsigned_abs number ≤ 2 ^ 33 }
    requires square { IsSquare square }
    ensures reaches { IsTrue result → AtMostRoot part number square }
    ensures least { IsTrue result → ¬ AtMostRoot part (number -ℤ pos 1) square }
{
    is_at_most_root(part, number as i128, square)
        && !is_at_most_root(part, (number - 1) as i128, square)
}

/// The difference in one coordinate between an end and the point 200 feet past it, rounded up. `toward` is the difference to the other
/// end in that coordinate, and `square` the square of the distance between the ends.
fn setback(toward: i64, square: u128) -> i64
    requires part { unsigned_abs toward * unsigned_abs toward ≤ square }
    requires square { IsSquare square }
    ensures setback { IsSetback toward square result }
    ensures size { unsigned_abs result ≤ unsigned_abs SETBACK }
{
    let part = product(SETBACK, toward);
    let guess = about_setback(toward, square);
    if is_least(part, guess, square) {
        return guess;
    }
    least_coordinate(part, 1, square)
}

/// The point 200 feet past an end of a runway, each coordinate rounded down; `there` is the other end.
pub(crate) fn extended(here: &Point, there: &Point, square: u128) -> Start
    requires part_x { unsigned_abs (there.now.x -ℤ here.now.x)
        * unsigned_abs (there.now.x -ℤ here.now.x) ≤ square }
    requires part_y { unsigned_abs (there.now.y -ℤ here.now.y)
        * unsigned_abs (there.now.y -ℤ here.now.y) ≤ square }
    requires square { IsSquare square }
    ensures x { result.x ≡ extended_of here.now.x there.now.x square }
    ensures y { result.y ≡ extended_of here.now.y there.now.y square }
{
    let toward = Vector::between(here, there);
    Start {
        x: here.x - setback(toward.x, square),
        y: here.y - setback(toward.y, square),
    }
}
