//! Floating-point first guesses for exact searches.

ghost use Rattle.std.specs.Prelude.{◌≡◌, ◌^◌, ◌≤◌, ◌<◌, pos, unsigned_abs};
ghost use Rattle.std.specs.Int.{int_div_euclid};

use airfields::Runway;
use grid_exact::Vector;
use std::num::{f64_to_bits_with_nan, nearest_i64_to_f64};

/// Greatest size of a guess, in tenths of a foot.
pub(crate) const GUESS_LIMIT: i64 = 1_000_000;

/// Numbers of a runway from which guesses are made; correctness does not depend on them.
#[derive(Clone, Copy)]
pub(crate) struct Guesses {
    /// The approximate rise per unit of the offset along the runway.
    climb: f64,
    /// The approximate length of such a unit, in tenths of a foot.
    part: f64,
}

/// The approximate length of a vector.
pub(crate) fn about_length(vector: &Vector) -> f64 {
    let x = nearest_i64_to_f64(vector.x);
    let y = nearest_i64_to_f64(vector.y);
    (x * x + y * y).sqrt()
}

/// 2^52: from here on the last bits of a float count whole numbers.
const WHOLE_FLOATS: f64 = 4_503_599_627_370_496.0;

/// 2^32, the count of 32-bit numbers.
const HALF_WORDS: u64 = 1 << 32;

/// Rounds a number from 0 to below 2^32 to a whole one; other numbers give any result. Reading the last bits of a float takes fewer steps
/// than a cast.
fn nearest_whole(number: f64) -> u32 {
    (f64_to_bits_with_nan(number + WHOLE_FLOATS) % HALF_WORDS) as u32
}

/// Rounds a nonnegative number up approximately; a number barely above a whole one may be rounded down.
pub(crate) fn about_up(number: f64) -> u32 {
    nearest_whole(number + 0.4999999)
}

/// Rounds a number down approximately; a number barely below a whole one may be rounded up, and a number far from zero gives any number
/// within the limit.
pub(crate) fn about(number: f64) -> i64
    ensures { unsigned_abs result ≤ unsigned_abs GUESS_LIMIT }
{
    // the limit minus almost one half
    let whole = i64::from(nearest_whole(number + 999999.5000001));
    if whole > GUESS_LIMIT + GUESS_LIMIT {
        return 0;
    }
    whole - GUESS_LIMIT
}

impl Guesses {
    /// The guesses of a runway.
    pub(crate) fn of(runway: &Runway) -> Guesses {
        let length = about_length(&Vector::between(&runway.end1.at, &runway.end2.at));
        let rise = nearest_i64_to_f64(runway.end2.z) - nearest_i64_to_f64(runway.end1.z);
        Guesses {
            climb: rise / (length * length),
            part: 1.0 / length,
        }
    }

    /// The approximate rise of the runway at the offset `along`.
    pub(crate) fn climb(&self, along: i64) -> i64
        ensures { unsigned_abs result ≤ unsigned_abs GUESS_LIMIT }
    {
        about(nearest_i64_to_f64(along) * self.climb)
    }

    /// The approximate distance of `parts` units, in tenths of a foot.
    pub(crate) fn distance(&self, parts: i64) -> f64 {
        nearest_i64_to_f64(parts) * self.part
    }
}

/// A quotient, rounded down: the guess where it is right, else a division.
#[tactic(auto, using(grid_exact::proofs::Sizes::casts))]
pub(crate) fn quotient(guess: i64, number: i64, divisor: u64) -> i64
    requires guess { unsigned_abs guess ≤ unsigned_abs GUESS_LIMIT }
    requires number { unsigned_abs number ≤ 2 ^ 60 }
    requires some { 0 < divisor }
    requires divisor { divisor ≤ 2 ^ 37 }
    ensures { result ≡ int_div_euclid number (pos divisor) }
{
    let divisor = divisor as i64;
    let rest = number - guess * divisor;
    if 0 <= rest && rest < divisor {
        return guess;
    }
    number.div_euclid(divisor)
}
