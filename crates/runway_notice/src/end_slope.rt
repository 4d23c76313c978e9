//! The slope where the end of a runway is nearest to a point: there the squared distance is a whole number of 64 bits.

ghost use Rattle.std.specs.Prelude.{◌≡◌, ◌↔◌, ◌≤◌, ◌^◌, ◌≤ℤ◌, ℤ, IfSome, IsTrue, unsigned_abs};
ghost use Rattle.grid_exact.specs.Excess.{IsExcess, covering_surface};
ghost use Rattle.grid_exact.specs.Level.{IsLevel};
ghost use Rattle.runway_notice.specs.Distances.{IsSlopeFrom, IsAboveRootOf, IsAtLeastRootOf, run_of};
ghost use Rattle.runway_notice.specs.EndSlopes.{IsInReach, end_surface, whole_fraction};
ghost use Rattle.runway_notice.specs.Slopes.{range_of, ratio_of};

use crate::parts::squared;
use crate::slope::{RANGE_B1, RANGE_B2, Sub};
use grid_exact::{Rising, Sloping, least_reached};

/// The square of the range of the slope of 77.9(b)(1).
const SQUARE_B1: u64 = (RANGE_B1 * RANGE_B1) as u64;

/// The square of the range of the slope of 77.9(b)(2).
const SQUARE_B2: u64 = (RANGE_B2 * RANGE_B2) as u64;

/// Whether a point at the squared distance `square` is within the range of the slope.
fn is_in_range(sub: Sub, square: u64) -> bool
    ensures range { IsTrue result ↔ IsAtLeastRootOf (whole_fraction square) (range_of sub) }
    ensures reach { IsTrue result → IsInReach square }
{
    match sub {
        Sub::B1 => square <= SQUARE_B1,
        Sub::B2 => square <= SQUARE_B2,
    }
}

/// Whether a number is at least the root of `square`. A number above the range of both slopes is, without computing its square.
fn is_at_least_root(number: i64, square: u64) -> bool
    requires reach { IsInReach square }
    ensures { IsTrue result ↔ IsAtLeastRootOf (whole_fraction square) number }
{
    if number < 0 {
        return false;
    }
    if number > RANGE_B1 {
        return true;
    }
    square <= squared(number.unsigned_abs())
}

/// Whether a number is above the root of `square`.
fn is_above_root(number: i64, square: u64) -> bool
    requires reach { IsInReach square }
    ensures { IsTrue result ↔ IsAboveRootOf (whole_fraction square) number }
{
    if number < 0 {
        return false;
    }
    if number > RANGE_B1 {
        return true;
    }
    square < squared(number.unsigned_abs())
}

/// A slope of `ratio` to 1 from the elevation `base` of an end, at a point with the squared distance `square` from it.
#[derive(Clone, Copy)]
struct EndSlope {
    square: u64,
    base: i64,
    ratio: i64,
    ghost near: { IsInReach square },
    ghost rises: { IsSlopeFrom base ratio },
}

impl EndSlope {
    /// The lowest level of the slope.
    fn lowest(&self) -> i64
        ensures level { IsLevel result }
        ensures lowest { (z : ℤ) → IsAtLeastRootOf (whole_fraction self.now.square)
            (run_of self.now.ratio self.now.base z) → result ≤ℤ z }
    {
        self.base
    }

    /// The distance at which the slope has a level.
    fn run(&self, level: i64) -> i64
        requires { IsLevel level }
        ensures value { result ≡ run_of self.now.ratio self.now.base level }
        ensures size { unsigned_abs result ≤ 2 ^ 40 }
    {
        self.ratio * (level - self.base)
    }
}

impl Rising for EndSlope {
    ghost use Rattle.runway_notice.specs.Distances.{IsAtLeastRootOf, run_of};
    ghost use Rattle.runway_notice.specs.EndSlopes.{whole_fraction};
    ghost use Rattle.runway_notice.specs.Laws.{slope_rises};

    ghost reaches = { λ l z. IsAtLeastRootOf (whole_fraction l.square) (run_of l.ratio l.base z) };

    fn is_reached(&self, level: i64) -> bool {
        is_at_least_root(self.run(level), self.square)
    }

    ghost rises = { λ l y z h k. slope_rises (whole_fraction l.square) l.ratio l.base y z l.rises.rises h k };
}

impl Sloping for EndSlope {
    ghost use Rattle.runway_notice.specs.Distances.{IsAboveRootOf, run_of};
    ghost use Rattle.runway_notice.specs.EndSlopes.{whole_fraction};
    ghost use Rattle.runway_notice.specs.Laws.{above_reaches};

    ghost exceeds = { λ l z. IsAboveRootOf (whole_fraction l.square) (run_of l.ratio l.base z) };

    fn is_exceeded(&self, level: i64) -> bool {
        is_above_root(self.run(level), self.square)
    }

    ghost exceeds_reaches = { λ l z h. above_reaches (whole_fraction l.square) (run_of l.ratio l.base z) h };
}

impl EndSlope {
    /// The approximate rise of the slope at the point, rounded up; correctness does not depend on it. A sixteenth of the square fits 32
    /// bits, which convert to a float in one step.
    fn about_rise(&self, sub: Sub) -> u32 {
        sub.rise_at(4.0 * f64::from((self.square / 16) as u32).sqrt())
    }

    /// A guess at the least level that reaches it, at most `top`.
    fn guess(&self, sub: Sub, top: i64) -> i64
        requires top { IsLevel top }
        ensures level { IsLevel result }
    {
        let guess = self.base + i64::from(self.about_rise(sub));
        if guess < top { guess } else { top }
    }

    /// Whether the level is the least that reaches it.
    fn is_least(&self, level: i64) -> bool
        requires level { IsLevel level }
        ensures reached { IsTrue result → IsAtLeastRootOf (whole_fraction self.now.square)
            (run_of self.now.ratio self.now.base level) }
        ensures least { IsTrue result → (z : ℤ) →
            IsAtLeastRootOf (whole_fraction self.now.square)
            (run_of self.now.ratio self.now.base z) → level ≤ℤ z }
    {
        if level <= self.lowest() || self.is_reached(level - 1) {
            return false;
        }
        self.is_reached(level)
    }

    /// The least level that reaches it; `top` must reach it. Not inlined, since it is seldom needed.
    #[inline(never)]
    fn searched(&self, top: i64) -> i64
        requires top { IsLevel top }
        requires reached { IsAtLeastRootOf (whole_fraction self.now.square)
            (run_of self.now.ratio self.now.base top) }
        ensures reached { IsAtLeastRootOf (whole_fraction self.now.square)
            (run_of self.now.ratio self.now.base result) }
        ensures least { (z : ℤ) → IsAtLeastRootOf (whole_fraction self.now.square)
            (run_of self.now.ratio self.now.base z) → result ≤ℤ z }
        ensures level { IsLevel result }
    {
        least_reached(self, self.lowest(), top)
    }

    /// The least level that reaches it; `top` must reach it. The guess is used where it is right.
    fn least_level(&self, sub: Sub, top: i64) -> i64
        requires top { IsLevel top }
        requires reached { IsAtLeastRootOf (whole_fraction self.now.square)
            (run_of self.now.ratio self.now.base top) }
        ensures reached { IsAtLeastRootOf (whole_fraction self.now.square)
            (run_of self.now.ratio self.now.base result) }
        ensures least { (z : ℤ) → IsAtLeastRootOf (whole_fraction self.now.square)
            (run_of self.now.ratio self.now.base z) → result ≤ℤ z }
        ensures level { IsLevel result }
    {
        let guess = self.guess(sub, top);
        if self.is_least(guess) {
            return guess;
        }
        self.searched(top)
    }

    /// The excess of `top` over it, rounded down; `None` where it is not above.
    fn excess(&self, sub: Sub, top: i64) -> Option<u32>
        requires top { IsLevel top }
        ensures excess { IsExcess (covering_surface
            (λ z. IsAboveRootOf (whole_fraction self.now.square)
            (run_of self.now.ratio self.now.base z))
            (λ z. IsAtLeastRootOf (whole_fraction self.now.square)
            (run_of self.now.ratio self.now.base z))) top result }
        ensures size { IfSome result (λ e. e ≤ 2 ^ 26) }
    {
        if !self.is_exceeded(top) {
            return None;
        }
        Some((top - self.least_level(sub, top)) as u32)
    }
}

/// The slope from an end at the elevation `base`.
fn slope(sub: Sub, base: i64, square: u64) -> EndSlope
    requires size { unsigned_abs base ≤ 2 ^ 19 }
    requires near { IsInReach square }
    ensures square { result.square ≡ square }
    ensures base { result.base ≡ base }
    ensures ratio { result.ratio ≡ ratio_of sub }
{
    EndSlope {
        square,
        base,
        ratio: sub.ratio(),
    }
}

/// The excess of `top` over the slope from an end at the elevation `base`, at a point with the squared distance `square` from it. A top
/// that is not above the end is rejected before the distance is tested.
#[inline(always)]
pub(crate) fn end_excess(sub: Sub, base: i64, square: u64, top: i64) -> Option<u32>
    requires size { unsigned_abs base ≤ 2 ^ 19 }
    requires top { IsLevel top }
    ensures { IsExcess (end_surface sub base square) top result }
{
    if top <= base {
        return None;
    }
    if !is_in_range(sub, square) {
        return None;
    }
    slope(sub, base, square).excess(sub, top)
}
