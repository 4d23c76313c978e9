//! The least level that reaches the rising limit near an airport: a guess, replaced by a search where it is wrong.

ghost use Rattle.std.specs.Prelude.{ℤ, pos, ◌↔◌, ◌≤◌, ◌^◌, ◌≤ℤ◌, IfSome, IsTrue};
ghost use Rattle.grid_exact.specs.Excess.{IsExcess, covering_surface};
ghost use Rattle.grid_exact.specs.Level.{IsLevel};
ghost use Rattle.grid_exact.specs.Root.{AtLeastRoot, AboveRoot};
ghost use Rattle.height_rules.specs.Limits.{reach_of};

use crate::limit::{INNER_RADIUS, NAUTICAL_MILE, NearLimit, RISE_PER_MILE};
use grid_exact::{Rising, Sloping, least_reached};
use std::num::f64_to_bits_with_nan;

/// 2^52: from here on the last bits of a float count whole numbers.
const WHOLE_FLOATS: f64 = 4_503_599_627_370_496.0;

/// 2^32, the count of 32-bit numbers.
const HALF_WORDS: u64 = 1 << 32;

/// Rounds up approximately; a number barely above a whole one may be rounded down, and numbers outside 0 to 2^32 give any result. Reading
/// the last bits of a float takes fewer steps than a cast.
fn about_up(number: f64) -> u32 {
    (f64_to_bits_with_nan(number + 0.4999999 + WHOLE_FLOATS) % HALF_WORDS) as u32
}

impl NearLimit {
    /// The approximate distance of the point from the airport's reference point, in tenths of a foot. Drops low bits so that the square
    /// fits 32 bits, which convert to a float in one step.
    fn about_distance(&self) -> f64 {
        32.0 * f64::from((self.square_distance / 1_024) as u32).sqrt()
    }

    /// The approximate height of the limit above its lowest level, rounded up.
    fn about_rise(&self) -> i64
        ensures least { pos 0 ≤ℤ result }
        ensures most { result ≤ℤ pos (2 ^ 50) }
    {
        let rise = f64::from(RISE_PER_MILE as i32) / f64::from(NAUTICAL_MILE as i32);
        let further = self.about_distance() - f64::from(INNER_RADIUS as u32);
        i64::from(about_up(further * rise))
    }

    /// A guess at the least level that reaches it, at most `top`.
    fn guess(&self, top: i64) -> i64
        requires top { IsLevel top }
        ensures level { IsLevel result }
    {
        let guess = self.lowest() + self.about_rise();
        if guess < top { guess } else { top }
    }

    /// Whether the level is the least that reaches it.
    fn is_least(&self, level: i64) -> bool
        requires level { IsLevel level }
        ensures reached { IsTrue result → AtLeastRoot (reach_of self.now.base level) RISE_PER_MILE
            self.now.square_distance }
        ensures least { IsTrue result → (z : ℤ) →
            AtLeastRoot (reach_of self.now.base z) RISE_PER_MILE self.now.square_distance →
            level ≤ℤ z }
    {
        if level <= self.lowest() || self.is_reached(level - 1) {
            return false;
        }
        self.is_reached(level)
    }

    /// The least level that reaches it; `top` must reach it. The guess is used where it is right.
    fn least_level(&self, top: i64) -> i64
        requires top { IsLevel top }
        requires reached { AtLeastRoot (reach_of self.now.base top) RISE_PER_MILE
            self.now.square_distance }
        ensures reached { AtLeastRoot (reach_of self.now.base result) RISE_PER_MILE
            self.now.square_distance }
        ensures least { (z : ℤ) → AtLeastRoot (reach_of self.now.base z) RISE_PER_MILE
            self.now.square_distance → result ≤ℤ z }
        ensures level { IsLevel result }
    {
        let guess = self.guess(top);
        if self.is_least(guess) {
            return guess;
        }
        least_reached(self, self.lowest(), top)
    }

    /// The excess of `top` over it, rounded down; `None` where it is not above. Not inlined, since few structures are so far away and so
    /// high.
    #[inline(never)]
    pub(crate) fn excess(&self, top: i64) -> Option<u32>
        requires top { IsLevel top }
        ensures excess { IsExcess (covering_surface
            (λ z. AboveRoot (reach_of self.now.base z) RISE_PER_MILE self.now.square_distance)
            (λ z. AtLeastRoot (reach_of self.now.base z) RISE_PER_MILE self.now.square_distance))
            top result }
        ensures size { IfSome result (λ e. e ≤ 2 ^ 26) }
    {
        if !self.is_exceeded(top) {
            return None;
        }
        Some((top - self.least_level(top)) as u32)
    }
}
