//! The least level that reaches a slope at a point: a guess, replaced by a search where it is wrong.

ghost use Rattle.std.specs.Prelude.{ℤ, ◌≤◌, ◌^◌, ◌≤ℤ◌, IfSome, IsTrue};
ghost use Rattle.grid_exact.specs.Excess.{IsExcess, covering_surface};
ghost use Rattle.grid_exact.specs.Level.{IsLevel};
ghost use Rattle.runway_notice.specs.Distances.{IsAboveRootOf, IsAtLeastRootOf, run_of};
ghost use Rattle.runway_notice.specs.Measures.{fraction};

use crate::candidate::Candidate;
use crate::guesses::Guesses;
use crate::limit::SlopeLimit;
use crate::slope::Sub;
use grid_exact::{Point, Rising, Sloping, least_reached};

impl SlopeLimit {
    /// A guess at the least level that reaches it, from a guess of its height above `base`, rounded up; at most `top`.
    fn guess(&self, about_rise: u32, top: i64) -> i64
        requires top { IsLevel top }
        ensures level { IsLevel result }
    {
        let guess = self.base + i64::from(about_rise);
        if guess < top { guess } else { top }
    }

    /// Whether the level is the least that reaches it.
    fn is_least(&self, level: i64) -> bool
        requires level { IsLevel level }
        ensures reached { IsTrue result → IsAtLeastRootOf (fraction self.now.distance)
            (run_of self.now.ratio self.now.base level) }
        ensures least { IsTrue result → (z : ℤ) →
            IsAtLeastRootOf (fraction self.now.distance) (run_of self.now.ratio self.now.base z) →
            level ≤ℤ z }
    {
        if level <= self.lowest() || self.is_reached(level - 1) {
            return false;
        }
        self.is_reached(level)
    }

    /// The least level that reaches it; `top` must reach it. The guess is used where it is right.
    fn least_level(&self, about_rise: u32, top: i64) -> i64
        requires top { IsLevel top }
        requires reached { IsAtLeastRootOf (fraction self.now.distance)
            (run_of self.now.ratio self.now.base top) }
        ensures reached { IsAtLeastRootOf (fraction self.now.distance)
            (run_of self.now.ratio self.now.base result) }
        ensures least { (z : ℤ) → IsAtLeastRootOf (fraction self.now.distance)
            (run_of self.now.ratio self.now.base z) → result ≤ℤ z }
        ensures level { IsLevel result }
    {
        let guess = self.guess(about_rise, top);
        if self.is_least(guess) {
            return guess;
        }
        least_reached(self, self.lowest(), top)
    }

    /// The excess of `top` over it, rounded down; `None` where it is not above. The level is guessed from the approximate distance of the
    /// point.
    pub(crate) fn excess(
        &self,
        runway: &Candidate,
        guesses: &Guesses,
        sub: Sub,
        point: &Point,
        top: i64,
    ) -> Option<u32>
        requires top { IsLevel top }
        ensures excess { IsExcess (covering_surface
            (λ z. IsAboveRootOf (fraction self.now.distance)
            (run_of self.now.ratio self.now.base z))
            (λ z. IsAtLeastRootOf (fraction self.now.distance)
            (run_of self.now.ratio self.now.base z))) top result }
        ensures size { IfSome result (λ e. e ≤ 2 ^ 26) }
    {
        if !self.is_exceeded(top) {
            return None;
        }
        let about_rise = sub.rise_at(runway.about_distance(point, guesses));
        Some((top - self.least_level(about_rise, top)) as u32)
    }
}
