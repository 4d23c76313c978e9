//! A slope at one point.

ghost use Rattle.std.specs.Prelude.{◌≡◌, ◌≤◌, ◌^◌, ◌≤ℤ◌, ℤ, unsigned_abs};
ghost use Rattle.grid_exact.specs.Level.{IsLevel};
ghost use Rattle.runway_notice.specs.Distances.{IsSlopeFrom, IsAtLeastRootOf, run_of};

use crate::square_distance::SquareDistance;
use grid_exact::{Rising, Sloping};

/// A slope of `ratio` to 1 from the elevation `base`, at a point at this distance from its start.
#[derive(Clone, Copy)]
pub(crate) struct SlopeLimit {
    pub(crate) distance: SquareDistance,
    pub(crate) base: i64,
    pub(crate) ratio: i64,
    ghost rises: { IsSlopeFrom base ratio },
}

impl SlopeLimit {
    ghost use Rattle.runway_notice.specs.Measures.{fraction};

    /// The lowest level of the slope.
    pub(crate) fn lowest(&self) -> i64
        ensures level { IsLevel result }
        ensures lowest { (z : ℤ) → IsAtLeastRootOf (fraction self.now.distance)
            (run_of self.now.ratio self.now.base z) → result ≤ℤ z }
    {
        self.base
    }

    /// The distance at which the slope has a level.
    fn run(&self, level: i64) -> i64
        requires { IsLevel level }
        ensures value { result ≡ run_of self.now.ratio self.now.base level }
        ensures size { unsigned_abs result ≤ 2 ^ 40 }
    {
        self.ratio * (level - self.base)
    }
}

impl Rising for SlopeLimit {
    ghost use Rattle.runway_notice.specs.Distances.{IsAtLeastRootOf, run_of};
    ghost use Rattle.runway_notice.specs.Measures.{fraction};
    ghost use Rattle.runway_notice.specs.Laws.{slope_rises};

    ghost reaches = { λ l z. IsAtLeastRootOf (fraction l.distance) (run_of l.ratio l.base z) };

    fn is_reached(&self, level: i64) -> bool {
        self.distance.is_at_most(self.run(level))
    }

    ghost rises = { λ l y z h k. slope_rises (fraction l.distance) l.ratio l.base y z l.rises.rises h k };
}

impl Sloping for SlopeLimit {
    ghost use Rattle.runway_notice.specs.Distances.{IsAboveRootOf, run_of};
    ghost use Rattle.runway_notice.specs.Measures.{fraction};
    ghost use Rattle.runway_notice.specs.Laws.{above_reaches};

    ghost exceeds = { λ l z. IsAboveRootOf (fraction l.distance) (run_of l.ratio l.base z) };

    fn is_exceeded(&self, level: i64) -> bool {
        self.distance.is_below(self.run(level))
    }

    ghost exceeds_reaches = { λ l z h. above_reaches (fraction l.distance) (run_of l.ratio l.base z) h };
}
