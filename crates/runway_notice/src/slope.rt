//! The slopes of 77.9(b)(1) and (2).

use crate::guesses::about_up;
use airfields::RunwayName;

/// Range of the slope of 77.9(b)(1), in tenths of a foot: 20,000 feet.
pub const RANGE_B1: i64 = 200_000;

/// Slope of 77.9(b)(1): 100 to 1.
pub const RATIO_B1: i64 = 100;

/// Range of the slope of 77.9(b)(2), in tenths of a foot: 10,000 feet.
pub const RANGE_B2: i64 = 100_000;

/// Slope of 77.9(b)(2): 50 to 1.
pub const RATIO_B2: i64 = 50;

/// The notice slope of an airport: one of two.
#[derive(Clone, Copy, Debug, PartialEq, Eq)]
pub enum Sub {
    /// 100 to 1 for 20,000 feet, where the longest runway is longer than 3,200 feet: 77.9(b)(1).
    B1,
    /// 50 to 1 for 10,000 feet, where no runway is longer than 3,200 feet: 77.9(b)(2).
    B2,
}

/// The excess of a structure over the slope from the nearest runway of an airport.
#[derive(Clone, Copy, Debug, PartialEq, Eq)]
pub struct Slope {
    /// The slope that the airport has.
    pub sub: Sub,
    /// The nearest runway.
    pub runway: RunwayName,
    /// The excess of the top over the slope, in tenths of a foot, rounded down.
    pub excess: u32,
}

impl Sub {
    ghost use Rattle.std.specs.Prelude.{◌≡◌};
    ghost use Rattle.runway_notice.specs.Slopes.{range_of, ratio_of};

    /// The horizontal range of the slope, in tenths of a foot.
    pub(crate) fn range(self) -> i64
        ensures { result ≡ range_of self }
    {
        match self {
            Sub::B1 => RANGE_B1,
            Sub::B2 => RANGE_B2,
        }
    }

    /// The horizontal distance per unit of rise.
    pub(crate) fn ratio(self) -> i64
        ensures { result ≡ ratio_of self }
    {
        match self {
            Sub::B1 => RATIO_B1,
            Sub::B2 => RATIO_B2,
        }
    }

    /// The rise per unit of distance, as a float.
    fn grade(self) -> f64 {
        match self {
            Sub::B1 => 1.0 / f64::from(RATIO_B1 as i32),
            Sub::B2 => 1.0 / f64::from(RATIO_B2 as i32),
        }
    }

    /// The approximate rise at a distance, rounded up.
    pub(crate) fn rise_at(self, distance: f64) -> u32 {
        about_up(distance * self.grade())
    }
}
