//! The limit near an airport at one point.

ghost use Rattle.std.specs.Prelude.{◌≡◌, ◌↔◌, ◌<◌, ◌≤◌, ◌*◌, ◌^◌, ℤ, pos, ◌*ℤ◌, ◌≤ℤ◌, ◌<ℤ◌, unsigned_abs, IsTrue};
ghost use Rattle.grid_exact.specs.Level.{IsLevel};
ghost use Rattle.grid_exact.specs.Root.{AtLeastRoot, AboveRoot};
ghost use Rattle.height_rules.specs.Limits.{IsLow, is_inner, reach_of};
ghost use Rattle.height_rules.specs.declared.limit.TheConstants.{INNER_RADIUS};

use grid_exact::{Rising, Sloping};

/// A nautical mile, in tenths of a foot.
pub const NAUTICAL_MILE: i64 = 60_761;

/// Distance from the airport's reference point up to which the limit is level, in tenths of a foot: 3 nautical miles (77.17(a)(2)).
pub const INNER_RADIUS: u64 = 3 * NAUTICAL_MILE as u64;

/// Height of the level part above the higher of ground and airport, in tenths of a foot: 200 feet (77.17(a)(2)).
pub const INNER_HEIGHT: i64 = 2_000;

/// Rise of the limit for each further nautical mile, in tenths of a foot: 100 feet (77.17(a)(2)).
pub const RISE_PER_MILE: i64 = 1_000;

/// The limit of 77.17(a)(2) at a point farther than three nautical miles from the airport's reference point, by the square of that
/// distance. The limit rises there; nearer it is level and needs no computation.
#[derive(Clone, Copy)]
pub(crate) struct NearLimit {
    pub(crate) base: i64,
    pub(crate) square_distance: u64,
    ghost low: { IsLow base },
    ghost short: { square_distance ≤ 2 ^ 40 },
    ghost far: { INNER_RADIUS * INNER_RADIUS < square_distance },
}

/// Whether a point at this squared distance is within three nautical miles.
pub(crate) fn is_inside(square_distance: u64) -> bool
    ensures { result ≡ is_inner square_distance }
{
    square_distance <= INNER_RADIUS * INNER_RADIUS
}

/// A reach at or above this value belongs to a level above the limit at any distance: the greatest squared distance in use times the
/// squared rise has as many bits as the square of this value.
const GREAT_REACH: u64 = 1 << 30;

/// The square of a reach below `GREAT_REACH`, which fits 64 bits.
fn squared(reach: u64) -> u64
    requires { reach ≤ 2 ^ 30 }
    ensures { result ≡ reach * reach }
{
    reach * reach
}

/// Whether `square` is at most the square of a reach.
#[tactic(auto, using(crate::proofs::RootFacts::great_square))]
fn is_at_most_square(square: u64, reach: u64) -> bool
    requires { square < 2 ^ 60 }
    ensures { IsTrue result ↔ square ≤ reach * reach }
{
    if reach >= GREAT_REACH {
        return true;
    }
    square <= squared(reach)
}

/// Whether `square` is below the square of a reach.
#[tactic(auto, using(crate::proofs::RootFacts::great_square))]
fn is_below_square(square: u64, reach: u64) -> bool
    requires { square < 2 ^ 60 }
    ensures { IsTrue result ↔ square < reach * reach }
{
    if reach >= GREAT_REACH {
        return true;
    }
    square < squared(reach)
}

impl NearLimit {
    /// The limit above the higher of ground and airport, at this squared distance.
    pub(crate) fn new(base: i64, square_distance: u64) -> NearLimit
        requires low { IsLow base }
        requires short { square_distance ≤ 2 ^ 40 }
        requires far { INNER_RADIUS * INNER_RADIUS < square_distance }
        ensures base { result.base ≡ base }
        ensures square_distance { result.square_distance ≡ square_distance }
    {
        NearLimit {
            base,
            square_distance,
        }
    }

    /// The lowest level of the limit anywhere.
    #[tactic(auto, using(crate::proofs::NearFacts::floor_beyond))]
    pub(crate) fn lowest(&self) -> i64
        ensures level { IsLevel result }
        ensures lowest { (z : ℤ) → AtLeastRoot (reach_of self.now.base z) RISE_PER_MILE
            self.now.square_distance → result ≤ℤ z }
    {
        self.base + INNER_HEIGHT
    }

    /// The height of the level above the base, converted to a distance and multiplied by the rise per nautical mile.
    fn reach(&self, level: i64) -> i64
        requires { IsLevel level }
        ensures value { result ≡ reach_of self.now.base level }
        ensures size { unsigned_abs result < 2 ^ 62 }
    {
        NAUTICAL_MILE * (level - (self.base + INNER_HEIGHT)) + RISE_PER_MILE * INNER_RADIUS as i64
    }

    /// The squared distance times the squared rise per nautical mile; the square of a reach is compared with it.
    fn square_reach(&self) -> u64
        ensures value { result ≡ unsigned_abs RISE_PER_MILE * unsigned_abs RISE_PER_MILE
            * self.now.square_distance }
        ensures size { result < 2 ^ 60 }
    {
        (RISE_PER_MILE * RISE_PER_MILE) as u64 * self.square_distance
    }
}

impl Rising for NearLimit {
    ghost use Rattle.height_rules.specs.Laws.{reach_rises};
    ghost use Rattle.height_rules.specs.declared.limit.TheConstants.{RISE_PER_MILE};

    ghost reaches = { λ l z. AtLeastRoot (reach_of l.base z) RISE_PER_MILE l.square_distance };

    #[tactic(auto, using(crate::proofs::RootFacts::roots))]
    fn is_reached(&self, level: i64) -> bool {
        let reach = self.reach(level);
        if reach < 0 {
            return false;
        }
        is_at_most_square(self.square_reach(), reach as u64)
    }

    ghost rises = { λ l y z h k. reach_rises l.square_distance l.base y z h k };
}

impl Sloping for NearLimit {
    ghost use Rattle.height_rules.specs.Laws.{reach_above};
    ghost use Rattle.height_rules.specs.declared.limit.TheConstants.{RISE_PER_MILE};

    ghost exceeds = { λ l z. AboveRoot (reach_of l.base z) RISE_PER_MILE l.square_distance };

    #[tactic(auto, using(crate::proofs::RootFacts::roots))]
    fn is_exceeded(&self, level: i64) -> bool {
        let reach = self.reach(level);
        if reach < 0 {
            return false;
        }
        is_below_square(self.square_reach(), reach as u64)
    }

    ghost exceeds_reaches = { λ l z h. reach_above (reach_of l.base z) l.square_distance h };
}
