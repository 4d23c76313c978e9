//! The two edges of an outline that cross its line, and the extent of their corners.

ghost use Rattle.std.specs.Prelude.{◌≡◌, ◌⊎◌, ◌*◌, ◌+◌, ◌≤◌, ◌<◌, ◌^◌, ◌*ℤ◌, ◌+ℤ◌, ◌≤ℤ◌, ◌<ℤ◌, ◌↔◌, ℤ, pos, unsigned_abs, IsTrue};
ghost use Rattle.outline_boxes.specs.Edges.{IsEdges};

use crate::guess::guess;
use grid_exact::{COORDINATE_REACH, is_at_most_root, least_coordinate, plus, product};

/// Two edges at right angles to a line, the near one at its start: the distance to the far one, and the extent of each to both sides
/// of the line. All lengths are multiplied by `scale`.
#[derive(Clone, Copy)]
pub(crate) struct Edges {
    pub(crate) scale: i64,
    pub(crate) ahead: i64,
    pub(crate) near: i64,
    pub(crate) far: i64,
    /// The square of the length of the line's vector.
    pub(crate) square: u128,
    /// An approximation of that length, for guesses.
    pub(crate) root: i64,
    ghost sized: { IsEdges scale ahead near far square },
    ghost rooted: { pos 0 <ℤ root },
}

impl Edges {
    ghost use Rattle.grid_exact.specs.Level.{IsCoordinate};
    ghost use Rattle.grid_exact.specs.Root.{AtMostRoot};
    ghost use Rattle.grid_exact.specs.Vector.{length_of};
    ghost use Rattle.outline_boxes.specs.Reaches.{IsLeastPast, IsReach};

    /// The coordinate of the farther corner of the near edge, times the scale and the vector's length.
    fn near_part(&self, across: u64) -> i128
        requires across { across ≤ 2 ^ 19 }
        ensures value { result ≡ self.now.near *ℤ pos across }
        ensures size { unsigned_abs result ≤ 2 ^ 60 }
    {
        product(self.near, across as i64)
    }

    /// The same for the far edge.
    fn far_part(&self, toward: i64, across: u64) -> i128
        requires toward { unsigned_abs toward ≤ 2 ^ 19 }
        requires across { across ≤ 2 ^ 19 }
        ensures value { result ≡ self.now.ahead *ℤ toward +ℤ self.now.far *ℤ pos across }
        ensures size { unsigned_abs result ≤ 2 ^ 61 }
    {
        plus(
            product(self.ahead, toward),
            product(self.far, across as i64),
        )
    }

    /// The greater of both.
    fn farthest(&self, toward: i64, across: u64) -> i128
        requires toward { unsigned_abs toward ≤ 2 ^ 19 }
        requires across { across ≤ 2 ^ 19 }
        ensures near { (self.now.near *ℤ pos across) ≤ℤ result }
        ensures far { (self.now.ahead *ℤ toward +ℤ self.now.far *ℤ pos across) ≤ℤ result }
        ensures one { (result ≡ self.now.near *ℤ pos across)
            ⊎ (result ≡ self.now.ahead *ℤ toward +ℤ self.now.far *ℤ pos across) }
    {
        let near = self.near_part(across);
        let far = self.far_part(toward, across);
        if near < far { far } else { near }
    }

    /// Whether `z` is at or past the corner that has this part.
    #[tactic(auto, using(grid_exact::proofs::Sizes::fits))]
    fn is_past(&self, part: i128, z: i64) -> bool
        requires part { unsigned_abs part < 2 ^ 63 }
        requires z { unsigned_abs z ≤ 2 ^ 21 }
        ensures { IsTrue result ↔ AtMostRoot part (self.now.scale *ℤ z) self.now.square }
    {
        is_at_most_root(part, product(self.scale, z), self.square)
    }

    /// Whether `z` is the least whole number at or past the corner.
    fn is_least(&self, part: i128, z: i64) -> bool
        requires part { unsigned_abs part < 2 ^ 63 }
        requires z { unsigned_abs z < 2 ^ 21 }
        ensures { IsTrue result → IsLeastPast self.now part z }
    {
        self.is_past(part, z) && !self.is_past(part, z - 1)
    }

    /// Whether a guess is near enough to be tested, and is the least whole number at or past the corner.
    fn is_right(&self, part: i128, z: i64) -> bool
        requires part { unsigned_abs part < 2 ^ 63 }
        ensures size { IsTrue result → unsigned_abs z ≤ 2 ^ 21 }
        ensures least { IsTrue result → IsLeastPast self.now part z }
    {
        if z <= -COORDINATE_REACH || COORDINATE_REACH <= z {
            return false;
        }
        self.is_least(part, z)
    }

    /// The least whole number at or past the corner.
    fn least(&self, part: i128) -> i64
        requires coordinate { IsCoordinate part self.now.scale self.now.square }
        ensures size { unsigned_abs result ≤ 2 ^ 21 }
        ensures least { IsLeastPast self.now part result }
    {
        let guessed = guess(part, self.scale, self.root);
        if self.is_right(part, guessed) {
            return guessed;
        }
        least_coordinate(part, self.scale, self.square)
    }

    /// The extent of the corners in the direction of a coordinate, in tenths of a foot rounded up. The line's vector has the component
    /// `toward` in that direction, and the other component has the size `across`.
    pub(crate) fn reach(&self, toward: i64, across: u64) -> i64
        requires vector { unsigned_abs toward * unsigned_abs toward
            + across * across ≤ self.now.square }
        ensures reach { IsReach self.now toward across result }
        ensures size { unsigned_abs result ≤ 2 ^ 21 }
    {
        self.least(self.farthest(toward, across))
    }
}
