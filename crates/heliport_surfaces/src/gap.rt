//! The position of a point relative to a takeoff and landing area, and its distance.

ghost use Rattle.std.specs.Prelude.{◌≡◌, ◌↔◌, ◌+◌, ◌*◌, ◌^◌, ◌<◌, ◌≤◌, pos, IsTrue, unsigned_abs};
ghost use Rattle.std.specs.Ordering.{is_le as is_le_of, is_lt as is_lt_of};
ghost use Rattle.heliport_surfaces.specs.Sizes.{HasGapSizes};

use crate::rules::NOTICE_RANGE;
use grid_exact::{cmp_root, is_at_most_root, minus};
use std::cmp::Ordering;

/// The position of a point relative to a takeoff and landing area.
#[derive(Clone, Copy)]
pub(crate) struct LandingGap {
    /// The distance before or past the ends of the axis, times the length of the axis.
    pub(crate) beyond: u128,
    /// The distance to a side of the axis, times the length of the axis.
    pub(crate) aside: u128,
    /// The width of the area.
    pub(crate) width: u128,
    /// The square of the length of the axis.
    pub(crate) square: u128,
    ghost sized: { HasGapSizes beyond aside width square },
}

/// A number as a signed one.
fn signed(value: u128) -> i128
    requires { value ≤ 2 ^ 126 }
    ensures { result ≡ pos value }
{
    value as i128
}

impl LandingGap {
    ghost use Rattle.heliport_surfaces.specs.Notices.{IsClose, IsNearer, IsWithin, corner as corner_of, is_in_line as is_in_line_of, is_within};
    ghost use Rattle.heliport_surfaces.specs.Shapes.{gap_shape};

    /// Whether the point is at most 5,000 feet before or past the ends of the axis.
    fn is_near_ends(&self) -> bool
        ensures { IsTrue result ↔ (self.now.beyond * self.now.beyond ≤ NOTICE_RANGE * NOTICE_RANGE
            * self.now.square) }
    {
        self.beyond * self.beyond <= NOTICE_RANGE * NOTICE_RANGE * self.square
    }

    /// Whether the point is at most 5,000 feet to a side of the area or of its extension.
    fn is_near_sides(&self) -> bool
        ensures { IsTrue result ↔ (4 * (self.now.aside * self.now.aside) ≤ (2 * NOTICE_RANGE
            + self.now.width) * (2 * NOTICE_RANGE + self.now.width) * self.now.square) }
    {
        let reach = 2 * NOTICE_RANGE + self.width;
        4 * (self.aside * self.aside) <= reach * reach * self.square
    }

    /// Whether the point is at most 5,000 feet away in each of the two directions. It is tested before the distance, whose products would
    /// overflow for a point at the far end of the grid.
    fn is_close(&self) -> bool
        ensures { IsTrue result ↔ IsClose (gap_shape self.now) NOTICE_RANGE }
    {
        self.is_near_ends() && self.is_near_sides()
    }

    /// Whether the point is at most half the width from the axis or its extension.
    fn is_in_line(&self) -> bool
        ensures { result ≡ is_in_line_of (gap_shape self.now) }
    {
        is_at_most_root(signed(2 * self.aside), signed(self.width), self.square)
    }

    /// Four times the squares of the distances beyond and aside, plus the square of the width times that of the axis.
    fn squares(&self) -> i128
        requires close { IsClose (gap_shape self.now) NOTICE_RANGE }
        ensures value { result ≡ pos (4 * (self.now.beyond * self.now.beyond)
            + 4 * (self.now.aside * self.now.aside)
            + self.now.width * self.now.width * self.now.square) }
        ensures size { unsigned_abs result ≤ 2 ^ 61 }
    {
        let beyond = 4 * (self.beyond * self.beyond);
        let aside = 4 * (self.aside * self.aside);
        signed(beyond + aside + self.width * self.width * self.square)
    }

    /// Four times the square of a distance, times that of the axis.
    fn reach(&self, distance: u128) -> i128
        requires distance { distance ≤ NOTICE_RANGE }
        ensures value { result ≡ pos (4 * (distance * distance) * self.now.square) }
        ensures size { unsigned_abs result ≤ 2 ^ 61 }
    {
        signed(4 * (distance * distance) * self.square)
    }

    /// The part without a root in the comparison of a distance with that from a corner.
    fn corner(&self, distance: u128) -> i128
        requires close { IsClose (gap_shape self.now) NOTICE_RANGE }
        requires distance { distance ≤ NOTICE_RANGE }
        ensures value { result ≡ corner_of (gap_shape self.now) distance }
        ensures size { unsigned_abs result < 2 ^ 63 }
    {
        minus(self.squares(), self.reach(distance))
    }

    /// The factor of the root in that comparison.
    fn edge(&self) -> i128
        requires close { IsClose (gap_shape self.now) NOTICE_RANGE }
        ensures value { result ≡ pos (4 * self.now.aside * self.now.width) }
        ensures size { unsigned_abs result ≤ 2 ^ 44 }
    {
        signed(4 * self.aside * self.width)
    }

    /// Compares the point's distance from the area with this distance.
    pub(crate) fn compare(&self, distance: u128) -> Ordering
        requires close { IsClose (gap_shape self.now) NOTICE_RANGE }
        requires distance { distance ≤ NOTICE_RANGE }
        ensures within { IsTrue (is_le_of result) ↔ IsWithin (gap_shape self.now) distance }
        ensures nearer { IsTrue (is_lt_of result) ↔ IsNearer (gap_shape self.now) distance }
    {
        if self.is_in_line() {
            return cmp_root(signed(self.beyond), signed(distance), self.square);
        }
        cmp_root(self.corner(distance), self.edge(), self.square)
    }

    /// Whether the point is at most 5,000 feet from the area.
    pub(crate) fn is_near(&self) -> bool
        ensures { result ≡ is_within (gap_shape self.now) NOTICE_RANGE }
    {
        self.is_close() && self.compare(NOTICE_RANGE).is_le()
    }
}
