//! The position of a point relative to the axis of a takeoff and landing area.

ghost use Rattle.std.specs.Prelude.{◌≡◌, ◌*◌, ◌^◌, ◌<◌, ◌≤◌, ◌&&◌, int_le, int_lt, pos, unsigned_abs};
ghost use Rattle.grid_exact.specs.Excess.{is_at_most_root as at_most_root_of};
ghost use Rattle.airfields.specs.declared.limits.TheConstants.{HELIPORT_AXIS_MOST};
ghost use Rattle.heliport_surfaces.specs.Notices.{beyond_ends};
ghost use Rattle.heliport_surfaces.specs.Sizes.{IsShortAxis};

use crate::rules::APPROACH_LENGTH;
use grid_exact::{Offset, is_at_most_root, scale};

/// The position of a point relative to an axis at most 1,000 feet long, so that its products with the numbers of 77.23 can be compared
/// with roots.
#[derive(Clone, Copy)]
pub(crate) struct PadOffset {
    pub(crate) offset: Offset,
    ghost short: { IsShortAxis offset.square },
}

impl PadOffset {
    /// The distance of the point along the axis from the start, times the length of the axis.
    pub(crate) fn along(&self) -> i128
        ensures value { result ≡ self.now.offset.along }
        ensures size { unsigned_abs result ≤ 2 ^ 40 }
    {
        self.offset.along()
    }

    /// The distance of the point to a side, times the length of the axis.
    pub(crate) fn aside(&self) -> i128
        ensures value { result ≡ pos self.now.offset.aside }
        ensures size { unsigned_abs result ≤ 2 ^ 40 }
    {
        self.offset.aside()
    }

    /// Twice the distance of the point to a side, times the length of the axis.
    pub(crate) fn twice_aside(&self) -> i128
        ensures value { result ≡ pos (2 * self.now.offset.aside) }
        ensures size { unsigned_abs result ≤ 2 ^ 41 }
    {
        scale(2, self.aside())
    }

    /// The square of the length of the axis.
    pub(crate) fn square(&self) -> u128
        ensures value { result ≡ self.now.offset.square }
        ensures some { 0 < result }
        ensures size { result ≤ HELIPORT_AXIS_MOST * HELIPORT_AXIS_MOST }
    {
        self.offset.square()
    }

    /// Whether the point is neither before the start nor past the end.
    pub(crate) fn is_between_ends(&self) -> bool
        ensures { result ≡ int_le (pos 0) self.now.offset.along
            && int_le self.now.offset.along (pos self.now.offset.square) }
    {
        0 <= self.along() && self.along() <= self.square() as i128
    }

    /// Whether the point is outward of the start, by at most the length of an approach surface.
    pub(crate) fn is_ahead(&self) -> bool
        ensures { result ≡ int_lt (pos 0) self.now.offset.along
            && at_most_root_of self.now.offset.along APPROACH_LENGTH self.now.offset.square }
    {
        0 < self.along() && is_at_most_root(self.along(), APPROACH_LENGTH as i128, self.square())
    }

    /// The distance of the point before the start or past the end, times the length of the axis.
    pub(crate) fn beyond(&self) -> u128
        ensures value { result ≡ beyond_ends self.now.offset.along self.now.offset.square }
        ensures size { result ≤ 2 ^ 41 }
    {
        let along = self.along();
        if along < 0 {
            return along.unsigned_abs();
        }
        let square = self.square() as i128;
        if square < along {
            return (along - square).unsigned_abs();
        }
        0
    }
}
