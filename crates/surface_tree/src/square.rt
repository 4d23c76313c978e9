//! The squares that divide the plane.

ghost use Rattle.std.specs.Prelude.{◌≡◌, ◌-◌, ◌+◌, ◌<◌, ◌≤◌, ◌^◌, ◌&&◌, ◌+ℤ◌, ◌≤ℤ◌, pos, neg_ℤ, unsigned_abs, int_le, int_lt};
ghost use Rattle.surface_tree.specs.Levels.{side_of};
ghost use Rattle.surface_tree.specs.Squares.{IsSquare};
ghost use Rattle.outline_boxes.specs.declared.bounds.TheConstants.{PLANE_LIMIT};
ghost use Rattle.surface_tree.specs.declared.square.TheConstants.{TOP_LEVEL};

use grid_exact::{Area, is_at_most, is_below};
use outline_boxes::{PLANE_LIMIT, Spot};

/// The level of the whole plane, where areas lie from `-PLANE_LIMIT` to below `PLANE_LIMIT` in each coordinate. A square of level 0
/// has a side of 4,096 tenths of a foot, and the side doubles with each further level.
pub const TOP_LEVEL: u32 = 14;

/// A square, given by its south-west corner. It includes its south and west sides, and not its north and east sides.
#[derive(Clone, Copy)]
pub(crate) struct Square {
    pub(crate) west: i64,
    pub(crate) south: i64,
    side: i64,
    pub(crate) level: u32,
    ghost square: { IsSquare west south side level },
}

/// `a + b`.
#[tactic(auto, using(crate::proofs::Sides::casts))]
fn plus(a: i64, b: i64) -> i64
    requires a { unsigned_abs a ≤ 2 ^ 40 }
    requires b { unsigned_abs b ≤ 2 ^ 40 }
    ensures value { result ≡ a +ℤ b }
    ensures size { unsigned_abs result ≤ unsigned_abs a + unsigned_abs b }
{
    a + b
}

/// Whether the closed interval from `from` to `to` meets the side that starts at `low`.
fn is_met(low: i64, side: i64, from: i64, to: i64) -> bool
    requires low { unsigned_abs low ≤ 2 ^ 40 }
    requires side { unsigned_abs side ≤ 2 ^ 40 }
    ensures { result ≡ int_lt from (low +ℤ side) && int_le low to }
{
    is_below(from, plus(low, side)) && is_at_most(low, to)
}

impl Square {
    ghost use Rattle.surface_tree.specs.Squares.{overlaps};

    /// The whole plane.
    pub(crate) fn whole() -> Square
        ensures west { result.west ≡ neg_ℤ PLANE_LIMIT }
        ensures south { result.south ≡ neg_ℤ PLANE_LIMIT }
        ensures level { result.level ≡ TOP_LEVEL }
    {
        Square {
            west: -PLANE_LIMIT,
            south: -PLANE_LIMIT,
            side: 2 * PLANE_LIMIT,
            level: TOP_LEVEL,
        }
    }

    /// Whether the area meets the square.
    pub(crate) fn overlaps(&self, area: &Area) -> bool
        ensures { result ≡ overlaps self.now.level self.now.west self.now.south area.now }
    {
        is_met(self.west, self.side, area.x0, area.x1)
            && is_met(self.south, self.side, area.y0, area.y1)
    }

    /// Half of the side.
    pub(crate) fn half(&self) -> i64
        requires { 0 < self.now.level }
        ensures { result ≡ pos (side_of (self.now.level - 1)) }
    {
        self.side / 2
    }

    /// Whether the point lies in the east half.
    pub(crate) fn is_east(&self, spot: &Spot) -> bool
        requires { 0 < self.now.level }
        ensures { result ≡ int_le (self.now.west +ℤ pos (side_of (self.now.level - 1))) spot.now.x }
    {
        is_at_most(plus(self.west, self.half()), spot.at().x)
    }

    /// Whether the point lies in the north half.
    pub(crate) fn is_north(&self, spot: &Spot) -> bool
        requires { 0 < self.now.level }
        ensures { result ≡ int_le (self.now.south +ℤ pos
            (side_of (self.now.level - 1))) spot.now.y }
    {
        is_at_most(plus(self.south, self.half()), spot.at().y)
    }

    /// The quarter whose corner lies `east` and `north` of this square's corner.
    fn quarter(&self, east: i64, north: i64) -> Square
        requires deep { 0 < self.now.level }
        requires east { (pos 0 ≤ℤ east) × (east ≤ℤ pos (side_of (self.now.level - 1))) }
        requires north { (pos 0 ≤ℤ north) × (north ≤ℤ pos (side_of (self.now.level - 1))) }
        ensures west { result.west ≡ self.now.west +ℤ east }
        ensures south { result.south ≡ self.now.south +ℤ north }
        ensures level { result.level ≡ self.now.level - 1 }
    {
        Square {
            west: self.west + east,
            south: self.south + north,
            side: self.half(),
            level: self.level - 1,
        }
    }

    /// The south-west quarter.
    pub(crate) fn south_west(&self) -> Square
        requires { 0 < self.now.level }
        ensures west { result.west ≡ self.now.west }
        ensures south { result.south ≡ self.now.south }
        ensures level { result.level ≡ self.now.level - 1 }
    {
        self.quarter(0, 0)
    }

    /// The south-east quarter.
    pub(crate) fn south_east(&self) -> Square
        requires { 0 < self.now.level }
        ensures west { result.west ≡ self.now.west +ℤ pos (side_of (self.now.level - 1)) }
        ensures south { result.south ≡ self.now.south }
        ensures level { result.level ≡ self.now.level - 1 }
    {
        self.quarter(self.half(), 0)
    }

    /// The north-west quarter.
    pub(crate) fn north_west(&self) -> Square
        requires { 0 < self.now.level }
        ensures west { result.west ≡ self.now.west }
        ensures south { result.south ≡ self.now.south +ℤ pos (side_of (self.now.level - 1)) }
        ensures level { result.level ≡ self.now.level - 1 }
    {
        self.quarter(0, self.half())
    }

    /// The north-east quarter.
    pub(crate) fn north_east(&self) -> Square
        requires { 0 < self.now.level }
        ensures west { result.west ≡ self.now.west +ℤ pos (side_of (self.now.level - 1)) }
        ensures south { result.south ≡ self.now.south +ℤ pos (side_of (self.now.level - 1)) }
        ensures level { result.level ≡ self.now.level - 1 }
    {
        self.quarter(self.half(), self.half())
    }
}
