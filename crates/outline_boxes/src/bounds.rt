//! Areas in half the memory.

ghost use Rattle.std.specs.Prelude.{◌≡◌, ◌↔◌, ◌&&◌, int_le, ◌≤ℤ◌, neg_ℤ, IsTrue};
ghost use Rattle.std.specs.Int.{int_max, int_min};
ghost use Rattle.grid_exact.specs.Area.{Has, has_point};
ghost use Rattle.grid_exact.specs.declared.point.Point.{Point as APoint};
ghost use Rattle.outline_boxes.specs.Bounds.{IsInPlane};
ghost use Rattle.outline_boxes.specs.declared.bounds.TheConstants.{PLANE_LIMIT};

use crate::spot::Spot;
use grid_exact::Area;

/// Greatest coordinate of short boxes, in tenths of a foot; the least is its negative. This plane contains all points of the grid.
pub const PLANE_LIMIT: i64 = 33_554_432;

/// An area in 16 bytes, half the size of `Area`: a visit reads one of them for each item in its squares, and spends most of its time
/// reading.
///
/// The high ends are stored negated, so each of the four ends is the lower side of the same test, and they are stored in the order of
/// the tests. A processor then makes all four tests by one instruction.
#[derive(Clone, Copy)]
pub struct Bounds {
    x0: i32,
    opposite_x1: i32,
    y0: i32,
    opposite_y1: i32,
}

/// The coordinate of the plane nearest to this one.
fn nearest(coordinate: i64) -> i64
    ensures { result ≡ int_min (int_max coordinate (neg_ℤ PLANE_LIMIT)) PLANE_LIMIT }
{
    coordinate.max(-PLANE_LIMIT).min(PLANE_LIMIT)
}

/// A coordinate of the plane as 32 bits.
fn narrow(coordinate: i64) -> i32
    requires low { neg_ℤ PLANE_LIMIT ≤ℤ coordinate }
    requires high { coordinate ≤ℤ PLANE_LIMIT }
    ensures value { result ≡ coordinate }
    ensures low { neg_ℤ PLANE_LIMIT ≤ℤ result }
    ensures high { result ≤ℤ PLANE_LIMIT }
{
    coordinate as i32
}

/// The negative of a coordinate of the plane.
#[tactic(auto, using(std::proofs::lemmas::Int::ints))]
fn opposite(coordinate: i32) -> i32
    requires low { neg_ℤ PLANE_LIMIT ≤ℤ coordinate }
    requires high { coordinate ≤ℤ PLANE_LIMIT }
    ensures value { result ≡ neg_ℤ coordinate }
{
    -coordinate
}

/// The high end that was stored negated.
#[tactic(auto, using(std::proofs::lemmas::Int::ints))]
fn opposite_end(coordinate: i64) -> i32
    requires low { neg_ℤ PLANE_LIMIT ≤ℤ coordinate }
    requires high { coordinate ≤ℤ PLANE_LIMIT }
    ensures { neg_ℤ result ≡ coordinate }
{
    opposite(narrow(coordinate))
}

/// Whether a coordinate lies from `low` to the end that has this negative. It has no branch, since the processor would mispredict it for
/// most points.
#[tactic(auto, using(crate::proofs::Opposites::opposites))]
fn is_between(low: i32, coordinate: i32, opposite_high: i32, opposite_coordinate: i32) -> bool
    requires { opposite_coordinate ≡ neg_ℤ coordinate }
    ensures { result ≡ int_le low coordinate && int_le coordinate (neg_ℤ opposite_high) }
{
    (low <= coordinate) & (opposite_high <= opposite_coordinate)
}

impl Bounds {
    ghost use Rattle.outline_boxes.specs.Bounds.{box_of};

    /// The bounds of an area. Its ends need not be in order; an area with ends out of order has no points.
    ///
    /// Its coordinates go from `-PLANE_LIMIT` to `PLANE_LIMIT`.
    pub fn of(area: &Area) -> Bounds
        requires { IsInPlane area.now }
        ensures { box_of result ≡ area.now }
    {
        Bounds {
            x0: narrow(area.x0),
            opposite_x1: opposite_end(area.x1),
            y0: narrow(area.y0),
            opposite_y1: opposite_end(area.y1),
        }
    }

    /// The bounds of an area, which may extend beyond the plane: they contain the same points of the grid as the area.
    pub fn on_grid(area: &Area) -> Bounds
        ensures { (x : APoint) → Has (box_of result) x ↔ Has area.now x }
    {
        let area = *area; // by value, since that tells that the coordinates are of type i64
        Bounds::of(&Area {
            x0: nearest(area.x0),
            y0: nearest(area.y0),
            x1: nearest(area.x1),
            y1: nearest(area.y1),
        })
    }

    /// Bounds that contain no point.
    pub fn nowhere() -> Bounds
        ensures { (x : APoint) → ¬ Has (box_of result) x }
    {
        Bounds::of(&Area {
            x0: PLANE_LIMIT,
            y0: PLANE_LIMIT,
            x1: -PLANE_LIMIT,
            y1: -PLANE_LIMIT,
        })
    }

    /// The area.
    pub fn area(&self) -> Area
        ensures { result ≡ box_of self.now }
    {
        Area {
            x0: i64::from(self.x0),
            y0: i64::from(self.y0),
            x1: -i64::from(self.opposite_x1),
            y1: -i64::from(self.opposite_y1),
        }
    }

    /// Whether the area contains the point. It has no branch.
    #[inline(always)]
    pub fn has(&self, spot: &Spot) -> bool
        ensures test { result ≡ has_point (box_of self.now) spot.now }
        ensures inside { IsTrue result ↔ Has (box_of self.now) spot.now }
    {
        is_between(self.x0, spot.x, self.opposite_x1, spot.opposite_x)
            & is_between(self.y0, spot.y, self.opposite_y1, spot.opposite_y)
    }
}
