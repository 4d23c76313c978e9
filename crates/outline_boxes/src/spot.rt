//! Points prepared for tests against many boxes.

ghost use Rattle.std.specs.Prelude.{◌≡◌, ◌≤ℤ◌, neg_ℤ};
ghost use Rattle.grid_exact.specs.declared.point.TheConstants.{COORDINATE_LIMIT};

use grid_exact::Point;
use std::marker::Model;

/// A point of the grid, stored as its coordinates and their negatives in the order in which `Bounds` stores the ends of an area: a
/// processor then tests an area by one instruction, without preparation. Its view in contracts is the point.
#[derive(Drop)]
pub struct Spot {
    pub(crate) x: i32,
    pub(crate) opposite_x: i32,
    pub(crate) y: i32,
    pub(crate) opposite_y: i32,
    at: Point,
}

impl Model for Spot {
    ghost use Rattle.grid_exact.specs.declared.point.Point.{Point};
    ghost use Rattle.outline_boxes.specs.Bounds.{IsSpot};

    ghost Value = { Point };

    ghost view = { λ s. s.at };

    ghost invariant = { λ s. IsSpot s.x s.opposite_x s.y s.opposite_y s.at };
}

/// A coordinate of the grid as 32 bits.
fn narrow(coordinate: i64) -> i32
    requires low { neg_ℤ COORDINATE_LIMIT ≤ℤ coordinate }
    requires high { coordinate ≤ℤ COORDINATE_LIMIT }
    ensures { result ≡ coordinate }
{
    coordinate as i32
}

/// The negative of a coordinate of the grid.
fn opposite(coordinate: i64) -> i32
    requires low { neg_ℤ COORDINATE_LIMIT ≤ℤ coordinate }
    requires high { coordinate ≤ℤ COORDINATE_LIMIT }
    ensures { result ≡ neg_ℤ coordinate }
{
    (-coordinate) as i32
}

impl Spot {
    /// Prepares a point.
    pub fn of(point: &Point) -> Spot
        ensures { result ≡ point.now }
    {
        Spot {
            x: narrow(point.x),
            opposite_x: opposite(point.x),
            y: narrow(point.y),
            opposite_y: opposite(point.y),
            at: *point,
        }
    }

    /// The point.
    #[inline(always)]
    pub fn at(&self) -> &Point
        ensures { result.now ≡ self.now }
    {
        &self.at
    }
}
