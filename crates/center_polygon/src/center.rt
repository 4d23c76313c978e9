//! Centers of arcs.

ghost use Rattle.std.specs.Prelude.{◌≡◌, ◌-ℤ◌};
ghost use Rattle.center_polygon.specs.Walks.{is_spot};

use grid_exact::{Point, Start, Vector};
use std::marker::Model;

/// The center of an arc: a point of the grid, or at most 200 feet off it.
#[derive(Clone, Copy)]
pub struct Center {
    x: i64,
    y: i64,
}

impl Model for Center {
    ghost use Rattle.center_polygon.specs.Spots.{Spot};
    ghost use Rattle.grid_exact.specs.Lines.{IsNearGrid};

    ghost Value = { Spot };

    ghost view = { λ c. record { x = c.x; y = c.y } };

    ghost invariant = { λ c. IsNearGrid c.x c.y };

    ghost inverse = { λ v. record { x = v.x; y = v.y } };
}

impl Center {
    /// The center at the start of a surface's line.
    pub fn at(start: &Start) -> Center
        ensures x { result.x ≡ start.now.x }
        ensures y { result.y ≡ start.now.y }
    {
        Center {
            x: start.x,
            y: start.y,
        }
    }

    /// The same place as the start of a surface's line.
    pub fn start(&self) -> Start
        ensures x { result.x ≡ self.now.x }
        ensures y { result.y ≡ self.now.y }
    {
        Start {
            x: self.x,
            y: self.y,
        }
    }

    /// The vector from here to a point.
    pub fn to_point(&self, x: &Point) -> Vector
        ensures x { result.x ≡ x.now.x -ℤ self.now.x }
        ensures y { result.y ≡ x.now.y -ℤ self.now.y }
    {
        self.start().to_point(x)
    }

    /// The vector from here to another center.
    pub fn to_center(&self, other: &Center) -> Vector
        ensures x { result.x ≡ other.now.x -ℤ self.now.x }
        ensures y { result.y ≡ other.now.y -ℤ self.now.y }
    {
        self.start().to_start(&other.start())
    }

    /// The vector from a point to here.
    pub fn from_point(&self, x: &Point) -> Vector
        ensures x { result.x ≡ self.now.x -ℤ x.now.x }
        ensures y { result.y ≡ self.now.y -ℤ x.now.y }
    {
        Start::at(x).to_start(&self.start())
    }

    /// Whether another center is at the same place.
    pub(crate) fn is_at(&self, other: &Center) -> bool
        ensures { result ≡ is_spot self.now other.now }
    {
        self.x == other.x && self.y == other.y
    }
}
