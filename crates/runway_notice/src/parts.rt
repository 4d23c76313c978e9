//! The position of a point relative to a runway, in 64-bit numbers.

ghost use Rattle.std.specs.Prelude.{◌≡◌, ◌↔◌, ◌+◌, ◌*◌, ◌^◌, ◌≤◌, ◌*ℤ◌, ◌<ℤ◌, pos, unsigned_abs, IsTrue};
ghost use Rattle.grid_exact.specs.Axes.{line_of};
ghost use Rattle.grid_exact.specs.Lines.{IsOffset, offset};
ghost use Rattle.grid_exact.specs.Vector.{along_of, across_of, length_of};

use grid_exact::{Axis, Point, Vector};

/// The product of two components of vectors.
#[tactic(auto, using(crate::proofs::PartFacts::short))]
fn product(a: i64, b: i64) -> i64
    requires left { unsigned_abs a ≤ 2 ^ 27 }
    requires right { unsigned_abs b ≤ 2 ^ 27 }
    ensures value { result ≡ a *ℤ b }
    ensures size { unsigned_abs result ≤ 2 ^ 54 }
{
    a * b
}

/// The inner product.
pub(crate) fn dot(a: &Vector, b: &Vector) -> i64
    ensures value { result ≡ along_of a.now.x a.now.y b.now.x b.now.y }
    ensures size { unsigned_abs result ≤ 2 ^ 55 }
{
    product(a.x, b.x) + product(a.y, b.y)
}

/// The cross product.
fn cross(a: &Vector, b: &Vector) -> i64
    ensures value { result ≡ across_of a.now.x a.now.y b.now.x b.now.y }
    ensures size { unsigned_abs result ≤ 2 ^ 55 }
{
    product(a.x, b.y) - product(a.y, b.x)
}

/// The square of a component of a vector.
#[tactic(auto, using(crate::proofs::PartFacts::short))]
pub(crate) fn squared(part: u64) -> u64
    requires { part ≤ 2 ^ 27 }
    ensures value { result ≡ part * part }
    ensures size { result ≤ 2 ^ 54 }
{
    part * part
}

/// The square of a vector's length.
pub(crate) fn square_length(a: &Vector) -> u64
    ensures value { result ≡ length_of a.now.x a.now.y }
{
    squared(a.x.unsigned_abs()) + squared(a.y.unsigned_abs())
}

/// The position of a point relative to a line: an offset with 64-bit numbers, so that no wider arithmetic is needed.
#[derive(Clone, Copy)]
pub(crate) struct Place {
    /// The distance along the line, times the line's length.
    pub(crate) along: i64,
    /// The distance to a side of the line, times the line's length.
    pub(crate) aside: u64,
    /// The square of the line's length.
    pub(crate) square: u64,
    ghost sizes: { IsOffset along aside square },
}

impl Place {
    ghost use Rattle.runway_notice.specs.Places.{place_offset};

    /// The position of the point relative to the line.
    pub(crate) fn of(line: &Axis, point: &Point) -> Place
        ensures { place_offset result ≡ offset (line_of line.now) point.now }
    {
        let way = line.from.to_point(point);
        Place {
            along: dot(&way, &line.way),
            aside: cross(&way, &line.way).unsigned_abs(),
            square: square_length(&line.way),
        }
    }

    /// Whether the point lies before the line's start.
    pub(crate) fn is_before(&self) -> bool
        ensures { IsTrue result ↔ (self.now.along <ℤ pos 0) }
    {
        self.along < 0
    }

    /// Whether it lies past the line's end.
    pub(crate) fn is_past(&self) -> bool
        ensures { IsTrue result ↔ (pos self.now.square <ℤ self.now.along) }
    {
        (self.square as i64) < self.along
    }
}
