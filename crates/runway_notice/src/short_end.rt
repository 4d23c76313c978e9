//! Ends of runways in a compact form.

ghost use Rattle.std.specs.Prelude.{◌≡◌, ◌≤◌, ◌^◌, ◌-ℤ◌, unsigned_abs};
ghost use Rattle.grid_exact.specs.Grid.{OnGrid};
ghost use Rattle.grid_exact.specs.Vector.{along_of, length_of};
ghost use Rattle.airfields.specs.Runways.{IsElevation};

use crate::parts::{dot, square_length};
use airfields::RunwayEnd;
use grid_exact::{COORDINATE_LIMIT, Point, Start, Vector};

/// The position and elevation of a runway end in 12 bytes: each structure near an airport reads the ends of its runway.
#[derive(Clone, Copy)]
pub(crate) struct ShortEnd {
    x: i32,
    y: i32,
    z: i32,
    ghost on_grid: { OnGrid x y },
    ghost allowed: { IsElevation z },
}

/// A coordinate or an elevation in 32 bits.
fn narrow(number: i64) -> i32
    requires { unsigned_abs number ≤ unsigned_abs COORDINATE_LIMIT }
    ensures { result ≡ number }
{
    number as i32
}

impl ShortEnd {
    ghost use Rattle.runway_notice.specs.ShortEnds.{IsEnd};

    /// An end of a runway.
    pub(crate) fn of(end: &RunwayEnd) -> ShortEnd
        requires allowed { IsElevation end.now.z }
        ensures end { IsEnd end.now result }
    {
        ShortEnd {
            x: narrow(end.at.x),
            y: narrow(end.at.y),
            z: narrow(end.z),
        }
    }

    /// The elevation, in tenths of a foot.
    pub(crate) fn elevation(&self) -> i64
        ensures value { result ≡ self.now.z }
        ensures allowed { IsElevation result }
        ensures size { unsigned_abs result ≤ 2 ^ 19 }
    {
        i64::from(self.z)
    }

    /// The start of a line at the end.
    pub(crate) fn start(&self) -> Start
        ensures x { result.x ≡ self.now.x }
        ensures y { result.y ≡ self.now.y }
    {
        Start {
            x: i64::from(self.x),
            y: i64::from(self.y),
        }
    }

    /// The vector from the end to a point.
    fn to_point(&self, point: &Point) -> Vector
        ensures x { result.x ≡ point.now.x -ℤ self.now.x }
        ensures y { result.y ≡ point.now.y -ℤ self.now.y }
    {
        Vector {
            x: point.x - i64::from(self.x),
            y: point.y - i64::from(self.y),
        }
    }

    /// The vector from the end to another end.
    pub(crate) fn to_end(&self, other: &ShortEnd) -> Vector
        ensures x { result.x ≡ other.now.x -ℤ self.now.x }
        ensures y { result.y ≡ other.now.y -ℤ self.now.y }
    {
        Vector {
            x: i64::from(other.x) - i64::from(self.x),
            y: i64::from(other.y) - i64::from(self.y),
        }
    }

    /// The square of the distance from it to a point.
    pub(crate) fn square_to(&self, point: &Point) -> u64
        ensures { result ≡ length_of (point.now.x -ℤ self.now.x) (point.now.y -ℤ self.now.y) }
    {
        square_length(&self.to_point(point))
    }

    /// The distance of a point from it toward the other end of the runway, times the runway's length.
    pub(crate) fn along(&self, other: &ShortEnd, point: &Point) -> i64
        ensures value { result ≡ along_of (point.now.x -ℤ self.now.x) (point.now.y
            -ℤ self.now.y) (other.now.x -ℤ self.now.x) (other.now.y -ℤ self.now.y) }
        ensures size { unsigned_abs result ≤ 2 ^ 55 }
    {
        dot(&self.to_point(point), &self.to_end(other))
    }
}
