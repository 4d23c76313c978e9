//! Reference points of airports, with their elevations, in half the memory.

ghost use Rattle.std.specs.Prelude.{◌≡◌, ◌≤ℤ◌, neg_ℤ};
ghost use Rattle.grid_exact.specs.Grid.{OnGrid};
ghost use Rattle.grid_exact.specs.declared.point.TheConstants.{COORDINATE_LIMIT};
ghost use Rattle.airfields.specs.Runways.{IsElevation};

use grid_exact::Point;

/// An airport's reference point and elevation in 12 bytes. They are stored next to the airport's boxes, since each structure near it reads
/// them.
#[derive(Clone, Copy)]
pub(crate) struct Datum {
    x: i32,
    y: i32,
    elevation: i32,
    ghost on_grid: { OnGrid x y },
}

/// A coordinate of the grid as 32 bits.
fn narrow_coordinate(coordinate: i64) -> i32
    requires low { neg_ℤ COORDINATE_LIMIT ≤ℤ coordinate }
    requires high { coordinate ≤ℤ COORDINATE_LIMIT }
    ensures { result ≡ coordinate }
{
    coordinate as i32
}

/// An elevation within its limits as 32 bits.
fn narrow_elevation(elevation: i64) -> i32
    requires { IsElevation elevation }
    ensures { result ≡ elevation }
{
    elevation as i32
}

impl Datum {
    /// The compact form of a reference point and an elevation.
    pub(crate) fn of(point: &Point, elevation: i64) -> Datum
        requires { IsElevation elevation }
        ensures x { result.x ≡ point.now.x }
        ensures y { result.y ≡ point.now.y }
        ensures elevation { result.elevation ≡ elevation }
    {
        Datum {
            x: narrow_coordinate(point.x),
            y: narrow_coordinate(point.y),
            elevation: narrow_elevation(elevation),
        }
    }

    /// The reference point.
    #[inline(always)]
    pub(crate) fn point(&self) -> Point
        ensures x { result.x ≡ self.now.x }
        ensures y { result.y ≡ self.now.y }
    {
        Point {
            x: i64::from(self.x),
            y: i64::from(self.y),
        }
    }

    /// The elevation.
    #[inline(always)]
    pub(crate) fn elevation(&self) -> i64
        ensures { result ≡ self.now.elevation }
    {
        i64::from(self.elevation)
    }
}
