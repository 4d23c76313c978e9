//! The elevation of a runway's centerline.

ghost use Rattle.std.specs.Prelude.{◌≡◌, ◌^◌, ◌≤◌, ◌≤ℤ◌, pos, unsigned_abs};
ghost use Rattle.grid_exact.specs.Level.{IsLevel};
ghost use Rattle.airfields.specs.Runways.{IsProper};
ghost use Rattle.runway_lines.specs.Centerlines.{IsSloped, clamped_length};

use airfields::Runway;
use grid_exact::{Axis, Offset, Point, Start, Vector, scale};

/// A runway's centerline, from its first end to its second.
#[derive(Clone, Copy)]
pub struct Centerline {
    pub axis: Axis,
    /// The elevation of the first end, in tenths of a foot.
    pub z: i64,
    /// The elevation of the second end minus that of the first, in tenths of a foot.
    pub rise: i64,
    ghost sloped: { IsSloped z rise },
}

impl Centerline {
    ghost use Rattle.grid_exact.specs.Lines.{offset as offset_of};
    ghost use Rattle.runway_lines.specs.Centerlines.{climb as climb_of, elevation as elevation_of, elevation_at as elevation_at_of};
    ghost use Rattle.runway_lines.specs.Profiles.{profile, profile_of};

    /// The centerline of a runway.
    pub fn of(runway: &Runway) -> Centerline
        requires proper { IsProper runway.now }
        ensures profile { profile result ≡ profile_of runway.now }
    {
        let from = &runway.end1.at;
        Centerline {
            axis: Axis {
                from: Start::at(from),
                way: Vector::between(from, &runway.end2.at),
            },
            z: runway.end1.z,
            rise: runway.end2.z - runway.end1.z,
        }
    }

    /// The position of a point relative to the centerline.
    pub fn offset(&self, point: &Point) -> Offset
        ensures { result ≡ offset_of (profile self.now).line point.now }
    {
        self.axis.offset(point)
    }

    /// The elevation of the centerline's point nearest to a point with this offset, minus that of the first end, rounded down.
    fn climb(&self, at: &Offset) -> i64
        ensures value { result ≡ climb_of (profile self.now) at.now }
        ensures size { unsigned_abs result ≤ 2 ^ 18 }
    {
        let square = at.square() as i128;
        scale(self.rise, progress(at)).div_euclid(square) as i64
    }

    /// The elevation of the centerline's point nearest to a point with this offset, rounded down, in tenths of a foot.
    pub fn elevation_at(&self, at: &Offset) -> i64
        ensures value { result ≡ elevation_at_of (profile self.now) at.now }
        ensures level { IsLevel result }
        ensures size { unsigned_abs result ≤ 2 ^ 19 }
    {
        self.z + self.climb(at)
    }

    /// The elevation of the centerline's point nearest to a point, rounded down, in tenths of a foot.
    pub fn elevation(&self, point: &Point) -> i64
        ensures value { result ≡ elevation_of (profile self.now) point.now }
        ensures level { IsLevel result }
        ensures size { unsigned_abs result ≤ 2 ^ 19 }
    {
        self.elevation_at(&self.offset(point))
    }
}

/// The distance along a line of its point nearest to a point with this offset, times the line's length.
fn progress(at: &Offset) -> i128
    ensures value { result ≡ clamped_length at.now.along at.now.square }
    ensures least { pos 0 ≤ℤ result }
    ensures most { result ≤ℤ pos at.now.square }
{
    let along = at.along();
    if along < 0 {
        return 0;
    }
    let square = at.square() as i128;
    if square < along {
        return square;
    }
    along
}
