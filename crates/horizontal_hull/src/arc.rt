//! Arcs about the ends of primary surfaces.

ghost use Rattle.std.specs.Prelude.{◌≡◌, ◌≤◌, ◌-ℤ◌, if◌then◌else◌, nat_le, unsigned_abs};
ghost use Rattle.grid_exact.specs.declared.start.TheConstants.{START_LIMIT};
ghost use Rattle.airfields.specs.Runways.{IsProper};
ghost use Rattle.horizontal_hull.specs.Arcs.{arc as arc_of, spot_of};

use crate::sizes::ARC_MOST;
use airfields::Runway;
use center_polygon::Center;
use grid_exact::{Point, Start, Vector};
use runway_lines::{End, center, class};
use std::marker::Model;

/// An arc about the center at an end of a runway's primary surface (77.19(a)). It takes 12 bytes, half of what a 64-bit center would need:
/// each structure near an airport reads the airport's arcs.
#[derive(Drop)]
pub(crate) struct Arc {
    x: i32,
    y: i32,
    radius: u32,
}

impl Model for Arc {
    ghost use Rattle.grid_exact.specs.Lines.{IsNearGrid};
    ghost use Rattle.horizontal_hull.specs.Arcs.{ArcShape};

    ghost Value = { ArcShape };

    ghost view = { λ a. record { x = a.x; y = a.y; radius = a.radius } };

    ghost invariant = { λ a. IsNearGrid a.x a.y };
}

/// A coordinate of a center as 32 bits.
fn narrow(coordinate: i64) -> i32
    requires size { unsigned_abs coordinate ≤ START_LIMIT }
    ensures { result ≡ coordinate }
{
    coordinate as i32
}

impl Arc {
    /// The arc at this end of a runway.
    pub(crate) fn of(runway: &Runway, end: End) -> Arc
        requires proper { IsProper runway.now }
        ensures shape { result ≡ arc_of runway.now end }
        ensures radius { result.radius ≤ ARC_MOST }
    {
        let start = center(runway, end);
        Arc {
            x: narrow(start.x),
            y: narrow(start.y),
            radius: class(runway).radius as u32,
        }
    }

    /// The start of a line at the center.
    #[inline(always)]
    fn start(&self) -> Start
        ensures x { result.x ≡ self.now.x }
        ensures y { result.y ≡ self.now.y }
    {
        Start {
            x: i64::from(self.x),
            y: i64::from(self.y),
        }
    }

    /// Its center.
    pub(crate) fn center(&self) -> Center
        ensures { result ≡ spot_of self.now }
    {
        Center::at(&self.start())
    }

    /// Its radius.
    pub(crate) fn radius(&self) -> u32
        ensures { result ≡ self.now.radius }
    {
        self.radius
    }

    /// The vector from the center to a point.
    pub(crate) fn to_point(&self, x: &Point) -> Vector
        ensures x { result.x ≡ x.now.x -ℤ self.now.x }
        ensures y { result.y ≡ x.now.y -ℤ self.now.y }
    {
        self.start().to_point(x)
    }

    /// The vector from the center to the center of another arc.
    pub(crate) fn to_arc(&self, other: &Arc) -> Vector
        ensures x { result.x ≡ other.now.x -ℤ self.now.x }
        ensures y { result.y ≡ other.now.y -ℤ self.now.y }
    {
        self.start().to_start(&other.start())
    }
}

/// The arc with the smaller radius, the first of two equal ones.
#[inline(always)]
pub(crate) fn smaller<'a>(a: &'a Arc, b: &'a Arc) -> &'a Arc
    ensures { result.now ≡ if nat_le a.now.radius b.now.radius then a.now else b.now }
{
    if a.radius() <= b.radius() { a } else { b }
}

/// The other of the two arcs.
#[inline(always)]
pub(crate) fn larger<'a>(a: &'a Arc, b: &'a Arc) -> &'a Arc
    ensures { result.now ≡ if nat_le a.now.radius b.now.radius then b.now else a.now }
{
    if a.radius() <= b.radius() { b } else { a }
}
