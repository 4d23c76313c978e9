//! Distances from a point to two arc centers.

ghost use Rattle.std.specs.Prelude.{◌≡◌, ◌↔◌, ◌+◌, ◌*◌, ◌^◌, ◌≤◌, ◌<◌, ◌+ℤ◌, IsTrue, pos, unsigned_abs};
ghost use Rattle.grid_exact.specs.declared.point.Point.{Point};
ghost use Rattle.horizontal_hull.specs.Arcs.{ArcShape};
ghost use Rattle.horizontal_hull.specs.Bands.{IsSight};
ghost use Rattle.horizontal_hull.specs.Capsules.{distance_away, in_capsule};
ghost use Rattle.horizontal_hull.specs.Close.{IsNearBoth};
ghost use Rattle.horizontal_hull.specs.declared.edge.Edge.TheVariants.{Closed};

use crate::arc::{Arc, larger, smaller};
use crate::band::Band;
use crate::sizes::CONICAL_RUN;
use grid_exact::Point;

/// Distances from a point to two arc centers, independent of how far the arcs are widened, so that they are computed once; radii in rising
/// order.
#[derive(Clone, Copy)]
pub(crate) struct Seen {
    /// The square of the distance to the first center.
    pub(crate) first: u64,
    /// The square of the distance to the second center.
    pub(crate) second: u64,
    pub(crate) first_radius: u32,
    pub(crate) second_radius: u32,
    /// The square of the distance between the centers.
    pub(crate) square: u64,
    /// The distance along the line of the centers, times the distance between them and the difference of the radii.
    pub(crate) lean: i64,
    /// The square of the distance to a side of that line, times the squares of the distance between the centers and of the tangent's
    /// length.
    pub(crate) reach: u128,
    /// Whether the larger disc does not contain the smaller one.
    pub(crate) is_open: bool,
    /// Whether, in addition, the point lies between the touching points of the tangents.
    pub(crate) is_between: bool,
    ghost sized: { IsSight first second first_radius second_radius square lean },
}

/// The square of the distance from the center of an arc to a point.
fn square_to(a: &Arc, x: &Point) -> u64
    ensures value { result ≡ distance_away a.now x.now }
    ensures size { result ≤ 2 ^ 55 }
{
    a.to_point(x).square_length() as u64
}

impl Seen {
    ghost use Rattle.horizontal_hull.specs.Sights.{InSight, IsSeen, IsSeenOf, IsUnder, width as width_of};

    /// The distances of a point from two arcs; the second radius is at least the first.
    #[inline(always)]
    fn ordered(a: &Arc, b: &Arc, x: &Point) -> Seen
        requires near { IsNearBoth a.now b.now x.now }
        requires order { a.now.radius ≤ b.now.radius }
        ensures { IsSeen a.now b.now x.now result }
    {
        let band = Band::of(a, b, x, 0);
        Seen {
            first: square_to(a, x),
            second: square_to(b, x),
            first_radius: a.radius(),
            second_radius: b.radius(),
            square: band.square(),
            lean: band.lean(),
            reach: band.reach(),
            is_open: band.is_open(),
            is_between: band.is_between(),
        }
    }

    /// The distances of a point from two arcs in either order.
    #[inline(always)]
    pub(crate) fn of(a: &Arc, b: &Arc, x: &Point) -> Seen
        requires near { IsNearBoth a.now b.now x.now }
        ensures { IsSeenOf a.now b.now x.now result }
    {
        Seen::ordered(smaller(a, b), larger(a, b), x)
    }

    /// Whether it lies in the disc of the second arc.
    fn is_in_second(&self, c: u32) -> bool
        requires run { c ≤ CONICAL_RUN }
        ensures { IsTrue result ↔ (self.now.second ≤ (self.now.second_radius + c)
            * (self.now.second_radius + c)) }
    {
        let radius = u64::from(self.second_radius + c);
        self.second <= radius * radius
    }

    /// Whether it lies in the disc of the first arc.
    fn is_in_first(&self, c: u32) -> bool
        requires run { c ≤ CONICAL_RUN }
        ensures { IsTrue result ↔ (self.now.first ≤ (self.now.first_radius + c)
            * (self.now.first_radius + c)) }
    {
        let radius = u64::from(self.first_radius + c);
        self.first <= radius * radius
    }

    /// The distance of a tangent to the side of the line of the centers, times the distance between the centers and the tangent's length.
    fn width(&self, c: u32) -> i64
        requires run { c ≤ CONICAL_RUN }
        ensures value { result ≡ width_of self.now c }
        ensures size { unsigned_abs result < 2 ^ 62 }
    {
        (u64::from(self.first_radius + c) * self.square) as i64 + self.lean
    }

    /// Whether the point is not outside a tangent.
    fn is_under(&self, c: u32) -> bool
        requires run { c ≤ CONICAL_RUN }
        ensures { IsTrue result ↔ IsUnder self.now c }
    {
        let width = self.width(c);
        let size = width.unsigned_abs() as u128;
        0 <= width && self.reach <= size * size
    }

    /// Whether the point lies in the capsule of the arcs with radii raised by `c`, by the stored distances.
    fn is_in_sight(&self, c: u32) -> bool
        requires run { c ≤ CONICAL_RUN }
        ensures { IsTrue result ↔ InSight self.now c }
    {
        self.is_in_second(c)
            || ((self.is_open && self.is_in_first(c)) || (self.is_between && self.is_under(c)))
    }

    /// Whether it lies in the capsule of the arcs with radii raised by `c`.
    pub(crate) fn is_within(&self, c: u32) -> bool
        requires run { c ≤ CONICAL_RUN }
        ensures { (a b : ArcShape) (x : Point) → IsSeenOf a b x self.now →
            result ≡ in_capsule Closed a b x c }
    {
        self.is_in_sight(c)
    }
}
