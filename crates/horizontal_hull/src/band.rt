//! The band between the common tangents of two arcs.

ghost use Rattle.std.specs.Prelude.{◌≡◌, ◌↔◌, ◌+◌, ◌-◌, ◌*◌, ◌^◌, ◌<◌, ◌≤◌, ◌+ℤ◌, ◌-ℤ◌, ◌*ℤ◌, ◌≤ℤ◌, neg_ℤ, pos, unsigned_abs, IsTrue};
ghost use Rattle.grid_exact.specs.Products.{cross, dot};
ghost use Rattle.grid_exact.specs.Root.{AtMostRoot};
ghost use Rattle.horizontal_hull.specs.Bands.{IsBand, IsBandOf, IsBetween};
ghost use Rattle.horizontal_hull.specs.Capsules.{ReachesRoot};
ghost use Rattle.horizontal_hull.specs.Close.{IsNearBoth};

use crate::arc::Arc;
use crate::edge::Edge;
use crate::sizes::CONICAL_RUN;
use grid_exact::{Point, Vector, is_above_root, is_at_least_root, is_at_most_root, plus, scale};

/// A point relative to the line between the centers of two arcs; the second radius is at least the first.
#[derive(Clone, Copy)]
pub(crate) struct Band {
    /// The square of the distance between the centers.
    square: u64,
    /// The distance of the point along the line, times the distance between the centers.
    along: i64,
    /// The distance of the point to a side of the line, times the distance between the centers.
    across: u64,
    /// The second radius minus the first.
    growth: u32,
    /// The first radius, raised by `c`.
    radius: u32,
    ghost sized: { IsBand square along across growth radius },
}

/// The component of one vector along another, times the other's length. It fits 64 bits, which are faster.
fn along_of(way: &Vector, seen: &Vector) -> i64
    ensures { result ≡ dot way.now seen.now }
{
    way.dot(seen) as i64
}

/// The component of one vector at right angles to another, times the other's length.
fn across_of(way: &Vector, seen: &Vector) -> u64
    ensures { result ≡ unsigned_abs (cross way.now seen.now) }
{
    (way.cross(seen) as i64).unsigned_abs()
}

impl Band {
    /// The point `x` relative to two arcs with radii raised by `c`.
    pub(crate) fn of(a: &Arc, b: &Arc, x: &Point, c: u32) -> Band
        requires near { IsNearBoth a.now b.now x.now }
        requires order { a.now.radius ≤ b.now.radius }
        requires run { c ≤ CONICAL_RUN }
        ensures { IsBandOf a.now b.now x.now c result.square result.along result.across
            result.growth result.radius }
    {
        let way = a.to_arc(b);
        let seen = a.to_point(x);
        Band {
            square: way.square_length() as u64,
            along: along_of(&way, &seen),
            across: across_of(&way, &seen),
            growth: b.radius() - a.radius(),
            radius: a.radius() + c,
        }
    }

    /// Whether the larger disc does not contain the smaller one.
    pub(crate) fn is_open(&self) -> bool
        ensures { IsTrue result ↔ (self.now.growth * self.now.growth < self.now.square) }
    {
        let growth = self.growth as u64;
        growth * growth < self.square
    }

    /// The square of the distance between the centers.
    pub(crate) fn square(&self) -> u64
        ensures value { result ≡ self.now.square }
        ensures size { result ≤ 2 ^ 41 }
    {
        self.square
    }

    /// The square of the length of a tangent; 0 where the larger disc contains the smaller one, so that there is no tangent.
    fn tangent(&self) -> u64
        ensures value { result ≡ self.now.square - self.now.growth * self.now.growth }
        ensures size { result ≤ 2 ^ 41 }
    {
        let growth = self.growth as u64;
        self.square.saturating_sub(growth * growth)
    }

    /// The distance of the point to a side of the line, times the difference of the radii.
    fn tilt(&self) -> u64
        ensures value { result ≡ self.now.growth * self.now.across }
        ensures size { result < 2 ^ 59 }
    {
        self.growth as u64 * self.across
    }

    /// Whether the point is not before the points where the tangents touch the first arc.
    #[tactic(auto, using(crate::proofs::BandSizes::bands))]
    pub(crate) fn is_after(&self) -> bool
        ensures { IsTrue result ↔ AtMostRoot (neg_ℤ (pos (self.now.growth * self.now.across)))
            self.now.along (self.now.square - self.now.growth * self.now.growth) }
    {
        is_at_most_root(
            -(self.tilt() as i128),
            self.along as i128,
            self.tangent() as u128,
        )
    }

    /// Whether the point is not past the points where the tangents touch the second arc.
    #[tactic(auto, using(crate::proofs::BandSizes::bands))]
    pub(crate) fn is_before(&self) -> bool
        ensures { IsTrue result ↔ AtMostRoot (pos (self.now.growth * self.now.across))
            (pos self.now.square -ℤ self.now.along)
            (self.now.square - self.now.growth * self.now.growth) }
    {
        is_at_most_root(
            self.tilt() as i128,
            self.square as i128 - self.along as i128,
            self.tangent() as u128,
        )
    }

    /// Whether the larger disc does not contain the smaller one, and the point lies between the touching points of the two arcs.
    pub(crate) fn is_between(&self) -> bool
        ensures { IsTrue result ↔ IsBetween self.now.square self.now.along self.now.across
            self.now.growth }
    {
        if self.growth == 0 {
            return self.is_abreast();
        }
        self.is_open() && (self.is_after() && self.is_before())
    }

    /// Whether the centers are apart and the point lies between them. For equal radii, as on the arcs of each runway, this is the same
    /// test, and faster.
    fn is_abreast(&self) -> bool
        ensures { IsTrue result ↔ ((0 < self.now.square)
            × ((pos 0 ≤ℤ self.now.along) × (self.now.along ≤ℤ pos self.now.square))) }
    {
        0 < self.square && (0 <= self.along && self.along <= self.square as i64)
    }

    /// The distance of the point along the line, times the distance between the centers and the difference of the radii.
    #[tactic(auto, using(crate::proofs::BandSizes::bands))]
    pub(crate) fn lean(&self) -> i64
        ensures value { result ≡ pos self.now.growth *ℤ self.now.along }
        ensures size { unsigned_abs result ≤ 2 ^ 58 }
    {
        self.growth as i64 * self.along
    }

    /// The square of the distance to a side of the line, times the squares of the distance between the centers and of the tangent's
    /// length.
    pub(crate) fn reach(&self) -> u128
        ensures { result ≡ self.now.across * self.now.across
            * (self.now.square - self.now.growth * self.now.growth) }
    {
        let across = self.across as u128;
        across * across * self.tangent() as u128
    }

    /// The distance of a tangent to the side of the line, times the distance between the centers and the length of the tangent.
    #[tactic(auto, using(crate::proofs::BandSizes::bands))]
    fn width(&self) -> i128
        ensures value { result ≡ pos (self.now.radius * self.now.square)
            +ℤ pos self.now.growth *ℤ self.now.along }
        ensures size { unsigned_abs result < 2 ^ 62 }
    {
        plus(
            (self.radius as u64 * self.square) as i128,
            scale(self.growth as i64, self.along as i128),
        )
    }

    /// Whether the point is not outside a tangent.
    #[tactic(auto, using(crate::proofs::BandSizes::bands))]
    pub(crate) fn is_under(&self, edge: Edge) -> bool
        ensures { IsTrue result ↔ ReachesRoot edge
            (pos (self.now.radius * self.now.square) +ℤ pos self.now.growth *ℤ self.now.along)
            self.now.across (self.now.square - self.now.growth * self.now.growth) }
    {
        let width = self.width();
        let across = self.across as i128;
        let tangent = self.tangent() as u128;
        match edge {
            Edge::Closed => is_at_least_root(width, across, tangent),
            Edge::Open => is_above_root(width, across, tangent),
        }
    }
}
