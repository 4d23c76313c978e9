//! The tapered capsule of two arcs.

ghost use Rattle.std.specs.Prelude.{◌≡◌, ◌↔◌, ◌*◌, ◌<◌, ◌≤◌, ◌<ℤ◌, ◌⊎◌, IsTrue, neg_ℤ, pos};
ghost use Rattle.horizontal_hull.specs.declared.edge.Edge.{Edge};
ghost use Rattle.horizontal_hull.specs.Capsules.{InBand, InDisc, InTapered, flare, in_capsule, span};
ghost use Rattle.horizontal_hull.specs.Close.{IsBeside, IsNearBoth};

use crate::arc::{Arc, larger, smaller};
use crate::band::Band;
use crate::edge::Edge;
use crate::sizes::{ARC_MOST, CONICAL_RUN};
use grid_exact::{Point, Vector};

/// Whether a point is at most `c` outside the arc: in its disc with the radius raised by `c`.
fn is_in_disc(edge: Edge, a: &Arc, x: &Point, c: u32) -> bool
    requires radius { a.now.radius ≤ ARC_MOST }
    requires run { c ≤ CONICAL_RUN }
    ensures { IsTrue result ↔ InDisc edge a.now x.now c }
{
    // 64 bits hold both squares, and are faster.
    let away = a.to_point(x).square_length() as u64;
    let radius = u64::from(a.radius() + c);
    match edge {
        Edge::Closed => away <= radius * radius,
        Edge::Open => away < radius * radius,
    }
}

/// Whether the second, larger disc does not contain the first one, and a point lies in the first disc or between the tangents.
fn is_in_smaller_part(edge: Edge, a: &Arc, b: &Arc, x: &Point, c: u32) -> bool
    requires near { IsNearBoth a.now b.now x.now }
    requires order { a.now.radius ≤ b.now.radius }
    requires run { c ≤ CONICAL_RUN }
    ensures { IsTrue result ↔ ((flare a.now b.now * flare a.now b.now < span a.now b.now)
        × (InDisc edge a.now x.now c ⊎ InBand edge a.now b.now x.now c)) }
{
    let band = Band::of(a, b, x, c);
    if !band.is_open() {
        return false;
    }
    if is_in_disc(edge, a, x, c) {
        return true;
    }
    band.is_after() && band.is_before() && band.is_under(edge)
}

/// Whether a point lies in the tapered capsule of two arcs with radii raised by `c`; the first radius is at most the second.
fn is_in_tapered(edge: Edge, a: &Arc, b: &Arc, x: &Point, c: u32) -> bool
    requires near { IsNearBoth a.now b.now x.now }
    requires order { a.now.radius ≤ b.now.radius }
    requires run { c ≤ CONICAL_RUN }
    ensures { IsTrue result ↔ InTapered edge a.now b.now x.now c }
{
    is_in_disc(edge, b, x, c) || is_in_smaller_part(edge, a, b, x, c)
}

/// Whether a disc of this radius lies west of a point, which is given relative to the center.
fn is_west(seen: &Vector, reach: u32) -> bool
    ensures { IsTrue result ↔ (pos reach <ℤ seen.now.x) }
{
    i64::from(reach) < seen.x
}

/// Whether the disc lies east of the point.
fn is_east(seen: &Vector, reach: u32) -> bool
    ensures { IsTrue result ↔ (seen.now.x <ℤ neg_ℤ (pos reach)) }
{
    seen.x < -i64::from(reach)
}

/// Whether the disc lies south of the point.
fn is_south(seen: &Vector, reach: u32) -> bool
    ensures { IsTrue result ↔ (pos reach <ℤ seen.now.y) }
{
    i64::from(reach) < seen.y
}

/// Whether the disc lies north of the point.
fn is_north(seen: &Vector, reach: u32) -> bool
    ensures { IsTrue result ↔ (seen.now.y <ℤ neg_ℤ (pos reach)) }
{
    seen.y < -i64::from(reach)
}

/// Whether both discs of two arcs, with radii raised by `c`, lie on the same side of a point: then the capsule does too.
fn is_beside(a: &Arc, b: &Arc, x: &Point, c: u32) -> bool
    requires first_radius { a.now.radius ≤ ARC_MOST }
    requires second_radius { b.now.radius ≤ ARC_MOST }
    requires run { c ≤ CONICAL_RUN }
    ensures { IsTrue result ↔ IsBeside a.now b.now x.now c }
{
    let from_a = a.to_point(x);
    let from_b = b.to_point(x);
    let first = a.radius() + c;
    let second = b.radius() + c;
    ((is_west(&from_a, first) && is_west(&from_b, second))
        || (is_east(&from_a, first) && is_east(&from_b, second)))
        || ((is_south(&from_a, first) && is_south(&from_b, second))
            || (is_north(&from_a, first) && is_north(&from_b, second)))
}

/// Whether a point lies in the tapered capsule of two arcs with radii raised by `c`.
pub(crate) fn is_in_capsule(edge: Edge, a: &Arc, b: &Arc, x: &Point, c: u32) -> bool
    requires near { IsNearBoth a.now b.now x.now }
    requires run { c ≤ CONICAL_RUN }
    ensures { result ≡ in_capsule edge a.now b.now x.now c }
{
    if is_beside(a, b, x, c) {
        return false;
    }
    if a.radius() <= b.radius() {
        is_in_tapered(edge, a, b, x, c)
    } else {
        is_in_tapered(edge, b, a, x, c)
    }
}

/// Whether the second, larger disc does not contain the first one.
fn is_apart(a: &Arc, b: &Arc) -> bool
    requires first_radius { a.now.radius ≤ ARC_MOST }
    requires second_radius { b.now.radius ≤ ARC_MOST }
    requires order { a.now.radius ≤ b.now.radius }
    ensures { IsTrue result ↔ (flare a.now b.now * flare a.now b.now < span a.now b.now) }
{
    let growth = (b.radius() - a.radius()) as u64;
    growth * growth < a.to_arc(b).square_length() as u64
}

/// Whether a point lies in the second, larger disc, or in the first one where the second does not contain it: then it lies in the
/// tapered capsule.
#[inline(always)]
fn is_in_two_discs(a: &Arc, b: &Arc, x: &Point) -> bool
    requires first_radius { a.now.radius ≤ ARC_MOST }
    requires second_radius { b.now.radius ≤ ARC_MOST }
    requires order { a.now.radius ≤ b.now.radius }
    ensures { IsTrue result → InTapered Edge.Closed a.now b.now x.now 0 }
{
    is_in_disc(Edge::Closed, b, x, 0) || (is_in_disc(Edge::Closed, a, x, 0) && is_apart(a, b))
}

/// Whether a point lies in the disc of one of two arcs, so that the capsule needs no further test.
#[inline(always)]
pub(crate) fn is_in_discs(a: &Arc, b: &Arc, x: &Point) -> bool
    requires near { IsNearBoth a.now b.now x.now }
    ensures { IsTrue result → IsTrue (in_capsule Edge.Closed a.now b.now x.now 0) }
{
    is_in_two_discs(smaller(a, b), larger(a, b), x)
}
