//! The horizontal and conical surfaces of an airport, prepared for many points.

ghost use Rattle.std.specs.Prelude.{◌≡◌, ◌↔◌, ◌*◌, ◌^◌, ◌≤◌, [], ℕ, IfOk, IfSome, IsTrue, unsigned_abs};
ghost use Rattle.std.specs.Option.{MatchOption};
ghost use Rattle.grid_exact.specs.declared.point.Point.{Point};
ghost use Rattle.grid_exact.specs.Excess.{IsExcess};
ghost use Rattle.grid_exact.specs.Level.{IsLevel};
ghost use Rattle.airfields.specs.Airfields.{IsHeldAirport};
ghost use Rattle.horizontal_hull.specs.declared.edge.Edge.{Edge};
ghost use Rattle.horizontal_hull.specs.Arcs.{dome_of};
ghost use Rattle.horizontal_hull.specs.Areas.{AreHullAreas, CoverHull};
ghost use Rattle.horizontal_hull.specs.Close.{AreClose};
ghost use Rattle.horizontal_hull.specs.Rises.{IsRise};
ghost use Rattle.horizontal_hull.specs.Standings.{IsStanding};
ghost use Rattle.horizontal_hull.specs.Within.{ConicalCovers, IsCap, IsLeastConical, Within, cap_of, conical, conical_excess, horizontal, horizontal_excess, is_within as is_within_of};

use crate::arcs::Arcs;
use crate::areas::{HullAreas, areas, outer_box};
use crate::edge::Edge;
use crate::rise::least_rise;
use crate::sizes::{CONICAL_RISE, CONICAL_RUN, CONICAL_SLOPE, HORIZONTAL_RISE};
use crate::some::is_in_some_capsule;
use crate::standing::Standing;
use airfields::Airport;
use grid_exact::{Cap, NoMemory, Point, flat_excess};
use outline_boxes::{Bounds, Spot};
use std::alloc::Global;
use std::marker::Model;

/// The horizontal and conical surfaces of an airport (77.19(a) and (b)), prepared for many points; contracts see it as its arcs and its
/// level.
///
/// 77.19 is for civil airports. Where the airport's category has no civil surfaces, there are no arcs: no point is within them, every cap
/// is `Beyond`, and neither surface is exceeded.
pub struct Hull {
    /// The box that contains both surfaces. It is stored first, since each structure reads it, and reads more only where it contains the
    /// structure's point.
    outer: Bounds,
    arcs: Arcs,
    level: i64,
}

// By hand, so that no crate above proves again how what it holds is dropped.
impl Drop for Hull {
    fn drop(self) {
        let Hull {
            outer: _,
            arcs: _,
            level: _,
        } = self;
    }
}

impl Model for Hull {
    ghost use Rattle.horizontal_hull.specs.Arcs.{Dome};
    ghost use Rattle.horizontal_hull.specs.Close.{IsHull};
    ghost use Rattle.outline_boxes.specs.Bounds.{box_of};

    ghost Value = { Dome };

    ghost view = { λ h. record { arcs = h.arcs; level = h.level } };

    ghost invariant = { λ h. IsHull h.arcs (box_of h.outer) h.level };
}

impl Hull {
    /// The surfaces of an airport within the limits of the register; without arcs where its category has no civil surfaces.
    ///
    /// # Errors
    ///
    /// `NoMemory` where memory was refused.
    pub fn of(alloc: Global, a: &Airport) -> Result<Hull, NoMemory>
        requires held { IsHeldAirport a.now }
        ensures dome { IfOk result (λ h. h ≡ dome_of a.now) }
    {
        let arcs = Arcs::of(alloc, a)?;
        let outer = outer_box(arcs.as_slice());
        Ok(Hull {
            outer,
            arcs,
            level: a.elevation + HORIZONTAL_RISE,
        })
    }

    /// The least boxes of the horizontal and conical surfaces: each contains the discs about the centers of all arcs, with radii raised
    /// by the extent of the surface. `None` where the airport has no arcs, and so neither surface.
    pub fn areas(&self) -> Option<HullAreas>
        ensures exact { MatchOption result (self.now.arcs ≡ []) (AreHullAreas self.now.arcs) }
        ensures covers { IfSome result (CoverHull self.now) }
    {
        areas(self.arcs.as_slice())
    }

    /// Whether a point lies in the box that contains both surfaces.
    fn reaches(&self, x: &Point) -> bool
        ensures close { IsTrue result → AreClose self.now.arcs x.now }
        ensures all { (edge : Edge) (c : ℕ) → c ≤ CONICAL_RUN →
            Within edge self.now.arcs x.now c → IsTrue result }
    {
        self.outer.has(&Spot::of(x))
    }

    /// Whether a point is at most `c` outside the arcs joined by their tangents, or less than `c` without the edge.
    fn is_within(&self, edge: Edge, x: &Point, c: u32) -> bool
        requires run { c ≤ CONICAL_RUN }
        ensures { result ≡ is_within_of edge self.now.arcs x.now c }
    {
        if !self.reaches(x) {
            return false;
        }
        // Triangles first, which are faster.
        if self.arcs.has_triangle(x) {
            return true;
        }
        is_in_some_capsule(edge, self.arcs.as_slice(), x, c)
    }

    /// Whether a point is at most `c` outside the arcs joined by their tangents, in tenths of a foot (77.19(a), (b)). At 0 the horizontal
    /// surface covers it.
    pub fn within(&self, x: &Point, c: u32) -> bool
        requires run { c ≤ CONICAL_RUN }
        ensures exact { IsTrue result ↔ Within Edge.Closed self.now.arcs x.now c }
    {
        self.is_within(Edge::Closed, x, c)
    }

    /// Whether a point is less than `c` outside the arcs joined by their tangents, or in a triangle of their centers.
    pub fn strictly_within(&self, x: &Point, c: u32) -> bool
        requires run { c ≤ CONICAL_RUN }
        ensures exact { IsTrue result ↔ Within Edge.Open self.now.arcs x.now c }
    {
        self.is_within(Edge::Open, x, c)
    }

    /// The same for a point that the horizontal surface does not cover: no triangle contains it, so only capsules are tested.
    fn is_within_beyond(&self, edge: Edge, x: &Point, c: u32) -> bool
        requires beyond { ¬ Within Edge.Closed self.now.arcs x.now 0 }
        requires run { c ≤ CONICAL_RUN }
        ensures { IsTrue result ↔ Within edge self.now.arcs x.now c }
    {
        if !self.reaches(x) {
            return false;
        }
        is_in_some_capsule(edge, self.arcs.as_slice(), x, c)
    }

    /// The height above the horizontal surface of the least level at or above both surfaces: 0 where the horizontal surface covers the
    /// point, and `None` where neither does.
    fn rise(&self, x: &Point) -> Option<u32>
        ensures { MatchOption result (¬ Within Edge.Closed self.now.arcs x.now CONICAL_RUN)
            (IsRise self.now.arcs x.now) }
    {
        if !self.reaches(x) {
            return None;
        }
        // Triangles first, which are faster.
        if self.arcs.has_triangle(x) {
            return Some(0);
        }
        let rise = least_rise(self.arcs.as_slice(), x);
        if CONICAL_RISE < rise {
            return None;
        }
        Some(rise)
    }

    /// The least level at or above the conical surface, which is `rise` above the horizontal surface.
    fn level_at(&self, x: &Point, rise: u32) -> i64
        requires rise { IsRise self.now.arcs x.now rise }
        ensures least { IsLeastConical self.now x.now result }
        ensures size { unsigned_abs result ≤ 2 ^ 19 }
    {
        self.level + i64::from(rise)
    }

    /// The surface that covers a point, horizontal, conical or neither (77.19(a), (b)). The other results for the point follow from it.
    pub fn standing(&self, x: &Point) -> Standing
        ensures { IsStanding self.now x.now result }
    {
        let Some(rise) = self.rise(x) else {
            return Standing::Beyond;
        };
        if rise == 0 {
            return Standing::Horizontal;
        }
        Standing::Conical(self.level_at(x, rise))
    }

    /// The lowest whole level at or above the horizontal and conical surfaces at a point with this standing, in tenths of a foot
    /// (77.19(a), (b)). `Beyond` where neither covers it.
    #[tactic(auto, using(crate::proofs::Listed::cap_listed))]
    pub fn cap_at(&self, standing: &Standing) -> Cap
        ensures exact { (x : Point) → IsStanding self.now x standing.now → IsCap self.now x result }
        ensures value { (x : Point) → IsStanding self.now x standing.now →
            result ≡ cap_of self.now x }
    {
        match standing {
            Standing::Horizontal => Cap::Level(self.level),
            Standing::Conical(level) => Cap::Level(*level),
            Standing::Beyond => Cap::Beyond,
        }
    }

    /// The lowest whole level at or above the horizontal and conical surfaces at a point, in tenths of a foot (77.19(a), (b)). `Beyond`
    /// where neither covers it.
    pub fn cap(&self, x: &Point) -> Cap
        ensures exact { IsCap self.now x.now result }
        ensures value { result ≡ cap_of self.now x.now }
    {
        self.cap_at(&self.standing(x))
    }

    /// The excess of `top` over the horizontal surface at a point with this standing, in tenths of a foot (77.19(a)). `None` where it is
    /// not above, or the surface does not cover the point.
    pub fn excess_horizontal_at(&self, standing: &Standing, top: i64) -> Option<u32>
        requires top { IsLevel top }
        ensures exact { (x : Point) → IsStanding self.now x standing.now →
            IsExcess (horizontal self.now x) top result }
        ensures value { (x : Point) → IsStanding self.now x standing.now →
            result ≡ horizontal_excess self.now x top }
    {
        match standing {
            Standing::Horizontal => flat_excess(self.level, top),
            Standing::Conical(_) => None,
            Standing::Beyond => None,
        }
    }

    /// The excess of `top` over the horizontal surface at a point, in tenths of a foot (77.19(a)). `None` where it is not above, or the
    /// surface does not cover the point.
    pub fn excess_horizontal(&self, x: &Point, top: i64) -> Option<u32>
        requires top { IsLevel top }
        ensures exact { IsExcess (horizontal self.now x.now) top result }
        ensures value { result ≡ horizontal_excess self.now x.now top }
    {
        if top <= self.level {
            return None;
        }
        self.excess_horizontal_at(&self.standing(x), top)
    }

    /// The excess of `top` over the conical surface at a point that it covers, from the least whole level at or above it. The surface
    /// lies at that level or less than one below it, so only a top at the level itself needs another test of the point.
    fn excess_over_conical(&self, x: &Point, least: i64, top: i64) -> Option<u32>
        requires covers { ConicalCovers self.now x.now }
        requires least { IsLeastConical self.now x.now least }
        requires top { IsLevel top }
        ensures exact { IsExcess (conical self.now x.now) top result }
        ensures value { result ≡ conical_excess self.now x.now top }
    {
        // First of all: reading the hull's level gives the proof the bound of `least`.
        let rise = (least - self.level) as u32;
        if top < least {
            return None;
        }
        if least < top {
            return Some((top - least) as u32);
        }
        if !self.is_within_beyond(Edge::Open, x, CONICAL_SLOPE * rise) {
            return None;
        }
        Some(0)
    }

    /// The excess of `top` over the conical surface at a point with this standing, in tenths of a foot, rounded down (77.19(b)). `None`
    /// where it is not above, or the surface does not cover the point.
    pub fn excess_conical_at(&self, x: &Point, standing: &Standing, top: i64) -> Option<u32>
        requires standing { IsStanding self.now x.now standing.now }
        requires top { IsLevel top }
        ensures exact { IsExcess (conical self.now x.now) top result }
        ensures value { result ≡ conical_excess self.now x.now top }
    {
        match standing {
            Standing::Conical(least) => self.excess_over_conical(x, *least, top),
            Standing::Horizontal | Standing::Beyond => None,
        }
    }

    /// The excess of `top` over the conical surface at a point, in tenths of a foot, rounded down (77.19(b)). `None` where it is not
    /// above, or the surface does not cover the point.
    pub fn excess_conical(&self, x: &Point, top: i64) -> Option<u32>
        requires top { IsLevel top }
        ensures exact { IsExcess (conical self.now x.now) top result }
        ensures value { result ≡ conical_excess self.now x.now top }
    {
        if top < self.level {
            return None;
        }
        self.excess_conical_at(x, &self.standing(x), top)
    }
}
