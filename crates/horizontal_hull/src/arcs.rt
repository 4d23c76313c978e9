//! The arcs of an airport, prepared for tests of many points.

ghost use Rattle.std.specs.Prelude.{◌≡◌, IfOk};
ghost use Rattle.std.specs.List.{All, flat_map};
ghost use Rattle.airfields.specs.Runways.{IsProper};
ghost use Rattle.center_polygon.specs.Triangles.{in_some_triangle};
ghost use Rattle.horizontal_hull.specs.Arcs.{arcs_of, arcs_of_runway, centers_of};
ghost use Rattle.horizontal_hull.specs.Kept.{IsKept, shapes_of};

use crate::arc::Arc;
use airfields::{Airport, Runway};
use center_polygon::{Center, CenterPolygon};
use grid_exact::{NoMemory, Point};
use runway_lines::End;
use std::alloc::Global;
use std::marker::Model;

/// The arcs of several runways, with the polygon of their centers; contracts see it as the list of the arcs.
#[derive(Drop)]
struct Several {
    arcs: Vec<Arc>,
    polygon: CenterPolygon,
}

impl Model for Several {
    ghost use Rattle.std.specs.Prelude.{◌≡◌, List};
    ghost use Rattle.horizontal_hull.specs.Arcs.{ArcShape, centers_of};

    ghost Value = { List ArcShape };

    ghost view = { λ s. s.arcs.items };

    ghost invariant = { λ s. s.polygon ≡ centers_of s.arcs.items };
}

/// The arcs at both ends of each runway.
fn arcs_about(alloc: Global, runways: &[Runway]) -> Result<Vec<Arc>, NoMemory>
    requires proper { All IsProper runways.now }
    ensures arcs { IfOk result (λ v. v.items ≡ flat_map arcs_of_runway runways.now) }
{
    let mut arcs = Vec::with_capacity(alloc, 2 * runways.len())?;
    for runway in runways {
        arcs.push(Arc::of(runway, End::One))?;
        arcs.push(Arc::of(runway, End::Two))?;
    }
    Ok(arcs)
}

/// The centers of arcs.
fn centers(alloc: Global, arcs: &[Arc]) -> Result<Vec<Center>, NoMemory>
    ensures centers { IfOk result (λ v. v.items ≡ centers_of arcs.now) }
{
    let mut centers = Vec::with_capacity(alloc, arcs.len())?;
    for arc in arcs {
        centers.push(arc.center())?;
    }
    Ok(centers)
}

impl Several {
    /// The arcs of several runways.
    fn of(alloc: Global, runways: &[Runway]) -> Result<Several, NoMemory>
        requires proper { All IsProper runways.now }
        ensures arcs { IfOk result (λ s. s ≡ flat_map arcs_of_runway runways.now) }
    {
        let arcs = arcs_about(alloc, runways)?;
        let polygon = CenterPolygon::of(alloc, centers(alloc, arcs.as_slice())?)?;
        Ok(Several { arcs, polygon })
    }

    /// The arcs.
    fn as_slice(&self) -> &[Arc]
        ensures { result.now ≡ self.now }
    {
        self.arcs.as_slice()
    }

    /// Whether a point lies in the triangle of any three of the centers.
    fn has_triangle(&self, x: &Point) -> bool
        ensures { result ≡ in_some_triangle (centers_of self.now) x.now }
    {
        self.polygon.has(x)
    }
}

/// The stored form of an airport's arcs.
#[derive(Drop)]
enum Kept {
    /// The airport has no arcs.
    Absent,
    /// The arcs of one runway, the most frequent case. They are stored in place, since each structure near the airport reads them. Two
    /// centers have no triangle.
    Pair([Arc; 2]),
    /// The arcs of several runways, stored on the heap.
    Many(Box<Several>),
}

/// The arcs of runways.
fn keep(alloc: Global, runways: &[Runway]) -> Result<Kept, NoMemory>
    requires proper { All IsProper runways.now }
    ensures arcs { IfOk result (λ k. shapes_of k ≡ flat_map arcs_of_runway runways.now) }
    ensures kept { IfOk result IsKept }
{
    if let [] = runways {
        return Ok(Kept::Absent);
    }
    if let [runway] = runways {
        return Ok(Kept::Pair([Arc::of(runway, End::One), Arc::of(runway, End::Two)]));
    }
    let several = Several::of(alloc, runways)?;
    Ok(Kept::Many(Box::new(alloc, several)?))
}

/// The arcs of an airport; contracts see it as their list.
#[derive(Drop)]
pub(crate) struct Arcs {
    kept: Kept,
}

impl Model for Arcs {
    ghost use Rattle.std.specs.Prelude.{List};
    ghost use Rattle.horizontal_hull.specs.Arcs.{ArcShape};
    ghost use Rattle.horizontal_hull.specs.Kept.{IsKept, shapes_of};

    ghost Value = { List ArcShape };

    ghost view = { λ a. shapes_of a.kept };

    ghost invariant = { λ a. IsKept a.kept };
}

impl Arcs {
    /// The arcs of an airport; none where its category has no surfaces of 77.19.
    pub(crate) fn of(alloc: Global, a: &Airport) -> Result<Arcs, NoMemory>
        requires proper { All IsProper a.now.runways }
        ensures arcs { IfOk result (λ arcs. arcs ≡ arcs_of a.now) }
    {
        if !a.category.civil_surfaces() {
            return Ok(Arcs { kept: Kept::Absent });
        }
        let kept = keep(alloc, a.runways.as_slice())?;
        Ok(Arcs { kept })
    }

    /// The arcs as a slice.
    #[inline(always)]
    pub(crate) fn as_slice(&self) -> &[Arc]
        ensures { result.now ≡ self.now }
    {
        match &self.kept {
            Kept::Absent => &[],
            Kept::Pair(pair) => &pair[..],
            Kept::Many(several) => several.as_slice(),
        }
    }

    /// Whether a point lies in the triangle of any three of the centers.
    #[inline(always)]
    pub(crate) fn has_triangle(&self, x: &Point) -> bool
        ensures { result ≡ in_some_triangle (centers_of self.now) x.now }
    {
        match &self.kept {
            Kept::Absent => false,
            Kept::Pair(_) => false,
            Kept::Many(several) => several.has_triangle(x),
        }
    }
}
