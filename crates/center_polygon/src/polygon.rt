//! The convex polygon of the centers.

ghost use Rattle.std.specs.Prelude.{◌≡◌, ◌↔◌, IfOk, IsTrue};
ghost use Rattle.grid_exact.specs.declared.point.Point.{Point};
ghost use Rattle.center_polygon.specs.Shapes.{IsShape};
ghost use Rattle.center_polygon.specs.Triangles.{InSomeTriangle, in_some_triangle};

use crate::center::Center;
use crate::corners::walk;
use crate::triples::{is_bent_with, is_in_some_triangle};
use crate::walk::Walk;
use grid_exact::{NoMemory, Point};
use std::alloc::Global;
use std::marker::Model;

/// The stored form of a polygon.
#[derive(Drop)]
pub(crate) enum Shape {
    /// All centers are on one line: there is no polygon.
    Flat,
    /// The walk round it.
    Round(Walk),
    /// No walk round all centers was found, so every triangle is tested. No centers are known for which this happens.
    Loose,
}

/// The convex polygon of some centers: the union of the closed triangles of each three of them that are not on one line. Its view in
/// contracts is the list of the centers.
pub struct CenterPolygon {
    centers: Vec<Center>,
    shape: Shape,
}

// By hand, so that no crate above proves again how what it holds is dropped.
impl Drop for CenterPolygon {
    fn drop(self) {
        let CenterPolygon {
            centers: _,
            shape: _,
        } = self;
    }
}

impl Model for CenterPolygon {
    ghost use Rattle.std.specs.Prelude.{List};
    ghost use Rattle.center_polygon.specs.Spots.{Spot};
    ghost use Rattle.center_polygon.specs.Shapes.{IsShape};

    ghost Value = { List Spot };

    ghost view = { λ p. p.centers.items };

    ghost invariant = { λ p. IsShape p.centers.items p.shape };
}

/// The stored form of the polygon of some centers.
fn kept(alloc: Global, centers: &[Center]) -> Result<Shape, NoMemory>
    ensures { IfOk result (λ s. IsShape centers.now s) }
{
    let [first, ..] = centers else {
        return Ok(Shape::Flat);
    };
    if !is_bent_with(first, centers) {
        return Ok(Shape::Flat);
    }
    let walk = walk(alloc, centers, first)?;
    if walk.is_round(centers) {
        return Ok(Shape::Round(walk));
    }
    Ok(Shape::Loose)
}

impl CenterPolygon {
    /// The polygon of some centers.
    ///
    /// # Errors
    ///
    /// `NoMemory` where memory was refused.
    pub fn of(alloc: Global, centers: Vec<Center>) -> Result<CenterPolygon, NoMemory>
        ensures centers { IfOk result (λ p. p ≡ centers.items) }
    {
        let shape = kept(alloc, centers.as_slice())?;
        Ok(CenterPolygon { centers, shape })
    }

    /// Whether a point lies in the closed triangle of some three of the centers that are not on one line, that is, right of no edge of the
    /// walk.
    pub fn has(&self, x: &Point) -> bool
        ensures exact { IsTrue result ↔ InSomeTriangle self.now x.now }
        ensures test { result ≡ in_some_triangle self.now x.now }
    {
        match &self.shape {
            Shape::Flat => false,
            Shape::Round(walk) => walk.keeps_left(x),
            Shape::Loose => is_in_some_triangle(self.centers.as_slice(), x),
        }
    }
}
