//! Trapezoids about a line.

ghost use Rattle.std.specs.Prelude.{◌≡◌};
ghost use Rattle.outline_boxes.specs.Sizes.{HasTrapezoidSizes};

use crate::boxes::joined;
use crate::edges::Edges;
use crate::guess::root_in_parts;
use crate::sides::{opposite, past, short_of};
use grid_exact::{Area, Axis};

/// A trapezoid about a line, from its start over a given length, such as an approach surface (77.19(d), 77.23(b)).
#[derive(Clone, Copy)]
pub struct TrapezoidOutline {
    pub axis: Axis,
    /// Parts per tenth of a foot; the half widths are given in parts.
    pub scale: i64,
    /// Extent to each side of the line at its start, in parts.
    pub near: i64,
    /// Extent to each side at its far end, in parts.
    pub far: i64,
    /// Length along the line, in tenths of a foot.
    pub length: i64,
    ghost sized: { HasTrapezoidSizes scale near far length },
}

impl TrapezoidOutline {
    ghost use Rattle.std.specs.Prelude.{◌*ℤ◌, ◌≤ℤ◌, pos};
    ghost use Rattle.grid_exact.specs.Area.{Has};
    ghost use Rattle.grid_exact.specs.Lines.{offset};
    ghost use Rattle.grid_exact.specs.declared.point.Point.{Point};
    ghost use Rattle.outline_boxes.specs.Boxes.{IsLeastBox};
    ghost use Rattle.outline_boxes.specs.Shapes.{trapezoid_shape};
    ghost use Rattle.outline_boxes.specs.NearBoxes.{IsNearBox};
    ghost use Rattle.outline_boxes.specs.Trapezoids.{HasBoxAndTrapezoid, HasTrapezoid, OnTrapezoid};
    ghost use Rattle.outline_boxes.specs.Reaches.{AreTrapezoidEdges};

    /// The length in parts.
    #[tactic(auto, using(crate::proofs::EdgeSizes::lengths))]
    fn ahead(&self) -> i64
        ensures value { result ≡ self.now.scale *ℤ self.now.length }
        ensures least { pos 0 ≤ℤ result }
    {
        self.scale * self.length
    }

    /// Its two edges that cross the line.
    fn edges(&self) -> Edges
        ensures { AreTrapezoidEdges (trapezoid_shape self.now) result }
    {
        let square = self.axis.way.square_length();
        Edges {
            scale: self.scale,
            ahead: self.ahead(),
            near: self.near,
            far: self.far,
            square,
            root: root_in_parts(square),
        }
    }

    /// The least whole box that contains the four corners, and so every point of the grid on the trapezoid.
    pub fn area(&self) -> Area
        ensures exact { IsLeastBox (HasTrapezoid (trapezoid_shape self.now)) result }
        ensures has { (x : Point) → OnTrapezoid (trapezoid_shape self.now)
            (offset (trapezoid_shape self.now).line x) → Has result x }
        ensures size { IsNearBox result }
    {
        let edges = self.edges();
        let from = self.axis.from;
        let way = self.axis.way;
        let (along_x, along_y) = (way.x.unsigned_abs(), way.y.unsigned_abs());
        Area {
            x0: short_of(from.x, edges.reach(opposite(way.x), along_y)),
            y0: short_of(from.y, edges.reach(opposite(way.y), along_x)),
            x1: past(from.x, edges.reach(way.x, along_y)),
            y1: past(from.y, edges.reach(way.y, along_x)),
        }
    }
    /// The least whole box that contains a box and the four corners, and so every point of the grid in the box or on the trapezoid.
    pub fn area_with(&self, held: &Area) -> Area
        ensures exact { IsLeastBox (HasBoxAndTrapezoid held.now (trapezoid_shape self.now)) result }
        ensures held { (x : Point) → Has held.now x → Has result x }
        ensures has { (x : Point) → OnTrapezoid (trapezoid_shape self.now)
            (offset (trapezoid_shape self.now).line x) → Has result x }
    {
        joined(held, &self.area())
    }
}
