//! Rectangles about a line.

ghost use Rattle.std.specs.Prelude.{◌≡◌, ◌≤◌, ◌^◌, unsigned_abs};
ghost use Rattle.outline_boxes.specs.Sizes.{HasRectangleSizes};

use crate::boxes::widened;
use crate::edges::Edges;
use crate::guess::root_in_parts;
use crate::sides::{higher, lower, past, short_of};
use grid_exact::{Area, Axis};

/// A rectangle about a line, from its start to its end, such as a primary surface (77.19(c), 77.23(a)).
#[derive(Clone, Copy)]
pub struct RectangleOutline {
    pub axis: Axis,
    /// Parts per tenth of a foot; the half width is given in parts.
    pub scale: i64,
    /// Extent to each side of the line, in parts.
    pub half: i64,
    ghost sized: { HasRectangleSizes scale half },
}

impl RectangleOutline {
    ghost use Rattle.grid_exact.specs.Area.{Has};
    ghost use Rattle.grid_exact.specs.Lines.{offset};
    ghost use Rattle.grid_exact.specs.declared.point.Point.{Point};
    ghost use Rattle.outline_boxes.specs.Boxes.{IsLeastBox};
    ghost use Rattle.outline_boxes.specs.Shapes.{rectangle_shape};
    ghost use Rattle.outline_boxes.specs.NearBoxes.{IsNearBox};
    ghost use Rattle.outline_boxes.specs.Rectangles.{HasRectangle, HasRectangleWithin, OnRectangle};
    ghost use Rattle.outline_boxes.specs.Reaches.{AreRectangleEdges};

    /// The edges for both ends: the edge at the start, used as near and as far edge.
    fn edges(&self) -> Edges
        ensures { AreRectangleEdges (rectangle_shape self.now) result }
    {
        let square = self.axis.way.square_length();
        Edges {
            scale: self.scale,
            ahead: 0,
            near: self.half,
            far: self.half,
            square,
            root: root_in_parts(square),
        }
    }

    /// The least whole box that contains the four corners, and so every point of the grid on the rectangle.
    pub fn area(&self) -> Area
        ensures exact { IsLeastBox (HasRectangle (rectangle_shape self.now)) result }
        ensures has { (x : Point) → OnRectangle (rectangle_shape self.now)
            (offset (rectangle_shape self.now).line x) → Has result x }
        ensures size { IsNearBox result }
    {
        let edges = self.edges();
        let from = self.axis.from;
        let way = self.axis.way;
        // both ends differ by a whole vector, so one extent serves both
        let east = edges.reach(0, way.y.unsigned_abs());
        let north = edges.reach(0, way.x.unsigned_abs());
        Area {
            x0: short_of(lower(from.x, way.x), east),
            y0: short_of(lower(from.y, way.y), north),
            x1: past(higher(from.x, way.x), east),
            y1: past(higher(from.y, way.y), north),
        }
    }
    /// The least whole box that contains the four corners with a margin on each side, in tenths of a foot.
    pub fn area_within(&self, margin: i64) -> Area
        requires margin { unsigned_abs margin ≤ 2 ^ 26 }
        ensures exact { IsLeastBox (HasRectangleWithin (rectangle_shape self.now) margin) result }
    {
        widened(&self.area(), margin)
    }
}
