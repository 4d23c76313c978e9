//! The primary surface.

ghost use Rattle.std.specs.Prelude.{◌≡◌, ◌↔◌, ◌*◌, ◌^◌, ◌≤◌, ◌≤ℤ◌, pos, unsigned_abs, IsTrue, IfSome};
ghost use Rattle.grid_exact.specs.Excess.{IsExcess};
ghost use Rattle.grid_exact.specs.Level.{IsLevel};
ghost use Rattle.grid_exact.specs.Root.{AtMostRoot};
ghost use Rattle.imaginary_surfaces.specs.Primaries.{IsWidth};

use crate::place::Place;
use crate::roots::{is_at_most_root, short};
use grid_exact::{Axis, Point, flat_excess, scale};
use runway_lines::Centerline;

/// The primary surface of a runway (77.19(c)): a strip about the line between its two ends, at the elevation of the nearest point of the
/// runway's centerline. Its methods take the position of the point relative to that line, which is computed once for all of them.
#[derive(Clone, Copy)]
pub(crate) struct PrimarySurface {
    pub(crate) axis: Axis,
    pub(crate) width: i64,
    pub(crate) centerline: Centerline,
    ghost wide: { IsWidth width },
}

impl PrimarySurface {
    ghost use Rattle.imaginary_surfaces.specs.Primaries.{PrimaryCovers, primary_at};
    ghost use Rattle.imaginary_surfaces.specs.Shapes.{primary_shape};

    /// Whether a point is not before the first end.
    pub(crate) fn is_past_start(&self, at: &Place) -> bool
        ensures { IsTrue result ↔ (pos 0 ≤ℤ at.now.along) }
    {
        0 <= short(at.along())
    }

    /// Whether a point is not past the second end.
    pub(crate) fn is_before_end(&self, at: &Place) -> bool
        ensures { IsTrue result ↔ (at.now.along ≤ℤ pos at.now.square) }
    {
        short(at.along()) <= at.square() as i64
    }

    /// Twice the distance of a point to a side of the line, times the vector's length.
    pub(crate) fn twice_aside(&self, at: &Place) -> i128
        ensures value { result ≡ pos (2 * at.now.aside) }
        ensures size { unsigned_abs result ≤ 2 ^ 46 }
    {
        scale(2, at.aside())
    }

    /// Whether a point is at most half the width from the line.
    fn is_not_beside(&self, at: &Place) -> bool
        ensures { IsTrue result ↔ AtMostRoot (pos (2 * at.now.aside)) self.now.width at.now.square }
    {
        is_at_most_root(self.twice_aside(at), self.width, at.square())
    }

    /// Whether the surface covers a point.
    fn covers(&self, at: &Place) -> bool
        ensures { IsTrue result ↔ PrimaryCovers (primary_shape self.now) at.now }
    {
        self.is_past_start(at) && self.is_before_end(at) && self.is_not_beside(at)
    }

    /// The excess of `top` over it at a point; `None` where it is not above, or the surface does not cover the point.
    pub(crate) fn excess(&self, at: &Place, x: &Point, top: i64) -> Option<u32>
        requires top { IsLevel top }
        ensures exact { IsExcess (primary_at (primary_shape self.now) at.now x.now) top result }
        ensures size { IfSome result (λ e. e ≤ 2 ^ 26) }
    {
        if !self.covers(at) {
            return None;
        }
        flat_excess(self.centerline.elevation(x), top)
    }
}
