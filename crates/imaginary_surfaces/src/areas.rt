//! The areas of the surfaces of a runway: the least whole boxes that contain their corners.

ghost use Rattle.std.specs.Prelude.{◌≡◌, ◌≤ℤ◌, ℤ, pos};
ghost use Rattle.grid_exact.specs.Area.{Has};
ghost use Rattle.grid_exact.specs.Level.{IsLevel};
ghost use Rattle.grid_exact.specs.Lines.{offset};
ghost use Rattle.grid_exact.specs.declared.cap.Cap.{Cap};
ghost use Rattle.grid_exact.specs.declared.point.Point.{Point};
ghost use Rattle.airfields.specs.Runways.{IsProper};
ghost use Rattle.outline_boxes.specs.Boxes.{IsLeastBox};
ghost use Rattle.outline_boxes.specs.Rectangles.{HasRectangle};
ghost use Rattle.outline_boxes.specs.Shapes.{rectangle_shape, trapezoid_shape};
ghost use Rattle.outline_boxes.specs.Trapezoids.{HasTrapezoid};

use crate::approach::ApproachSurface;
use crate::measures::{HALF_WIDTH_SCALE, SCALED_REACH};
use crate::primary::PrimarySurface;
use crate::strip::Strip;
use grid_exact::Area;
use outline_boxes::{RectangleOutline, TrapezoidOutline};
use runway_classes::WIDENING_SCALE;
use runway_lines::End;

/// The area of each surface of a runway.
#[derive(Clone, Copy, PartialEq, Eq, Debug)]
pub(crate) struct StripAreas {
    pub(crate) primary: Area,
    pub(crate) approach1: Area,
    pub(crate) approach2: Area,
    pub(crate) beside_primary: Area,
    pub(crate) beside_approach1: Area,
    pub(crate) beside_approach2: Area,
}

impl PrimarySurface {
    ghost use Rattle.imaginary_surfaces.specs.Areas.{primary_outline};
    ghost use Rattle.imaginary_surfaces.specs.Primaries.{PrimaryCovers};
    ghost use Rattle.imaginary_surfaces.specs.Shapes.{primary_shape};

    /// The outline of the primary surface.
    fn outline(&self) -> RectangleOutline
        ensures { rectangle_shape result ≡ primary_outline (primary_shape self.now) }
    {
        RectangleOutline {
            axis: self.axis,
            scale: 2,
            half: self.width,
        }
    }

    /// The area of the primary surface.
    fn area(&self) -> Area
        ensures exact { IsLeastBox (HasRectangle (primary_outline (primary_shape self.now)))
            result }
        ensures covers { (x : Point) → PrimaryCovers (primary_shape self.now)
            (offset (primary_shape self.now).line x) → Has result x }
    {
        self.outline().area()
    }
}

impl ApproachSurface {
    ghost use Rattle.imaginary_surfaces.specs.Areas.{HoldsBeside, HullHas, approach_outline};
    ghost use Rattle.imaginary_surfaces.specs.Approaches.{ApproachCovers};
    ghost use Rattle.imaginary_surfaces.specs.Shapes.{approach_shape};
    ghost use Rattle.imaginary_surfaces.specs.Transitions.{beside_approach};

    /// The outline of the approach surface, moved out by a margin in fortieths at right angles to its line.
    fn outline(&self, margin: i64) -> TrapezoidOutline
        requires least { pos 0 ≤ℤ margin }
        requires most { margin ≤ℤ SCALED_REACH }
        ensures { trapezoid_shape result ≡ approach_outline (approach_shape self.now) margin }
    {
        TrapezoidOutline {
            axis: self.axis,
            scale: WIDENING_SCALE,
            near: HALF_WIDTH_SCALE * self.width + margin,
            far: HALF_WIDTH_SCALE * self.class.outer + margin,
            length: self.class.length,
        }
    }

    /// The area of the approach surface.
    fn area(&self) -> Area
        ensures exact { IsLeastBox (HasTrapezoid
            (approach_outline (approach_shape self.now) (pos 0))) result }
        ensures covers { (x : Point) → ApproachCovers (approach_shape self.now)
            (offset (approach_shape self.now).line x) → Has result x }
    {
        self.outline(0).area()
    }

    /// The area of the transitional surface beside the approach surface.
    fn area_beside(&self, hull: &Area) -> Area
        ensures exact { IsLeastBox (HoldsBeside (approach_shape self.now) hull.now) result }
        ensures covers { (x : Point) (cap : Cap) → HullHas hull.now x cap →
            (beside_approach (approach_shape self.now) x cap).Covers → Has result x }
    {
        if self.precision {
            self.outline(SCALED_REACH).area_with(hull)
        } else {
            *hull
        }
    }
}

impl Strip {
    ghost use Rattle.imaginary_surfaces.specs.Areas.{AreStripAreas, CoverStrip, HoldsBeside, HullHas, IsStripAreas, SkipsIn, approach_outline, primary_outline};
    ghost use Rattle.imaginary_surfaces.specs.Strips.{primary_of, approach_of, primary_surface, approach_surface, approach_transition_surface};

    /// The area of the primary surface.
    fn primary_area(&self) -> Area
        ensures exact { IsLeastBox (HasRectangle (primary_outline (primary_of self.now))) result }
        ensures covers { (x : Point) → (primary_surface self.now x).Covers → Has result x }
        ensures proper { IsProper self.now }
    {
        self.primary.area()
    }

    /// The area of the approach surface of an end.
    fn approach_area(&self, end: End) -> Area
        ensures exact { IsLeastBox (HasTrapezoid
            (approach_outline (approach_of self.now end) (pos 0))) result }
        ensures covers { (x : Point) → (approach_surface self.now end x).Covers → Has result x }
    {
        self.approach(end).area()
    }

    /// The area of the transitional surface beside the approach surface of an end.
    fn beside_area(&self, end: End, hull: &Area) -> Area
        ensures exact { IsLeastBox (HoldsBeside (approach_of self.now end) hull.now) result }
        ensures covers { (x : Point) (cap : Cap) → HullHas hull.now x cap →
            (approach_transition_surface self.now end x cap).Covers → Has result x }
    {
        self.approach(end).area_beside(hull)
    }

    /// The area of each surface.
    fn six_areas(&self, hull: &Area) -> StripAreas
        ensures exact { IsStripAreas self.now hull.now result }
        ensures covers { CoverStrip self.now hull.now result }
        ensures proper { IsProper self.now }
    {
        StripAreas {
            primary: self.primary_area(),
            approach1: self.approach_area(End::One),
            approach2: self.approach_area(End::Two),
            beside_primary: *hull,
            beside_approach1: self.beside_area(End::One, hull),
            beside_approach2: self.beside_area(End::Two, hull),
        }
    }

    /// The areas of the primary surface, of the approach surfaces of the first and second end, and of the transitional surfaces beside
    /// each of these three, in that order (77.19(c), (d), (e)). Each is the least whole box that contains the parts of its surface, and
    /// contains every point that the surface covers. `hull` is the box of the conical surface's outer edge; it contains every point under
    /// the horizontal or conical surface, where transitional surfaces end.
    pub fn areas(&self, hull: &Area) -> [Area; 6]
        ensures areas { AreStripAreas self.now hull.now result }
        ensures skips { (x : Point) (top : ℤ) (cap : Cap) → IsLevel top → HullHas hull.now x cap →
            SkipsIn self.now x top cap result }
    {
        let six = self.six_areas(hull);
        [
            six.primary,
            six.approach1,
            six.approach2,
            six.beside_primary,
            six.beside_approach1,
            six.beside_approach2,
        ]
    }
}
