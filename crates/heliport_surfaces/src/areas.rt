//! The areas of the surfaces of a heliport: the least whole boxes that contain their corners.

ghost use Rattle.std.specs.Prelude.{◌≡◌, ℤ, pos};
ghost use Rattle.grid_exact.specs.Area.{Has};
ghost use Rattle.grid_exact.specs.Level.{IsLevel};
ghost use Rattle.grid_exact.specs.Lines.{offset};
ghost use Rattle.grid_exact.specs.declared.point.Point.{Point};
ghost use Rattle.airfields.specs.Airfields.{IsHeldHeliport};
ghost use Rattle.outline_boxes.specs.Boxes.{IsLeastBox};
ghost use Rattle.outline_boxes.specs.Rectangles.{HasRectangle, HasRectangleWithin};
ghost use Rattle.outline_boxes.specs.Shapes.{rectangle_shape, trapezoid_shape};
ghost use Rattle.outline_boxes.specs.Trapezoids.{HasTrapezoid};
ghost use Rattle.heliport_surfaces.specs.Places.{IsCovered, IsCoveredBeside};

use crate::approach::PadApproach;
use crate::landing::LandingArea;
use crate::pad::Pad;
use crate::rules::{APPROACH_LENGTH, APPROACH_WIDTH, NOTICE_RANGE, SIDE_SCALE, TRANSITION_REACH};
use grid_exact::Area;
use outline_boxes::{RectangleOutline, TrapezoidOutline};

/// The area of each surface of a heliport.
#[derive(Clone, Copy, PartialEq, Eq, Debug)]
pub(crate) struct PadAreas {
    pub(crate) primary: Area,
    pub(crate) approach1: Area,
    pub(crate) approach2: Area,
    pub(crate) beside_primary: Area,
    pub(crate) beside_approach1: Area,
    pub(crate) beside_approach2: Area,
    /// The area of the slope of notice.
    pub(crate) notice: Area,
}

impl LandingArea {
    ghost use Rattle.heliport_surfaces.specs.Areas.{landing_outline, landing_side_outline};
    ghost use Rattle.heliport_surfaces.specs.Landings.{primary_place};
    ghost use Rattle.heliport_surfaces.specs.Notices.{IsWithin, gap};
    ghost use Rattle.heliport_surfaces.specs.Shapes.{landing_shape};

    /// The outline of the primary surface.
    fn outline(&self) -> RectangleOutline
        ensures { rectangle_shape result ≡ landing_outline (landing_shape self.now) }
    {
        RectangleOutline {
            axis: self.axis.axis,
            scale: 2,
            half: self.width,
        }
    }

    /// The outline of the transitional surfaces beside the approach surface.
    fn side_outline(&self) -> RectangleOutline
        ensures { rectangle_shape result ≡ landing_side_outline (landing_shape self.now) }
    {
        RectangleOutline {
            axis: self.axis.axis,
            scale: 1,
            half: TRANSITION_REACH,
        }
    }

    /// The area of the primary surface.
    fn area(&self) -> Area
        ensures exact { IsLeastBox (HasRectangle (landing_outline (landing_shape self.now)))
            result }
        ensures covers { (x : Point) → IsCovered
            (primary_place (landing_shape self.now) (offset (landing_shape self.now).line x)) →
            Has result x }
    {
        self.outline().area()
    }

    /// The area of the transitional surfaces beside it.
    fn area_beside(&self) -> Area
        ensures exact { IsLeastBox (HasRectangle (landing_side_outline (landing_shape self.now)))
            result }
        ensures covers { (x : Point) → IsCoveredBeside
            (primary_place (landing_shape self.now) (offset (landing_shape self.now).line x)) →
            Has result x }
    {
        self.side_outline().area()
    }

    /// The area of the slope of notice.
    fn area_of_notice(&self) -> Area
        ensures exact { IsLeastBox (HasRectangleWithin (landing_outline (landing_shape self.now))
            (pos NOTICE_RANGE)) result }
        ensures covers { (x : Point) → IsWithin
            (gap (landing_shape self.now) (offset (landing_shape self.now).line x)) NOTICE_RANGE →
            Has result x }
    {
        self.outline().area_within(NOTICE_RANGE as i64)
    }
}

impl PadApproach {
    ghost use Rattle.heliport_surfaces.specs.Approaches.{approach_place};
    ghost use Rattle.heliport_surfaces.specs.Areas.{approach_outline, approach_side_outline};
    ghost use Rattle.heliport_surfaces.specs.Shapes.{approach_shape};

    /// The outline of the approach surface.
    fn outline(&self) -> TrapezoidOutline
        ensures { trapezoid_shape result ≡ approach_outline (approach_shape self.now) }
    {
        TrapezoidOutline {
            axis: self.axis.axis,
            scale: SIDE_SCALE,
            near: APPROACH_LENGTH * self.width,
            far: APPROACH_LENGTH * APPROACH_WIDTH,
            length: APPROACH_LENGTH,
        }
    }

    /// The outline of the transitional surfaces beside the primary surface.
    fn side_outline(&self) -> TrapezoidOutline
        ensures { trapezoid_shape result ≡ approach_side_outline (approach_shape self.now) }
    {
        TrapezoidOutline {
            axis: self.axis.axis,
            scale: 1,
            near: TRANSITION_REACH,
            far: TRANSITION_REACH,
            length: APPROACH_LENGTH,
        }
    }

    /// The area of the approach surface.
    fn area(&self) -> Area
        ensures exact { IsLeastBox (HasTrapezoid (approach_outline (approach_shape self.now)))
            result }
        ensures covers { (x : Point) → IsCovered
            (approach_place (approach_shape self.now) (offset (approach_shape self.now).line x)) →
            Has result x }
    {
        self.outline().area()
    }

    /// The area of the transitional surfaces beside it.
    fn area_beside(&self) -> Area
        ensures exact { IsLeastBox (HasTrapezoid
            (approach_side_outline (approach_shape self.now))) result }
        ensures covers { (x : Point) → IsCoveredBeside
            (approach_place (approach_shape self.now) (offset (approach_shape self.now).line x)) →
            Has result x }
    {
        self.side_outline().area()
    }
}

impl Pad {
    ghost use Rattle.heliport_surfaces.specs.Areas.{ArePadAreas, CoverPad, IsPadAreas, SkipsIn};

    /// The area of each surface.
    fn seven_areas(&self) -> PadAreas
        ensures exact { IsPadAreas self.now result }
        ensures covers { CoverPad self.now result }
        ensures held { IsHeldHeliport self.now }
    {
        PadAreas {
            primary: self.landing.area(),
            approach1: self.approach1.area(),
            approach2: self.approach2.area(),
            beside_primary: self.landing.area_beside(),
            beside_approach1: self.approach1.area_beside(),
            beside_approach2: self.approach2.area_beside(),
            notice: self.landing.area_of_notice(),
        }
    }

    /// The areas of the primary surface, of the approach surfaces of the first and second end, of the transitional surfaces beside each of
    /// these three (77.23), and of the slope of notice (77.9(b)(3)), in that order. Each is the least whole box that contains the corners,
    /// and contains every point that its surface covers.
    pub fn areas(&self) -> [Area; 7]
        ensures areas { ArePadAreas self.now result }
        ensures skips { (x : Point) (top : ℤ) → IsLevel top → SkipsIn self.now x top result }
    {
        let seven = self.seven_areas();
        [
            seven.primary,
            seven.approach1,
            seven.approach2,
            seven.beside_primary,
            seven.beside_approach1,
            seven.beside_approach2,
            seven.notice,
        ]
    }
}
