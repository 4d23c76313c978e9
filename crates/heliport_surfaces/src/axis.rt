//! The axis of a takeoff and landing area.

ghost use Rattle.std.specs.Prelude.{◌≡◌};
ghost use Rattle.grid_exact.specs.Vector.{length_of};
ghost use Rattle.heliport_surfaces.specs.Sizes.{IsShortAxis};

use crate::offset::PadOffset;
use grid_exact::{Axis, Point};

/// An axis at most 1,000 feet long: that of the landing area, or the line outward from an end of it.
#[derive(Clone, Copy)]
pub(crate) struct PadAxis {
    pub(crate) axis: Axis,
    ghost short: { IsShortAxis (length_of axis.way.x axis.way.y) },
}

impl PadAxis {
    ghost use Rattle.grid_exact.specs.Lines.{offset as offset_of};
    ghost use Rattle.heliport_surfaces.specs.Axes.{pad_line};

    /// The position of a point relative to the axis.
    pub(crate) fn offset(&self, point: &Point) -> PadOffset
        ensures { result.offset ≡ offset_of (pad_line self.now) point.now }
    {
        PadOffset {
            offset: self.axis.offset(point),
        }
    }
}
