//! The takeoff and landing area: the primary surface, the transitional surfaces beside it, and the slope of notice.

ghost use Rattle.std.specs.Prelude.{◌≡◌, ◌^◌, ◌≤◌, true, unsigned_abs};
ghost use Rattle.grid_exact.specs.Level.{IsLevel};
ghost use Rattle.heliport_surfaces.specs.Landings.{at_axis};
ghost use Rattle.heliport_surfaces.specs.Sizes.{HasPadSizes};

use crate::axis::PadAxis;
use crate::gap::LandingGap;
use crate::notice::NoticeSlope;
use crate::offset::PadOffset;
use crate::place::PadPlace;
use crate::rules::SIDE_SLOPE;
use grid_exact::{Slope, excess, flat_excess, minus, product};

/// The takeoff and landing area of a heliport.
#[derive(Clone, Copy)]
pub(crate) struct LandingArea {
    /// From its one end to its other.
    pub(crate) axis: PadAxis,
    pub(crate) width: i64,
    pub(crate) z: i64,
    ghost sized: { HasPadSizes width z },
}

/// Four times the height of a 2 to 1 slope extended to the axis, where the slope has the elevation `z` at half the width from it.
pub(crate) fn height_at_axis(z: i64, width: i64) -> i128
    requires sized { HasPadSizes width z }
    ensures value { result ≡ at_axis z width }
    ensures size { unsigned_abs result ≤ 2 ^ 21 }
{
    minus(product(SIDE_SLOPE, z), width as i128)
}

impl LandingArea {
    ghost use Rattle.heliport_surfaces.specs.Landings.{primary_place, primary_side_heights, excess_over_primary, excess_over_primary_side};
    ghost use Rattle.heliport_surfaces.specs.Notices.{gap as gap_of, excess_over_notice};
    ghost use Rattle.heliport_surfaces.specs.Places.{is_covered_beside};
    ghost use Rattle.heliport_surfaces.specs.Shapes.{gap_shape, landing_shape, place_shape, slope_heights};

    /// The position of a point relative to the primary surface.
    fn place(&self, at: &PadOffset) -> PadPlace
        ensures { place_shape result ≡ primary_place (landing_shape self.now) at.now.offset }
    {
        PadPlace {
            is_along: at.is_between_ends(),
            out: at.twice_aside(),
            edge: self.width as i128,
            aside: at.aside(),
            square: at.square(),
        }
    }

    /// The excess of `top` over the primary surface at a point; `None` where it is not above, or the surface does not cover the point.
    pub(crate) fn excess(&self, at: &PadOffset, top: i64) -> Option<u32>
        requires top { IsLevel top }
        ensures { result ≡ excess_over_primary (landing_shape self.now) at.now.offset top }
    {
        if !self.place(at).is_covered() {
            return None;
        }
        flat_excess(self.z, top)
    }

    /// The heights of a transitional surface beside the primary one, at a point that it covers.
    fn side(&self, at: &PadOffset) -> Slope
        requires covered { is_covered_beside (primary_place (landing_shape self.now)
            at.now.offset) ≡ true }
        ensures { slope_heights result
            ≡ primary_side_heights (landing_shape self.now) at.now.offset }
    {
        Slope::rising(
            at.twice_aside(),
            SIDE_SLOPE,
            height_at_axis(self.z, self.width),
            at.square(),
        )
    }

    /// The excess of `top` over the transitional surface beside the primary one; `None` where it is not above, or the surface does not
    /// cover the point.
    pub(crate) fn excess_beside(&self, at: &PadOffset, top: i64) -> Option<u32>
        requires top { IsLevel top }
        ensures { result ≡ excess_over_primary_side (landing_shape self.now) at.now.offset top }
    {
        if !self.place(at).is_covered_beside() {
            return None;
        }
        self.side(at).excess(top)
    }

    /// The position of a point relative to the area.
    fn gap(&self, at: &PadOffset) -> LandingGap
        ensures { gap_shape result ≡ gap_of (landing_shape self.now) at.now.offset }
    {
        LandingGap {
            beyond: at.beyond(),
            aside: at.aside().unsigned_abs(),
            width: self.width.unsigned_abs() as u128,
            square: at.square(),
        }
    }

    /// The excess of `top` over the slope of notice at a point; `None` where it is not above, or the slope does not reach the point.
    pub(crate) fn excess_notice(&self, at: &PadOffset, top: i64) -> Option<u32>
        requires top { IsLevel top }
        ensures { result ≡ excess_over_notice (landing_shape self.now) at.now.offset top }
    {
        let gap = self.gap(at);
        if !gap.is_near() {
            return None;
        }
        excess(&NoticeSlope::new(gap, self.z), self.z, top)
    }
}
