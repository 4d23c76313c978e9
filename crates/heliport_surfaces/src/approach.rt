//! The approach surface of one end of a heliport, and the transitional surfaces beside it.

ghost use Rattle.std.specs.Prelude.{◌≡◌, ◌*◌, ◌^◌, ◌<◌, ◌≤◌, ◌*ℤ◌, ◌-ℤ◌, ◌<ℤ◌, pos, true, unsigned_abs};
ghost use Rattle.grid_exact.specs.Level.{IsLevel};
ghost use Rattle.heliport_surfaces.specs.Sizes.{HasPadSizes, IsPadSlope};

use crate::axis::PadAxis;
use crate::landing::height_at_axis;
use crate::offset::PadOffset;
use crate::place::PadPlace;
use crate::rules::{APPROACH_LENGTH, APPROACH_WIDTH, RISE_SCALE, SIDE_SCALE};
use grid_exact::{Slope, minus, plus, product, scale};

/// The approach surface of an end (77.23(b)): it begins at the end of the primary surface with the same width, and goes outward and upward
/// along the extended axis.
#[derive(Clone, Copy)]
pub(crate) struct PadApproach {
    /// From the end, outward by the distance to the other end.
    pub(crate) axis: PadAxis,
    pub(crate) width: i64,
    pub(crate) z: i64,
    pub(crate) slope: i64,
    ghost sized: { HasPadSizes width z },
    ghost sloped: { IsPadSlope slope },
}

impl PadApproach {
    ghost use Rattle.heliport_surfaces.specs.Approaches.{approach_place, approach_heights, approach_side_heights, lateral_excess as outside_of, rise_at as raised_of, excess_over_approach, excess_over_approach_side};
    ghost use Rattle.heliport_surfaces.specs.Landings.{at_axis};
    ghost use Rattle.heliport_surfaces.specs.Places.{is_covered, is_covered_beside};
    ghost use Rattle.heliport_surfaces.specs.Shapes.{approach_shape, place_shape, slope_heights};

    /// The width at its outer end minus the width at its inner end.
    fn growth(&self) -> i64
        ensures value { result ≡ APPROACH_WIDTH -ℤ self.now.width }
        ensures size { unsigned_abs result ≤ unsigned_abs APPROACH_WIDTH }
    {
        APPROACH_WIDTH - self.width
    }

    /// The growth of the half width at a point, in 80,000ths, times the length of the axis.
    #[tactic(auto, using(grid_exact::proofs::Sizes::casts, crate::proofs::PadSizes::growth_size))]
    fn grown(&self, at: &PadOffset) -> i128
        ensures value { result ≡ (APPROACH_WIDTH -ℤ self.now.width) *ℤ at.now.offset.along }
        ensures size { unsigned_abs result ≤ 2 ^ 53 }
    {
        scale(self.growth(), at.along())
    }

    /// The distance of a point to a side minus the growth of the half width, in 80,000ths, times the length of the axis.
    fn outside(&self, at: &PadOffset) -> i128
        ensures value { result ≡ outside_of (approach_shape self.now) at.now.offset }
        ensures size { unsigned_abs result ≤ 2 ^ 57 }
    {
        minus(scale(SIDE_SCALE, at.aside()), self.grown(at))
    }

    /// The position of a point relative to the surface.
    fn place(&self, at: &PadOffset) -> PadPlace
        ensures { place_shape result ≡ approach_place (approach_shape self.now) at.now.offset }
    {
        PadPlace {
            is_along: at.is_ahead(),
            out: self.outside(at),
            edge: product(APPROACH_LENGTH, self.width),
            aside: at.aside(),
            square: at.square(),
        }
    }

    /// The heights of the surface at a point that it covers.
    fn heights(&self, at: &PadOffset) -> Slope
        requires covered { is_covered (approach_place (approach_shape self.now) at.now.offset)
            ≡ true }
        ensures { slope_heights result ≡ approach_heights (approach_shape self.now) at.now.offset }
    {
        Slope::rising(
            at.along(),
            self.slope,
            product(self.slope, self.z),
            at.square(),
        )
    }

    /// The excess of `top` over it at a point; `None` where it is not above, or the surface does not cover the point.
    pub(crate) fn excess(&self, at: &PadOffset, top: i64) -> Option<u32>
        requires top { IsLevel top }
        ensures { result ≡ excess_over_approach (approach_shape self.now) at.now.offset top }
    {
        if !self.place(at).is_covered() {
            return None;
        }
        self.heights(at).excess(top)
    }

    /// The distance of a point to a side minus the growth of the half width, in 80,000ths, times the slope and the length of the axis.
    #[tactic(auto, using(grid_exact::proofs::Sizes::casts, crate::proofs::PadSizes::sloped_size))]
    fn sloped_outside(&self, at: &PadOffset) -> i128
        ensures value { result ≡ self.now.slope
            *ℤ outside_of (approach_shape self.now) at.now.offset }
        ensures size { unsigned_abs result ≤ 10 * 2 ^ 57 }
    {
        scale(self.slope, self.outside(at))
    }

    /// The height above the elevation from the slopes outward and to a side, times 160,000 and the slope and the length of the axis.
    fn raised(&self, at: &PadOffset) -> i128
        ensures value { result ≡ raised_of (approach_shape self.now) at.now.offset }
        ensures size { unsigned_abs result < 2 ^ 63 }
    {
        plus(self.sloped_outside(at), scale(RISE_SCALE, at.along()))
    }

    /// 160,000 times the slope.
    fn steepness(&self) -> i64
        ensures value { result ≡ RISE_SCALE *ℤ self.now.slope }
        ensures least { pos 0 <ℤ result }
        ensures size { unsigned_abs result ≤ 2 ^ 21 }
    {
        RISE_SCALE * self.slope
    }

    /// Four times the height of the side slope extended to the axis, times the slope.
    #[tactic(auto, using(grid_exact::proofs::Sizes::casts, crate::proofs::PadSizes::side_height_size))]
    fn side_height(&self) -> i128
        ensures value { result ≡ self.now.slope *ℤ at_axis self.now.z self.now.width }
        ensures size { unsigned_abs result ≤ 10 * 2 ^ 21 }
    {
        scale(self.slope, height_at_axis(self.z, self.width))
    }

    /// The height of the side slope extended to the axis, times 160,000 and the slope.
    fn foot(&self) -> i128
        ensures value { result ≡ APPROACH_LENGTH
            *ℤ (self.now.slope *ℤ at_axis self.now.z self.now.width) }
        ensures size { unsigned_abs result ≤ 2 ^ 41 }
    {
        scale(APPROACH_LENGTH, self.side_height())
    }

    /// The heights of a transitional surface beside it, at a point that it covers.
    fn side(&self, at: &PadOffset) -> Slope
        requires covered { is_covered_beside (approach_place (approach_shape self.now)
            at.now.offset) ≡ true }
        ensures { slope_heights result
            ≡ approach_side_heights (approach_shape self.now) at.now.offset }
    {
        // its factor is 160,000 times a slope, too steep for `Slope::rising`, and its root is short enough for this
        Slope::rising_short(self.raised(at), self.steepness(), self.foot(), at.square())
    }

    /// The excess of `top` over the transitional surface beside it; `None` where it is not above, or the surface does not cover the point.
    pub(crate) fn excess_beside(&self, at: &PadOffset, top: i64) -> Option<u32>
        requires top { IsLevel top }
        ensures { result ≡ excess_over_approach_side (approach_shape self.now) at.now.offset top }
    {
        if !self.place(at).is_covered_beside() {
            return None;
        }
        self.side(at).excess(top)
    }
}
