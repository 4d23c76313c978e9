//! The transitional surface beside an approach surface.

ghost use Rattle.std.specs.Prelude.{◌≡◌, ◌↔◌, ◌*◌, ◌^◌, ◌≤◌, ◌<◌, ◌+ℤ◌, ◌*ℤ◌, ◌<ℤ◌, pos, IsTrue, IfSome, unsigned_abs};
ghost use Rattle.grid_exact.specs.Excess.{IsExcess};
ghost use Rattle.grid_exact.specs.Level.{IsLevel};
ghost use Rattle.grid_exact.specs.Lines.{IsSquare};
ghost use Rattle.grid_exact.specs.Root.{AtLeastRoot, AtMostRoot};
ghost use Rattle.imaginary_surfaces.specs.Primaries.{IsWidth};

use crate::approach::{ApproachSurface, Rise};
use crate::measures::{APPROACH_FACTOR, HALF_WIDTH_SCALE, SCALED_REACH};
use crate::place::Place;
use crate::roots::{is_at_least_root, is_at_most_root};
use crate::search::excess_over;
use crate::short_slope::ShortSlope;
use crate::slope_end::excess_up_to;
use grid_exact::{Cap, minus, plus, product, scale};

/// The excess of a top over the approach surface of an end, and over the transitional surface beside it.
#[derive(Clone, Copy)]
pub(crate) struct EndExcesses {
    pub(crate) over: Option<u32>,
    pub(crate) beside: Option<u32>,
}

impl Rise {
    ghost use Rattle.std.specs.Prelude.{◌-ℤ◌};

    /// The factor of a slope that rises at this slope along the line, and 7 to 1 to the side.
    fn factor_beside(&self) -> i64
        ensures value { result ≡ APPROACH_FACTOR *ℤ self.now.slope }
        ensures least { pos 0 <ℤ result }
        ensures size { unsigned_abs result ≤ 2 ^ 14 }
    {
        APPROACH_FACTOR * self.slope
    }

    /// The constant of such a slope: its height extended to the line at the end of the primary surface of this width.
    fn shift_beside(&self, width: i64) -> i128
        requires width { IsWidth width }
        ensures value { result ≡ APPROACH_FACTOR *ℤ self.now.slope *ℤ self.now.base
            -ℤ HALF_WIDTH_SCALE *ℤ self.now.slope *ℤ width }
        ensures size { unsigned_abs result ≤ unsigned_abs self.now.slope * 2 ^ 33 }
    {
        minus(
            product(APPROACH_FACTOR * self.slope, self.base),
            product(HALF_WIDTH_SCALE * self.slope, width),
        )
    }
}

impl ApproachSurface {
    ghost use Rattle.imaginary_surfaces.specs.Approaches.{IsAlong, approach_at, lateral_excess as outside_of, slope_at};
    ghost use Rattle.imaginary_surfaces.specs.Shapes.{approach_shape};
    ghost use Rattle.imaginary_surfaces.specs.Transitions.{GoesBeyond, ReachesBesideApproach, beside_approach_at, incline_beside_approach};

    /// Whether a point is at least the half width from the line.
    #[tactic(auto, using(grid_exact::proofs::Sizes::fits))]
    fn is_from_side(&self, at: &Place) -> bool
        ensures { IsTrue result ↔ AtLeastRoot (outside_of (approach_shape self.now) at.now)
            (HALF_WIDTH_SCALE *ℤ self.now.width) at.now.square }
    {
        is_at_least_root(self.outside(at), self.half_width(), at.square())
    }

    /// Whether the transitional surface reaches a point along the approach surface.
    fn reaches_beside(&self, at: &Place) -> bool
        requires along { IsAlong (approach_shape self.now) at.now }
        ensures { IsTrue result ↔ ReachesBesideApproach (approach_shape self.now) at.now }
    {
        self.is_from_side(at)
    }

    /// The half width at the end of the primary surface plus the surface's greatest extent of 5,000 feet, in fortieths.
    fn far_side(&self) -> i64
        ensures value { result ≡ HALF_WIDTH_SCALE *ℤ self.now.width +ℤ SCALED_REACH }
        ensures size { unsigned_abs result ≤ 2 ^ 22 }
    {
        self.half_width() + SCALED_REACH
    }

    /// Whether a point is at most 5,000 feet from the edge of the approach surface.
    #[tactic(auto, using(grid_exact::proofs::Sizes::fits))]
    fn is_near(&self, at: &Place) -> bool
        ensures { IsTrue result ↔ AtMostRoot (outside_of (approach_shape self.now) at.now)
            (HALF_WIDTH_SCALE *ℤ self.now.width +ℤ SCALED_REACH) at.now.square }
    {
        is_at_most_root(self.outside(at), self.far_side(), at.square())
    }

    /// Whether the surface extends beyond the limits of the conical surface at a point that it reaches.
    fn goes_beyond(&self, at: &Place) -> bool
        ensures { IsTrue result ↔ GoesBeyond (approach_shape self.now) at.now }
    {
        self.precision && self.is_near(at)
    }

    /// The left side of the slope's comparison with a root: the distances of the point along the line and outside the approach surface,
    /// each weighted by its slope.
    fn left_beside(&self, at: &Place, rise: &Rise) -> i128
        requires slope { rise.now.slope ≡ slope_at (approach_shape self.now) at.now }
        requires line { IsSquare at.now.square }
        requires reaches { ReachesBesideApproach (approach_shape self.now) at.now }
        ensures value { result ≡ (incline_beside_approach (approach_shape self.now) at.now).left }
        ensures positive { pos 0 <ℤ result }
        ensures size { unsigned_abs result < 2 ^ 63 }
    {
        plus(
            scale(rise.slope, self.outside(at)),
            scale(APPROACH_FACTOR, at.along()),
        )
    }

    /// The slope of the transitional surface over a point that it reaches.
    fn slope_beside(&self, at: &Place) -> ShortSlope
        requires reaches { ReachesBesideApproach (approach_shape self.now) at.now }
        ensures left { result.a ≡ (incline_beside_approach (approach_shape self.now) at.now).left }
        ensures factor { result.k ≡ (incline_beside_approach (approach_shape self.now)
            at.now).factor }
        ensures shift { result.c ≡ (incline_beside_approach (approach_shape self.now)
            at.now).shift }
        ensures square { result.n ≡ at.now.square }
    {
        let rise = self.rise(at);
        let square = at.square(); // first, since the left side is positive only where this is
        ShortSlope::rising(
            self.left_beside(at, &rise),
            rise.factor_beside(),
            rise.shift_beside(self.width),
            square,
        )
    }

    /// The excess of `top` over the transitional surface at a point along the approach surface; `None` where it is not above, or the
    /// surface does not cover the point.
    pub(crate) fn excess_beside_along(&self, at: &Place, top: i64, cap: &Cap) -> Option<u32>
        requires along { IsAlong (approach_shape self.now) at.now }
        requires top { IsLevel top }
        ensures exact { IsExcess (beside_approach_at (approach_shape self.now) at.now cap.now) top
            result }
        ensures size { IfSome result (λ e. e ≤ 2 ^ 26) }
    {
        if !self.reaches_beside(at) {
            return None;
        }
        // by value, so that the proof knows that the limit is an i64
        match *cap {
            Cap::Level(limit) => excess_up_to(&self.slope_beside(at), top, limit),
            Cap::Beyond => {
                if !self.goes_beyond(at) {
                    return None;
                }
                excess_over(&self.slope_beside(at), top)
            }
        }
    }

    /// The same for any point.
    pub(crate) fn excess_beside(&self, at: &Place, top: i64, cap: &Cap) -> Option<u32>
        requires top { IsLevel top }
        ensures exact { IsExcess (beside_approach_at (approach_shape self.now) at.now cap.now) top
            result }
        ensures size { IfSome result (λ e. e ≤ 2 ^ 26) }
    {
        if !self.is_along(at) {
            return None;
        }
        self.excess_beside_along(at, top, cap)
    }

    /// The excess of `top` over the approach surface and over the transitional surface beside it at a point.
    pub(crate) fn excesses(&self, at: &Place, top: i64, cap: &Cap) -> EndExcesses
        requires top { IsLevel top }
        ensures over { IsExcess (approach_at (approach_shape self.now) at.now) top result.over }
        ensures over_size { IfSome result.over (λ e. e ≤ 2 ^ 26) }
        ensures beside { IsExcess (beside_approach_at (approach_shape self.now) at.now cap.now)
            top result.beside }
        ensures beside_size { IfSome result.beside (λ e. e ≤ 2 ^ 26) }
    {
        if !self.is_along(at) {
            return EndExcesses {
                over: None,
                beside: None,
            };
        }
        EndExcesses {
            over: self.excess_along(at, top),
            beside: self.excess_beside_along(at, top, cap),
        }
    }
}
