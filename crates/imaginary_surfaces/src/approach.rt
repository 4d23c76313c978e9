//! The approach surface of one end of a runway.

ghost use Rattle.std.specs.Prelude.{◌≡◌, ◌↔◌, ◌*◌, ◌^◌, ◌≤◌, ◌*ℤ◌, ◌-ℤ◌, ◌<ℤ◌, pos, IsTrue, IfSome, unsigned_abs};
ghost use Rattle.grid_exact.specs.Excess.{IsExcess};
ghost use Rattle.grid_exact.specs.Level.{IsLevel};
ghost use Rattle.grid_exact.specs.Root.{AtMostRoot};
ghost use Rattle.imaginary_surfaces.specs.Approaches.{IsApproach, IsRise};

use crate::measures::{HALF_WIDTH_SCALE, SECOND_SLOPE_DROP};
use crate::place::Place;
use crate::roots::{is_above_root, is_at_most_root, short};
use crate::search::excess_over;
use crate::short_slope::ShortSlope;
use grid_exact::{Axis, minus, product, scale};
use runway_classes::{EndClass, WIDENING_SCALE};

/// The approach surface of an end (77.19(d)): it begins at the end of the primary surface with the same width, and goes outward and upward
/// along the extended centerline. Its methods take the position of the point relative to that line, which is computed once for all of
/// them.
#[derive(Clone, Copy)]
pub(crate) struct ApproachSurface {
    /// From the center of the primary surface's end, outward by the distance to the other center.
    pub(crate) axis: Axis,
    pub(crate) width: i64,
    pub(crate) class: EndClass,
    pub(crate) z: i64,
    /// Whether it is a precision approach.
    pub(crate) precision: bool,
    ghost sound: { IsApproach width class z },
}

/// A slope, and the elevation from which it rises at the end of the primary surface.
#[derive(Clone, Copy)]
pub(crate) struct Rise {
    pub(crate) slope: i64,
    pub(crate) base: i64,
    ghost rises: { IsRise slope base },
}

impl ApproachSurface {
    ghost use Rattle.imaginary_surfaces.specs.Approaches.{ApproachCovers, IsAlong, approach_at, lateral_excess as outside_of, is_past_split as is_past_split_of, slope_at, base_at};
    ghost use Rattle.imaginary_surfaces.specs.Shapes.{approach_shape};

    /// Whether a point lies outward of the end.
    pub(crate) fn is_ahead(&self, at: &Place) -> bool
        ensures { IsTrue result ↔ (pos 0 <ℤ at.now.along) }
    {
        0 < short(at.along())
    }

    /// Whether a point is not past the outer end of the surface.
    #[tactic(auto, using(grid_exact::proofs::Sizes::fits))]
    pub(crate) fn is_not_past(&self, at: &Place) -> bool
        ensures { IsTrue result ↔ AtMostRoot at.now.along self.now.class.length at.now.square }
    {
        is_at_most_root(at.along(), self.class.length, at.square())
    }

    /// The distance of a point to a side minus the growth of the half width there, in fortieths, times the vector's length.
    pub(crate) fn outside(&self, at: &Place) -> i128
        ensures value { result ≡ outside_of (approach_shape self.now) at.now }
        ensures size { unsigned_abs result ≤ 2 ^ 52 }
    {
        minus(
            scale(WIDENING_SCALE, at.aside()),
            scale(self.class.k, at.along()),
        )
    }

    /// Half the width at the end of the primary surface, in fortieths.
    pub(crate) fn half_width(&self) -> i64
        ensures value { result ≡ HALF_WIDTH_SCALE *ℤ self.now.width }
        ensures size { unsigned_abs result ≤ 2 ^ 18 }
    {
        HALF_WIDTH_SCALE * self.width
    }

    /// Whether a point is within the half width there.
    #[tactic(auto, using(grid_exact::proofs::Sizes::fits))]
    fn is_not_beside(&self, at: &Place) -> bool
        ensures { IsTrue result ↔ AtMostRoot (outside_of (approach_shape self.now) at.now)
            (HALF_WIDTH_SCALE *ℤ self.now.width) at.now.square }
    {
        is_at_most_root(self.outside(at), self.half_width(), at.square())
    }

    /// Whether a point is outward of the end, and not past the outer end of the surface.
    pub(crate) fn is_along(&self, at: &Place) -> bool
        ensures { IsTrue result ↔ IsAlong (approach_shape self.now) at.now }
    {
        self.is_ahead(at) && self.is_not_past(at)
    }

    /// Whether the surface covers a point that is along it.
    fn covers(&self, at: &Place) -> bool
        requires along { IsAlong (approach_shape self.now) at.now }
        ensures { IsTrue result ↔ ApproachCovers (approach_shape self.now) at.now }
    {
        self.is_not_beside(at)
    }

    /// Whether a point is past the start of the second slope.
    fn is_past_split(&self, at: &Place) -> bool
        ensures { result ≡ is_past_split_of (approach_shape self.now) at.now }
    {
        is_above_root(at.along(), self.class.split, at.square())
    }

    /// The slope at a point.
    pub(crate) fn rise(&self, at: &Place) -> Rise
        ensures slope { result.slope ≡ slope_at (approach_shape self.now) at.now }
        ensures base { result.base ≡ base_at (approach_shape self.now) at.now }
    {
        if self.is_past_split(at) {
            return Rise {
                slope: self.class.slope2,
                base: self.z - SECOND_SLOPE_DROP,
            };
        }
        Rise {
            slope: self.class.slope,
            base: self.z,
        }
    }

    /// The excess of `top` over it at a point along it; `None` where it is not above, or the surface does not cover the point.
    pub(crate) fn excess_along(&self, at: &Place, top: i64) -> Option<u32>
        requires along { IsAlong (approach_shape self.now) at.now }
        requires top { IsLevel top }
        ensures exact { IsExcess (approach_at (approach_shape self.now) at.now) top result }
        ensures size { IfSome result (λ e. e ≤ 2 ^ 26) }
    {
        if !self.covers(at) {
            return None;
        }
        let rise = self.rise(at);
        let base = product(rise.slope, rise.base);
        excess_over(
            &ShortSlope::rising(at.along(), rise.slope, base, at.square()),
            top,
        )
    }
    /// The same for any point.
    pub(crate) fn excess(&self, at: &Place, top: i64) -> Option<u32>
        requires top { IsLevel top }
        ensures exact { IsExcess (approach_at (approach_shape self.now) at.now) top result }
        ensures size { IfSome result (λ e. e ≤ 2 ^ 26) }
    {
        if !self.is_along(at) {
            return None;
        }
        self.excess_along(at, top)
    }
}
