//! The transitional surface beside the primary surface.

ghost use Rattle.std.specs.Prelude.{◌≡◌, ◌↔◌, ◌*◌, ◌^◌, ◌≤◌, ◌*ℤ◌, ◌-ℤ◌, pos, unsigned_abs, IsTrue, IfSome};
ghost use Rattle.grid_exact.specs.Excess.{IsExcess};
ghost use Rattle.grid_exact.specs.Level.{IsLevel};
ghost use Rattle.grid_exact.specs.Root.{AtLeastRoot};

use crate::measures::PRIMARY_FACTOR;
use crate::place::Place;
use crate::primary::PrimarySurface;
use crate::roots::is_at_least_root;
use crate::short_slope::ShortSlope;
use crate::slope_end::excess_up_to;
use grid_exact::{Cap, Point, minus, product};

impl PrimarySurface {
    ghost use Rattle.imaginary_surfaces.specs.Shapes.{primary_shape};
    ghost use Rattle.imaginary_surfaces.specs.Transitions.{ReachesBesidePrimary, beside_primary_at, incline_beside_primary};

    /// Whether a point is at least half the width from the line.
    fn is_from_side(&self, at: &Place) -> bool
        ensures { IsTrue result ↔ AtLeastRoot (pos (2 * at.now.aside)) self.now.width
            at.now.square }
    {
        is_at_least_root(self.twice_aside(at), self.width, at.square())
    }

    /// Whether the transitional surface reaches a point.
    fn reaches_beside(&self, at: &Place) -> bool
        ensures { IsTrue result ↔ ReachesBesidePrimary (primary_shape self.now) at.now }
    {
        self.is_past_start(at) && self.is_before_end(at) && self.is_from_side(at)
    }

    /// The constant of the slope from the side: elevation and width, weighted so that they give its height extended to the line.
    fn shift_beside(&self, at: &Place, x: &Point) -> i128
        ensures value { result ≡ (incline_beside_primary (primary_shape self.now) at.now
            x.now).shift }
        ensures size { unsigned_abs result ≤ 2 ^ 24 }
    {
        minus(
            product(PRIMARY_FACTOR, self.centerline.elevation(x)),
            self.width as i128,
        )
    }

    /// The slope of the transitional surface over a point that it reaches.
    fn slope_beside(&self, at: &Place, x: &Point) -> ShortSlope
        requires reaches { ReachesBesidePrimary (primary_shape self.now) at.now }
        ensures left { result.a ≡ (incline_beside_primary (primary_shape self.now) at.now
            x.now).left }
        ensures factor { result.k ≡ (incline_beside_primary (primary_shape self.now) at.now
            x.now).factor }
        ensures shift { result.c ≡ (incline_beside_primary (primary_shape self.now) at.now
            x.now).shift }
        ensures square { result.n ≡ at.now.square }
    {
        ShortSlope::rising(
            self.twice_aside(at),
            PRIMARY_FACTOR,
            self.shift_beside(at, x),
            at.square(),
        )
    }

    /// The excess of `top` over the transitional surface at a point; `None` where it is not above, or the surface does not cover the
    /// point.
    pub(crate) fn excess_beside(&self, at: &Place, x: &Point, top: i64, cap: &Cap) -> Option<u32>
        requires top { IsLevel top }
        ensures exact { IsExcess (beside_primary_at (primary_shape self.now) at.now x.now cap.now)
            top result }
        ensures size { IfSome result (λ e. e ≤ 2 ^ 26) }
    {
        if !self.reaches_beside(at) {
            return None;
        }
        // by value, so that the proof knows that the limit is an i64
        match *cap {
            Cap::Level(limit) => excess_up_to(&self.slope_beside(at, x), top, limit),
            Cap::Beyond => None,
        }
    }
}
