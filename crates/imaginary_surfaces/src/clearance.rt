//! Quick reject for points far from a runway, as most are: there a top is above none of the runway's surfaces.

ghost use Rattle.std.specs.Prelude.{◌≡◌, ◌↔◌, ◌^◌, ◌≤◌, ◌*ℤ◌, ◌≤ℤ◌, ◌<ℤ◌, pos, unsigned_abs, IsTrue};
ghost use Rattle.grid_exact.specs.Level.{IsLevel};
ghost use Rattle.imaginary_surfaces.specs.Primaries.{IsWidth};

use crate::approach::ApproachSurface;
use crate::least::{lowest, root_above};
use crate::measures::{APPROACH_FACTOR, HALF_WIDTH_SCALE, MOST_WIDENING};
use crate::place::Place;
use crate::primary::PrimarySurface;
use crate::strip::Strip;
use grid_exact::Point;
use runway_classes::{PRECISION_SLOPE, WIDENING_SCALE};

/// Bounds that decide for most points, without a root, that a top is above no surface of a runway.
#[derive(Clone, Copy)]
pub(crate) struct Clearance {
    /// An upper bound of the length of the primary surface's line, in tenths of a foot.
    length: u32,
    /// A lower bound of all surfaces, in tenths of a foot.
    lowest: i64,
    /// The width of the primary surface.
    width: i64,
    ghost short: { length ≤ 2 ^ 19 },
    ghost low: { unsigned_abs lowest ≤ 2 ^ 20 },
    ghost wide: { IsWidth width },
}

/// A factor times a length.
fn scaled(factor: i64, length: i64) -> i64
    requires factor { unsigned_abs factor ≤ 2 ^ 36 }
    requires length { unsigned_abs length ≤ 2 ^ 19 }
    ensures { result ≡ factor *ℤ length }
{
    factor * length
}

impl Clearance {
    ghost use Rattle.imaginary_surfaces.specs.Clearances.{IsClear, IsClearance, IsFarAhead, IsFarAside, rise_to};
    ghost use Rattle.imaginary_surfaces.specs.Shapes.{approach_shape, primary_shape};

    /// The bounds for the surfaces of a runway.
    pub(crate) fn of(
        primary: &PrimarySurface,
        one: &ApproachSurface,
        two: &ApproachSurface,
    ) -> Clearance
        requires width1 { one.now.width ≡ primary.now.width }
        requires width2 { two.now.width ≡ primary.now.width }
        ensures { IsClearance (primary_shape primary.now) (approach_shape one.now)
            (approach_shape two.now) result }
    {
        Clearance {
            length: root_above(primary.axis.way.square_length()),
            lowest: lowest(primary, one, two),
            width: primary.width,
        }
    }

    /// The height of a top above the lowest level.
    fn rise_to(&self, top: i64) -> i64
        requires top { IsLevel top }
        ensures value { result ≡ rise_to self.now top }
        ensures least { pos 0 ≤ℤ result }
        ensures most { result ≤ℤ pos (2 ^ 26) }
    {
        (top - self.lowest).max(0)
    }

    /// Whether a part is longer than a factor times the length.
    fn is_longer(&self, part: i64, factor: i64) -> bool
        requires { unsigned_abs factor ≤ 2 ^ 36 }
        ensures { IsTrue result ↔ ((factor *ℤ pos self.now.length) <ℤ part) }
    {
        scaled(factor, i64::from(self.length)) < part
    }

    /// Whether a point is so far ahead that every approach surface is higher there.
    fn is_far_ahead(&self, rise: i64, ahead: i64) -> bool
        requires least { pos 0 ≤ℤ rise }
        requires most { rise ≤ℤ pos (2 ^ 26) }
        ensures { IsTrue result ↔ IsFarAhead self.now rise ahead }
    {
        self.is_longer(ahead, PRECISION_SLOPE * rise)
    }

    /// Whether a point is so far to a side that every transitional surface is higher there.
    fn is_far_aside(&self, rise: i64, ahead: i64, aside: i64) -> bool
        requires least { pos 0 ≤ℤ rise }
        requires most { rise ≤ℤ pos (2 ^ 26) }
        requires ahead_least { pos 0 ≤ℤ ahead }
        requires ahead_most { ahead ≤ℤ pos (2 ^ 46) }
        requires aside_least { pos 0 ≤ℤ aside }
        requires aside_most { aside ≤ℤ pos (2 ^ 45) }
        ensures { IsTrue result ↔ IsFarAside self.now rise ahead aside }
    {
        self.is_longer(
            WIDENING_SCALE * aside - MOST_WIDENING * ahead,
            HALF_WIDTH_SCALE * self.width + APPROACH_FACTOR * rise,
        )
    }

    /// Whether a point with this offset from the line of the primary surface is so far from it that a top is above no surface there.
    fn is_clear(&self, at: &Place, top: i64) -> bool
        requires top { IsLevel top }
        ensures { IsTrue result → IsClear self.now at.now top }
    {
        let rise = self.rise_to(top);
        let ahead = at.ahead();
        let far_ahead = self.is_far_ahead(rise, ahead);
        let far_aside = self.is_far_aside(rise, ahead, at.short_aside());
        far_ahead | far_aside // no branch, which many points would have the processor guess wrong
    }
}

impl Strip {
    ghost use Rattle.grid_exact.specs.Lines.{offset as offset_of};
    ghost use Rattle.grid_exact.specs.declared.cap.Cap.{Cap as ACap};
    ghost use Rattle.imaginary_surfaces.specs.Clearances.{none_exceeded};
    ghost use Rattle.imaginary_surfaces.specs.Strips.{IsStripExcesses, primary_of};

    /// Whether the bounds show that a top is above no surface at a point with this offset from the line of the primary surface.
    pub(crate) fn is_clear(&self, at: &Place, x: &Point, top: i64) -> bool
        requires at { at.now ≡ offset_of (primary_of self.now).line x.now }
        requires top { IsLevel top }
        ensures none { IsTrue result → (cap : ACap) →
            IsStripExcesses self.now x.now top cap none_exceeded }
    {
        self.clearance.is_clear(at, top)
    }
}
