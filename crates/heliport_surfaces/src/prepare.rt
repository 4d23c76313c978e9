//! Preparation of a heliport's surfaces.

ghost use Rattle.std.specs.Prelude.{◌≡◌, ◌*◌, ◌≤◌, ◌-ℤ◌};
ghost use Rattle.grid_exact.specs.Vector.{length_of};
ghost use Rattle.airfields.specs.Airfields.{IsHeldHeliport};
ghost use Rattle.airfields.specs.declared.limits.TheConstants.{HELIPORT_AXIS_LEAST, HELIPORT_AXIS_MOST};
ghost use Rattle.heliport_surfaces.specs.Sizes.{IsPadSlope};
ghost use Rattle.heliport_surfaces.specs.Axes.{pad_line};
ghost use Rattle.heliport_surfaces.specs.Shapes.{landing_shape, approach_shape};
ghost use Rattle.heliport_surfaces.specs.Pads.{line_from, outward_line as outward_of, approach_slope, landing_of, approach_of};

use crate::approach::PadApproach;
use crate::axis::PadAxis;
use crate::landing::LandingArea;
use crate::parts::PadEnd;
use crate::rules::{CIVIL_SLOPE, MILITARY_SLOPE};
use airfields::Heliport;
use grid_exact::{Axis, Point, Start, Vector};

/// The axis that starts at a point and has the vector between two points.
fn axis_from(start: &Point, from: &Point, to: &Point) -> PadAxis
    requires least { HELIPORT_AXIS_LEAST * HELIPORT_AXIS_LEAST ≤ length_of (to.now.x
        -ℤ from.now.x) (to.now.y -ℤ from.now.y) }
    requires most { length_of (to.now.x -ℤ from.now.x)
        (to.now.y -ℤ from.now.y) ≤ HELIPORT_AXIS_MOST * HELIPORT_AXIS_MOST }
    ensures line { pad_line result ≡ line_from start.now from.now to.now }
{
    PadAxis {
        axis: Axis {
            from: Start::at(start),
            way: Vector::between(from, to),
        },
    }
}

/// The takeoff and landing area of a heliport.
pub(crate) fn landing(heliport: &Heliport) -> LandingArea
    requires held { IsHeldHeliport heliport.now }
    ensures shape { landing_shape result ≡ landing_of heliport.now }
{
    LandingArea {
        axis: axis_from(&heliport.a, &heliport.a, &heliport.b),
        width: heliport.width,
        z: heliport.elevation,
    }
}

/// The line outward from this end.
fn outward(heliport: &Heliport, end: PadEnd) -> PadAxis
    requires held { IsHeldHeliport heliport.now }
    ensures line { pad_line result ≡ outward_of heliport.now end }
{
    match end {
        PadEnd::One => axis_from(&heliport.a, &heliport.b, &heliport.a),
        PadEnd::Two => axis_from(&heliport.b, &heliport.a, &heliport.b),
    }
}

/// The slope of the approach surfaces of a heliport, 77.23(b).
fn slope(heliport: &Heliport) -> i64
    ensures value { result ≡ approach_slope heliport.now }
    ensures sloped { IsPadSlope result }
{
    if heliport.category.military() {
        MILITARY_SLOPE
    } else {
        CIVIL_SLOPE
    }
}

/// The approach surface of this end.
pub(crate) fn approach(heliport: &Heliport, end: PadEnd) -> PadApproach
    requires held { IsHeldHeliport heliport.now }
    ensures shape { approach_shape result ≡ approach_of heliport.now end }
{
    PadApproach {
        axis: outward(heliport, end),
        width: heliport.width,
        z: heliport.elevation,
        slope: slope(heliport),
    }
}
