//! Preparation of a runway's surfaces from its lines and its class.

ghost use Rattle.std.specs.Prelude.{◌≡◌};
ghost use Rattle.airfields.specs.Runways.{IsProper};
ghost use Rattle.grid_exact.specs.Axes.{line_of};
ghost use Rattle.runway_lines.specs.Ends.{other_end as other_of, line_between};
ghost use Rattle.imaginary_surfaces.specs.Prepared.{IsCenterOf};
ghost use Rattle.imaginary_surfaces.specs.Shapes.{primary_shape, approach_shape};
ghost use Rattle.imaginary_surfaces.specs.Strips.{primary_of, approach_of};

use crate::approach::ApproachSurface;
use crate::primary::PrimarySurface;
use airfields::Runway;
use grid_exact::{Axis, Start};
use runway_lines::{Centerline, End, class, end_class};

/// The line from the center at the first end of a runway to the center at its second end.
fn between(runway: &Runway, one: &Start, two: &Start) -> Axis
    requires proper { IsProper runway.now }
    requires one { IsCenterOf runway.now End.One one.now }
    requires two { IsCenterOf runway.now End.Two two.now }
    ensures line { line_of result ≡ line_between runway.now End.One End.One End.Two }
{
    Axis {
        from: *one,
        way: one.to_start(two),
    }
}

/// The line from the center at this end of a runway, outward by the distance to the other center.
fn outward(runway: &Runway, end: End, here: &Start, far: &Start) -> Axis
    requires proper { IsProper runway.now }
    requires here { IsCenterOf runway.now end here.now }
    requires far { IsCenterOf runway.now (other_of end) far.now }
    ensures line { line_of result ≡ line_between runway.now end (other_of end) end }
{
    Axis {
        from: *here,
        way: far.to_start(here),
    }
}

/// The primary surface of a runway, from its centers.
pub(crate) fn primary(runway: &Runway, one: &Start, two: &Start) -> PrimarySurface
    requires proper { IsProper runway.now }
    requires one { IsCenterOf runway.now End.One one.now }
    requires two { IsCenterOf runway.now End.Two two.now }
    ensures shape { primary_shape result ≡ primary_of runway.now }
{
    PrimarySurface {
        axis: between(runway, one, two),
        width: class(runway).width,
        centerline: Centerline::of(runway),
    }
}

/// The approach surface of this end of a runway, from the centers at this end and at the other.
pub(crate) fn approach(runway: &Runway, end: End, here: &Start, far: &Start) -> ApproachSurface
    requires proper { IsProper runway.now }
    requires here { IsCenterOf runway.now end here.now }
    requires far { IsCenterOf runway.now (other_of end) far.now }
    ensures shape { approach_shape result ≡ approach_of runway.now end }
{
    let runway_end = end.of(runway);
    ApproachSurface {
        axis: outward(runway, end, here, far),
        width: class(runway).width,
        class: end_class(runway, end),
        z: runway_end.z,
        precision: runway_end.is_precision(),
    }
}
