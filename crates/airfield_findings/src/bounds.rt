//! Boxes of points of the grid in half the memory.

ghost use Rattle.std.specs.Prelude.{◌↔◌};
ghost use Rattle.grid_exact.specs.Area.{Has};
ghost use Rattle.grid_exact.specs.declared.point.Point.{Point as APoint};
ghost use Rattle.outline_boxes.specs.Bounds.{box_of};
ghost use Rattle.airfield_findings.specs.Plots.{IsOver};

use grid_exact::Area;
use outline_boxes::Bounds;

/// The bounds that contain the points of a box, and no point where there is no box.
pub(crate) fn bounds_of(area: &Option<Area>) -> Bounds
    ensures { (x : APoint) → Has (box_of result) x ↔ IsOver area.now x }
{
    match area {
        None => Bounds::nowhere(),
        Some(area) => Bounds::on_grid(area),
    }
}
