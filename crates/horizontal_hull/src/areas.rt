//! The least boxes of the horizontal and conical surfaces.

ghost use Rattle.std.specs.Prelude.{◌≡◌, ◌<◌, ◌≤◌, [], length};
ghost use Rattle.std.specs.Option.{MatchOption};
ghost use Rattle.outline_boxes.specs.Bounds.{box_of};
ghost use Rattle.outline_boxes.specs.Boxes.{IsLeastBox};
ghost use Rattle.std.specs.List.{All};
ghost use Rattle.grid_exact.specs.declared.point.Point.{Point};
ghost use Rattle.horizontal_hull.specs.Areas.{AreHullAreas, HoldsDiscs, disc_box as disc_box_of};
ghost use Rattle.horizontal_hull.specs.Close.{IsNearReference, IsOuter};

use crate::arc::Arc;
use crate::sizes::CONICAL_RUN;
use grid_exact::Area;
use outline_boxes::{Bounds, joined};

/// The least boxes of the horizontal and conical surfaces of an airport (77.19(a) and (b)): each contains the discs about the centers of
/// all arcs, for the conical surface with radii 4,000 feet greater.
#[derive(Clone, Copy, Debug, PartialEq, Eq)]
pub struct HullAreas {
    pub horizontal: Area,
    pub conical: Area,
}

/// The box of the disc about an arc's center, its radius raised by `c`.
fn disc_box(arc: &Arc, c: u32) -> Area
    ensures { result ≡ disc_box_of c arc.now }
{
    let center = arc.center().start();
    let reach = i64::from(arc.radius()) + i64::from(c);
    Area {
        x0: center.x - reach,
        y0: center.y - reach,
        x1: center.x + reach,
        y1: center.y + reach,
    }
}

/// The least box that contains the discs about the centers of arcs, with radii raised by `c`.
fn least_box(arcs: &[Arc], c: u32) -> Area
    requires some { 0 < length arcs.now }
    ensures { IsLeastBox (HoldsDiscs arcs.now c) result }
{
    let mut least = disc_box(&arcs[0], c);
    for arc in arcs {
        least = joined(&least, &disc_box(arc, c));
    }
    least
}

/// The boxes of both surfaces; `None` without arcs.
pub(crate) fn areas(arcs: &[Arc]) -> Option<HullAreas>
    ensures { MatchOption result (arcs.now ≡ []) (AreHullAreas arcs.now) }
{
    if arcs.is_empty() {
        return None;
    }
    Some(HullAreas {
        horizontal: least_box(arcs, 0),
        conical: least_box(arcs, CONICAL_RUN),
    })
}

/// The box that contains both surfaces, in a compact form; it contains no point without arcs.
pub(crate) fn outer_box(arcs: &[Arc]) -> Bounds
    ensures { (arp : Point) → All (IsNearReference arp) arcs.now →
        IsOuter arcs.now (box_of result) }
{
    if arcs.is_empty() {
        return Bounds::nowhere();
    }
    Bounds::on_grid(&least_box(arcs, CONICAL_RUN))
}
