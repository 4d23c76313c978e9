//! Tests over all pairs of an airport's arcs.

ghost use Rattle.std.specs.Prelude.{◌≡◌, ◌∷◌, ◌≤◌};
ghost use Rattle.std.specs.List.{list_any};
ghost use Rattle.center_polygon.specs.Somes.{some_two};
ghost use Rattle.horizontal_hull.specs.Capsules.{in_capsule};
ghost use Rattle.horizontal_hull.specs.Close.{AreClose};

use crate::arc::Arc;
use crate::capsule::is_in_capsule;
use crate::edge::Edge;
use crate::sizes::CONICAL_RUN;
use grid_exact::Point;

/// Whether a point lies in the capsule of an arc and any one of the others, with radii raised by `c`.
fn is_in_capsule_with(edge: Edge, a: &Arc, others: &[Arc], x: &Point, c: u32) -> bool
    requires close { AreClose (a.now ∷ others.now) x.now }
    requires run { c ≤ CONICAL_RUN }
    ensures { result ≡ list_any (λ b. in_capsule edge a.now b x.now c) others.now }
{
    for b in others {
        if is_in_capsule(edge, a, b, x, c) {
            return true;
        }
    }
    false
}

/// Whether a point lies in the capsule of any two arcs with radii raised by `c`.
pub(crate) fn is_in_some_capsule(edge: Edge, arcs: &[Arc], x: &Point, c: u32) -> bool
    requires close { AreClose arcs.now x.now }
    requires run { c ≤ CONICAL_RUN }
    ensures { result ≡ some_two (λ a b. in_capsule edge a b x.now c) arcs.now }
{
    for (i, a) in arcs.iter().enumerate() {
        if is_in_capsule_with(edge, a, &arcs[i + 1..], x, c) {
            return true;
        }
    }
    false
}
