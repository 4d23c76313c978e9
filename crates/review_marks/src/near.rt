//! Boxes outside which a change of an airfield changes no list.

ghost use Rattle.std.specs.Prelude.{◌≡◌};
ghost use Rattle.review_marks.specs.Near.{lies_in as lies, IsAround};

use grid_exact::{Area, Point};
use outline_boxes::joined;

/// A box that contains both, where there is one.
#[tactic(auto, using(crate::proofs::Boxes::around_itself, crate::proofs::Boxes::around_none, crate::proofs::Boxes::around_first, crate::proofs::Boxes::around_second))]
pub(crate) fn around(a: &Option<Area>, b: &Option<Area>) -> Option<Area>
    ensures first { IsAround result a.now }
    ensures second { IsAround result b.now }
{
    let Some(first) = a else {
        return *b;
    };
    let Some(second) = b else {
        return *a;
    };
    Some(joined(first, second))
}

/// Whether there is a box, and it contains the point.
pub(crate) fn lies_in(area: &Option<Area>, at: &Point) -> bool
    ensures { result ≡ lies area.now at.now }
{
    match area {
        Some(area) => area.has(at),
        None => false,
    }
}
