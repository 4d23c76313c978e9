//! Boxes that contain boxes.

ghost use Rattle.std.specs.Prelude.{◌≡◌, ◌≤◌, ◌^◌, ◌-ℤ◌, ◌+ℤ◌, unsigned_abs};
ghost use Rattle.outline_boxes.specs.Boxes.{HoldsBoth, IsLeastBox};
ghost use Rattle.outline_boxes.specs.NearBoxes.{IsNearBox};

use grid_exact::Area;

/// The least box that contains two boxes.
pub fn joined(a: &Area, b: &Area) -> Area
    ensures exact { IsLeastBox (HoldsBoth a.now b.now) result }
{
    let a = *a; // by value, since that tells that each side is an i64
    let b = *b;
    Area {
        x0: a.x0.min(b.x0),
        y0: a.y0.min(b.y0),
        x1: a.x1.max(b.x1),
        y1: a.y1.max(b.y1),
    }
}

/// A box near the grid, enlarged by a margin on each side, in tenths of a foot.
pub(crate) fn widened(area: &Area, margin: i64) -> Area
    requires near { IsNearBox area.now }
    requires margin { unsigned_abs margin ≤ 2 ^ 26 }
    ensures west { result.x0 ≡ area.now.x0 -ℤ margin }
    ensures south { result.y0 ≡ area.now.y0 -ℤ margin }
    ensures east { result.x1 ≡ area.now.x1 +ℤ margin }
    ensures north { result.y1 ≡ area.now.y1 +ℤ margin }
{
    Area {
        x0: area.x0 - margin,
        y0: area.y0 - margin,
        x1: area.x1 + margin,
        y1: area.y1 + margin,
    }
}
