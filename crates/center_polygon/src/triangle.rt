//! Triangles of three centers.

ghost use Rattle.std.specs.Prelude.{◌≡◌, int_le, int_lt, pos};
ghost use Rattle.grid_exact.specs.Vector.{across_of};
ghost use Rattle.center_polygon.specs.Spots.{at};
ghost use Rattle.center_polygon.specs.Triangles.{in_triangle, is_bent, is_inside as is_inside_of, turn};

use crate::center::Center;
use grid_exact::{Point, Vector};

/// Whether one vector does not lie to the right of another. Differences of coordinates are small enough that their products fit 64 bits,
/// and this test is the most frequent one.
fn is_not_right(from: &Vector, to: &Vector) -> bool
    ensures { result ≡ int_le (pos 0) (across_of from.now.x from.now.y to.now.x to.now.y) }
{
    0 <= from.cross(to) as i64
}

/// Whether the third of three centers lies to the left of the vector from the first to the second.
pub(crate) fn is_left_turn(a: &Center, b: &Center, d: &Center) -> bool
    ensures { result ≡ int_lt (pos 0) (turn a.now b.now d.now) }
{
    0 < a.to_center(b).cross(&a.to_center(d))
}

/// Whether a center does not lie to the right of the vector from one center to another.
pub(crate) fn keeps_center(center: &Center, a: &Center, b: &Center) -> bool
    ensures { result ≡ int_le (pos 0) (turn center.now a.now b.now) }
{
    is_not_right(&center.to_center(a), &center.to_center(b))
}

/// Whether a point does not lie to the right of the vector from one center to another.
pub(crate) fn keeps_point(x: &Point, a: &Center, b: &Center) -> bool
    ensures { result ≡ int_le (pos 0) (turn (at x.now) a.now b.now) }
{
    is_not_right(&a.from_point(x), &b.from_point(x))
}

/// Whether three centers turn to the left, and the point is outside no side of their triangle.
fn is_inside(a: &Center, b: &Center, d: &Center, x: &Point) -> bool
    ensures { result ≡ is_inside_of a.now b.now d.now (at x.now) }
{
    // In pairs: with a longer chain of `&&` a goal stays open.
    (is_left_turn(a, b, d) && keeps_point(x, a, b))
        && (keeps_point(x, b, d) && keeps_point(x, d, a))
}

/// Whether a point lies in the closed triangle of three centers that are not on one line.
#[tactic(auto, unfolding(crate::specs::Triangles::in_triangle))]
pub(crate) fn is_in_triangle(a: &Center, b: &Center, d: &Center, x: &Point) -> bool
    ensures { result ≡ in_triangle a.now b.now d.now (at x.now) }
{
    is_inside(a, b, d, x) || is_inside(a, d, b, x)
}

/// Whether three centers are not on one line.
pub(crate) fn is_turn(a: &Center, b: &Center, d: &Center) -> bool
    ensures { result ≡ is_bent a.now b.now d.now }
{
    is_left_turn(a, b, d) || is_left_turn(a, d, b)
}
