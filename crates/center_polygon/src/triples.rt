//! Tests over all triples of centers.

ghost use Rattle.std.specs.Prelude.{◌≡◌};
ghost use Rattle.std.specs.List.{list_any};
ghost use Rattle.center_polygon.specs.Spots.{at};
ghost use Rattle.center_polygon.specs.Somes.{some_two};
ghost use Rattle.center_polygon.specs.Triangles.{in_some_triangle, in_triangle, is_bent};

use crate::center::Center;
use crate::triangle::{is_in_triangle, is_turn};
use grid_exact::Point;

/// Whether a point lies in the triangle of two centers and any one of the others.
fn is_in_triangle_with_two(a: &Center, b: &Center, others: &[Center], x: &Point) -> bool
    ensures { result ≡ list_any (λ d. in_triangle a.now b.now d (at x.now)) others.now }
{
    others.iter().any(|d| is_in_triangle(a, b, d, x))
}

/// Whether a point lies in the triangle of a center and any two of the others.
fn is_in_triangle_with(a: &Center, others: &[Center], x: &Point) -> bool
    ensures { result ≡ some_two (λ b d. in_triangle a.now b d (at x.now)) others.now }
{
    for (i, b) in others.iter().enumerate() {
        if is_in_triangle_with_two(a, b, &others[i + 1..], x) {
            return true;
        }
    }
    false
}

/// Whether a point lies in the triangle of any three centers.
#[tactic(auto, unfolding(crate::specs::Triangles::in_some_triangle))]
pub(crate) fn is_in_some_triangle(centers: &[Center], x: &Point) -> bool
    ensures { result ≡ in_some_triangle centers.now x.now }
{
    for (i, a) in centers.iter().enumerate() {
        if is_in_triangle_with(a, &centers[i + 1..], x) {
            return true;
        }
    }
    false
}

/// Whether any of the others is not on one line with two centers.
fn is_bent_with_two(a: &Center, b: &Center, others: &[Center]) -> bool
    ensures { result ≡ list_any (is_bent a.now b.now) others.now }
{
    others.iter().any(|d| is_turn(a, b, d))
}

/// Whether any two of the others are not on one line with a center.
pub(crate) fn is_bent_with(a: &Center, others: &[Center]) -> bool
    ensures { result ≡ some_two (is_bent a.now) others.now }
{
    for (i, b) in others.iter().enumerate() {
        if is_bent_with_two(a, b, &others[i + 1..]) {
            return true;
        }
    }
    false
}
