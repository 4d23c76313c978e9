//! Walks round the centers.

ghost use Rattle.std.specs.Prelude.{◌≡◌, ◌↔◌, IsTrue};
ghost use Rattle.std.specs.List.{list_all};
ghost use Rattle.center_polygon.specs.Spots.{at};
ghost use Rattle.center_polygon.specs.Walks.{IsRound, is_among as is_among_of, is_fan, is_spot, keeps_left, turns_on as turns_on_of};

use crate::center::Center;
use crate::triangle::{is_left_turn, keeps_center, keeps_point};
use grid_exact::Point;

/// A walk from corner to corner, and from the last one back to the first.
#[derive(Drop)]
pub(crate) struct Walk {
    pub(crate) first: Center,
    /// The corners after the first two.
    pub(crate) rest: Vec<Center>,
}

/// Whether a center is in the list.
fn is_among(centers: &[Center], a: &Center) -> bool
    ensures { result ≡ is_among_of centers.now a.now }
{
    centers.iter().any(|center| a.is_at(center))
}

/// Whether all of the corners are among the centers.
fn are_among(centers: &[Center], corners: &[Center]) -> bool
    ensures { result ≡ list_all (is_among_of centers.now) corners.now }
{
    corners.iter().all(|corner| is_among(centers, corner))
}

/// Whether each further corner, seen from the first one, lies to the left of the corner before it.
fn turns_on(first: &Center, second: &Center, rest: &[Center]) -> bool
    ensures { result ≡ turns_on_of first.now second.now rest.now }
{
    let mut corner = *second;
    for next in rest {
        if !is_left_turn(first, &corner, next) {
            return false;
        }
        corner = *next;
    }
    true
}

impl Walk {
    /// Whether the point is outside no edge.
    pub(crate) fn keeps_left(&self, x: &Point) -> bool
        ensures { result ≡ keeps_left (at x.now) self.now.first self.now.first self.now.rest.items }
    {
        let mut corner = self.first;
        for next in self.rest.as_slice() {
            if !keeps_point(x, &corner, next) {
                return false;
            }
            corner = *next;
        }
        keeps_point(x, &corner, &self.first)
    }

    /// Whether the center is outside no edge.
    fn holds(&self, center: &Center) -> bool
        ensures { result ≡ keeps_left center.now self.now.first self.now.first self.now.rest.items }
    {
        let mut corner = self.first;
        for next in self.rest.as_slice() {
            if !keeps_center(center, &corner, next) {
                return false;
            }
            corner = *next;
        }
        keeps_center(center, &corner, &self.first)
    }

    /// Whether there are three corners or more, each further left than the one before.
    fn is_fan(&self) -> bool
        ensures { result ≡ is_fan self.now.first self.now.rest.items }
    {
        match self.rest.as_slice() {
            [second, third @ ..] if !third.is_empty() => turns_on(&self.first, second, third),
            _ => false,
        }
    }

    /// Whether none of the centers is outside an edge.
    fn holds_all(&self, centers: &[Center]) -> bool
        ensures { result ≡ list_all (λ c. keeps_left c self.now.first self.now.first
            self.now.rest.items) centers.now }
    {
        centers.iter().all(|center| self.holds(center))
    }

    /// Whether the walk goes round all centers. This run-time test takes the place of a proof about the walk.
    pub(crate) fn is_round(&self, centers: &[Center]) -> bool
        ensures { IsTrue result ↔ IsRound centers.now self.now.first self.now.rest.items }
    {
        (is_among(centers, &self.first) && are_among(centers, self.rest.as_slice()))
            && (self.is_fan() && self.holds_all(centers))
    }
}
