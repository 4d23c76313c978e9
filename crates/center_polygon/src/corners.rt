//! The walk round the centers, which goes to the rightmost center at each step.

use crate::center::Center;
use crate::walk::Walk;
use grid_exact::NoMemory;
use std::alloc::Global;

/// Whether `center` lies south of `least`, or equally far south and west of it.
fn is_before(center: &Center, least: &Center) -> bool {
    let center = center.start();
    let least = least.start();
    center.y < least.y || center.y == least.y && center.x < least.x
}

/// The southernmost of the centers, and of several such the westernmost: a corner of their polygon.
fn first_corner(centers: &[Center], some: &Center) -> Center {
    let mut first = *some;
    for center in centers {
        if is_before(center, &first) {
            first = *center;
        }
    }
    first
}

/// Whether `center` lies to the right of the vector from a corner to `next`, or farther along it.
fn is_past(corner: &Center, next: &Center, center: &Center) -> bool {
    let way = corner.to_center(next);
    let other = corner.to_center(center);
    let turn = way.cross(&other);
    turn < 0 || turn == 0 && way.square_length() < other.square_length()
}

/// The corner after one: no center lies to the right of the vector to it.
fn next_corner(centers: &[Center], corner: &Center) -> Center {
    let mut next = *corner;
    for center in centers {
        if is_past(corner, &next, center) {
            next = *center;
        }
    }
    next
}

/// The walk from the first corner, with the centers on the left, until it is back at the start. It takes at most as many steps as there
/// are centers. That it goes round all of them is tested at run time by `is_round`, not proved.
pub(crate) fn walk(alloc: Global, centers: &[Center], some: &Center) -> Result<Walk, NoMemory> {
    let first = first_corner(centers, some);
    let mut rest = Vec::with_capacity(alloc, centers.len())?;
    let mut corner = first;
    for _ in 0..centers.len() {
        corner = next_corner(centers, &corner);
        if corner.is_at(&first) {
            break;
        }
        rest.push(corner)?;
    }
    Ok(Walk { first, rest })
}
