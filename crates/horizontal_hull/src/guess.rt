//! A floating-point guess of the height of the conical surface above the horizontal one, for two arcs. It is nearly always right and so
//! saves tests; correctness does not depend on it.

use crate::arc::{Arc, larger, smaller};
use crate::sizes::{CONICAL_RISE, CONICAL_SLOPE};
use grid_exact::{Point, Vector};
use std::num::saturating_f64_to_u32;

/// A vector in floating-point numbers, which hold its components and their products exactly.
#[derive(Clone, Copy)]
struct Way {
    x: f64,
    y: f64,
}

impl Way {
    /// The same vector. Its components fit 32 bits, which are converted in one step.
    fn of(way: &Vector) -> Way {
        Way {
            x: f64::from(way.x as i32),
            y: f64::from(way.y as i32),
        }
    }

    /// The square of its length.
    fn square(&self) -> f64 {
        self.x * self.x + self.y * self.y
    }

    /// The component of another vector along this one, times this one's length.
    fn along(&self, seen: &Way) -> f64 {
        self.x * seen.x + self.y * seen.y
    }

    /// The component of another vector at right angles to this one, times this one's length.
    fn across(&self, seen: &Way) -> f64 {
        (self.x * seen.y - self.y * seen.x).abs()
    }

    /// The length of the vector.
    fn length(&self) -> f64 {
        self.square().sqrt()
    }
}

/// The approximate distance of a point outside two arcs joined by their tangents. `seen` leads from the first center to the point and
/// `way` to the second center; `growth` is the second radius minus the first.
fn beyond(way: &Way, seen: &Way, radius: f64, growth: f64) -> f64 {
    let square = way.square();
    let tangent = square - growth * growth;
    let rest = Way {
        x: seen.x - way.x,
        y: seen.y - way.y,
    };
    if tangent <= 0.0 {
        return rest.length() - radius - growth;
    }
    let root = tangent.sqrt();
    let along = way.along(seen);
    let across = way.across(seen);
    let tilt = growth * across;
    let ahead = along * root;
    if ahead < -tilt {
        return seen.length() - radius;
    }
    if square * root < ahead + tilt {
        return rest.length() - radius - growth;
    }
    (across * root - growth * along) / square - radius
}

/// The guess for two arcs in either order; 0 within them.
#[inline(always)]
pub(crate) fn guess_rise(a: &Arc, b: &Arc, x: &Point) -> u32 {
    let first = smaller(a, b);
    let second = larger(a, b);
    let way = Way::of(&first.to_arc(second));
    let seen = Way::of(&first.to_point(x));
    let radius = f64::from(first.radius());
    let growth = f64::from(second.radius()) - radius;
    let beyond = beyond(&way, &seen, radius, growth);
    if beyond <= 0.0 {
        return 0;
    }
    // multiplying is faster than dividing
    let rise = beyond * (1.0 / f64::from(CONICAL_SLOPE));
    saturating_f64_to_u32(rise).min(CONICAL_RISE - 1) + 1
}
