//! The least whole boxes around rectangles and trapezoids that lie on both sides of a line; and a compact form of boxes, which are tested
//! against many points. Lengths and coordinates are whole tenths of a foot.
#![tactic(auto)]

mod bounds;
mod boxes;
mod edges;
mod guess;
mod rectangle;
mod sides;
mod spot;
mod trapezoid;

pub use bounds::{Bounds, PLANE_LIMIT};
pub use boxes::joined;
pub use rectangle::RectangleOutline;
pub use spot::Spot;
pub use trapezoid::TrapezoidOutline;
