//! The horizontal and conical surfaces of an airport (77.19(a), (b)): arcs about both ends of each runway's primary surface, joined by
//! their common tangents, and the ring around them. Lengths, coordinates and levels are whole tenths of a foot.
#![tactic(auto)]

mod arc;
mod arcs;
mod areas;
mod band;
mod capsule;
mod edge;
mod guess;
mod hull;
mod laws;
mod rise;
mod seen;
mod sizes;
mod some;
mod standing;

pub use areas::HullAreas;
pub use hull::Hull;
pub use laws::{cap_is, conical_excess_is, horizontal_excess_is, numbers};
pub use sizes::{CONICAL_RISE, CONICAL_RUN, CONICAL_SLOPE, HORIZONTAL_RISE};
pub use standing::Standing;
