//! The lines of a runway: its centerline with its elevation, the centers of the ends of its primary surface (77.19(c)), and the class
//! that sets the sizes of its surfaces. Lengths, coordinates and elevations are whole tenths of a foot.
#![tactic(auto)]

mod centerline;
mod end;
mod laws;
mod lines;
mod setbacks;

pub use centerline::Centerline;
pub use end::End;
pub use laws::numbers;
pub use lines::{center, class, end_class};
