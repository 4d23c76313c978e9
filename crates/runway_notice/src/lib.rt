//! Notice of construction near an airport: the slopes of 77.9(b)(1) and (2), from the nearest runway.
//!
//! Lengths, coordinates and elevations are whole tenths of a foot.
#![tactic(auto)]

mod area;
mod candidate;
mod end_slope;
mod guesses;
mod laws;
mod limit;
mod lone_runway;
mod nearest;
mod notice;
mod parts;
mod search;
mod short_end;
mod slope;
mod square_distance;

pub use area::notice_area;
pub use laws::{notice_slope_is, numbers};
pub use lone_runway::LoneRunway;
pub use notice::{SLOPE_REACH, excess_notice};
pub use slope::{RANGE_B1, RANGE_B2, RATIO_B1, RATIO_B2, Slope, Sub};
