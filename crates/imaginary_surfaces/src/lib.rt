//! Imaginary surfaces of runways: the primary, approach and transitional surfaces (77.19(c), (d) and (e)), and the excess of a top over
//! them. Lengths, coordinates and elevations are whole tenths of a foot.
#![tactic(auto)]

mod approach;
mod areas;
mod beside_approach;
mod beside_primary;
mod clearance;
mod excesses;
mod laws;
mod least;
mod measures;
mod place;
mod prepare;
mod primary;
mod roots;
mod search;
mod short_slope;
mod skips;
mod slope_end;
mod strip;
mod zones;

pub use excesses::StripExcesses;
pub use laws::{
    approach_excess_is, approach_transition_excess_is, numbers, primary_excess_is,
    primary_transition_excess_is,
};
pub use measures::{SECOND_SLOPE_DROP, TRANSITION_REACH, TRANSITION_SLOPE};
pub use runway_lines::End;
pub use strip::Strip;
