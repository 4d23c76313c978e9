//! Limits on the height of a structure: above the ground at its site, 77.9(a) and 77.17(a)(1), and near an airport,
//! 77.17(a)(2), with the allowances for traverse ways. All heights are in tenths of a foot.
#![tactic(auto)]

mod above_ground;
mod area;
mod heights;
mod laws;
mod limit;
mod near_airport;
mod search;
mod structure;

pub use above_ground::{NOTICE_HEIGHT, OBSTRUCTION_HEIGHT, excess_200, excess_499};
pub use area::{OUTER_REACH, near_area};
pub use heights::{
    INTERSTATE_RAISED, PRIVATE_RAISED, RAIL_RAISED, ROAD_RAISED, TOP_MOST, allowance,
    top_for_notice, top_for_standards,
};
pub use laws::{height_excess_is, near_excess_is, notice_excess_is, numbers};
pub use limit::{INNER_HEIGHT, INNER_RADIUS, NAUTICAL_MILE, RISE_PER_MILE};
pub use near_airport::{OUTER_HUNDREDTHS, excess_near_airport, excess_near_limited};
pub use structure::Structure;
