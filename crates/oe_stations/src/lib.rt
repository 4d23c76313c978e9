//! The findings of a road, railroad or waterway that is given as points along its line.
//!
//! Excesses and coordinates are whole tenths of a foot.
#![tactic(auto)]

mod laws;
mod merging;
mod place;
mod way;
mod way_list;

pub use laws::{most_stations, one_place, one_station, one_way_list, order_of_places};
pub use merging::way_findings;
pub use place::Place;
pub use way::{MOST_STATIONS, Way, WayRefusal};
pub use way_list::{WayFinding, WayList};
