//! The data of the desk: names, categories, runways, airports, heliports and the structures of notices, each with its limits.
//!
//! Lengths, coordinates and elevations are whole tenths of a foot.
#![tactic(auto)]

mod airfield;
mod airfield_id;
mod category;
mod filing;
mod laws;
mod limits;
mod names;
mod runway;
mod runways;
mod structure;

pub use airfield::{Airfield, Airport, Heliport};
pub use category::Category;
pub use filing::{FilingRange, MOBILE_LIMIT};
pub use laws::{numbers, same_structure};
pub use limits::{
    ELEVATION_LEAST, ELEVATION_MOST, HELIPORT_AXIS_LEAST, HELIPORT_AXIS_MOST, HELIPORT_WIDTH_LEAST,
    HELIPORT_WIDTH_MOST, RUNWAY_LEAST, RUNWAY_MOST, RUNWAY_REACH, is_allowed_elevation,
};
pub use names::{BadName, FieldId, NAME_LIMIT, RunwayName};
pub use runway::{Runway, RunwayEnd};
pub use runways::{LONG_RUNWAY, MOST_RUNWAYS, Runways};
pub use structure::{Filing, Flags, HEIGHT_LIMIT, StructureKind};
