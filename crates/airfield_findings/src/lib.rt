//! The findings of a structure for one airfield: which of its standards and slopes the structure exceeds, and by how much; and where the airfield
//! stands in a tree of areas.
//!
//! An excess is in whole tenths of a foot.
#![tactic(auto)]

mod bounds;
mod datum;
mod entry;
mod plots;
mod prepared;
mod prepared_airport;
mod reach;
mod slopes;
mod standards;
mod strips;
mod surfaces;

pub use entry::{field_key, no_field, put_entry};
pub use plots::{LARGE_LEVEL, SMALL_LEVEL};
pub use prepared::Prepared;
pub use slopes::put_slope;
pub use standards::put_airfield;
