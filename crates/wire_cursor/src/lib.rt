//! A cursor over the fields of a record, which checks each field against its form.
//!
//! Lengths, coordinates and elevations are whole tenths of a foot.
#![tactic(auto)]

mod cursor;
mod groups;

pub use cursor::{BadField, Cursor};
pub use groups::{point, runway_end, structure};
