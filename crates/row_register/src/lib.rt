//! The texts in the desk's stored tables: five tables, each a map from key text to row text. Each table has a writer and a
//! reader; what is written is read back unchanged, and every other text is refused.
//!
//! Lengths, coordinates, elevations and excesses are whole tenths of a foot.
#![tactic(auto)]

mod airfield;
mod append;
mod desk;
mod groups;
mod laws;
mod parts;
mod runway;

pub use airfield::{append_airfield_key, append_airfield_row, read_airfield_row};
pub use append::append_point;
pub use desk::{DeskRow, append_desk_key, append_desk_row, read_desk_row};
pub use groups::point;
pub use laws::{one_airfield_row, one_desk_row, one_runway_row};
pub use parts::Parts;
pub use runway::{RunwayRow, append_runway_key, append_runway_row, read_runway_row};
