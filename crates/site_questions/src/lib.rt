//! Questions about places, line by line: how high a structure may be, and the findings of a way that is given station by station.
//!
//! Heights and excesses are whole tenths of a foot.
#![tactic(auto)]

mod ceiling_desk;
mod kinds;
mod laws;
mod screens;
mod way_desk;

pub use ceiling_desk::{CeilingDesk, HEIGHT_FIELD, ceilings};
pub use kinds::{Question, questions};
pub use laws::fields_of_refusals;
pub use screens::FORM_FIELD;
pub use way_desk::{WayDesk, ways};
