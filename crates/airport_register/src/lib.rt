//! The register of airfields, and its amendments.
//!
//! Lengths, coordinates and elevations are whole tenths of a foot. The types of airfields and structures are in `airfields`.
#![tactic(auto)]

mod amend;
mod amended_id;
mod amendment;
mod laws;
mod refusal;
mod register;

pub use airfields::{
    Airfield, Airport, BadName, Category, FieldId, Filing, FilingRange, Flags, Heliport, Runway,
    RunwayEnd, RunwayName, Runways, StructureKind,
};
pub use amendment::{AmendRefusal, Amendment, Changed};
pub use laws::{most_airfields, other_airfields_stay, same_amendment};
pub use register::{MOST_AIRFIELDS, Register};
