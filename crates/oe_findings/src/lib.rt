//! The findings of a structure for all airfields: which standards and notice rules it exceeds, and by how much; and the areas of the
//! surfaces of an airfield, each the least whole box around a surface.
//!
//! Excesses and coordinates are whole tenths of a foot.
#![tactic(auto)]

mod any_finding;
mod area_list;
mod laws;
mod notices;
mod obstruction;
mod runways;
mod screening;
mod sky;
mod surroundings;

pub use area_list::AreaList;
pub use finding_lists::{Finding, Findings, Rule, SurfaceKey, Verdict};
pub use laws::one_list;
pub use sky::Sky;
