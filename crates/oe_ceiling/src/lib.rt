//! How high a structure may be without a standard that it exceeds and without a notice rule that it meets, and what it meets above that.
//!
//! Heights are whole tenths of a foot above the ground.
#![tactic(auto)]

mod laws;
mod search;
mod site;

pub use laws::{lower_is_clear, numbers};
pub use search::{HALVINGS, LISTS, binding, ceiling, findings_above};
