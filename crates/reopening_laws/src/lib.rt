//! Laws of reopening: a saved desk reopens as the same desk, and so does a clerk that is closed and opened again over its keeper.
#![tactic(auto)]

mod laws;
mod opening;

pub use laws::{older_reopens, opened_is_one, opened_is_sound, reopens};
pub use opening::reopened;
