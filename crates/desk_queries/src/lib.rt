//! The replies to queries over a clerk, as values.
#![tactic(auto)]

mod queries;
mod screening;

pub use queries::reply;
pub use screening::{screen, verdict};
