//! The desk that answers the lines of a session, over a clerk with any keeper.
#![tactic(auto)]

mod complete;
mod desk;
mod fulfil;
mod laws;

pub use complete::{each_change_is_answered, each_record_is_answered};
pub use desk::{LineDesk, append_answer};
pub use laws::{steady_never_fails, steady_sessions};
