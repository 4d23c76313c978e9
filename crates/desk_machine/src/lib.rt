//! The desk as a state machine: its state, the answer to each request and the state after it, and the law that the state is the replay of
//! accepted requests.
//!
//! Lengths, coordinates and elevations are whole tenths of a foot.
#![tactic(auto)]

mod entry;
mod laws;

pub use entry::{Entry, MOST_CASES};
pub use laws::{most_cases, repeats, replays};
