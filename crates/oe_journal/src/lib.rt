//! A keeper over a plain file of frames, whose rows a crash at any moment leaves whole: how a list of row changes is spelled as a frame, what
//! the bytes of a file stand for, and the keeper.
#![tactic(auto)]

mod error;
mod frames;
mod journal;
mod marks;
mod mending;
mod parsing;
mod reading;
mod runs;
mod steps;
mod writing;

pub use journal::JournalKeeper;
pub use runs::{Answer, Call, run_all};
