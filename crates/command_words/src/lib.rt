//! The words of the command line, and the command that they ask for.
#![tactic(auto)]

mod commands;
mod laws;
mod numbers;
mod options;
mod words;

pub use commands::{Command, MOST_TURNS, MOST_WORKERS, SEED_LIMIT, Service};
pub use laws::one_command;
pub use words::Words;
