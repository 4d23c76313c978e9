//! The commands of the program: a session of a desk over any streams and any keeper, many sessions of one by HTTP over any gate, questions about
//! places over the airfields of one, and a desk that is made by draws.
#![tactic(auto)]

mod generate;
mod laws;
pub mod run;
mod status;

pub use command_words::{Command, SEED_LIMIT, Service, Words};
pub use laws::run_unkept;
pub use status::Status;
