//! The contents of changing requests: amendments of the register, days, notices, and acts on a case under 14 CFR Part 77; and the
//! structure that an act evaluates.
//!
//! Dates are those of `jiff`, from 1900-01-01 to 2999-12-31.
#![tactic(auto)]

mod act;
mod laws;
mod submission;

pub use act::{Act, Impact, Party};
pub use laws::same_act;
pub use submission::Submission;
