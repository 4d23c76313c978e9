//! The filing desk: the clerk's state, its decisions on changing requests, and its views of cases.
//!
//! Dates are those of `jiff`, from 1900-01-01 to 2999-12-31.
#![tactic(auto)]

mod acts;
mod answer;
mod applying;
mod clerk;
mod desk;
mod issued_mark;
mod laws;
mod marking;
mod office;
mod opening;
mod register_change;
mod reopening;
mod reports;
mod rows;
mod steps;
mod view;

pub use answer::Answer;
pub use clerk::Clerk;
pub use desk_receipts::{Evaluated, OpenRefusal};
pub use laws::goes_on;
