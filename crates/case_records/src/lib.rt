//! The data of cases: the case with its determination's list, lists of cases, the outcomes of accepted requests, and the
//! refusals.
//!
//! Dates are those of `jiff`, from 1900-01-01 to 2999-12-31.
#![tactic(auto)]

mod case;
mod case_list;
mod outcome;
mod refusal;

pub use case::{CaseView, KeptCase, KeptList};
pub use case_list::CaseList;
pub use outcome::Outcome;
pub use refusal::Refusal;
