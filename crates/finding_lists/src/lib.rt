//! Findings, lists of them in order of the names of their airfields, and verdicts on lists.
#![tactic(auto)]

mod collector;
mod finding;
mod findings;
mod verdict;

pub use collector::Collector;
pub use finding::{Finding, Rule, SurfaceKey};
pub use findings::Findings;
pub use verdict::Verdict;
