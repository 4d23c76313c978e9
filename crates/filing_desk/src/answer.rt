//! Answers to changing requests.

use case_records::{Outcome, Refusal};

/// The answer to a changing request.
#[derive(Drop)]
pub enum Answer {
    /// The request was accepted, now or before, as the entry of this number, with this outcome.
    Accepted { entry: u64, outcome: Outcome },
    /// The request was refused, and nothing changed.
    Refused(Refusal),
}
