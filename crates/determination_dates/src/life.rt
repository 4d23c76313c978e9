//! The state of a case: its end, its determination and its status.

use crate::determination::Record;

/// How a case ended.
#[derive(Clone, Copy, Debug, PartialEq, Eq)]
pub enum End {
    /// The proposed structure was abandoned (77.33(b)).
    Abandoned,
    /// The determination was reversed after a petition (77.37).
    Reversed,
}

/// The state of a case: its end and its determination.
#[derive(Clone, Copy, Debug, PartialEq, Eq)]
pub struct Life {
    pub end: Option<End>,
    pub determination: Option<Record>,
}

/// The status of a case on a day.
#[derive(Clone, Copy, Debug, PartialEq, Eq)]
pub enum Status {
    /// No determination was made.
    Awaiting,
    /// A determination was made and is not effective yet.
    Pending,
    /// A determination of no hazard is effective and did not expire.
    InForce,
    /// A determination of hazard is effective; it has no expiry (77.33(c)).
    HazardStands,
    /// The day of the expiry is past.
    Expired,
    Abandoned,
    Reversed,
}
