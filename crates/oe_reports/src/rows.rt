//! The rows of the case reports.

use determination_dates::Decision;
use jiff::civil::Date;

/// A case that is marked for review.
#[derive(Clone, Copy)]
pub struct ReviewRow {
    /// The number of the case.
    pub case: u32,
    /// The decision.
    pub decision: Decision,
    /// The day of issuance.
    pub issued: Date,
}

/// A standing determination that has an expiry. Rows are ordered by expiry, then by case.
#[derive(Clone, Copy, PartialEq, Eq, PartialOrd, Ord)]
pub struct ExpiryRow {
    /// Its last day (77.33).
    pub expiry: Date,
    /// The number of its case.
    pub case: u32,
}
