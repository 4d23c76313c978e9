//! Notices of proposed structures.

use airfields::Filing;
use jiff::civil::Date;

/// A notice of proposed construction or alteration (77.7).
#[derive(Clone, Copy, Debug, PartialEq, Eq)]
pub struct Submission {
    /// The day on which work is to start.
    pub start: Date,
    /// The day on which the application for a construction permit is to be filed.
    pub permit: Option<Date>,
    /// The day of the application to the Federal Communications Commission, where there is one (77.7(c)).
    pub fcc: Option<Date>,
    /// Whether it is an emergency that requires immediate construction (77.7(e)).
    pub emergency: bool,
    /// Whether a statement explains why a structure of more than 2,000 feet would be no hazard (77.7(d)).
    pub statement: bool,
    /// The structure.
    pub filing: Filing,
}
