//! The timeliness of a notice.

use jiff::civil::Date;

/// Whether a notice was in time (77.7).
#[derive(Clone, Copy, Debug, PartialEq, Eq)]
pub enum Timeliness {
    /// At least 45 days before the earlier of the start of the work and the application for a permit (77.7(b)).
    Timely,
    /// Later than that by this number of days, at least one.
    Late(u32),
    /// In an emergency the 45 days are waived; the completed form is due by this day (77.7(e)).
    Emergency { due: Date },
}
