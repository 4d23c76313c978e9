//! The date rules of 14 CFR Part 77: whether a notice is in time (77.7), the last day for a petition (77.39), the effective day
//! and the expiry of a determination (77.33), its extensions and revisions (77.35), and the resulting status of a case.
//!
//! Dates are those of `jiff`, from 1900-01-01 to 2999-12-31. Contracts use the day number of a date, where 1970-01-01 is 0.
#![tactic(auto)]

mod closed;
mod days;
mod deadline;
mod determination;
mod effects;
mod evidence;
mod laws;
mod life;
mod limit;
mod notice;
mod standing;
mod text;
mod timely;

pub use closed::ClosedDays;
pub use days::months_later;
pub use deadline::{PETITION_DAYS, petition_deadline};
pub use determination::{
    Decision, EFFECTIVE_DAYS, EXTENSION_MONTHS, MOST_EXTENSIONS, MOST_REVISIONS, Record,
};
pub use effects::{EXTENSION_DAYS, PERIOD_MONTHS, effective, expiry, last_extension_day};
pub use evidence::{EVIDENCE_MONTHS, is_filed_in_time};
pub use laws::{
    affirmed_record_is, closed_with, date_on_is, deadline_date_is, effective_after_deadline,
    extended_record_is, issued_record_is, limit_by_years, numbers, one_date, one_deadline,
    one_record, revised_record_is, some_limited_record, some_record, timeliness_is,
};
pub use life::{End, Life, Status};
pub use limit::{DateRange, FIRST_DAY, LAST_DAY, is_limited};
pub use notice::{FORM_DAYS, NOTICE_DAYS, fcc_late, timeliness};
pub use standing::status;
pub use text::{date_bytes, read_date};
pub use timely::Timeliness;
