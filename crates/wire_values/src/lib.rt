//! The values in the fields of records and replies, each with its one spelling.
//!
//! Lengths, coordinates and elevations are whole tenths of a foot.
#![tactic(auto)]

mod approaches;
mod choices;
mod counts;
mod dates;
mod decision;
mod field_value;
mod flags;
mod names;
mod numbers;
mod plain;
mod report;
mod word;
mod words;

pub use approaches::Approaches;
pub use choices::{Disposal, Grant, Pavement, Progress, Statement, Urgency, Warrant, Weight};
pub use counts::{CASE_LIMIT, CaseNumber, Months};
pub use dates::completion_date;
pub use decision::decision_word;
pub use field_value::{FieldValue, append_next, append_text};
pub use numbers::{WholeNumber, number_within};
pub use plain::Plain;
pub use report::ReportKind;
pub use word::{WORD_LIMIT, Word};
