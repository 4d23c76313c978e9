//! The fields of a line that is one record of comma-separated values.
//!
//! Lines without quotes are split at their commas; other lines are read by `csv`.
#![tactic(auto)]

mod fields;
mod plain;
mod record;

pub use fields::Fields;
pub use record::find_fields;
