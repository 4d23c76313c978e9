//! The reports of the desk, as tables of text.
//!
//! A table begins with a line of the report's name and the number of lines that follow. Columns are two spaces apart, and no
//! line ends with a space. Dates are written `YYYY-MM-DD`, and elevations in whole tenths of a foot.
#![tactic(auto)]

mod case_tables;
mod columns;
mod register_table;
mod rows;

pub use case_tables::{expiry_table, review_table};
pub use register_table::airfield_table;
pub use rows::{ExpiryRow, ReviewRow};
