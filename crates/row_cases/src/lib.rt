//! The rows of cases in the desk's stored tables: a writer and a reader; what is written is read back unchanged, and every other text
//! is refused.
//!
//! Lengths, coordinates, elevations and excesses are whole tenths of a foot.
#![tactic(auto)]

mod append;
mod entry;
mod extent;
mod filing;
mod judged;
mod laws;
mod number;
mod older;
mod site;

pub use append::append_filing_row;
pub use filing::{FilingRow, append_filing_key, read_filing_row};
pub use laws::{one_filing_row, renewed_rows};
pub use older::append_renewed_row;
