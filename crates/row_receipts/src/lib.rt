//! The rows of accepted requests in the desk's stored tables: a writer and a reader, also of the outcomes in them. What is written is read
//! back unchanged, and every other text is refused.
//!
//! Excesses are whole tenths of a foot.
#![tactic(auto)]

mod change;
mod course;
mod cut;
mod determination;
mod filed;
mod list;
mod number;
mod only;
mod outcome_laws;
mod parts;
mod read;
mod receipt;
mod receipt_laws;

pub use number::read_number;
pub use outcome_laws::one_outcome;
pub use read::read_outcome;
pub use receipt::{ReceiptRow, append_receipt_key, append_receipt_row, read_receipt_row};
pub use receipt_laws::one_receipt_row;
