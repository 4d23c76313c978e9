//! What a clerk keeps and what it is given: the accepted requests, each passed to the keeper before its entry is appended and found by
//! caller and key; a keeper's rows of an older format, brought to that of today; and lists of findings that were evaluated before.
#![tactic(auto)]

mod evaluated;
mod receipt_key;
mod receipts;
mod renewal;

pub use evaluated::{Evaluated, given_told, is_own};
pub use receipts::{Accepted, Receipts};
pub use renewal::{OpenRefusal, renew};
