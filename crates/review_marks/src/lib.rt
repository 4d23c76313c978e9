//! Marks for review: the standing determinations whose list of findings is no longer the present list of their structure.
//!
//! A determination under 77.31 is made on the airfields as they are that day. When an airfield changes, the desk marks exactly those whose
//! list would now differ, in an entry, an excess or the order.
#![tactic(auto)]

mod about;
mod added;
mod amended;
mod book;
mod change;
mod listing;
mod near;
mod row;
mod share;

pub use book::MarkBook;
pub use change::{Mark, MarkChange};
pub use listing::findings;
pub use row::Row;
