//! The texts of replies: outcomes of accepted requests, refusals, lists of findings and their entries, cases, rows of airfields, lists of
//! cases, and reports.
//!
//! Each function appends to a text. Where memory runs out, the text may hold a part of what was to be appended, and its owner can cut
//! that part off again. No function appends more than six parts, as the proof of a longer chain is costly.
//!
//! Lengths, coordinates, elevations and excesses are whole tenths of a foot.
#![tactic(auto)]

mod case;
mod dates;
mod entries;
mod fields;
mod outcomes;
mod page;
mod refusals;
mod replies;
mod reply;
mod review;
mod rows;
mod states;

pub use case_records::{CaseList, CaseView, Outcome, Refusal};
pub use entries::{append_entry, append_list};
pub use fields::{append_next_number, append_next_word, append_number};
pub use outcomes::append_outcome;
pub use replies::{append_airfield, append_found, append_reply, write_reply};
pub use reply::Reply;
pub use wire_values::Plain;
