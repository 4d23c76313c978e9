//! Laws: numbers of records, reports, links, words and draws, and slopes of surfaces, as numerals. The definitions name constants, so these laws say
//! what each is.
#![tactic(auto)]

mod links;
mod records;
mod slopes;
mod words;

pub use links::{head_numbers, statuses_of_records, statuses_of_requests};
pub use records::{plane_limit, record_numbers, report_widths};
pub use slopes::{half_widths, heliport_slopes, runway_slopes};
pub use words::{command_numbers, draw_numbers, most_seats};
