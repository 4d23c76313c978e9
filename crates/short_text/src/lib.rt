//! Texts of few bytes, stored in place and copied.
#![tactic(auto)]

mod comparison;
mod short_text;

pub use short_text::{LONGEST, ShortText};
