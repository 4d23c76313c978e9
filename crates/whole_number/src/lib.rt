//! Whole numbers as text: `0`, or digits without a leading zero, with `-` before them where negative.
//!
//! A number has at most nine digits, so it fits an `i64`, as do the numbers computed from it.
#![tactic(auto)]

mod whole;

pub use whole::{NUMBER_LIMIT, number};
