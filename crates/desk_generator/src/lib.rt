//! Generates a desk by requests of a fixed pseudo-random rule, to try the program on.
//!
//! The requests come from the caller `g`, under keys that count from 1: the day 2026-01-15, airports with one runway each, notices that
//! are determined at once, and the runways of every other airport again, with visual approaches alone. Lengths, coordinates and
//! elevations are whole tenths of a foot.
#![tactic(auto)]

mod acts;
mod asking;
mod drawing;
mod draws;
mod generator;
mod names;
mod tally;

pub use drawing::DrawnAirport;
pub use draws::Draws;
pub use generator::{COUNT_LIMIT, MOST_AIRPORTS, generated};
pub use tally::Tally;
