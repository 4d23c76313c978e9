//! Tests of versions, and of sessions over seats of one clerk. The program itself does nothing.
#![tactic(auto)]

#[cfg(test)]
mod evaluation_tests;
#[cfg(test)]
mod seat_tests;
#[cfg(test)]
mod sessions;
#[cfg(test)]
mod version_tests;

fn main() {}
