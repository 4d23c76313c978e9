//! Tests of runs and services, and of what records can't reach.
//!
//! They call what no worked session and no example of the documents reaches: streams and gates that fail, and values that no session has.
//! The program itself does nothing.
#![tactic(auto)]

#[cfg(test)]
mod area_tests;
#[cfg(test)]
mod command_tests;
#[cfg(test)]
mod fault_tests;
#[cfg(test)]
mod format_tests;
#[cfg(test)]
mod links;
#[cfg(test)]
mod meeting;
#[cfg(test)]
mod service_tests;

fn main() {}
