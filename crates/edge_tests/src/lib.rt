//! Tests of sessions over lines and over HTTP whose reads, writes or memory fail.
#![tactic(auto)]

#[cfg(test)]
mod line_tests;
#[cfg(test)]
mod link_tests;
