//! Laws of many sessions over one desk, whatever each of them does and in whichever order.
#![tactic(auto)]

pub mod laws;
