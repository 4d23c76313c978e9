//! Notice of construction near airports: construction on an airfield (77.9(d)), exemptions from notice (77.9(e)), and, from
//! `runway_notice`, the slopes of 77.9(b)(1) and (2).
#![tactic(auto)]

mod exemption;
mod laws;
mod on_airfield;
mod without_notice;

pub use exemption::Exemption;
pub use laws::numbers;
pub use on_airfield::rule_d;
pub use runway_notice::{
    RANGE_B1, RANGE_B2, RATIO_B1, RATIO_B2, SLOPE_REACH, Slope, Sub, excess_notice, notice_slope_is,
};
pub use without_notice::{LOW_ANTENNA, exempt};
