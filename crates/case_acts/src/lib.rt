//! The acts on a case under 14 CFR Part 77: their effects and refusals.
//!
//! Dates are those of `jiff`, from 1900-01-01 to 2999-12-31. Each act happens on the desk's day.
#![tactic(auto)]

mod determination;
mod effect;
mod endings;
mod extension;
mod laws;
mod notice;
mod order;
mod review;
mod revision;
mod standing;

pub use determination::determine;
pub use effect::{Effect, Step};
pub use endings::{abandon, fcc};
pub use extension::{Extension, extend};
pub use laws::numbers;
pub use notice::{PRESUMED_HEIGHT, file, form};
pub use order::is_before;
pub use review::{dispose, petition};
pub use revision::{Revision, revise};
pub use standing::{is_awaiting, is_in_force, is_planned, is_standing};
