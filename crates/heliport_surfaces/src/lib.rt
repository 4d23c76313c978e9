//! Imaginary surfaces of heliports (77.23): the primary, approach and transitional surfaces; and the notice slope near a heliport
//! (77.9(b)(3)). Lengths, coordinates and elevations are whole tenths of a foot.
#![tactic(auto)]

mod approach;
mod areas;
mod axis;
mod gap;
mod landing;
mod laws;
mod notice;
mod offset;
mod pad;
mod parts;
mod place;
mod prepare;
mod rules;

pub use laws::{
    numbers, pad_approach_excess_is, pad_notice_excess_is, pad_primary_excess_is,
    pad_transition_excess_is,
};
pub use pad::Pad;
pub use parts::{Beside, PadEnd, PadExcesses};
