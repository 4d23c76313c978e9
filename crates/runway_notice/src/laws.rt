//! Lemmas about the definitions of a notice slope; never run.

ghost use Rattle.std.specs.Prelude.{◌≡◌, ℤ, pos};
ghost use Rattle.grid_exact.specs.Level.{IsLevel};
ghost use Rattle.grid_exact.specs.declared.point.Point.{Point};
ghost use Rattle.airfields.specs.Airfields.{IsHeldAirport};
ghost use Rattle.airfields.specs.declared.airfield.Airport.{Airport};
ghost use Rattle.runway_notice.specs.Notices.{IsNoticeSlope, notice_slope};

use crate::slope::{RANGE_B1, RANGE_B2, RATIO_B1, RATIO_B2};

/// For an airport within the limits of the register, `notice_slope` is the slope from the nearest runway that a top is above, and none
/// exactly where there is none.
#[tactic(auto, using(crate::proofs::NoticeFacts::notice_slope_is))]
pub fn notice_slope_is()
    ensures { (a : Airport) (x : Point) (top : ℤ) → IsHeldAirport a → IsLevel top →
        IsNoticeSlope a x top (notice_slope a x top) }
{}

/// A lemma, never run: the numbers of both slopes, in tenths of a foot: 100 to 1 for 20,000 feet (77.9(b)(1)), and 50 to 1 for 10,000
/// feet (77.9(b)(2)).
pub fn numbers()
    ensures range_b1 { RANGE_B1 ≡ pos 200_000 }
    ensures ratio_b1 { RATIO_B1 ≡ pos 100 }
    ensures range_b2 { RANGE_B2 ≡ pos 100_000 }
    ensures ratio_b2 { RATIO_B2 ≡ pos 50 }
{}
