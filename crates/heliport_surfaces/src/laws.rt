//! Lemmas, never run: the functions of tests in specs/ compute the excess over each surface. So a list of findings stated with these
//! functions is about the surfaces of 77.23 and 77.9(b)(3) themselves.

ghost use Rattle.std.specs.Prelude.{◌≡◌, ℤ, pos};
ghost use Rattle.grid_exact.specs.Excess.{IsExcess};
ghost use Rattle.grid_exact.specs.Level.{IsLevel};
ghost use Rattle.grid_exact.specs.declared.point.Point.{Point};
ghost use Rattle.airfields.specs.Airfields.{IsHeldHeliport};
ghost use Rattle.airfields.specs.declared.airfield.Heliport.{Heliport};
ghost use Rattle.heliport_surfaces.specs.declared.parts.Beside.{Beside};
ghost use Rattle.heliport_surfaces.specs.declared.parts.PadEnd.{PadEnd};
ghost use Rattle.heliport_surfaces.specs.Pads.{pad_primary, pad_approach, pad_transition, pad_notice, pad_primary_excess, pad_approach_excess, pad_transition_excess, pad_notice_excess};

use crate::rules::{
    APPROACH_LENGTH, APPROACH_WIDTH, CIVIL_SLOPE, MILITARY_SLOPE, NOTICE_RANGE, NOTICE_SLOPE,
    TRANSITION_REACH, TRANSITION_SLOPE,
};

/// For every heliport within its limits, every point and every level, `pad_primary_excess` computes the excess over the primary surface
/// (77.23(a)).
#[tactic(auto, using(crate::proofs::PadFacts::laws))]
pub fn pad_primary_excess_is()
    ensures { (h : Heliport) (x : Point) (top : ℤ) → IsHeldHeliport h → IsLevel top →
        IsExcess (pad_primary h x) top (pad_primary_excess h x top) }
{}

/// The same for `pad_approach_excess` and the approach surface of an end (77.23(b)).
#[tactic(auto, using(crate::proofs::PadFacts::laws))]
pub fn pad_approach_excess_is()
    ensures { (h : Heliport) (end : PadEnd) (x : Point) (top : ℤ) → IsHeldHeliport h →
        IsLevel top → IsExcess (pad_approach h end x) top (pad_approach_excess h end x top) }
{}

/// The same for `pad_transition_excess` and the transitional surface beside a part (77.23(c)).
#[tactic(auto, using(crate::proofs::PadFacts::laws))]
pub fn pad_transition_excess_is()
    ensures { (h : Heliport) (beside : Beside) (x : Point) (top : ℤ) → IsHeldHeliport h →
        IsLevel top → IsExcess (pad_transition h beside x) top
        (pad_transition_excess h beside x top) }
{}

/// The same for `pad_notice_excess` and the slope of notice (77.9(b)(3)).
#[tactic(auto, using(crate::proofs::PadFacts::laws))]
pub fn pad_notice_excess_is()
    ensures { (h : Heliport) (x : Point) (top : ℤ) → IsHeldHeliport h → IsLevel top →
        IsExcess (pad_notice h x) top (pad_notice_excess h x top) }
{}

/// A lemma, never run: the numbers of a heliport, in tenths of a foot. An approach surface is 4,000 feet long, 500 feet wide at its
/// outer end, and rises 8 to 1, or 10 to 1 at a military heliport (77.23(b)). A transitional surface rises 2 to 1 and extends to 250
/// feet from the axis (77.23(c)). The slope of notice is 25 to 1 for 5,000 feet (77.9(b)(3)).
pub fn numbers()
    ensures length { APPROACH_LENGTH ≡ pos 40_000 }
    ensures width { APPROACH_WIDTH ≡ pos 5_000 }
    ensures civil_slope { CIVIL_SLOPE ≡ pos 8 }
    ensures military_slope { MILITARY_SLOPE ≡ pos 10 }
    ensures transition_slope { TRANSITION_SLOPE ≡ pos 2 }
    ensures transition_reach { TRANSITION_REACH ≡ pos 2_500 }
    ensures notice_slope { NOTICE_SLOPE ≡ 25 }
    ensures notice_range { NOTICE_RANGE ≡ 50_000 }
{}
