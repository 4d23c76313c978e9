//! Lemmas about the definitions, never run: for each runway within its limits, each point and each level, the tests of a surface compute
//! the excess over it.

ghost use Rattle.std.specs.Prelude.{◌≡◌, ℤ, pos};
ghost use Rattle.grid_exact.specs.Excess.{IsExcess};
ghost use Rattle.grid_exact.specs.Level.{IsLevel};
ghost use Rattle.grid_exact.specs.declared.cap.Cap.{Cap};
ghost use Rattle.grid_exact.specs.declared.point.Point.{Point};
ghost use Rattle.airfields.specs.declared.runway.Runway.{Runway};
ghost use Rattle.airfields.specs.Runways.{IsProper};
ghost use Rattle.runway_lines.specs.declared.end.End.{End};
ghost use Rattle.imaginary_surfaces.specs.Strips.{primary_surface, approach_surface, primary_excess, approach_excess};
ghost use Rattle.imaginary_surfaces.specs.Strips.{primary_transition_surface, approach_transition_surface, primary_transition_excess, approach_transition_excess};

use crate::measures::{SECOND_SLOPE_DROP, TRANSITION_REACH, TRANSITION_SLOPE};

/// For the primary surface (77.19(c)).
#[tactic(auto, using(crate::proofs::ExcessLaws::laws))]
pub fn primary_excess_is()
    ensures { (r : Runway) (x : Point) (top : ℤ) → IsProper r → IsLevel top →
        IsExcess (primary_surface r x) top (primary_excess r x top) }
{}

/// For the approach surface of each end (77.19(d)).
#[tactic(auto, using(crate::proofs::ExcessLaws::laws))]
pub fn approach_excess_is()
    ensures { (r : Runway) (end : End) (x : Point) (top : ℤ) → IsProper r → IsLevel top →
        IsExcess (approach_surface r end x) top (approach_excess r end x top) }
{}

/// For the transitional surface beside the primary surface (77.19(e)), at any level of the horizontal and conical surfaces.
#[tactic(auto, using(crate::proofs::ExcessLaws::laws))]
pub fn primary_transition_excess_is()
    ensures { (r : Runway) (x : Point) (cap : Cap) (top : ℤ) → IsProper r → IsLevel top →
        IsExcess (primary_transition_surface r x cap) top (primary_transition_excess r x cap top) }
{}

/// For the transitional surface beside the approach surface of each end (77.19(e)), at any level of the horizontal and conical surfaces.
#[tactic(auto, using(crate::proofs::ExcessLaws::laws))]
pub fn approach_transition_excess_is()
    ensures { (r : Runway) (end : End) (x : Point) (cap : Cap) (top : ℤ) → IsProper r →
        IsLevel top → IsExcess (approach_transition_surface r end x cap) top
        (approach_transition_excess r end x cap top) }
{}

/// A lemma, never run: the numbers of the transitional surfaces, in tenths of a foot. They rise 7 to 1, and beside a precision approach
/// beyond the conical surface they extend 5,000 feet (77.19(e)). The outer slope of a precision approach continues as if it had begun 50
/// feet below the end of the primary surface (77.19(d)).
pub fn numbers()
    ensures slope { TRANSITION_SLOPE ≡ pos 7 }
    ensures reach { TRANSITION_REACH ≡ pos 50_000 }
    ensures drop { SECOND_SLOPE_DROP ≡ pos 500 }
{}
