//! Lemmas about the definitions, never run: the functions of tests compute the surfaces of 77.19(a) and (b).

ghost use Rattle.std.specs.Prelude.{◌≡◌, ℤ, pos};
ghost use Rattle.grid_exact.specs.declared.point.Point.{Point};
ghost use Rattle.grid_exact.specs.Excess.{IsExcess};
ghost use Rattle.grid_exact.specs.Level.{IsLevel};
ghost use Rattle.airfields.specs.declared.airfield.Airport.{Airport};
ghost use Rattle.airfields.specs.Airfields.{IsHeldAirport};
ghost use Rattle.horizontal_hull.specs.Arcs.{dome_of};
ghost use Rattle.horizontal_hull.specs.Within.{IsCap, cap_of, conical, conical_excess, horizontal, horizontal_excess};

use crate::sizes::{CONICAL_RISE, CONICAL_RUN, CONICAL_SLOPE, HORIZONTAL_RISE};

/// A lemma, never run: at each airport within the limits of the register, `horizontal_excess` is the excess of a level over the horizontal
/// surface (77.19(a)).
#[tactic(auto, using(crate::proofs::Listed::laws))]
pub fn horizontal_excess_is()
    ensures { (a : Airport) (x : Point) (top : ℤ) → IsHeldAirport a → IsLevel top →
        IsExcess (horizontal (dome_of a) x) top (horizontal_excess (dome_of a) x top) }
{}

/// At each airport within the limits of the register, `conical_excess` is the excess of a level over the conical surface (77.19(b)).
#[tactic(auto, using(crate::proofs::Listed::laws))]
pub fn conical_excess_is()
    ensures { (a : Airport) (x : Point) (top : ℤ) → IsHeldAirport a → IsLevel top →
        IsExcess (conical (dome_of a) x) top (conical_excess (dome_of a) x top) }
{}

/// At each airport, `cap_of` is the level at which the horizontal and conical surfaces end upward.
#[tactic(auto, using(crate::proofs::Listed::laws))]
pub fn cap_is()
    ensures { (a : Airport) (x : Point) → IsCap (dome_of a) x (cap_of (dome_of a) x) }
{}

/// A lemma, never run: the numbers of both surfaces, in tenths of a foot. The horizontal surface is 150 feet above the airport elevation
/// (77.19(a)). The conical surface extends 4,000 feet outward from its edge and rises 20 to 1, by 200 feet in all (77.19(b)).
pub fn numbers()
    ensures horizontal_rise { HORIZONTAL_RISE ≡ pos 1_500 }
    ensures conical_run { CONICAL_RUN ≡ 40_000 }
    ensures conical_slope { CONICAL_SLOPE ≡ 20 }
    ensures conical_rise { CONICAL_RISE ≡ 2_000 }
{}
