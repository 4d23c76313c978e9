//! The number of 77.19(c) from which the centers follow, as a numeral.

ghost use Rattle.std.specs.Prelude.{◌≡◌, pos};

use grid_exact::SETBACK;

/// A lemma, never run: the primary surface extends 200 feet past each end of a runway with a prepared hard surface (77.19(c)), in tenths
/// of a foot.
pub fn numbers()
    ensures setback { SETBACK ≡ pos 2_000 }
{}
