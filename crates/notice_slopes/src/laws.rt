//! The number of 77.9(e)(4), as a numeral.

ghost use Rattle.std.specs.Prelude.{◌≡◌, pos};

use crate::without_notice::LOW_ANTENNA;

/// A lemma, never run: an antenna structure of at most 20 feet needs no notice (77.9(e)(4)), in tenths of a foot.
pub fn numbers()
    ensures antenna { LOW_ANTENNA ≡ pos 200 }
{}
