//! The numbers of the table, as numerals.

ghost use Rattle.std.specs.Prelude.{◌≡◌, pos};

use crate::class::{PRECISION_SLOPE, PRECISION_SLOPE2, PRECISION_SPLIT, WIDENING_SCALE};
use crate::table::RADIUS_MOST;

/// A lemma, never run: the named numbers of the table of classes; the others are numerals in the table. The greater radius is 10,000 feet
/// (77.19(a)). A precision approach rises 50 to 1 for 10,000 feet, then 40 to 1, and half widths grow in fortieths of the distance
/// (77.19(d)).
pub fn numbers()
    ensures radius { RADIUS_MOST ≡ pos 100_000 }
    ensures inner_slope { PRECISION_SLOPE ≡ pos 50 }
    ensures inner_length { PRECISION_SPLIT ≡ pos 100_000 }
    ensures outer_slope { PRECISION_SLOPE2 ≡ pos 40 }
    ensures widening { WIDENING_SCALE ≡ pos 40 }
{}
