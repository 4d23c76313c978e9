//! The number of 77.7(d), as a numeral.

ghost use Rattle.std.specs.Prelude.{◌≡◌, pos};

use crate::notice::PRESUMED_HEIGHT;

/// A law, with nothing to run: above 2,000 feet over the ground a hazard is presumed (77.7(d)), in tenths of a foot.
pub fn numbers()
    ensures presumed { PRESUMED_HEIGHT ≡ pos 20_000 }
{}
