//! The limits of the grid and of a line, as numerals.

ghost use Rattle.std.specs.Prelude.{◌≡◌, pos};

use crate::level::LEVEL_LIMIT;
use crate::point::COORDINATE_LIMIT;
use crate::start::SETBACK;
use crate::text::LINE_LIMIT;

/// A lemma, never run: a coordinate is at most 2,000,000 feet from 0, in tenths of a foot; a level is at most 2^25 tenths of a foot from
/// 0; a setback is 200 feet; a line has at most 8,192 bytes.
pub fn limits()
    ensures coordinate { COORDINATE_LIMIT ≡ pos 20_000_000 }
    ensures level { LEVEL_LIMIT ≡ pos 33_554_432 }
    ensures setback { SETBACK ≡ pos 2_000 }
    ensures line { LINE_LIMIT ≡ 8_192 }
{}
