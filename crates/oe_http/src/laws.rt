//! The limit on input, as a numeral.

ghost use Rattle.std.specs.Prelude.{◌≡◌};

use crate::lines::INPUT_LIMIT;

/// A lemma, never run: the limit on the bytes that are read of a source, 2^40 (one tebibyte), as a numeral.
pub fn input_limit()
    ensures { INPUT_LIMIT ≡ 1_099_511_627_776 }
{}
