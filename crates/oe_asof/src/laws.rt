//! The field of the number, as a numeral.

ghost use Rattle.std.specs.Prelude.{◌≡◌};

use crate::question::NUMBER_FIELD;

/// A lemma, never run: a line whose second field is no number is refused at that field.
pub fn field_of_the_number()
    ensures { NUMBER_FIELD ≡ 2 }
{}
