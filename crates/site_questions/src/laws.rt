//! The fields that a refusal names, as numerals.

ghost use Rattle.std.specs.Prelude.{◌≡◌};

use crate::ceiling_desk::HEIGHT_FIELD;
use crate::screens::FORM_FIELD;

/// A lemma, never run: a record of another form is refused at its first field, and a structure of another height than 0 at the fifth.
pub fn fields_of_refusals()
    ensures form { FORM_FIELD ≡ 1 }
    ensures height { HEIGHT_FIELD ≡ 5 }
{}
