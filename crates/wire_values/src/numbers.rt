//! Whole numbers as values of fields.

ghost use Rattle.std.specs.Prelude.{◌≡◌, ◌≢◌, ℤ, IfSome, IfNone, refl};
ghost use Rattle.std.specs.Fmt.{signed_decimal};
ghost use Rattle.whole_number.specs.Whole.{HasNineDigits};
ghost use Rattle.wire_values.specs.Words.{IsBetween};
ghost use Rattle.wire_values.specs.Wanted.{any_number};

use crate::field_value::{FieldValue, append_text};
use grid_exact::NoMemory;
use itoa::Buffer;

/// A whole number of at most nine digits.
#[derive(Clone, Copy, Debug, PartialEq, Eq)]
pub struct WholeNumber {
    /// The number.
    pub value: i64,
}

/// Parses a whole number within the limits; `None` exactly where `text` is none.
pub fn number_within(text: &[u8], low: i64, high: i64) -> Option<i64>
    requires low { HasNineDigits low }
    requires high { HasNineDigits high }
    ensures some { IfSome result (λ z. text.now ≡ signed_decimal z) }
    ensures within { IfSome result (λ z. IsBetween low high z) }
    ensures short { IfSome result (λ z. HasNineDigits z) }
    ensures none { IfNone result ((z : ℤ) → IsBetween low high z → text.now ≢ signed_decimal z) }
{
    let Some(z) = whole_number::number(text) else {
        return None;
    };
    if z < low {
        return None;
    }
    if z > high {
        return None;
    }
    Some(z)
}

impl FieldValue for WholeNumber {
    ghost wanted = { any_number };

    ghost spelled = { λ v. signed_decimal v.value };

    ghost good = { λ v. HasNineDigits v.value };

    fn parse(text: &[u8]) -> Option<WholeNumber> {
        match whole_number::number(text) {
            Some(value) => Some(WholeNumber { value }),
            None => None,
        }
    }

    fn append(&self, text: &mut String) -> Result<(), NoMemory> {
        let mut buffer = Buffer::new();
        append_text(text, buffer.format(self.value))
    }

    ghost fits = { λ v h _. (v.value, refl, h) };
}
