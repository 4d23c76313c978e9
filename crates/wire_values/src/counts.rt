//! Counts as values of fields.

ghost use Rattle.std.specs.Prelude.{◌≡◌, ◌≢◌, ◌≤◌, ◌<◌, ℕ, IfSome, IfNone, refl};
ghost use Rattle.std.specs.Fmt.{decimal};
ghost use Rattle.determination_dates.specs.declared.determination.TheConstants.{EXTENSION_MONTHS};
ghost use Rattle.wire_values.specs.Wanted.{case_wanted, months_wanted};
ghost use Rattle.wire_values.specs.declared.counts.TheConstants.{CASE_LIMIT};

use crate::field_value::{FieldValue, append_text};
use crate::numbers::number_within;
use determination_dates::EXTENSION_MONTHS;
use grid_exact::NoMemory;
use itoa::Buffer;

/// The greatest case number; the first case is 1.
pub const CASE_LIMIT: u32 = 999_999;

/// A case number: 1 to `CASE_LIMIT`.
#[derive(Clone, Copy, Debug, PartialEq, Eq)]
pub struct CaseNumber {
    /// The number.
    pub number: u32,
}

/// The months of an extension, 1 to `EXTENSION_MONTHS` (77.35).
#[derive(Clone, Copy, Debug, PartialEq, Eq)]
pub struct Months {
    /// The number of months.
    pub count: u8,
}

// Parses a count within the limits; `None` exactly where the text is none.
fn count_within(text: &[u8], low: u32, high: u32) -> Option<u32>
    requires { (low ≤ high) × (high < 1000000000) }
    ensures some { IfSome result (λ n. text.now ≡ decimal n) }
    ensures within { IfSome result (λ n. (low ≤ n) × (n ≤ high)) }
    ensures none { IfNone result ((n : ℕ) → low ≤ n → n ≤ high → text.now ≢ decimal n) }
{
    match number_within(text, i64::from(low), i64::from(high)) {
        Some(number) => Some(number as u32),
        None => None,
    }
}

impl FieldValue for CaseNumber {
    ghost wanted = { case_wanted };

    ghost spelled = { λ v. decimal v.number };

    ghost good = { λ v. (1 ≤ v.number) × (v.number ≤ CASE_LIMIT) };

    fn parse(text: &[u8]) -> Option<CaseNumber> {
        match count_within(text, 1, CASE_LIMIT) {
            Some(number) => Some(CaseNumber { number }),
            None => None,
        }
    }

    fn append(&self, text: &mut String) -> Result<(), NoMemory> {
        let mut buffer = Buffer::new();
        append_text(text, buffer.format(self.number))
    }

    ghost fits = { λ v h _. (v.number, refl, h.0, h.1) };
}

impl FieldValue for Months {
    ghost wanted = { months_wanted };

    ghost spelled = { λ v. decimal v.count };

    ghost good = { λ v. (1 ≤ v.count) × (v.count ≤ EXTENSION_MONTHS) };

    fn parse(text: &[u8]) -> Option<Months> {
        match count_within(text, 1, u32::from(EXTENSION_MONTHS)) {
            Some(count) => Some(Months { count: count as u8 }),
            None => None,
        }
    }

    fn append(&self, text: &mut String) -> Result<(), NoMemory> {
        let mut buffer = Buffer::new();
        append_text(text, buffer.format(self.count))
    }

    ghost fits = { λ v h _. (v.count, refl, h.0, h.1) };
}
