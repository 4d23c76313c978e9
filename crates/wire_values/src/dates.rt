//! Dates as values of fields.

ghost use Rattle.std.specs.Prelude.{◌≡◌, ◌≢◌, Option, is_some, IfSome, IfNone, refl};
ghost use Rattle.jiff_core.specs.declared.civil.date.Date.{Date as Plain};
ghost use Rattle.determination_dates.specs.Days.{IsLimited};
ghost use Rattle.determination_dates.specs.Text.{date_text};
ghost use Rattle.wire_values.specs.Words.{optional_date, IsAnyLimited};
ghost use Rattle.wire_values.specs.Wanted.{DateWanted, OptionalDateWanted};

use crate::field_value::{FieldValue, append_text};
use determination_dates::{date_bytes, read_date};
use grid_exact::NoMemory;
use jiff::civil::Date;

/// A date, `YYYY-MM-DD`.
impl FieldValue for Date {
    ghost wanted = { DateWanted };

    ghost spelled = { date_text };

    ghost good = { IsLimited };

    fn parse(text: &[u8]) -> Option<Date> {
        read_date(text)
    }

    #[tactic(auto, using(crate::proofs::DateNames::date_utf8))]
    fn append(&self, text: &mut String) -> Result<(), NoMemory> {
        let bytes = date_bytes(*self);
        match str::from_utf8(&bytes) {
            Ok(date) => append_text(text, date),
            Err(_) => unreachable!(),
        }
    }

    ghost fits = { λ v h _. (v, refl, h) };
}

/// A date, or a dash for none.
impl FieldValue for Option<Date> {
    ghost wanted = { OptionalDateWanted };

    ghost spelled = { optional_date };

    ghost good = { IsAnyLimited };

    #[tactic(auto, using(crate::proofs::DateNames::none_optional))]
    fn parse(text: &[u8]) -> Option<Option<Date>> {
        if text == b"-".as_slice() {
            return Some(None);
        }
        match read_date(text) {
            Some(date) => Some(Some(date)),
            None => None,
        }
    }

    fn append(&self, text: &mut String) -> Result<(), NoMemory> {
        match self {
            Some(date) => date.append(text),
            None => append_text(text, "-"),
        }
    }

    ghost fits = { λ v h _. (v, refl, h) };
}

/// The completion date of a granted permit, or a dash where the permit is refused.
#[tactic(auto, using(crate::proofs::DateNames::none_granted, crate::proofs::DateNames::none_refused))]
pub fn completion_date(text: &[u8], granted: bool) -> Option<Option<Date>>
    ensures some { IfSome result (λ d. text.now ≡ optional_date d) }
    ensures limited { IfSome result (λ d. IsAnyLimited d) }
    ensures told { IfSome result (λ d. is_some d ≡ granted) }
    ensures none { IfNone result ((d : Option Plain) → IsAnyLimited d → is_some d ≡ granted
        → text.now ≢ optional_date d) }
{
    if granted {
        return match read_date(text) {
            Some(date) => Some(Some(date)),
            None => None,
        };
    }
    if text == b"-".as_slice() {
        return Some(None);
    }
    None
}
