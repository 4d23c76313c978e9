//! Reads the comma-separated parts of outcomes.

ghost use Rattle.std.specs.Prelude.{◌≡◌, ◌≢◌, ◌≤◌, ◌<◌, ◌^◌, ◌++◌, ◌∷◌, ℕ, List, Bool, Option, IfSome, IfNone, codes};
ghost use Rattle.std.specs.Fmt.{decimal};
ghost use Rattle.jiff_core.specs.declared.civil.date.Date.{Date as SomeDate};
ghost use Rattle.determination_dates.specs.Days.{IsLimited};
ghost use Rattle.determination_dates.specs.Text.{date_text};
ghost use Rattle.determination_dates.specs.declared.timely.Timeliness.{Timeliness as SomeTimeliness};
ghost use Rattle.wire_replies.specs.Outcomes.{late_text, lateness_text, timeliness_text, fcc_text, presumption_text};
ghost use Rattle.row_receipts.specs.Kinds.{IsTimeliness, AreDays};

use crate::number::days;
use determination_dates::{Timeliness, read_date};
use itoa::Buffer;
use jiff::civil::Date;
use row_register::Parts;

/// Takes the next two parts, where they are the word of a kind and the number of a case.
pub(crate) fn take_head(parts: &mut Parts<'_>, word: &[u8], case: u32) -> Option<()>
    ensures took { IfSome result (λ _. parts.old ≡ word.now ∷ decimal case ∷ parts.new) }
    ensures none { IfNone result ((rest : List (List ℕ))
        → parts.old ≢ word.now ∷ decimal case ∷ rest) }
{
    if parts.next()? != word {
        return None;
    }
    if parts.next()? != Buffer::new().format(case).as_bytes() {
        return None;
    }
    Some(())
}

// Parses a number of days late, at least 1.
fn late(text: &[u8]) -> Option<u32>
    ensures some { IfSome result (λ n. text.now ≡ late_text n) }
    ensures enough { IfSome result (λ n. 1 ≤ n) }
    ensures none { IfNone result ((n : ℕ) → 1 ≤ n → n < 2 ^ 32 → text.now ≢ late_text n) }
{
    match text.strip_prefix(b"late ".as_slice()) {
        Some(count) => days(count, 1),
        None => None,
    }
}

/// Parses a number of days late, or 0 where the text is `word`.
pub(crate) fn lateness(text: &[u8], word: &[u8]) -> Option<u32>
    ensures some { IfSome result (λ n. text.now ≡ lateness_text word.now n) }
    ensures none { IfNone result ((n : ℕ) → n < 2 ^ 32 → text.now ≢ lateness_text word.now n) }
{
    if text == word {
        return Some(0);
    }
    late(text)
}

// Parses the last day for the form of an emergency notice.
fn emergency(text: &[u8]) -> Option<Date>
    ensures some { IfSome result (λ d. text.now ≡ codes "emergency " ++ date_text d) }
    ensures limited { IfSome result (λ d. IsLimited d) }
    ensures none { IfNone result ((d : SomeDate) → IsLimited d
        → text.now ≢ codes "emergency " ++ date_text d) }
{
    match text.strip_prefix(b"emergency ".as_slice()) {
        Some(due) => read_date(due),
        None => None,
    }
}

/// Parses whether a notice is in time.
#[tactic(auto, using(crate::proofs::Words::emergency_is, crate::proofs::Words::no_timeliness))]
pub(crate) fn timeliness(text: &[u8]) -> Option<Timeliness>
    ensures some { IfSome result (λ t. text.now ≡ timeliness_text t) }
    ensures good { IfSome result (λ t. IsTimeliness t) }
    ensures none { IfNone result ((t : SomeTimeliness) → IsTimeliness t
        → text.now ≢ timeliness_text t) }
{
    if text == b"timely".as_slice() {
        return Some(Timeliness::Timely);
    }
    if let Some(due) = emergency(text) {
        return Some(Timeliness::Emergency { due });
    }
    match late(text) {
        Some(days) => Some(Timeliness::Late(days)),
        None => None,
    }
}

/// Parses whether a notice was in time before the application to the FCC, where there is one.
pub(crate) fn fcc(text: &[u8]) -> Option<Option<u32>>
    ensures some { IfSome result (λ d. text.now ≡ fcc_text d) }
    ensures good { IfSome result (λ d. AreDays d) }
    ensures none { IfNone result ((d : Option ℕ) → AreDays d → text.now ≢ fcc_text d) }
{
    if text == b"-".as_slice() {
        return Some(None);
    }
    match lateness(text, b"timely") {
        Some(days) => Some(Some(days)),
        None => None,
    }
}

/// Parses whether a statement explains a height of more than 2,000 feet (77.7(d)), where one is required.
#[tactic(auto, using(crate::proofs::Words::no_presumption))]
pub(crate) fn presumption(text: &[u8]) -> Option<Option<bool>>
    ensures some { IfSome result (λ e. text.now ≡ presumption_text e) }
    ensures none { IfNone result ((e : Option Bool) → text.now ≢ presumption_text e) }
{
    if text == b"-".as_slice() {
        return Some(None);
    }
    if text == b"explained".as_slice() {
        return Some(Some(true));
    }
    if text == b"unexplained".as_slice() {
        return Some(Some(false));
    }
    None
}
