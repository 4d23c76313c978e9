//! Reads the outcomes of a notice and of an emergency's form.

ghost use Rattle.std.specs.Prelude.{◌≡◌, ◌≢◌, ◌<◌, ◌^◌, ℕ, List, Bool, Option, IfSome, IfNone};
ghost use Rattle.determination_dates.specs.declared.timely.Timeliness.{Timeliness as SomeTimeliness};
ghost use Rattle.wire_requests.specs.Limits.{IsCase};
ghost use Rattle.row_receipts.specs.Kinds.{IsTimeliness, AreDays, IsFiled, IsFormCame, Reads};
ghost use Rattle.row_receipts.specs.Fields.{filed_fields, form_fields};

use crate::parts::{fcc, lateness, presumption, take_head, timeliness};
use case_records::Outcome;
use determination_dates::Timeliness;
use row_register::Parts;
use wire_values::CaseNumber;

// The case that a notice opened.
#[derive(Clone, Copy)]
struct Filed {
    case: u32,
    timely: Timeliness,
    fcc: Option<u32>,
    explained: Option<bool>,
}

fn take_filed(parts: &mut Parts<'_>) -> Option<Filed>
    ensures took { IfSome result (λ f. parts.old ≡ filed_fields f.case f.timely f.fcc f.explained) }
    ensures good { IfSome result (λ f. IsCase f.case × IsTimeliness f.timely × AreDays f.fcc) }
    ensures none { IfNone result ((n : ℕ) (in_time : SomeTimeliness) (fcc : Option ℕ)
        (explained : Option Bool) → IsCase n → IsTimeliness in_time → AreDays fcc
        → parts.old ≢ filed_fields n in_time fcc explained) }
{
    if parts.next()? != b"case".as_slice() {
        return None;
    }
    let case: CaseNumber = parts.take()?;
    let timely = timeliness(parts.next()?)?;
    let fcc = fcc(parts.next()?)?;
    let explained = presumption(parts.next()?)?;
    if !parts.is_done() {
        return None;
    }
    Some(Filed {
        case: case.number,
        timely,
        fcc,
        explained,
    })
}

/// Reads the outcome of a notice that opened a case.
pub(crate) fn opened_case(text: &[u8]) -> Option<Outcome>
    ensures { Reads IsFiled text.now result }
{
    match take_filed(&mut Parts::new(text, b',')) {
        Some(filed) => Some(Outcome::Filed {
            case: filed.case,
            timely: filed.timely,
            fcc: filed.fcc,
            explained: filed.explained,
        }),
        None => None,
    }
}

// Takes the number of days by which the form of a case was late.
fn take_form(parts: &mut Parts<'_>, case: u32) -> Option<u32>
    ensures took { IfSome result (λ late. parts.old ≡ form_fields case late) }
    ensures none { IfNone result ((late : ℕ) → late < 2 ^ 32 → parts.old ≢ form_fields case late) }
{
    take_head(parts, b"form", case)?;
    let late = lateness(parts.next()?, b"intime")?;
    if !parts.is_done() {
        return None;
    }
    Some(late)
}

/// Reads the outcome of a received form.
pub(crate) fn form_came(text: &[u8], case: u32) -> Option<Outcome>
    ensures { Reads (IsFormCame case) text.now result }
{
    match take_form(&mut Parts::new(text, b','), case) {
        Some(late) => Some(Outcome::FormCame { case, late }),
        None => None,
    }
}
