//! Reads the outcomes of acts on a determination: a petition's decision, an extension, and the FCC's decision.

ghost use Rattle.std.specs.Prelude.{◌≡◌, ◌≢◌, ◌∷◌, [], List, Bool, Option, IfSome, IfNone};
ghost use Rattle.jiff_core.specs.declared.civil.date.Date.{Date as SomeDate};
ghost use Rattle.determination_dates.specs.Days.{IsLimited};
ghost use Rattle.wire_values.specs.Words.{optional_date};
ghost use Rattle.row_receipts.specs.Kinds.{HasDays, IsDisposed, IsExtended, IsFccAct, Reads};
ghost use Rattle.row_receipts.specs.Fields.{disposed_fields, extended_fields, fcc_fields};

use crate::parts::take_head;
use case_records::Outcome;
use jiff::civil::Date;
use row_register::Parts;
use wire_values::Disposal;

// The days of a determination whose petition was decided.
#[derive(Clone, Copy)]
struct Days {
    effective: Option<Date>,
    expiry: Option<Date>,
}

fn take_days(parts: &mut Parts<'_>, affirmed: bool) -> Option<Days>
    ensures took { IfSome result (λ d. parts.old
        ≡ optional_date d.effective ∷ optional_date d.expiry ∷ []) }
    ensures good { IfSome result (λ d. HasDays affirmed d.effective d.expiry) }
    ensures none { IfNone result ((effective expiry : Option SomeDate)
        → HasDays affirmed effective expiry
        → parts.old ≢ optional_date effective ∷ optional_date expiry ∷ []) }
{
    let effective: Option<Date> = parts.take()?;
    let expiry: Option<Date> = parts.take()?;
    if !parts.is_done() {
        return None;
    }
    if !affirmed && effective.is_some() {
        return None;
    }
    if !affirmed && expiry.is_some() {
        return None;
    }
    Some(Days { effective, expiry })
}

// Reads the decision on a petition.
#[derive(Clone, Copy)]
struct Disposed {
    affirmed: bool,
    days: Days,
}

fn take_disposed(parts: &mut Parts<'_>, case: u32) -> Option<Disposed>
    ensures took { IfSome result (λ d. parts.old
        ≡ disposed_fields case d.affirmed d.days.effective d.days.expiry) }
    ensures good { IfSome result (λ d. HasDays d.affirmed d.days.effective d.days.expiry) }
    ensures none { IfNone result ((affirmed : Bool) (effective expiry : Option SomeDate)
        → HasDays affirmed effective expiry
        → parts.old ≢ disposed_fields case affirmed effective expiry) }
{
    take_head(parts, b"dispose", case)?;
    let disposal: Disposal = parts.take()?;
    let days = take_days(parts, disposal.affirm)?;
    Some(Disposed {
        affirmed: disposal.affirm,
        days,
    })
}

/// Reads the decision on the petition in a case.
pub(crate) fn decided_petition(text: &[u8], case: u32) -> Option<Outcome>
    ensures { Reads (IsDisposed case) text.now result }
{
    match take_disposed(&mut Parts::new(text, b','), case) {
        Some(disposed) => Some(Outcome::Disposed {
            case,
            affirmed: disposed.affirmed,
            effective: disposed.days.effective,
            expiry: disposed.days.expiry,
        }),
        None => None,
    }
}

// An extended expiry, and the last day to request the next extension.
#[derive(Clone, Copy)]
struct Extended {
    expiry: Date,
    last_day: Date,
}

fn take_extended(parts: &mut Parts<'_>, case: u32) -> Option<Extended>
    ensures took { IfSome result (λ x. parts.old ≡ extended_fields case x.expiry x.last_day) }
    ensures limited { IfSome result (λ x. IsLimited x.expiry × IsLimited x.last_day) }
    ensures none { IfNone result ((expiry last_day : SomeDate) → IsLimited expiry
        → IsLimited last_day → parts.old ≢ extended_fields case expiry last_day) }
{
    take_head(parts, b"extend", case)?;
    let expiry = parts.take()?;
    let last_day = parts.take()?;
    if !parts.is_done() {
        return None;
    }
    Some(Extended { expiry, last_day })
}

/// Reads the extension in a case.
pub(crate) fn extension(text: &[u8], case: u32) -> Option<Outcome>
    ensures { Reads (IsExtended case) text.now result }
{
    match take_extended(&mut Parts::new(text, b','), case) {
        Some(extended) => Some(Outcome::Extended {
            case,
            expiry: extended.expiry,
            last_day: extended.last_day,
        }),
        None => None,
    }
}

// Takes the expiry that was set by the FCC's decision in a case.
fn take_expiry(parts: &mut Parts<'_>, case: u32) -> Option<Date>
    ensures took { IfSome result (λ d. parts.old ≡ fcc_fields case d) }
    ensures limited { IfSome result (λ d. IsLimited d) }
    ensures none { IfNone result ((d : SomeDate) → IsLimited d → parts.old ≢ fcc_fields case d) }
{
    take_head(parts, b"fcc", case)?;
    let expiry = parts.take()?;
    if !parts.is_done() {
        return None;
    }
    Some(expiry)
}

/// Reads the FCC's decision in a case.
pub(crate) fn fcc_act(text: &[u8], case: u32) -> Option<Outcome>
    ensures { Reads (IsFccAct case) text.now result }
{
    match take_expiry(&mut Parts::new(text, b','), case) {
        Some(expiry) => Some(Outcome::Fcc { case, expiry }),
        None => None,
    }
}
