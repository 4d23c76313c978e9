//! Notices, and the forms of emergencies.

ghost use Rattle.std.specs.Prelude.{◌≡◌, ◌+ℤ◌, ◌-ℤ◌, IfOk, IfSome};
ghost use Rattle.jiff_core.specs.Calendar.{IsEpochDay};
ghost use Rattle.jiff_core.specs.Date.{epoch_day};
ghost use Rattle.determination_dates.specs.Days.{IsLimited};
ghost use Rattle.determination_dates.specs.declared.notice.TheConstants.{FORM_DAYS};
ghost use Rattle.determination_dates.specs.Notices.{days_over};
ghost use Rattle.case_acts.specs.Cases.{HasLimitedDates, IsSoundStep};
ghost use Rattle.case_acts.specs.Effects.{explanation_of as is_explained, fcc_days, form_days, new_case};
ghost use Rattle.case_acts.specs.Rulings.{file_ruling, form_ruling};

use crate::effect::{Effect, Step};
use case_records::{KeptCase, Outcome, Refusal};
use case_requests::Submission;
use determination_dates::{FORM_DAYS, Life, fcc_late, timeliness};
use jiff::civil::Date;

/// A structure that is higher than this above ground, 2,000 feet in tenths of a foot, is presumed to be a hazard (77.7(d)).
pub const PRESUMED_HEIGHT: i64 = 20_000;

/// Whether a statement explains a height that is presumed to be a hazard; `None` where the height is not.
fn explained(notice: &Submission) -> Option<bool>
    ensures { result ≡ is_explained notice.now }
{
    if notice.filing.height <= PRESUMED_HEIGHT {
        return None;
    }
    Some(notice.statement)
}

/// The number of days by which the notice came after the application to the FCC (77.7(c)).
fn days_after(today: Date, application: Option<Date>) -> Option<u32>
    requires today { IsLimited today }
    requires application { IfSome application IsLimited }
    ensures { result ≡ fcc_days today application }
{
    match application {
        Some(day) => Some(fcc_late(today, day)),
        None => None,
    }
}

/// A new case for a notice received today.
fn opened(today: Date, notice: &Submission) -> KeptCase
    ensures { result ≡ new_case today notice.now }
{
    KeptCase {
        submission: *notice,
        received: today,
        form: None,
        life: Life {
            end: None,
            determination: None,
        },
        list: None,
    }
}

/// Receives a notice today, which opens the case of this number. The outcome says whether it is in time (77.7(b), (c) and (e)), and
/// whether it explains a height of more than 2,000 feet (77.7(d)).
///
/// # Errors
///
/// `DateRange` exactly where the day on which an emergency's form is due is outside the limit.
pub fn file(number: u32, today: Date, notice: &Submission) -> Result<Effect, Refusal>
    requires today { IsLimited today }
    requires dates { HasLimitedDates notice.now }
    ensures value { result ≡ file_ruling number today notice.now }
    ensures sound { IfOk result (λ e. IsSoundStep e.step) }
{
    let Ok(timely) = timeliness(today, notice.start, notice.permit, notice.emergency) else {
        return Err(Refusal::DateRange);
    };
    Ok(Effect {
        outcome: Outcome::Filed {
            case: number,
            timely,
            fcc: days_after(today, notice.fcc),
            explained: explained(notice),
        },
        step: Step::CaseFiled(opened(today, notice)),
    })
}

/// The number of days, or 0 where it is negative.
fn days_over(days: i32) -> u32
    ensures { result ≡ days_over days }
{
    if days > 0 { days as u32 } else { 0 }
}

/// The day number of a date, where 1970-01-01 is 0.
fn number(date: Date) -> i32
    ensures value { result ≡ epoch_day date }
    ensures bound { IsEpochDay result }
{
    date.to_plain().to_unix_epoch_day()
}

/// By how many days the form came after its due day (77.7(e)); negative where it came before. Days are by number.
fn after_due(received: i32, today: i32) -> i32
    requires received { IsEpochDay received }
    requires today { IsEpochDay today }
    ensures { result ≡ today -ℤ (received +ℤ FORM_DAYS) }
{
    today - (received + FORM_DAYS)
}

/// The number of days by which the form of an emergency is late.
fn form_late(received: Date, today: Date) -> u32
    ensures { result ≡ form_days received today }
{
    days_over(after_due(number(received), number(today)))
}

/// Receives the form of an emergency notice today (77.7(e)).
///
/// # Errors
///
/// `NoFormDue` exactly where the case is no emergency or its form was already received.
pub fn form(number: u32, today: Date, case: &KeptCase) -> Result<Effect, Refusal>
    requires today { IsLimited today }
    ensures value { result ≡ form_ruling number today case.now }
    ensures sound { IfOk result (λ e. IsSoundStep e.step) }
{
    if !case.submission.emergency || case.form.is_some() {
        return Err(Refusal::NoFormDue);
    }
    Ok(Effect {
        outcome: Outcome::FormCame {
            case: number,
            late: form_late(case.received, today),
        },
        step: Step::FormPut { number, day: today },
    })
}
