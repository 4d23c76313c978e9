//! When a notice is late (77.7).

ghost use Rattle.std.specs.Prelude.{◌≡◌, true, ◌+ℤ◌, ◌-ℤ◌, IfOk, IfSome, OnErr};
ghost use Rattle.jiff_core.specs.Date.{epoch_day};
ghost use Rattle.determination_dates.specs.Days.{IsDay, IsLimited};
ghost use Rattle.determination_dates.specs.Computed.{Computes, timeliness_of};
ghost use Rattle.determination_dates.specs.Notices.{days_over, days_late, by_days, earlier_of, HasLimitedDue, IsTimeliness};

use crate::days::{days_later, number};
use crate::limit::{DateRange, within};
use crate::timely::Timeliness;
use jiff::civil::Date;

/// Days by which notice precedes the earlier of the start of the work and the application for a permit (77.7(b)).
pub const NOTICE_DAYS: i32 = 45;

/// Days after an emergency notice within which the completed form is filed (77.7(e)).
pub const FORM_DAYS: i32 = 5;

/// `days` where it is above 0, else 0.
fn days_over(days: i32) -> u32
    ensures { result ≡ days_over days }
{
    if days > 0 { days as u32 } else { 0 }
}

/// Timely where `days` is 0, else late by `days` days.
fn by_days(days: u32) -> Timeliness
    ensures { result ≡ by_days days }
{
    match days {
        0 => Timeliness::Timely,
        _ => Timeliness::Late(days),
    }
}

/// The day number of the earlier of two dates, the second of which may be absent.
fn earlier(start: Date, permit: Option<Date>) -> i32
    requires start { IsLimited start }
    requires permit { IfSome permit IsLimited }
    ensures value { result ≡ earlier_of (epoch_day start) permit }
    ensures bound { IsDay result }
{
    let start = number(start);
    let Some(permit) = permit else {
        return start;
    };
    let permit = number(permit);
    if permit < start { permit } else { start }
}

/// The number of days by which a notice is late.
fn days_late(received: Date, start: Date, permit: Option<Date>) -> u32
    requires received { IsLimited received }
    requires start { IsLimited start }
    requires permit { IfSome permit IsLimited }
    ensures { result ≡ days_late received start permit }
{
    days_over(number(received) + NOTICE_DAYS - earlier(start, permit))
}

/// Whether a notice received on a day is in time, for work that starts on `start` and, where a construction permit is needed, an
/// application for it on `permit` (77.7(b)). In an emergency the form is due 5 days after the notice (77.7(e)).
///
/// # Errors
///
/// `DateRange` exactly where the day on which an emergency's form is due is outside the limit.
#[tactic(auto, using(crate::proofs::Notices::urgent, crate::proofs::Notices::planned, crate::proofs::Notices::due_by_days, crate::proofs::ComputedFacts::urgent_made, crate::proofs::ComputedFacts::urgent_none, crate::proofs::ComputedFacts::planned_made))]
pub fn timeliness(
    received: Date,
    start: Date,
    permit: Option<Date>,
    emergency: bool,
) -> Result<Timeliness, DateRange>
    requires received { IsLimited received }
    requires start { IsLimited start }
    requires permit { IfSome permit IsLimited }
    ensures value { IfOk result (IsTimeliness received start permit emergency) }
    ensures within { IfOk result HasLimitedDue }
    ensures beyond { OnErr result ((emergency ≡ true)
        × (¬ IsDay (epoch_day received +ℤ FORM_DAYS))) }
    ensures computed { Computes result (timeliness_of received start permit emergency) }
{
    if emergency {
        return match within(days_later(received, FORM_DAYS)) {
            Ok(due) => Ok(Timeliness::Emergency { due }),
            Err(_) => Err(DateRange),
        };
    }
    Ok(by_days(days_late(received, start, permit)))
}

/// The number of days from the application to the FCC to the receipt of a notice, or 0: notice is due on or before the day of the
/// application (77.7(c)). It also gives the number of days by which an emergency's form came after its due day.
pub fn fcc_late(received: Date, application: Date) -> u32
    requires received { IsLimited received }
    requires application { IsLimited application }
    ensures { result ≡ days_over (epoch_day received -ℤ epoch_day application) }
{
    days_over(number(received) - number(application))
}
