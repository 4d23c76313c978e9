//! Day numbers of dates, and adding days or months to a date.

ghost use Rattle.std.specs.Prelude.{◌≡◌, ◌≤◌, pos, ◌+ℤ◌, ◌≤ℤ◌, ◌<ℤ◌};
ghost use Rattle.jiff_core.specs.Calendar.{IsEpochDay, IsWithin};
ghost use Rattle.jiff_core.specs.Date.{epoch_day};
ghost use Rattle.jiff_span.specs.Months.{add_months};
ghost use Rattle.determination_dates.specs.Days.{IsNear};

use jiff::civil::Date;
use jiff_span::date;

/// The day number of a date: the number of days from 1970-01-01.
pub(crate) fn number(date: Date) -> i32
    ensures value { result ≡ epoch_day date }
    ensures bound { IsEpochDay result }
{
    date.to_plain().to_unix_epoch_day()
}

/// The date `days` days later, or earlier where `days` is negative.
pub(crate) fn days_later(date: Date, days: i32) -> Date
    requires near { IsNear (epoch_day date) }
    requires few { IsWithin 100 days }
    ensures { epoch_day result ≡ epoch_day date +ℤ days }
{
    Date::from_plain(date.to_plain().checked_add(i64::from(days)).unwrap())
}

/// The date a number of months later: the same day of the month, or the month's last day where it has no such day.
#[tactic(auto, using(crate::proofs::Years::can_shift, crate::proofs::Years::shifted_near, crate::proofs::Years::shifted_later))]
pub fn months_later(date: Date, months: u8) -> Date
    requires near { IsNear (epoch_day date) }
    ensures value { epoch_day result ≡ add_months date (pos months) }
    ensures bound { epoch_day result ≤ℤ (epoch_day date +ℤ pos 30_000) }
    ensures later { 1 ≤ months → epoch_day date <ℤ epoch_day result }
{
    Date::from_plain(date::add_months(date.to_plain(), i32::from(months)).unwrap())
}
