//! The limit of dates.

ghost use Rattle.std.specs.Prelude.{◌≡◌, ◌↔◌, IsTrue, MatchResult};
ghost use Rattle.determination_dates.specs.Days.{IsLimited};

use crate::days::number;
use jiff::civil::Date;

/// The day number of the first allowed date, 1900-01-01.
pub const FIRST_DAY: i32 = -25_567;

/// The day number of the last allowed date, 2999-12-31.
pub const LAST_DAY: i32 = 376_199;

/// A computed date is outside the limit.
#[derive(Clone, Copy, Debug, PartialEq, Eq)]
pub struct DateRange;

/// Whether a date is from 1900-01-01 to 2999-12-31.
pub fn is_limited(date: Date) -> bool
    ensures { IsTrue result ↔ IsLimited date }
{
    let day = number(date);
    FIRST_DAY <= day && day <= LAST_DAY
}

/// The date itself where it is within the limit, else `DateRange`.
pub(crate) fn within(date: Date) -> Result<Date, DateRange>
    ensures { MatchResult result (λ d. (d ≡ date) × IsLimited date) (λ _. ¬ IsLimited date) }
{
    if is_limited(date) {
        Ok(date)
    } else {
        Err(DateRange)
    }
}
