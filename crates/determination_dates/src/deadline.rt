//! The last day for a petition.

ghost use Rattle.std.specs.Prelude.{ℤ, IfOk, OnErr};
ghost use Rattle.jiff_core.specs.Date.{epoch_day};
ghost use Rattle.determination_dates.specs.Days.{IsDay, IsLimited};
ghost use Rattle.determination_dates.specs.Deadlines.{IsDeadline};
ghost use Rattle.determination_dates.specs.Computed.{Computes, deadline_date};

use crate::closed::ClosedDays;
use crate::days::days_later;
use crate::limit::{DateRange, is_limited};
use jiff::civil::Date;

/// Days after issuance within which a petition for discretionary review is received (77.39(a)).
pub const PETITION_DAYS: i32 = 30;

/// The last day on which a petition is received: 30 days after issuance (77.39(a)), and where the government is closed on that day,
/// the next day on which it is open (77.39(c)).
///
/// # Errors
///
/// `DateRange` exactly where that day is outside the limit.
pub fn petition_deadline(issued: Date, closed: &ClosedDays) -> Result<Date, DateRange>
    requires { IsLimited issued }
    ensures found { IfOk result (λ d. IsDeadline closed.now (epoch_day issued) (epoch_day d)) }
    ensures within { IfOk result IsLimited }
    ensures beyond { OnErr result ((z : ℤ) → IsDeadline closed.now (epoch_day issued) z →
        ¬ IsDay z) }
    ensures computed { Computes result (deadline_date closed.now issued) }
{
    let mut day = days_later(issued, PETITION_DAYS);
    while is_limited(day) {
        if closed.is_open(day) {
            return Ok(day);
        }
        day = days_later(day, 1);
    }
    Err(DateRange)
}
