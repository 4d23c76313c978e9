//! The status of a case.

ghost use Rattle.std.specs.Prelude.{◌≡◌, IfSome, option_copied, option_map};
ghost use Rattle.jiff_core.specs.Date.{epoch_day};
ghost use Rattle.determination_dates.specs.Effects.{IsKept, expiry_day};
ghost use Rattle.determination_dates.specs.Statuses.{status_of, by_record, in_effect, is_past};

use crate::determination::{Decision, Record};
use crate::effects::{effective, expiry};
use crate::life::{End, Life, Status};
use jiff::civil::Date;

/// Whether the day is after the expiry.
fn is_past(expiry: Option<Date>, day: Date) -> bool
    ensures { result ≡ is_past (option_map epoch_day expiry) (epoch_day day) }
{
    match expiry {
        Some(expiry) => expiry < day,
        None => false,
    }
}

/// The status on a day at or after the effective day.
fn in_effect(r: &Record, day: Date) -> Status
    requires { IsKept r.now }
    ensures { result ≡ in_effect r.now.decision (expiry_day r.now) (epoch_day day) }
{
    match r.decision {
        Decision::Hazard => Status::HazardStands,
        Decision::NoHazard => {
            if is_past(expiry(r), day) {
                Status::Expired
            } else {
                Status::InForce
            }
        }
    }
}

/// The status of a case without an end, from its determination.
fn by_record(made: Option<&Record>, day: Date) -> Status
    requires { IfSome made (λ r. IsKept r.now) }
    ensures { result ≡ by_record (option_copied made.entry) (epoch_day day) }
{
    let Some(record) = made else {
        return Status::Awaiting;
    };
    match effective(record) {
        None => Status::Pending,
        Some(effective) => {
            if day < effective {
                return Status::Pending;
            }
            in_effect(record, day)
        }
    }
}

/// The status of a case on a day: the first that holds of abandoned, reversed, awaiting (no determination), pending (no effective day
/// yet, or the day is before it), hazard, expired, in force. A determination is valid through its expiry day (77.33(b)).
pub fn status(l: &Life, day: Date) -> Status
    requires { IfSome l.now.determination IsKept }
    ensures { result ≡ status_of l.now (epoch_day day) }
{
    match l.end {
        Some(End::Abandoned) => Status::Abandoned,
        Some(End::Reversed) => Status::Reversed,
        None => by_record(l.determination.as_ref(), day),
    }
}
