//! The days on which a determination becomes effective and expires (77.33), and the last day for an extension (77.35).

ghost use Rattle.std.specs.Prelude.{◌≡◌, ◌↔◌, IsTrue, IfSome, option_map};
ghost use Rattle.jiff_core.specs.Date.{epoch_day};
ghost use Rattle.determination_dates.specs.Days.{IsExpiryDay};
ghost use Rattle.determination_dates.specs.Computed.{expiry_date, last_date};
ghost use Rattle.determination_dates.specs.Effects.{later_of, effective_date, expiry_day, last_day, IsKept, IsInRange};

use crate::days::{days_later, months_later};
use crate::determination::{Decision, Record};
use crate::limit::is_limited;
use jiff::civil::Date;

/// Months from the effective day to the expiry of a determination of no hazard (77.33(b)).
pub const PERIOD_MONTHS: u8 = 18;

/// Days before the expiry by which a petition for an extension is submitted (77.35(a)(2)).
pub const EXTENSION_DAYS: i32 = 15;

/// The later of two dates.
fn later(a: Date, b: Date) -> Date
    ensures { result ≡ later_of a b }
{
    if a < b { b } else { a }
}

/// The effective day (77.33(a)): none while a petition is pending; after an affirmation the later of the day of affirmation and the
/// ordinary day; else the ordinary day.
pub fn effective(r: &Record) -> Option<Date>
    ensures { result ≡ effective_date r.now }
{
    if r.pending {
        return None;
    }
    match r.affirmed {
        Some(affirmed) => Some(later(affirmed, r.ordinary)),
        None => Some(r.ordinary),
    }
}

/// The expiry: none for a determination of hazard (77.33(c)); else the day set by an extension or an FCC act (77.35(b), (c)); else 18
/// months after the effective day (77.33(b)), and none while there is no effective day.
#[tactic(auto, using(crate::proofs::EffectFacts::effective_near, crate::proofs::ComputedFacts::expiry_is))]
pub fn expiry(r: &Record) -> Option<Date>
    requires { IsKept r.now }
    ensures value { option_map epoch_day result ≡ expiry_day r.now }
    ensures date { result ≡ expiry_date r.now }
    ensures bound { IfSome result (λ d. IsExpiryDay (epoch_day d)) }
{
    match r.decision {
        Decision::Hazard => None,
        Decision::NoHazard => {
            if let Some(day) = r.set_expiry {
                return Some(day);
            }
            match effective(r) {
                Some(day) => Some(months_later(day, PERIOD_MONTHS)),
                None => None,
            }
        }
    }
}

/// The last day for a petition for an extension, 15 days before the expiry (77.35(a)(2)). It may be before 1900-01-01.
#[tactic(auto, using(crate::proofs::ComputedFacts::last_is))]
pub fn last_extension_day(r: &Record) -> Option<Date>
    requires { IsKept r.now }
    ensures value { option_map epoch_day result ≡ last_day r.now }
    ensures date { result ≡ last_date r.now }
{
    match expiry(r) {
        Some(day) => Some(days_later(day, -EXTENSION_DAYS)),
        None => None,
    }
}

/// Whether the effective day and the expiry are within the limit. The effective day of a stored record always is.
#[tactic(auto, using(crate::proofs::EffectFacts::range_some, crate::proofs::EffectFacts::range_none))]
pub(crate) fn is_in_range(r: &Record) -> bool
    requires { IsKept r.now }
    ensures { IsTrue result ↔ IsInRange r.now }
{
    match expiry(r) {
        Some(day) => is_limited(day),
        None => true,
    }
}
