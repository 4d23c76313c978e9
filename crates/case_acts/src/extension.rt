//! Extensions (77.35).

ghost use Rattle.std.specs.Prelude.{◌≡◌, ◌≤◌, [], pos, int_le, IfOk};
ghost use Rattle.std.specs.Option.{option_to_list};
ghost use Rattle.jiff_core.specs.Date.{epoch_day};
ghost use Rattle.jiff_span.specs.Months.{add_months};
ghost use Rattle.determination_dates.specs.declared.evidence.TheConstants.{EVIDENCE_MONTHS};
ghost use Rattle.determination_dates.specs.declared.determination.TheConstants.{EXTENSION_MONTHS};
ghost use Rattle.determination_dates.specs.Days.{IsLimited};
ghost use Rattle.determination_dates.specs.Effects.{IsKept};
ghost use Rattle.determination_dates.specs.Computed.{with_some, extended_record, last_date};
ghost use Rattle.case_acts.specs.Cases.{IsSound, IsSoundStep};
ghost use Rattle.case_acts.specs.Effects.{moved};
ghost use Rattle.case_acts.specs.Rules.{has_evidence as evidence, evidence_rules, last_day_rules};
ghost use Rattle.case_acts.specs.Rulings.{ruling, extension_ruling};

use crate::effect::{Effect, Step};
use crate::order::{is_at_most, is_before};
use crate::standing::is_in_force;
use case_records::{KeptCase, Outcome, Refusal};
use determination_dates::{Life, Record, expiry, is_filed_in_time, last_extension_day, status};
use jiff::civil::Date;

/// A request to extend an expiry, with its evidence.
#[derive(Clone, Copy, Debug, PartialEq, Eq)]
pub struct Extension {
    /// The number of months by which to extend, at least 1.
    pub months: u8,
    /// Whether structural work has started; excavation does not count.
    pub started: bool,
    /// The day of the application to the FCC for a construction permit.
    pub filed: Option<Date>,
    /// Whether more time is warranted.
    pub warranted: bool,
}

/// Whether an application to the FCC was filed at most 6 months after issuance (77.35(c)(1)).
#[tactic(auto, using(crate::proofs::TestFacts::tested))]
fn is_in_time(r: &Record, filed: Date) -> bool
    requires { IsKept r.now }
    ensures { result ≡ int_le (epoch_day filed) (add_months r.now.issued (pos EVIDENCE_MONTHS)) }
{
    is_filed_in_time(r.issued, filed)
}

/// Whether the evidence for a case with an FCC application is complete: the application was filed at most 6 months after issuance and not
/// after today, and more time is warranted (77.35(c)).
fn has_evidence(r: &Record, today: Date, filed: Option<Date>, warranted: bool) -> bool
    requires { IsKept r.now }
    ensures { result ≡ evidence r.now today filed warranted }
{
    let Some(day) = filed else {
        return false;
    };
    is_in_time(r, day) && is_at_most(day, today) && warranted
}

/// `ExtensionLate` where the request is after the last day for an extension or a revision (77.35(a)(2)).
pub(crate) fn late(r: &Record, today: Date) -> Option<Refusal>
    requires { IsKept r.now }
    ensures { option_to_list result ≡ last_day_rules (last_date r.now) today }
{
    let Some(last_day) = last_extension_day(r) else {
        return None;
    };
    if is_before(last_day, today) {
        return Some(Refusal::ExtensionLate {
            last_day,
            day: today,
        });
    }
    None
}

/// `AlreadyExtended` where the FCC has no part in the case and an extension was granted (77.35(b)); `FccEvidence` where it has and the
/// evidence is not complete (77.35(c)).
fn unproven(
    r: &Record,
    application: Option<Date>,
    asked: &Extension,
    today: Date,
) -> Option<Refusal>
    requires { IsKept r.now }
    ensures { option_to_list result ≡ evidence_rules application r.now
        (evidence r.now today asked.now.filed asked.now.warranted) }
{
    match application {
        None => {
            if r.extensions > 0 {
                return Some(Refusal::AlreadyExtended);
            }
            None
        }
        Some(_) => {
            if has_evidence(r, today, asked.filed, asked.warranted) {
                return None;
            }
            Some(Refusal::FccEvidence)
        }
    }
}

/// The effect of moving the expiry of a record by `months`.
fn moved(number: u32, months: u8, case: &KeptCase, r: Record) -> Result<Effect, Refusal>
    requires kept { IsKept r }
    requires months { (1 ≤ months) × (months ≤ EXTENSION_MONTHS) }
    ensures value { result ≡ ruling [] (with_some (extended_record months r)
        (moved number case.now)) }
    ensures sound { IfOk result (λ e. IsSoundStep e.step) }
{
    let mut next = r;
    if expiry(&next).is_none() {
        return Err(Refusal::DateRange);
    }
    let Ok(()) = next.extend(months) else {
        return Err(Refusal::DateRange);
    };
    let Some(expiry) = expiry(&next) else {
        return Err(Refusal::DateRange);
    };
    let Some(last_day) = last_extension_day(&next) else {
        return Err(Refusal::DateRange);
    };
    let life = Life {
        end: case.life.end,
        determination: Some(next),
    };
    Ok(Effect {
        outcome: Outcome::Extended {
            case: number,
            expiry,
            last_day,
        },
        step: Step::LifePut { number, life },
    })
}

/// Extends a determination today (77.35). The months count from the present expiry.
///
/// # Errors
///
/// The first of these that holds: `NotStanding` where no determination of no hazard is in force, `ExtensionLate` after the last day to
/// request it, `WorkStarted` where structural work has started, `AlreadyExtended` where the FCC has no part in the case and an extension
/// was granted, `FccEvidence` where it has and the evidence is not complete, `DateRange` where the new expiry is outside the limit.
pub fn extend(
    number: u32,
    asked: &Extension,
    today: Date,
    case: &KeptCase,
) -> Result<Effect, Refusal>
    requires months { (1 ≤ asked.now.months) × (asked.now.months ≤ EXTENSION_MONTHS) }
    requires today { IsLimited today }
    requires case { IsSound case.now }
    ensures value { result ≡ extension_ruling number asked.now today case.now }
    ensures sound { IfOk result (λ e. IsSoundStep e.step) }
{
    let status = status(&case.life, today);
    if !is_in_force(status) {
        return Err(Refusal::NotStanding { status });
    }
    let Some(record) = case.life.determination else {
        return Err(Refusal::DateRange);
    };
    if let Some(why) = late(&record, today) {
        return Err(why);
    }
    if asked.started {
        return Err(Refusal::WorkStarted);
    }
    if let Some(why) = unproven(&record, case.submission.fcc, asked, today) {
        return Err(why);
    }
    moved(number, asked.months, case, record)
}
