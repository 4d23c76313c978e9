//! Issuing determinations (77.31).

ghost use Rattle.std.specs.Prelude.{◌≡◌, ◌≢◌, Ok, Err, IfOk, MatchResult};
ghost use Rattle.std.specs.Option.{option_to_list};
ghost use Rattle.finding_lists.specs.Verdicts.{is_obstruction as exceeds};
ghost use Rattle.determination_dates.specs.Days.{IsLimited};
ghost use Rattle.determination_dates.specs.Effects.{IsWithinRange};
ghost use Rattle.case_acts.specs.Cases.{IsSound, IsSoundStep};
ghost use Rattle.case_acts.specs.Decisions.{decision_by as decided, is_reviewable as reviewable};
ghost use Rattle.case_acts.specs.Effects.{issue_effect as issued_effect};
ghost use Rattle.case_acts.specs.Rules.{finding_rules};
ghost use Rattle.case_acts.specs.Rulings.{determination_ruling};

use crate::effect::{Effect, Step};
use crate::standing::is_awaiting;
use airfields::Filing;
use case_records::{KeptCase, KeptList, Outcome, Refusal};
use case_requests::Impact;
use determination_dates::{ClosedDays, Decision, Life, Record, effective, expiry, status};
use finding_lists::Findings;
use grid_exact::NoMemory;
use jiff::civil::Date;
use std::alloc::Global;

/// Whether a standard is exceeded.
pub(crate) fn is_obstruction(list: &Findings) -> bool
    ensures { result ≡ exceeds list.now }
{
    list.as_slice().iter().any(|f| !f.rule.is_notice())
}

/// The decision from a finding: a substantial adverse effect is a hazard (77.31).
pub(crate) fn decision_by(finding: Option<Impact>) -> Decision
    ensures { result ≡ decided finding }
{
    match finding {
        Some(Impact::Substantial) => Decision::Hazard,
        Some(Impact::NotSubstantial) | None => Decision::NoHazard,
    }
}

/// Whether the determination may be petitioned: not where it is no hazard and the structure is temporary or exceeds no standard
/// (77.37(b)).
pub(crate) fn is_reviewable(decision: Decision, filing: &Filing, list: &Findings) -> bool
    ensures { result ≡ reviewable decision filing.now list.now }
{
    match decision {
        Decision::Hazard => true,
        Decision::NoHazard => !filing.flags.temporary && is_obstruction(list),
    }
}

/// `FindingWanted` where a standard is exceeded and there is no finding, `FindingUnwanted` where none is exceeded and there is one (77.31).
pub(crate) fn unfit(finding: Option<Impact>, kept: &KeptList) -> Option<Refusal>
    ensures { option_to_list result ≡ finding_rules finding kept.now }
{
    let obstruction = is_obstruction(&kept.list);
    if finding.is_none() && obstruction {
        return Some(Refusal::FindingWanted);
    }
    if finding.is_some() && !obstruction {
        return Some(Refusal::FindingUnwanted);
    }
    None
}

/// Outcome of issuing a record.
fn issued(
    alloc: Global,
    number: u32,
    case: &KeptCase,
    kept: KeptList,
    r: Record,
) -> Result<Effect, NoMemory>
    requires { IsWithinRange r }
    ensures value { IfOk result (λ e. e ≡ issued_effect number case.now kept r) }
    ensures sound { IfOk result (λ e. IsSoundStep e.step) }
{
    Ok(Effect {
        outcome: Outcome::Determined {
            case: number,
            decision: r.decision,
            last: kept.last,
            issued: r.issued,
            deadline: r.deadline,
            effective: effective(&r),
            expiry: expiry(&r),
            list: kept.list.copy(alloc)?,
        },
        step: Step::Issued {
            number,
            filing: case.submission.filing,
            life: Life {
                end: case.life.end,
                determination: Some(r),
            },
            list: kept,
        },
    })
}

/// Issues a determination today on a list of findings, with the finding of its effect where a standard is exceeded (77.31). The deadline
/// uses the closed days as they are now.
///
/// # Errors
///
/// The first of these that holds, or `NoMemory` where memory ran out: `NotStanding` where the case is not awaiting a determination,
/// `FindingWanted` where a standard is exceeded and there is no finding, `FindingUnwanted` where none is exceeded and there is one,
/// `DateRange` where the deadline, the ordinary day, the effective day or the expiry is outside the limit.
pub fn determine(
    alloc: Global,
    number: u32,
    finding: Option<Impact>,
    closed: &ClosedDays,
    kept: KeptList,
    today: Date,
    case: &KeptCase,
) -> Result<Effect, Refusal>
    requires today { IsLimited today }
    requires case { IsSound case.now }
    ensures value { MatchResult result
        (λ e. determination_ruling number finding closed.now kept today case.now ≡ Ok e)
        (λ why. why ≢ Refusal.NoMemory
        → determination_ruling number finding closed.now kept today case.now ≡ Err why) }
    ensures sound { IfOk result (λ e. IsSoundStep e.step) }
{
    let status = status(&case.life, today);
    if !is_awaiting(status) {
        return Err(Refusal::NotStanding { status });
    }
    if let Some(why) = unfit(finding, &kept) {
        return Err(why);
    }
    let decision = decision_by(finding);
    let reviewable = is_reviewable(decision, &case.submission.filing, &kept.list);
    let Ok(record) = Record::issue(today, decision, reviewable, closed) else {
        return Err(Refusal::DateRange);
    };
    match issued(alloc, number, case, kept, record) {
        Ok(effect) => Ok(effect),
        Err(_) => Err(Refusal::NoMemory),
    }
}
