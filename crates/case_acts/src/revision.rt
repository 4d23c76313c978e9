//! Revisions on new facts (77.35(a)).

ghost use Rattle.std.specs.Prelude.{◌≡◌, ◌≢◌, ◌<◌, Ok, Err, IfNone, IfOk, MatchResult, slice_get};
ghost use Rattle.airfields.specs.Sites.{AreFacts};
ghost use Rattle.determination_dates.specs.declared.determination.TheConstants.{MOST_REVISIONS};
ghost use Rattle.determination_dates.specs.Days.{IsLimited};
ghost use Rattle.determination_dates.specs.Effects.{IsKept, IsWithinRange};
ghost use Rattle.case_acts.specs.Cases.{IsSound, IsSoundStep};
ghost use Rattle.case_acts.specs.Effects.{revised_effect};
ghost use Rattle.case_acts.specs.Rules.{change_rules, has_same_facts as are_same, revising_rules};
ghost use Rattle.case_acts.specs.Rulings.{revision_ruling};

use crate::determination::{decision_by, is_reviewable, unfit};
use crate::effect::{Effect, Step};
use crate::extension::late;
use crate::standing::is_in_force;
use airfields::Filing;
use case_records::{KeptCase, KeptList, Outcome, Refusal};
use case_requests::Impact;
use determination_dates::{ClosedDays, Life, MOST_REVISIONS, Record, effective, expiry, status};
use grid_exact::NoMemory;
use jiff::civil::Date;
use std::alloc::Global;

/// A request to revise a determination, with the new facts and the finding on them. Lengths are in tenths of a foot.
#[derive(Clone, Copy, Debug, PartialEq, Eq)]
pub struct Revision {
    /// Whether structural work has started; excavation does not count.
    pub started: bool,
    /// The new elevation of the ground at the structure.
    pub terrain: i64,
    /// The new height above ground.
    pub height: i64,
    /// The finding where a standard is exceeded.
    pub finding: Option<Impact>,
}

/// Whether the structure has this elevation of the ground and this height.
fn has_same_facts(filing: &Filing, asked: &Revision) -> bool
    ensures { result ≡ are_same filing.now asked.now }
{
    filing.ground == asked.terrain && filing.height == asked.height
}

/// `WorkStarted` where structural work has started (77.35(a)), `SameFacts` where the facts are those of the case, and `TooManyRevisions`
/// where no revision more can be counted.
fn unchangeable(r: &Record, filing: &Filing, asked: &Revision) -> Option<Refusal>
    ensures first { result ≡ slice_get (change_rules asked.now filing.now r.now) 0 }
    ensures counted { IfNone result (r.now.revisions < MOST_REVISIONS) }
{
    if asked.started {
        return Some(Refusal::WorkStarted);
    }
    if has_same_facts(filing, asked) {
        return Some(Refusal::SameFacts);
    }
    if r.revisions >= MOST_REVISIONS {
        return Some(Refusal::TooManyRevisions);
    }
    None
}

/// The first rule that a revision of a determination in force breaks, if it breaks one.
#[tactic(auto, using(crate::proofs::RuleFacts::first_behind, crate::proofs::RuleFacts::first_here))]
fn refused(
    r: &Record,
    filing: &Filing,
    asked: &Revision,
    kept: &KeptList,
    today: Date,
) -> Option<Refusal>
    requires { IsKept r.now }
    ensures first { result ≡ slice_get (revising_rules asked.now filing.now kept.now today r.now) 0 }
    ensures counted { IfNone result (r.now.revisions < MOST_REVISIONS) }
{
    if let Some(why) = unfit(asked.finding, kept) {
        return Some(why);
    }
    if let Some(why) = late(r, today) {
        return Some(why);
    }
    unchangeable(r, filing, asked)
}

/// The effect of a determination that was issued in the place of another, on a list of findings of this structure.
fn revised(
    alloc: Global,
    number: u32,
    case: &KeptCase,
    filing: &Filing,
    kept: KeptList,
    r: Record,
) -> Result<Effect, NoMemory>
    requires { IsWithinRange r }
    ensures value { IfOk result (λ e. e ≡ revised_effect number case.now filing.now kept r) }
    ensures sound { IfOk result (λ e. IsSoundStep e.step) }
{
    Ok(Effect {
        outcome: Outcome::Revised {
            case: number,
            decision: r.decision,
            last: kept.last,
            issued: r.issued,
            deadline: r.deadline,
            effective: effective(&r),
            expiry: expiry(&r),
            list: kept.list.copy(alloc)?,
        },
        step: Step::Issued {
            number,
            filing: *filing,
            life: Life {
                end: case.life.end,
                determination: Some(r),
            },
            list: kept,
        },
    })
}

/// Revises a determination today on new facts (77.35(a)): on a list of findings of the structure with these facts, another is issued in its
/// place, as `determine` issues one. The extensions that were granted still count; a set expiry and an affirmation do not.
///
/// # Errors
///
/// The first of these that holds, or `NoMemory` where memory ran out: `NotStanding` where no determination of no hazard is in force,
/// `FindingWanted` where a standard is exceeded and there is no finding, `FindingUnwanted` where none is exceeded and there is one,
/// `ExtensionLate` after the last day to request it, `WorkStarted` where structural work has started, `SameFacts` where the facts are those
/// of the case, `TooManyRevisions` where the determination was revised as often as it may be, `DateRange` where the deadline, the ordinary
/// day, the effective day or the expiry is outside the limit.
pub fn revise(
    alloc: Global,
    number: u32,
    asked: &Revision,
    closed: &ClosedDays,
    kept: KeptList,
    today: Date,
    case: &KeptCase,
) -> Result<Effect, Refusal>
    requires facts { AreFacts asked.now.terrain asked.now.height }
    requires today { IsLimited today }
    requires case { IsSound case.now }
    ensures value { MatchResult result
        (λ e. revision_ruling number asked.now closed.now kept today case.now ≡ Ok e)
        (λ why. why ≢ Refusal.NoMemory
        → revision_ruling number asked.now closed.now kept today case.now ≡ Err why) }
    ensures sound { IfOk result (λ e. IsSoundStep e.step) }
{
    let status = status(&case.life, today);
    if !is_in_force(status) {
        return Err(Refusal::NotStanding { status });
    }
    let Some(record) = case.life.determination else {
        return Err(Refusal::DateRange);
    };
    let old = case.submission.filing;
    if let Some(why) = refused(&record, &old, asked, &kept, today) {
        return Err(why);
    }
    let Ok(filing) = old.revised(asked.terrain, asked.height) else {
        unreachable!()
    };
    let decision = decision_by(asked.finding);
    let reviewable = is_reviewable(decision, &filing, &kept.list);
    let mut next = record;
    let Ok(()) = next.revise(today, decision, reviewable, closed) else {
        return Err(Refusal::DateRange);
    };
    match revised(alloc, number, case, &filing, kept, next) {
        Ok(effect) => Ok(effect),
        Err(_) => Err(Refusal::NoMemory),
    }
}
