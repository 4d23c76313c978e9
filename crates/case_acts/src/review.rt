//! Petitions for review (77.37) and the decisions on them.

ghost use Rattle.std.specs.Prelude.{◌≡◌, [], true, IfOk};
ghost use Rattle.determination_dates.specs.Days.{IsLimited};
ghost use Rattle.determination_dates.specs.Effects.{IsKept};
ghost use Rattle.case_acts.specs.Cases.{IsSound, IsSoundStep};
ghost use Rattle.case_acts.specs.Effects.{reversal_effect, settlement_effect};
ghost use Rattle.case_acts.specs.Rulings.{ruling, petition_ruling, disposal_ruling};

use crate::effect::{Effect, Step};
use crate::order::is_before;
use crate::standing::is_standing;
use case_records::{KeptCase, Outcome, Refusal};
use determination_dates::{End, Life, Record, effective, expiry, status};
use jiff::civil::Date;

/// Outcome of a petition received today (77.37, 77.39).
///
/// # Errors
///
/// The first of these that holds: `NotStanding` where no determination stands, `NotReviewable` where it may not be petitioned,
/// `PetitionLate` after its deadline, `PetitionPending` while a petition is pending.
pub fn petition(number: u32, today: Date, case: &KeptCase) -> Result<Effect, Refusal>
    requires { IsSound case.now }
    ensures value { result ≡ petition_ruling number today case.now }
    ensures sound { IfOk result (λ e. IsSoundStep e.step) }
{
    let status = status(&case.life, today);
    if !is_standing(status) {
        return Err(Refusal::NotStanding { status });
    }
    let Some(record) = case.life.determination else {
        return Err(Refusal::DateRange);
    };
    let Some(deadline) = record.deadline else {
        return Err(Refusal::NotReviewable);
    };
    if is_before(deadline, today) {
        return Err(Refusal::PetitionLate {
            deadline,
            day: today,
        });
    }
    if record.pending {
        return Err(Refusal::PetitionPending);
    }
    let life = Life {
        end: case.life.end,
        determination: Some(Record {
            pending: true,
            ..record
        }),
    };
    Ok(Effect {
        outcome: Outcome::Petitioned { case: number },
        step: Step::LifePut { number, life },
    })
}

/// Outcome of an affirmation.
fn affirm(number: u32, today: Date, case: &KeptCase, r: Record) -> Result<Effect, Refusal>
    requires kept { IsKept r }
    requires day { IsLimited today }
    ensures value { result ≡ ruling [] (settlement_effect number true today case.now r) }
    ensures sound { IfOk result (λ e. IsSoundStep e.step) }
{
    let mut next = r;
    let Ok(()) = next.affirm(today) else {
        return Err(Refusal::DateRange);
    };
    let life = Life {
        end: case.life.end,
        determination: Some(next),
    };
    Ok(Effect {
        outcome: Outcome::Disposed {
            case: number,
            affirmed: true,
            effective: effective(&next),
            expiry: expiry(&next),
        },
        step: Step::LifePut { number, life },
    })
}

/// Outcome of a reversal.
fn reverse(number: u32, case: &KeptCase) -> Effect
    requires { IsSound case.now }
    ensures value { result ≡ reversal_effect number case.now }
    ensures sound { IsSoundStep result.step }
{
    let life = Life {
        end: Some(End::Reversed),
        determination: case.life.determination,
    };
    Effect {
        outcome: Outcome::Disposed {
            case: number,
            affirmed: false,
            effective: None,
            expiry: None,
        },
        step: Step::LifePut { number, life },
    }
}

/// Decides the pending petition today (77.37): the determination is affirmed, and takes effect today at the earliest, or it is reversed
/// and its case ends.
///
/// # Errors
///
/// The first of these that holds: `NotStanding` where no determination stands, `NothingPending` where no petition is pending, `DateRange`
/// where the expiry after an affirmation is outside the limit.
pub fn dispose(number: u32, affirmed: bool, today: Date, case: &KeptCase) -> Result<Effect, Refusal>
    requires today { IsLimited today }
    requires case { IsSound case.now }
    ensures value { result ≡ disposal_ruling number affirmed today case.now }
    ensures sound { IfOk result (λ e. IsSoundStep e.step) }
{
    let status = status(&case.life, today);
    if !is_standing(status) {
        return Err(Refusal::NotStanding { status });
    }
    let Some(record) = case.life.determination else {
        return Err(Refusal::DateRange);
    };
    if !record.pending {
        return Err(Refusal::NothingPending);
    }
    if affirmed {
        return affirm(number, today, case, record);
    }
    Ok(reverse(number, case))
}
