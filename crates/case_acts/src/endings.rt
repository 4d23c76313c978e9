//! What ends a determination early: the FCC's decision (77.35(c)), or abandoning the structure (77.33(b)).

ghost use Rattle.std.specs.Prelude.{◌≡◌, IfOk, IfSome};
ghost use Rattle.determination_dates.specs.Days.{IsLimited};
ghost use Rattle.case_acts.specs.Cases.{IsSound, IsSoundStep};
ghost use Rattle.case_acts.specs.Effects.{expiry_by_fcc as expiry_by};
ghost use Rattle.case_acts.specs.Rulings.{fcc_ruling, abandon_ruling};

use crate::effect::{Effect, Step};
use crate::standing::{is_in_force, is_planned};
use case_records::{KeptCase, Outcome, Refusal};
use determination_dates::{End, Life, Record, status};
use jiff::civil::Date;

/// The expiry after the FCC's decision: the completion date of a granted permit, or today where the permit is refused.
fn expiry_by_fcc(completion: Option<Date>, today: Date) -> Date
    ensures { result ≡ expiry_by completion today }
{
    match completion {
        Some(day) => day,
        None => today,
    }
}

/// The effect of the FCC's decision (77.35(c)): it granted a construction permit with a completion date, or refused one today.
///
/// # Errors
///
/// The first of these that holds: `NotStanding` where no determination of no hazard is in force, `FccEvidence` where the FCC has no part
/// in the case.
pub fn fcc(
    number: u32,
    completion: Option<Date>,
    today: Date,
    case: &KeptCase,
) -> Result<Effect, Refusal>
    requires completion { IfSome completion IsLimited }
    requires today { IsLimited today }
    requires case { IsSound case.now }
    ensures value { result ≡ fcc_ruling number completion today case.now }
    ensures sound { IfOk result (λ e. IsSoundStep e.step) }
{
    let status = status(&case.life, today);
    if !is_in_force(status) {
        return Err(Refusal::NotStanding { status });
    }
    let Some(record) = case.life.determination else {
        return Err(Refusal::DateRange);
    };
    if case.submission.fcc.is_none() {
        return Err(Refusal::FccEvidence);
    }
    let expiry = expiry_by_fcc(completion, today);
    let life = Life {
        end: case.life.end,
        determination: Some(Record {
            set_expiry: Some(expiry),
            ..record
        }),
    };
    Ok(Effect {
        outcome: Outcome::Fcc {
            case: number,
            expiry,
        },
        step: Step::LifePut { number, life },
    })
}

/// Outcome of abandoning the structure (77.33(b)).
///
/// # Errors
///
/// `NotStanding` exactly where the case is neither awaiting nor pending nor in force.
pub fn abandon(number: u32, today: Date, case: &KeptCase) -> Result<Effect, Refusal>
    requires { IsSound case.now }
    ensures value { result ≡ abandon_ruling number today case.now }
    ensures sound { IfOk result (λ e. IsSoundStep e.step) }
{
    let status = status(&case.life, today);
    if !is_planned(status) {
        return Err(Refusal::NotStanding { status });
    }
    let life = Life {
        end: Some(End::Abandoned),
        determination: case.life.determination,
    };
    Ok(Effect {
        outcome: Outcome::Abandoned { case: number },
        step: Step::LifePut { number, life },
    })
}
