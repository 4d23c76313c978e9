//! Refusals.

use airport_register::AmendRefusal;
use determination_dates::Status;
use jiff::civil::Date;

/// Why a request is refused.
#[derive(Clone, Copy, Debug, PartialEq, Eq)]
pub enum Refusal {
    /// 2: a utility runway has an end that has, or is planned for, a precision approach.
    PrecisionOnUtility,
    /// 3: no airfield of this name is registered.
    UnknownAirfield,
    /// 4: the airport has no runway of this name.
    UnknownRunway,
    /// 5: the runway's length is outside its limit.
    RunwayLength,
    /// 6: an end of a runway is too far from the reference point.
    RunwayFar,
    /// 7: the airport already has the greatest number of runways.
    TooManyRunways,
    /// 8: the register already has the greatest number of airfields.
    RegisterFull,
    /// 9: an elevation is outside its limit.
    ElevationRange,
    /// 10: the axis or the width of a heliport is outside its limit.
    HeliportShape,
    /// 11: the name belongs to an airfield of the other kind.
    WrongKind,
    /// 12: a date computed by the request is outside the limit.
    DateRange,
    /// 13: the line is the record of no request; `field` is the field at which it is malformed.
    Malformed { field: u32 },
    /// 14: no case has this number.
    UnknownCase,
    /// 15: the desk already has the greatest number of cases.
    CasesFull,
    /// 16: the day is before the desk's day, `kept`.
    DayBack { kept: Date, day: Date },
    /// 17: the act is not allowed in this status.
    NotStanding { status: Status },
    /// 18: a standard is exceeded, and the request has no finding (77.31).
    FindingWanted,
    /// 19: no standard is exceeded, and the request has a finding.
    FindingUnwanted,
    /// 20: the determination may not be petitioned (77.37(b)).
    NotReviewable,
    /// 21: the petition is after its last day (77.39(a)).
    PetitionLate { deadline: Date, day: Date },
    /// 22: a petition is already pending.
    PetitionPending,
    /// 23: no petition is pending.
    NothingPending,
    /// 24: the request to extend or to revise is after the last day for it (77.35(a)).
    ExtensionLate { last_day: Date, day: Date },
    /// 25: structural work has started (77.35(a)).
    WorkStarted,
    /// 26: an extension was already granted (77.35(b)).
    AlreadyExtended,
    /// 27: the evidence that 77.35(c) requires is missing, or the FCC has no part in the case.
    FccEvidence,
    /// 28: the caller's key was used for another request, the entry of this number.
    KeyReused { entry: u64 },
    /// 29: the desk has no day yet.
    NoDay,
    /// 30: the keeper that stores the desk's tables failed.
    KeeperFault,
    /// 31: memory ran out.
    NoMemory,
    /// 32: the case is no emergency, or its form was already received.
    NoFormDue,
    /// 33: the ground and the height are those that the case has.
    SameFacts,
    /// 34: the determination was revised as often as it may be.
    TooManyRevisions,
}

impl From<AmendRefusal> for Refusal {
    ghost use Rattle.std.specs.Prelude.{◌≡◌};
    ghost use Rattle.case_records.specs.Refusals.{refused_amendment};

    ghost from_gives = { λ why refusal. refusal ≡ refused_amendment why };

    fn from(why: AmendRefusal) -> Refusal {
        match why {
            AmendRefusal::PrecisionOnUtility => Refusal::PrecisionOnUtility,
            AmendRefusal::UnknownAirfield => Refusal::UnknownAirfield,
            AmendRefusal::UnknownRunway => Refusal::UnknownRunway,
            AmendRefusal::RunwayLength => Refusal::RunwayLength,
            AmendRefusal::RunwayFar => Refusal::RunwayFar,
            AmendRefusal::TooManyRunways => Refusal::TooManyRunways,
            AmendRefusal::RegisterFull => Refusal::RegisterFull,
            AmendRefusal::ElevationRange => Refusal::ElevationRange,
            AmendRefusal::HeliportShape => Refusal::HeliportShape,
            AmendRefusal::WrongKind => Refusal::WrongKind,
            AmendRefusal::NoMemory => Refusal::NoMemory,
        }
    }
}
