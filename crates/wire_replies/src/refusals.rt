//! The texts of refusals.

ghost use Rattle.std.specs.Prelude.{◌≡◌, [], ◌∷◌, ◌++◌, OnOk, OnErr, string_bytes};
ghost use Rattle.grid_exact.specs.Texts.{Extends};
ghost use Rattle.wire_values.specs.Commas.{with_commas};
ghost use Rattle.wire_replies.specs.States.{date_word};
ghost use Rattle.wire_replies.specs.Refusals as spec;
ghost use Rattle.wire_replies.specs.Replies.{refused_text};

use crate::dates::append_next_date;
use crate::fields::{append_next_number, append_next_word};
use crate::states::status_word;
use case_records::Refusal;
use grid_exact::NoMemory;
use jiff::civil::Date;
use wire_values::append_text;

fn refusal_number(refusal: &Refusal) -> u64
    ensures { result ≡ spec.refusal_number refusal.now }
{
    match refusal {
        Refusal::PrecisionOnUtility => 2,
        Refusal::UnknownAirfield => 3,
        Refusal::UnknownRunway => 4,
        Refusal::RunwayLength => 5,
        Refusal::RunwayFar => 6,
        Refusal::TooManyRunways => 7,
        Refusal::RegisterFull => 8,
        Refusal::ElevationRange => 9,
        Refusal::HeliportShape => 10,
        Refusal::WrongKind => 11,
        Refusal::DateRange => 12,
        Refusal::Malformed { .. } => 13,
        Refusal::UnknownCase => 14,
        Refusal::CasesFull => 15,
        Refusal::DayBack { .. } => 16,
        Refusal::NotStanding { .. } => 17,
        Refusal::FindingWanted => 18,
        Refusal::FindingUnwanted => 19,
        Refusal::NotReviewable => 20,
        Refusal::PetitionLate { .. } => 21,
        Refusal::PetitionPending => 22,
        Refusal::NothingPending => 23,
        Refusal::ExtensionLate { .. } => 24,
        Refusal::WorkStarted => 25,
        Refusal::AlreadyExtended => 26,
        Refusal::FccEvidence => 27,
        Refusal::KeyReused { .. } => 28,
        Refusal::NoDay => 29,
        Refusal::KeeperFault => 30,
        Refusal::NoMemory => 31,
        Refusal::NoFormDue => 32,
        Refusal::SameFacts => 33,
        Refusal::TooManyRevisions => 34,
    }
}

fn refusal_name(refusal: &Refusal) -> &'static str
    ensures { result.now ≡ spec.refusal_name refusal.now }
{
    match refusal {
        Refusal::PrecisionOnUtility => "PrecisionOnUtility",
        Refusal::UnknownAirfield => "UnknownAirfield",
        Refusal::UnknownRunway => "UnknownRunway",
        Refusal::RunwayLength => "RunwayLength",
        Refusal::RunwayFar => "RunwayFar",
        Refusal::TooManyRunways => "TooManyRunways",
        Refusal::RegisterFull => "RegisterFull",
        Refusal::ElevationRange => "ElevationRange",
        Refusal::HeliportShape => "HeliportShape",
        Refusal::WrongKind => "WrongKind",
        Refusal::DateRange => "DateRange",
        Refusal::Malformed { .. } => "Malformed",
        Refusal::UnknownCase => "UnknownCase",
        Refusal::CasesFull => "CasesFull",
        Refusal::DayBack { .. } => "DayBack",
        Refusal::NotStanding { .. } => "NotStanding",
        Refusal::FindingWanted => "FindingWanted",
        Refusal::FindingUnwanted => "FindingUnwanted",
        Refusal::NotReviewable => "NotReviewable",
        Refusal::PetitionLate { .. } => "PetitionLate",
        Refusal::PetitionPending => "PetitionPending",
        Refusal::NothingPending => "NothingPending",
        Refusal::ExtensionLate { .. } => "ExtensionLate",
        Refusal::WorkStarted => "WorkStarted",
        Refusal::AlreadyExtended => "AlreadyExtended",
        Refusal::FccEvidence => "FccEvidence",
        Refusal::KeyReused { .. } => "KeyReused",
        Refusal::NoDay => "NoDay",
        Refusal::KeeperFault => "KeeperFault",
        Refusal::NoMemory => "NoMemory",
        Refusal::NoFormDue => "NoFormDue",
        Refusal::SameFacts => "SameFacts",
        Refusal::TooManyRevisions => "TooManyRevisions",
    }
}

// Appends two dates, a comma before each.
#[tactic(auto, using(grid_exact::proofs::Extending::extending))]
fn append_days(text: &mut String, first: Date, second: Date) -> Result<(), NoMemory>
    ensures ok { OnOk result (string_bytes text.new
        ≡ string_bytes text.old ++ with_commas (date_word first ∷ date_word second ∷ [])) }
    ensures part { OnErr result (Extends (string_bytes text.old) (string_bytes text.new)) }
{
    append_next_date(text, first)?;
    append_next_date(text, second)
}

// Appends the values of a refusal, after its name.
#[tactic(auto, using(grid_exact::proofs::Extending::extending))]
fn append_values(text: &mut String, refusal: &Refusal) -> Result<(), NoMemory>
    ensures ok { OnOk result (string_bytes text.new
        ≡ string_bytes text.old ++ spec.refusal_values refusal.now) }
    ensures part { OnErr result (Extends (string_bytes text.old) (string_bytes text.new)) }
{
    match refusal {
        Refusal::Malformed { field } => append_next_number(text, u64::from(*field)),
        Refusal::DayBack { kept, day } => append_days(text, *kept, *day),
        Refusal::NotStanding { status } => append_next_word(text, status_word(*status)),
        Refusal::PetitionLate { deadline, day } => append_days(text, *deadline, *day),
        Refusal::ExtensionLate { last_day, day } => append_days(text, *last_day, *day),
        Refusal::KeyReused { entry } => append_next_number(text, *entry),
        _ => Ok(()),
    }
}

// Appends the reply of a refusal.
#[tactic(auto, using(grid_exact::proofs::Extending::extending))]
pub(crate) fn append_refused(text: &mut String, refusal: &Refusal) -> Result<(), NoMemory>
    ensures ok { OnOk result (string_bytes text.new
        ≡ string_bytes text.old ++ refused_text refusal.now) }
    ensures part { OnErr result (Extends (string_bytes text.old) (string_bytes text.new)) }
{
    append_text(text, "no")?;
    append_next_number(text, refusal_number(refusal))?;
    append_next_word(text, refusal_name(refusal))?;
    append_values(text, refusal)?;
    append_text(text, "\n")
}
