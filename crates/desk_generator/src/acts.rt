//! The contents of the generated requests.

ghost use Rattle.std.specs.Prelude.{◌≡◌, ◌≤◌};
ghost use Rattle.case_requests.specs.declared.act.Act.TheVariants as acts;
ghost use Rattle.wire_values.specs.Words.{IsAirfieldName};
ghost use Rattle.wire_values.specs.declared.counts.TheConstants.{CASE_LIMIT};
ghost use Rattle.desk_generator.specs.Requests.{HasRecord, IsToldAirport, opening_day, visual_end};
ghost use Rattle.desk_generator.specs.Requests.{put_airport as airport_act, put_runway as runway_act, put_visual as visual_act, notice as notice_act};

use crate::drawing::DrawnAirport;
use crate::names::{opening_date, start_date};
use airfields::{Category, Filing, Runway, RunwayEnd};
use airport_register::Amendment;
use case_requests::{Act, Impact, Submission};
use runway_classes::ApproachKind;

/// The desk's day.
#[tactic(auto, using(crate::proofs::ActFacts::day_told))]
pub(crate) fn first_day() -> Act
    ensures value { result ≡ acts.Day opening_day }
    ensures told { HasRecord result }
{
    Act::Day(opening_date())
}

/// An airport, for public use.
pub(crate) fn put_airport(airport: &DrawnAirport) -> Act
    requires { IsToldAirport airport.now }
    ensures value { result ≡ airport_act airport.now }
    ensures told { HasRecord result }
{
    Act::Amend(Amendment::PutAirport {
        id: airport.id,
        category: Category::PublicUse,
        arp: airport.at,
        elevation: airport.elevation,
    })
}

/// The airport's runway.
#[tactic(auto, using(crate::proofs::ActFacts::runway_told))]
pub(crate) fn put_runway(airport: &DrawnAirport) -> Act
    requires { IsToldAirport airport.now }
    ensures value { result ≡ runway_act airport.now }
    ensures told { HasRecord result }
{
    Act::Amend(Amendment::PutRunway {
        id: airport.id,
        runway: airport.runway,
    })
}

/// The runway end with a visual approach.
fn visual_end(end: &RunwayEnd) -> RunwayEnd
    ensures { result ≡ visual_end end.now }
{
    RunwayEnd {
        kind: ApproachKind::Visual,
        ..*end
    }
}

/// The airport's runway with visual approaches at both ends.
#[tactic(auto, using(crate::proofs::ActFacts::visual_told))]
pub(crate) fn put_visual(airport: &DrawnAirport) -> Act
    requires { IsToldAirport airport.now }
    ensures value { result ≡ visual_act airport.now }
    ensures told { HasRecord result }
{
    Act::Amend(Amendment::PutRunway {
        id: airport.id,
        runway: Runway {
            end1: visual_end(&airport.runway.end1),
            end2: visual_end(&airport.runway.end2),
            ..airport.runway
        },
    })
}

/// The notice of a structure.
#[tactic(auto, using(crate::proofs::ActFacts::notice_told))]
pub(crate) fn notice(filing: &Filing) -> Act
    requires { IsAirfieldName filing.now.on }
    ensures value { result ≡ notice_act filing.now }
    ensures told { HasRecord result }
{
    filing.limits();
    Act::File(Submission {
        start: start_date(),
        permit: None,
        fcc: None,
        emergency: false,
        statement: false,
        filing: *filing,
    })
}

/// The determination of a case.
#[tactic(auto, using(crate::proofs::ActFacts::determination_told))]
pub(crate) fn determine(case: u32, finding: Option<Impact>) -> Act
    requires least { 1 ≤ case }
    requires most { case ≤ CASE_LIMIT }
    ensures value { result ≡ acts.Determine case finding }
    ensures told { HasRecord result }
{
    Act::Determine { case, finding }
}
