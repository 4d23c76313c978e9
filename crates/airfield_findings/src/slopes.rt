//! The notice slope of one airfield.

ghost use Rattle.std.specs.Prelude.{◌≡◌, ◌++◌, List, OnOk, OnErr};
ghost use Rattle.airfield_findings.specs.Entries.{rule_b as rule_b_of, rule_b3 as rule_b3_of, slope_entries};
ghost use Rattle.airfield_findings.specs.Prepared.{airfield_of};
ghost use Rattle.airfields.specs.declared.airfield.Airfield.TheVariants.{Airport as AnAirport, Heliport as AHeliport};
ghost use Rattle.finding_lists.specs.declared.finding.Finding.{Finding as AFinding};

use crate::entry::{put_on_field, runway_key};
use crate::prepared::Prepared;
use crate::prepared_airport::PreparedAirport;
use crate::surfaces::Surfaces;
use airfields::Filing;
use finding_lists::{Collector, Finding, Rule};
use grid_exact::NoMemory;
use height_rules::Structure;
use heliport_surfaces::Pad;
use runway_notice::Sub;

/// The rule of 77.9(b)(1) or (2) for the structure; a traverse way has it under 77.9(c).
fn rule_b(filing: &Filing, sub: Sub) -> Rule
    ensures { result ≡ rule_b_of filing.now sub }
{
    match (filing.kind.is_traverse_way(), sub) {
        (true, Sub::B1) => Rule::WayB1,
        (true, Sub::B2) => Rule::WayB2,
        (false, Sub::B1) => Rule::NoticeB1,
        (false, Sub::B2) => Rule::NoticeB2,
    }
}

/// The rule of 77.9(b)(3) for the structure; a traverse way has it under 77.9(c).
fn rule_b3(filing: &Filing) -> Rule
    ensures { result ≡ rule_b3_of filing.now }
{
    if filing.kind.is_traverse_way() {
        Rule::WayB3
    } else {
        Rule::NoticeB3
    }
}

/// Passes the entry of the notice slope of an airport to the collector.
#[inline(always)]
fn put_airport_slope<C: Collector>(
    out: &mut C,
    structure: &Structure,
    prepared: &PreparedAirport,
) -> Result<(), NoMemory>
    ensures taken { OnOk result ((list : List AFinding) → C.taken out.old list
        → C.taken out.new (list ++ slope_entries structure.now (AnAirport prepared.now))) }
    ensures fails { OnErr result C.fails }
{
    if let Some(slope) = prepared.excess_notice(structure) {
        out.take(Finding {
            rule: rule_b(structure.filing(), slope.sub),
            key: runway_key(prepared.id(), slope.runway, 0),
            excess: slope.excess,
        })?;
    }
    Ok(())
}

/// Passes the entry of the notice slope of a heliport to the collector.
#[inline(never)]
fn put_heliport_slope<C: Collector>(
    out: &mut C,
    structure: &Structure,
    pad: &Pad,
) -> Result<(), NoMemory>
    ensures taken { OnOk result ((list : List AFinding) → C.taken out.old list
        → C.taken out.new (list ++ slope_entries structure.now (AHeliport pad.now))) }
    ensures fails { OnErr result C.fails }
{
    let excess = pad.excess_notice(structure.at(), structure.notice_top());
    put_on_field(
        out,
        rule_b3(structure.filing()),
        pad.heliport().id,
        0,
        excess,
    )
}

/// Passes the entry of the notice slope of one airfield to the collector.
#[inline(always)]
pub fn put_slope<C: Collector>(
    out: &mut C,
    structure: &Structure,
    prepared: &Prepared,
) -> Result<(), NoMemory>
    ensures taken { OnOk result ((list : List AFinding) → C.taken out.old list
        → C.taken out.new (list ++ slope_entries structure.now (airfield_of prepared.now))) }
    ensures fails { OnErr result C.fails }
{
    match &prepared.surfaces {
        Surfaces::Airport(airport) => put_airport_slope(out, structure, airport),
        Surfaces::Heliport(pad) => put_heliport_slope(out, structure, pad),
    }
}
