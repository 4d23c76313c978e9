//! The standards of one airfield that a structure exceeds.

ghost use Rattle.std.specs.Prelude.{◌≡◌, ◌++◌, List, OnOk, OnErr};
ghost use Rattle.std.specs.List.{flat_map};
ghost use Rattle.grid_exact.specs.Level.{IsLevel};
ghost use Rattle.height_rules.specs.Heights.{standards_top};
ghost use Rattle.horizontal_hull.specs.Arcs.{dome_of};
ghost use Rattle.horizontal_hull.specs.Within.{cap_of};
ghost use Rattle.airfield_findings.specs.Entries.{of_airfield, of_pad, of_runway, of_runways, of_surfaces};
ghost use Rattle.airfield_findings.specs.Prepared.{airfield_of};
ghost use Rattle.airfields.specs.declared.airfield.Airfield.TheVariants.{Airport as AnAirport, Heliport as AHeliport};
ghost use Rattle.finding_lists.specs.declared.finding.Finding.{Finding as AFinding};

use crate::entry::{put_on_field, put_on_runway};
use crate::prepared::Prepared;
use crate::prepared_airport::PreparedAirport;
use crate::surfaces::Surfaces;
use airfields::FieldId;
use finding_lists::{Collector, Rule};
use grid_exact::{Cap, NoMemory, Point};
use height_rules::Structure;
use heliport_surfaces::Pad;
use imaginary_surfaces::Strip;

/// Passes the entries of the surfaces of one runway to the collector.
fn put_runway<C: Collector>(
    out: &mut C,
    field: FieldId,
    at: &Point,
    top: i64,
    cap: &Cap,
    strip: &Strip,
) -> Result<(), NoMemory>
    requires top { IsLevel top }
    ensures taken { OnOk result ((list : List AFinding) → C.taken out.old list
        → C.taken out.new (list ++ of_runway field at.now top cap.now strip.now)) }
    ensures fails { OnErr result C.fails }
{
    let excesses = strip.excesses(at, top, cap);
    // read last, since most points are clear of the runway and its name is then not needed
    let name = strip.runway().name;
    put_on_runway(out, Rule::Primary, field, name, 0, excesses.primary)?;
    put_on_runway(out, Rule::Approach, field, name, 1, excesses.approach1)?;
    put_on_runway(out, Rule::Approach, field, name, 2, excesses.approach2)?;
    put_on_runway(
        out,
        Rule::Transition,
        field,
        name,
        0,
        excesses.beside_primary,
    )?;
    put_on_runway(
        out,
        Rule::Transition,
        field,
        name,
        1,
        excesses.beside_approach1,
    )?;
    put_on_runway(
        out,
        Rule::Transition,
        field,
        name,
        2,
        excesses.beside_approach2,
    )?;
    Ok(())
}

/// Passes the entries of the surfaces of several runways to the collector, one runway after the other.
fn put_strips<C: Collector>(
    out: &mut C,
    field: FieldId,
    at: &Point,
    top: i64,
    cap: &Cap,
    strips: &[Strip],
) -> Result<(), NoMemory>
    requires top { IsLevel top }
    ensures taken { OnOk result ((list : List AFinding) → C.taken out.old list
        → C.taken out.new (list ++ flat_map (of_runway field at.now top cap.now) strips.now)) }
    ensures fails { OnErr result C.fails }
{
    for strip in strips {
        put_runway(out, field, at, top, cap, strip)?;
    }
    Ok(())
}

/// Passes the entries of the surfaces of an airport's runways to the collector, in order of name; only a civil airport has them.
fn put_runways<C: Collector>(
    out: &mut C,
    at: &Point,
    top: i64,
    cap: &Cap,
    prepared: &PreparedAirport,
) -> Result<(), NoMemory>
    requires top { IsLevel top }
    requires cap { cap.now ≡ cap_of (dome_of prepared.now) at.now }
    ensures taken { OnOk result ((list : List AFinding) → C.taken out.old list
        → C.taken out.new (list ++ of_runways at.now top prepared.now)) }
    ensures fails { OnErr result C.fails }
{
    if !prepared.category().civil_surfaces() {
        return Ok(());
    }
    put_strips(out, prepared.id(), at, top, cap, prepared.strips())
}

/// Passes the entries of an airport's surfaces of 77.19 to the collector: horizontal, conical, then those of its runways in order of name.
/// The surface over the point is found once, for the first two and for the limit of the transitional surfaces.
#[inline(always)]
fn put_surfaces<C: Collector>(
    out: &mut C,
    structure: &Structure,
    prepared: &PreparedAirport,
) -> Result<(), NoMemory>
    ensures taken { OnOk result ((list : List AFinding) → C.taken out.old list
        → C.taken out.new (list ++ of_surfaces structure.now.at
        (standards_top structure.now) prepared.now)) }
    ensures fails { OnErr result C.fails }
{
    let top = structure.standards_top();
    if !prepared.has_surfaces_over(structure.spot()) {
        return Ok(());
    }
    put_surfaces_over(out, structure.at(), top, prepared)
}

/// The same where a surface may cover the point. Not inlined, since most airports near a structure do not need it.
#[inline(never)]
fn put_surfaces_over<C: Collector>(
    out: &mut C,
    at: &Point,
    top: i64,
    prepared: &PreparedAirport,
) -> Result<(), NoMemory>
    requires top { IsLevel top }
    ensures taken { OnOk result ((list : List AFinding) → C.taken out.old list
        → C.taken out.new (list ++ of_surfaces at.now top prepared.now)) }
    ensures fails { OnErr result C.fails }
{
    let field = prepared.id();
    let hull = prepared.hull();
    let standing = hull.standing(at);
    let horizontal = hull.excess_horizontal_at(&standing, top);
    put_on_field(out, Rule::Horizontal, field, 0, horizontal)?;
    let conical = hull.excess_conical_at(at, &standing, top);
    put_on_field(out, Rule::Conical, field, 0, conical)?;
    put_runways(out, at, top, &hull.cap_at(&standing), prepared)
}

/// Passes the entries of the surfaces of a heliport to the collector.
fn put_pad<C: Collector>(out: &mut C, at: &Point, top: i64, pad: &Pad) -> Result<(), NoMemory>
    requires top { IsLevel top }
    ensures taken { OnOk result ((list : List AFinding) → C.taken out.old list
        → C.taken out.new (list ++ of_pad at.now top pad.now)) }
    ensures fails { OnErr result C.fails }
{
    let field = pad.heliport().id;
    let excesses = pad.excesses(at, top);
    put_on_field(out, Rule::PadPrimary, field, 0, excesses.primary)?;
    put_on_field(out, Rule::PadApproach, field, 1, excesses.approach1)?;
    put_on_field(out, Rule::PadApproach, field, 2, excesses.approach2)?;
    put_on_field(out, Rule::PadTransition, field, 0, excesses.beside_primary)?;
    put_on_field(
        out,
        Rule::PadTransition,
        field,
        1,
        excesses.beside_approach1,
    )?;
    put_on_field(
        out,
        Rule::PadTransition,
        field,
        2,
        excesses.beside_approach2,
    )?;
    Ok(())
}

/// Passes the entries of the standards of an airport to the collector.
#[inline(always)]
fn put_airport<C: Collector>(
    out: &mut C,
    structure: &Structure,
    prepared: &PreparedAirport,
) -> Result<(), NoMemory>
    ensures taken { OnOk result ((list : List AFinding) → C.taken out.old list
        → C.taken out.new (list ++ of_airfield structure.now (AnAirport prepared.now))) }
    ensures fails { OnErr result C.fails }
{
    let near = prepared.excess_near(structure);
    put_on_field(out, Rule::Near, prepared.id(), 0, near)?;
    put_surfaces(out, structure, prepared)
}

/// Passes the entries of the standards of a heliport to the collector.
#[inline(never)]
fn put_heliport<C: Collector>(out: &mut C, structure: &Structure, pad: &Pad) -> Result<(), NoMemory>
    ensures taken { OnOk result ((list : List AFinding) → C.taken out.old list
        → C.taken out.new (list ++ of_airfield structure.now (AHeliport pad.now))) }
    ensures fails { OnErr result C.fails }
{
    put_pad(out, structure.at(), structure.standards_top(), pad)
}

/// Passes the entries of the standards of one airfield to the collector.
#[inline(always)]
pub fn put_airfield<C: Collector>(
    out: &mut C,
    structure: &Structure,
    prepared: &Prepared,
) -> Result<(), NoMemory>
    ensures taken { OnOk result ((list : List AFinding) → C.taken out.old list
        → C.taken out.new (list ++ of_airfield structure.now (airfield_of prepared.now))) }
    ensures fails { OnErr result C.fails }
{
    match &prepared.surfaces {
        Surfaces::Airport(airport) => put_airport(out, structure, airport),
        Surfaces::Heliport(pad) => put_heliport(out, structure, pad),
    }
}
