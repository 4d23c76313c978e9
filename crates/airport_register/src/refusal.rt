//! The rules of amendments, in the order in which they are tested.

ghost use Rattle.std.specs.Prelude.{◌≡◌, option_copied, Some};
ghost use Rattle.std.specs.List.{list_all};
ghost use Rattle.airfields.specs.Runways.{has_near_ends};
ghost use Rattle.airport_register.specs.Amendments.{airfield_at, first_broken, is_airport, is_heliport, runways_in};
ghost use Rattle.airport_register.specs.Amendments.{first_of, is_register_full, airport_rules, runway_rules, drop_runway_rules, heliport_rules, drop_rules};
ghost use Rattle.airfields.specs.declared.airfield.Airfield.TheVariants.{Airport as AnAirport};

use crate::amendment::{AmendRefusal, Amendment};
use crate::register::{MOST_AIRFIELDS, Register};
use airfields::{
    Airfield, Airport, FieldId, Heliport, MOST_RUNWAYS, Runway, RunwayName, is_allowed_elevation,
};
use grid_exact::Point;

/// Whether the airfield is a heliport.
fn is_heliport(field: Option<&Airfield>) -> bool
    ensures { result ≡ is_heliport (option_copied field.entry) }
{
    matches!(field, Some(Airfield::Heliport(_)))
}

/// Whether the airfield is an airport.
fn is_airport(field: Option<&Airfield>) -> bool
    ensures { result ≡ is_airport (option_copied field.entry) }
{
    matches!(field, Some(Airfield::Airport(_)))
}

/// Whether all runways of an airport are near enough to a new reference point.
fn has_near_runways(field: Option<&Airfield>, arp: &Point) -> bool
    ensures { result ≡ list_all (has_near_ends arp.now) (runways_in (option_copied field.entry)) }
{
    match field {
        Some(Airfield::Airport(airport)) => airport.runways.have_near_ends(arp),
        _ => true,
    }
}

/// The first rule broken by putting the runway on the airport.
fn airport_runway_refusal(airport: &Airport, runway: &Runway) -> Option<AmendRefusal>
    ensures { result ≡ first_of (runway_rules (Some (AnAirport airport.now)) runway.now) }
{
    if runway.is_precision_on_utility() {
        return Some(AmendRefusal::PrecisionOnUtility);
    }
    if !runway.has_elevations() {
        return Some(AmendRefusal::ElevationRange);
    }
    if !runway.is_within_length() {
        return Some(AmendRefusal::RunwayLength);
    }
    if !runway.has_near_ends(&airport.arp) {
        return Some(AmendRefusal::RunwayFar);
    }
    if !airport.runways.has(&runway.name) && airport.runways.len() >= MOST_RUNWAYS {
        return Some(AmendRefusal::TooManyRunways);
    }
    None
}

/// The first rule broken by putting the runway on the airfield.
fn runway_refusal(field: Option<&Airfield>, runway: &Runway) -> Option<AmendRefusal>
    ensures { result ≡ first_of (runway_rules (option_copied field.entry) runway.now) }
{
    match field {
        None => Some(AmendRefusal::UnknownAirfield),
        Some(Airfield::Heliport(_)) => Some(AmendRefusal::WrongKind),
        Some(Airfield::Airport(airport)) => airport_runway_refusal(airport, runway),
    }
}

/// The first rule broken by removing the airfield's runway of this name.
fn drop_runway_refusal(field: Option<&Airfield>, name: &RunwayName) -> Option<AmendRefusal>
    ensures { result ≡ first_of (drop_runway_rules (option_copied field.entry) name.now) }
{
    match field {
        None => Some(AmendRefusal::UnknownAirfield),
        Some(Airfield::Heliport(_)) => Some(AmendRefusal::WrongKind),
        Some(Airfield::Airport(airport)) => {
            if !airport.runways.has(name) {
                return Some(AmendRefusal::UnknownRunway);
            }
            None
        }
    }
}

/// The first rule broken by removing the airfield.
fn drop_refusal(field: Option<&Airfield>) -> Option<AmendRefusal>
    ensures { result ≡ first_of (drop_rules (option_copied field.entry)) }
{
    match field {
        None => Some(AmendRefusal::UnknownAirfield),
        Some(_) => None,
    }
}

impl Register {
    /// Whether a new airfield would not fit: `field` is `None`, and the register is full.
    fn is_full_for(&self, field: Option<&Airfield>) -> bool
        ensures { result ≡ is_register_full self.now (option_copied field.entry) }
    {
        field.is_none() && self.len() >= MOST_AIRFIELDS
    }

    /// The first rule broken by putting an airport with this name.
    fn airport_refusal(&self, id: &FieldId, arp: &Point, elevation: &i64) -> Option<AmendRefusal>
        ensures { result ≡ first_of (airport_rules self.now (airfield_at self.now id.now) arp.now
            elevation.now) }
    {
        let field = self.get(id);
        if is_heliport(field) {
            return Some(AmendRefusal::WrongKind);
        }
        if !is_allowed_elevation(elevation) {
            return Some(AmendRefusal::ElevationRange);
        }
        if !has_near_runways(field, arp) {
            return Some(AmendRefusal::RunwayFar);
        }
        if self.is_full_for(field) {
            return Some(AmendRefusal::RegisterFull);
        }
        None
    }

    /// The first rule broken by putting the heliport.
    fn heliport_refusal(&self, heliport: &Heliport) -> Option<AmendRefusal>
        ensures { result ≡ first_of (heliport_rules self.now
            (airfield_at self.now heliport.now.id) heliport.now) }
    {
        let field = self.get(&heliport.id);
        if is_airport(field) {
            return Some(AmendRefusal::WrongKind);
        }
        if !is_allowed_elevation(&heliport.elevation) {
            return Some(AmendRefusal::ElevationRange);
        }
        if !heliport.has_allowed_shape() {
            return Some(AmendRefusal::HeliportShape);
        }
        if self.is_full_for(field) {
            return Some(AmendRefusal::RegisterFull);
        }
        None
    }

    /// The first rule broken by the amendment.
    pub(crate) fn refusal(&self, a: &Amendment) -> Option<AmendRefusal>
        ensures { result ≡ first_broken self.now a.now }
    {
        match a {
            Amendment::PutAirport {
                id,
                arp,
                elevation,
                ..
            } => self.airport_refusal(id, arp, elevation),
            Amendment::PutRunway { id, runway } => runway_refusal(self.get(id), runway),
            Amendment::DropRunway { id, name } => drop_runway_refusal(self.get(id), name),
            Amendment::PutHeliport(heliport) => self.heliport_refusal(heliport),
            Amendment::Drop(id) => drop_refusal(self.get(id)),
        }
    }
}
