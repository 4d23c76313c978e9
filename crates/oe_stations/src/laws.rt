//! Laws of the definitions, and the most stations of a way.

ghost use Rattle.std.specs.Prelude.{◌≡◌, ◌↔◌, ◌∷◌, [], List, map};
ghost use Rattle.std.specs.declared.cmp.Ordering.TheVariants.{Equal};
ghost use Rattle.airfields.specs.Sites.{Site};
ghost use Rattle.airfields.specs.declared.airfield.Airfield.{Airfield};
ghost use Rattle.airport_register.specs.Registers.{IsRegister};
ghost use Rattle.finding_lists.specs.declared.finding.Finding.{Finding};
ghost use Rattle.oe_findings.specs.List.{findings_of};
ghost use Rattle.oe_stations.specs.Order.{place_cmp, place_of};
ghost use Rattle.oe_stations.specs.declared.place.Place.{Place};
ghost use Rattle.oe_stations.specs.Ways.{AreOfOne, IsWayList, of_station};
ghost use Rattle.oe_stations.specs.declared.way_list.WayFinding.{WayFinding};
ghost use Rattle.oe_stations.specs.contracts.place.PlaceOrd.TheImpl as places;

use crate::way::MOST_STATIONS;

/// Two findings have one place in the order exactly where they are under one rule and of one surface.
pub fn one_place()
    ensures { (f g : Finding) → places.ghosts.cmp (place_of f) (place_of g) ≡ Equal ↔ AreOfOne f g }
{}

/// Places are compared as the definition says, whatever the order of the fields of the code.
pub fn order_of_places()
    ensures { (p q : Place) → places.ghosts.cmp p q ≡ place_cmp p q }
{}

/// A way has one list at most. `way_findings` gives it.
pub fn one_way_list()
    ensures { (airfields : List Airfield) (way : List Site) (a b : List WayFinding)
        → IsWayList airfields way a → IsWayList airfields way b → a ≡ b }
{}

/// Over the airfields of a register, the list of a way of one station is the list of findings of that station, in its order.
pub fn one_station()
    ensures { (airfields : List Airfield) (site : Site) (list : List WayFinding) → IsRegister airfields
        → IsWayList airfields (site ∷ []) list
        → list ≡ map (of_station 1) (findings_of airfields site) }
{}

/// A lemma, never run: a way has at most 64 stations.
pub fn most_stations()
    ensures stations { MOST_STATIONS ≡ 64 }
{}
