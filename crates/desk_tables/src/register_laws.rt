//! Laws of registers that hold a part of another register's airfields.

ghost use Rattle.std.specs.Prelude.{◌≡◌, ◌≢◌, ℕ, List, [], All, Some, None};
ghost use Rattle.airfields.specs.Runways.{runway_at};
ghost use Rattle.airfields.specs.declared.runway.Runway.{Runway};
ghost use Rattle.airfields.specs.declared.airfield.Airport.{Airport};
ghost use Rattle.airfields.specs.declared.airfield.Heliport.{Heliport};
ghost use Rattle.airfields.specs.declared.airfield.Airfield.{Airfield};
ghost use Rattle.airfields.specs.declared.airfield.Airfield.TheVariants as fields;
ghost use Rattle.airport_register.specs.Amendments.{after_amendment, airfield_at, first_broken, runways_in};
ghost use Rattle.airport_register.specs.Registers.{IsRegister};
ghost use Rattle.airport_register.specs.declared.amendment.Amendment.{Amendment};
ghost use Rattle.airport_register.specs.declared.amendment.Amendment.TheVariants.{PutAirport, PutRunway, PutHeliport};
ghost use Rattle.desk_tables.specs.Names.{IsNamed, PutsNames};
ghost use Rattle.desk_tables.specs.RegisterParts.{IsPart};

/// An amendment that breaks no rule leaves the register valid.
pub fn register_goes_on()
    ensures { (r : List Airfield) (a : Amendment) → IsRegister r → first_broken r a ≡ None
        → IsRegister (after_amendment r a) }
{}

/// All names in it stay valid names.
#[tactic(auto, using(crate::proofs::GoingOn::names_kept))]
pub fn names_go_on()
    ensures { (r : List Airfield) (a : Amendment) → All IsNamed r → PutsNames a
        → All IsNamed (after_amendment r a) }
{}

/// An empty register is a part of every register.
pub fn nothing_is_part()
    ensures { (whole : List Airfield) → IsPart [] whole }
{}

/// An airport of the whole register that is missing in the part can be added without its runways.
pub fn airport_comes()
    ensures { (part whole : List Airfield) (a : Airport) → IsRegister whole → IsPart part whole
        → airfield_at whole a.id ≡ Some (fields.Airport a)
        → airfield_at part a.id ≡ None
        → (first_broken part (PutAirport a.id a.category a.arp a.elevation) ≡ None)
        × IsPart (after_amendment part (PutAirport a.id a.category a.arp a.elevation)) whole }
{}

/// So can a heliport.
pub fn heliport_comes()
    ensures { (part whole : List Airfield) (h : Heliport) → IsRegister whole → IsPart part whole
        → airfield_at whole h.id ≡ Some (fields.Heliport h)
        → airfield_at part h.id ≡ None → (first_broken part (PutHeliport h)
        ≡ None) × IsPart (after_amendment part (PutHeliport h)) whole }
{}

/// A runway of the whole register that is missing in the part can be added to its airport, which is there.
pub fn runway_comes()
    ensures { (part whole : List Airfield) (id : List ℕ) (r : Runway) → IsRegister whole
        → IsPart part whole → airfield_at part id ≢ None
        → runway_at (runways_in (airfield_at whole id)) r.name ≡ Some r
        → runway_at (runways_in (airfield_at part id)) r.name ≡ None
        → (first_broken part (PutRunway id r) ≡ None)
        × IsPart (after_amendment part (PutRunway id r)) whole }
{}

/// A part in which no airfield and no runway is missing is the whole.
#[tactic(auto, using(crate::proofs::Whole::all_is_whole))]
pub fn all_is_whole()
    ensures { (part whole : List Airfield) → IsRegister whole → IsPart part whole
        → ((id : List ℕ) → airfield_at part id ≡ None → airfield_at whole id ≡ None)
        → ((id name : List ℕ) → runway_at (runways_in (airfield_at part id)) name ≡ None
        → runway_at (runways_in (airfield_at whole id)) name ≡ None)
        → part ≡ whole }
{}
