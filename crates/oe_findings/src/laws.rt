//! A law of the definitions.

ghost use Rattle.std.specs.Prelude.{◌≡◌, List};
ghost use Rattle.grid_exact.specs.declared.area.Area.{Area};
ghost use Rattle.airfields.specs.declared.airfield.Airfield.{Airfield};
ghost use Rattle.airfield_findings.specs.Areas.{AreAreas};

/// An airfield has one list of areas at most. `AreaList::of` gives it, and each airfield of a sky has it.
pub fn one_list()
    ensures { (f : Airfield) (a b : List Area) → AreAreas f a → AreAreas f b → a ≡ b }
{}
