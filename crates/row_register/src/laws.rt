//! Laws of the rows: no key and row spell two values, so what is written is read back unchanged.

ghost use Rattle.std.specs.Prelude.{ℕ, List, ◌≡◌};
ghost use Rattle.airfields.specs.declared.airfield.Airfield.{Airfield};
ghost use Rattle.row_register.specs.Airfields.{IsAirfieldRow};
ghost use Rattle.row_register.specs.Desk.{IsDeskRow};
ghost use Rattle.row_register.specs.Runways.{IsRunwayRow};
ghost use Rattle.row_register.specs.declared.desk.DeskRow.{DeskRow};
ghost use Rattle.row_register.specs.declared.runway.RunwayRow.{RunwayRow};

/// A row of the table `desk` spells one value.
pub fn one_desk_row()
    ensures { (key row : List ℕ) (a b : DeskRow) → IsDeskRow key row a → IsDeskRow key row b
        → a ≡ b }
{}

/// A row of the table `airfield` spells one value.
pub fn one_airfield_row()
    ensures { (key row : List ℕ) (a b : Airfield) → IsAirfieldRow key row a
        → IsAirfieldRow key row b → a ≡ b }
{}

/// A row of the table `runway` spells one value.
pub fn one_runway_row()
    ensures { (key row : List ℕ) (a b : RunwayRow) → IsRunwayRow key row a → IsRunwayRow key row b
        → a ≡ b }
{}
