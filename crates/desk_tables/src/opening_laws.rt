//! Laws of opened desks.

ghost use Rattle.std.specs.Prelude.{◌≡◌};
ghost use Rattle.std.specs.FinMap as maps;
ghost use Rattle.oe_keeper.specs.Kept.{Kept};
ghost use Rattle.desk_machine.specs.States.{State, empty};
ghost use Rattle.desk_tables.specs.Rows.{AreRows};
ghost use Rattle.desk_tables.specs.Opening.{Opens, renewed};

/// The tables from which a desk is opened, in the format of today, are the rows of its state.
pub fn opened_rows()
    ensures { (kept : Kept) (s : State) → Opens kept s → AreRows s (renewed kept) }
{}

/// Empty tables open as an empty desk.
pub fn opened_empty()
    ensures { (s : State) → Opens maps.empty s → s ≡ empty }
{}
