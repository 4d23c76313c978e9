//! The five tables, and changes of single rows.

ghost use Rattle.std.specs.Prelude.{◌≡◌};
ghost use Rattle.oe_keeper.specs.Kept.{place};

use grid_exact::Text;

/// The five tables, in the order in which they are walked.
#[derive(Clone, Copy, Debug, PartialEq, Eq)]
pub enum Table {
    /// The airports and heliports.
    Airfield,
    /// The runways of the airports.
    Runway,
    /// The desk's own data: the format of its rows, its day, and its closed days.
    Desk,
    /// The cases.
    Filing,
    /// The accepted requests.
    Receipt,
}

impl Table {
    /// The table's index in the order, from 0 to 4.
    pub fn place(self) -> u8
        ensures { result ≡ place self }
    {
        match self {
            Table::Airfield => 0,
            Table::Runway => 1,
            Table::Desk => 2,
            Table::Filing => 3,
            Table::Receipt => 4,
        }
    }
}

/// A change of one row.
#[derive(Debug, Drop)]
pub enum RowChange {
    /// Stores the row under the key, and replaces a row that is already there.
    Put { table: Table, key: Text, row: Text },
    /// Deletes the row under the key, if there is one.
    Remove { table: Table, key: Text },
}
