//! What is known of tables before their rows are read.

ghost use Rattle.std.specs.Prelude.{◌≡◌, ◌&&◌, not};
ghost use Rattle.desk_tables.specs.Planned.{plans_row};

use crate::value::RowValue;

/// What is known of all the tables before a row of them is read.
#[derive(Clone, Copy, Debug, PartialEq, Eq)]
pub struct Layout {
    /// Whether they have one row alone.
    pub is_lone: bool,
    /// Whether they were of the format from before there were planned approaches.
    pub is_old: bool,
}

impl Layout {
    /// Whether a row of this value may stand in such tables: no approach is planned in those of the first format.
    pub(crate) fn allows(self, value: &RowValue) -> bool
        ensures { result ≡ not (self.is_old && plans_row value.now) }
    {
        !(self.is_old && value.is_planned())
    }
}
