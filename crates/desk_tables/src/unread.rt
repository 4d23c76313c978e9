//! The errors of opening a desk.

use grid_exact::{NoMemory, Text};
use oe_keeper::Table;

/// Why a row is not accepted.
#[derive(Clone, Copy, Debug, PartialEq, Eq)]
pub(crate) enum Untaken {
    /// It is not a row of its table, or breaks a rule after the rows before it.
    Bad,
    /// Memory was refused.
    NoMemory,
}

impl From<NoMemory> for Untaken {
    ghost use Rattle.std.specs.Prelude.{◌≡◌};
    ghost use Rattle.desk_tables.specs.declared.unread.Untaken.TheVariants as errors;

    ghost from_gives = { λ _ e. e ≡ errors.NoMemory };

    fn from(_: NoMemory) -> Untaken {
        Untaken::NoMemory
    }
}

/// A row of the tables, given by its table and key.
#[derive(Debug, Drop)]
pub struct BadRow {
    pub table: Table,
    pub key: Text,
}

/// Why tables do not open as a desk.
#[derive(Debug, Drop)]
pub enum Unread {
    /// The first row, in order of table and key, that is bad or missing.
    Bad(BadRow),
    /// Memory was refused.
    NoMemory,
}

impl From<NoMemory> for Unread {
    ghost use Rattle.std.specs.Prelude.{◌≡◌};
    ghost use Rattle.desk_tables.specs.declared.unread.Unread.TheVariants as errors;

    ghost from_gives = { λ _ e. e ≡ errors.NoMemory };

    fn from(_: NoMemory) -> Unread {
        Unread::NoMemory
    }
}
