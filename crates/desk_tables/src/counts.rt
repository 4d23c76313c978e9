//! Counts of rows by kind, and missing rows.

ghost use Rattle.std.specs.Prelude.{◌≡◌, ◌<◌, OnOk, Some, slice_get};
ghost use Rattle.std.specs.FinMap as maps;
ghost use Rattle.oe_keeper.specs.Kept.{place};
ghost use Rattle.desk_tables.specs.Opening.{count_of, put_wanting, with_format, with_today, with_wanting};
ghost use Rattle.desk_tables.specs.Counts.{is_of};

use grid_exact::{NoMemory, Text};
use oe_keeper::{RowChange, Table, Tables};
use std::alloc::Global;

/// A kind of rows.
#[derive(Clone, Copy, Debug, PartialEq, Eq)]
pub(crate) enum Kind {
    /// All rows of a table.
    In(Table),
    /// The row of the table `desk` with the format version.
    Format,
    /// That row, with the version from before there were planned approaches.
    FirstFormat,
    /// That row, with a version from before there were revisions.
    OlderFormat,
    /// The row of the table `desk` with the desk's day.
    Today,
}

const FORMAT: &str = "format";

const TODAY: &str = "now";

/// The text of the format row in tables from before there were planned approaches.
const FIRST: &str = "1";

/// The text of the format row in tables from before there were revisions.
const SECOND: &str = "2";

/// Whether a row is of this kind.
fn is_of_kind(kind: Kind, table: Table, key: &str, row: &str) -> bool
    ensures { result ≡ is_of kind ((place table, key.now), row.now) }
{
    match kind {
        Kind::In(wanted) => table.place() == wanted.place(),
        Kind::Format => table.place() == Table::Desk.place() && key == FORMAT,
        Kind::FirstFormat => {
            table.place() == Table::Desk.place() && key == FORMAT && row == FIRST
        }
        Kind::OlderFormat => {
            table.place() == Table::Desk.place() && key == FORMAT && (row == FIRST || row == SECOND)
        }
        Kind::Today => table.place() == Table::Desk.place() && key == TODAY,
    }
}

/// The row at an index below the count of rows.
pub(crate) fn row_at<'a>(tables: &'a Tables, i: usize) -> (Table, &'a str, &'a str)
    requires { i < maps.len tables.now }
    ensures { slice_get (maps.entries tables.now) i
        ≡ Some ((place result.0, result.1.now), result.2.now) }
{
    match tables.nth(i) {
        Some(row) => row,
        None => unreachable!(),
    }
}

/// The number of rows of this kind.
pub(crate) fn count(tables: &Tables, kind: Kind) -> usize
    ensures { result ≡ count_of (is_of kind) tables.now }
{
    let mut count = 0;
    for i in 0..tables.len() {
        let (table, key, row) = row_at(tables, i);
        if is_of_kind(kind, table, key, row) {
            count += 1;
        }
    }
    count
}

/// Adds a row without a text under this key of the table `desk`.
fn put_without_text(alloc: Global, tables: &mut Tables, key: &str) -> Result<(), NoMemory>
    ensures { OnOk result (tables.new ≡ put_wanting key.now tables.old) }
{
    tables.change(
        alloc,
        &RowChange::Put {
            table: Table::Desk,
            key: Text::from_str(alloc, key)?,
            row: Text::from_str(alloc, "")?,
        },
    )
}

/// Adds the format row, without a text, where it is missing: tables that are not empty have one.
fn put_wanting_format(alloc: Global, tables: &mut Tables) -> Result<(), NoMemory>
    ensures { OnOk result (tables.new ≡ with_format tables.old) }
{
    if tables.len() == 0 {
        return Ok(());
    }
    if count(tables, Kind::Format) != 0 {
        return Ok(());
    }
    put_without_text(alloc, tables, FORMAT)
}

/// Adds the row of the desk's day, without a text, where it is missing: tables with a case have one.
fn put_wanting_today(alloc: Global, tables: &mut Tables) -> Result<(), NoMemory>
    ensures { OnOk result (tables.new ≡ with_today tables.old) }
{
    if count(tables, Kind::In(Table::Filing)) == 0 {
        return Ok(());
    }
    if count(tables, Kind::Today) != 0 {
        return Ok(());
    }
    put_without_text(alloc, tables, TODAY)
}

/// Adds each missing row, without a text, so that it is found as a bad row.
pub(crate) fn put_wanting_rows(alloc: Global, tables: &mut Tables) -> Result<(), NoMemory>
    ensures { OnOk result (tables.new ≡ with_wanting tables.old) }
{
    put_wanting_format(alloc, tables)?;
    put_wanting_today(alloc, tables)
}
