//! Converts the rows of a query into rows of the five tables.

ghost use Rattle.std.specs.Prelude.{◌≡◌, IfOk, IfSome, OnOk, None, pos, map};
ghost use Rattle.std.specs.FinMap as maps;
ghost use Rattle.oe_keeper.specs.Kept.{Kept, rows_after_change, place};
ghost use Rattle.oe_sqlite.specs.Model.{pair_shown};

use crate::stop::Stop;
use grid_exact::Text;
use oe_keeper::{RowChange, Table, Tables};
use sqlite::Row;
use std::alloc::Global;

/// The table with this index.
fn table_at(number: i64) -> Option<Table>
    ensures { IfSome result (λ table. number ≡ pos (place table)) }
{
    match number {
        0 => Some(Table::Airfield),
        1 => Some(Table::Runway),
        2 => Some(Table::Desk),
        3 => Some(Table::Filing),
        4 => Some(Table::Receipt),
        _ => None,
    }
}

/// The change that stores a row of the query.
fn read(row: &Row) -> Result<RowChange, Stop>
    ensures { IfOk result (λ change. (rows : Kept)
        → rows_after_change rows change ≡ maps.insert rows (pair_shown row.now).0
        (pair_shown row.now).1) }
{
    let number: i64 = row.get(0)?;
    let key: String = row.get(1)?;
    let text: String = row.get(2)?;
    match table_at(number) {
        Some(table) => Ok(RowChange::Put {
            table,
            key: Text::from_string(key),
            row: Text::from_string(text),
        }),
        None => Err(Stop::BadRow),
    }
}

/// Adds a row whose key is new.
fn add(alloc: Global, tables: &mut Tables, row: &Row) -> Result<(), Stop>
    ensures { OnOk result ((maps.get tables.old (pair_shown row.now).0 ≡ None)
        × (tables.new ≡ maps.insert tables.old (pair_shown row.now).0 (pair_shown row.now).1)) }
{
    let before = tables.len();
    let change = read(row)?;
    tables.change(alloc, &change)?;
    if tables.len() == before {
        return Err(Stop::BadRow);
    }
    Ok(())
}

/// Collects the rows of the query. It stops at a row that cannot stand in the table.
pub(crate) fn tables_of(alloc: Global, rows: &[Row]) -> Result<Tables, Stop>
    ensures { IfOk result (λ tables. tables ≡ maps.from_entries (map pair_shown rows.now)) }
{
    let mut tables = Tables::empty(alloc);
    'rows: for row in rows {
        add(alloc, &mut tables, row)?;
    }
    Ok(tables)
}
