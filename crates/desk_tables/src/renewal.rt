//! Brings tables of an older format to that of today.

ghost use Rattle.std.specs.Prelude.{◌≡◌, ◌++◌, IfOk, OnOk};
ghost use Rattle.oe_keeper.specs.Kept.{place, rows_after_changes};
ghost use Rattle.desk_tables.specs.Opening.{is_first, is_older, renewal, renewed, renewed_filing};

use crate::change_list::ChangeList;
use crate::counts::{Kind, count, row_at};
use grid_exact::NoMemory;
use oe_keeper::{RowChange, Table, Tables};
use row_register::DeskRow;
use std::alloc::Global;

/// Whether the tables are of the format from before there were planned approaches.
pub(crate) fn is_first(tables: &Tables) -> bool
    ensures { result ≡ is_first tables.now }
{
    count(tables, Kind::FirstFormat) != 0
}

/// Whether the tables are of a format from before there were revisions.
fn is_older(tables: &Tables) -> bool
    ensures { result ≡ is_older tables.now }
{
    count(tables, Kind::OlderFormat) != 0
}

/// Appends the change of a row: that of a case with a determination gets a count of revisions.
#[tactic(auto, using(crate::proofs::RenewalFacts::not_filing, crate::proofs::RenewalFacts::as_filing))]
fn renew_row(
    alloc: Global,
    list: &mut ChangeList,
    table: Table,
    key: &str,
    row: &str,
) -> Result<(), NoMemory>
    ensures { OnOk result (list.new ≡ list.old ++ renewed_filing ((place table, key.now), row.now)) }
{
    if table.place() != Table::Filing.place() {
        return Ok(());
    }
    list.renew_filing(alloc, key, row)
}

/// The changes that bring tables of an older format to that of today; none where the tables are of no older format.
fn renewal(alloc: Global, tables: &Tables) -> Result<ChangeList, NoMemory>
    ensures { IfOk result (λ l. l ≡ renewal tables.now) }
{
    let mut list = ChangeList::new(alloc);
    if !is_older(tables) {
        return Ok(list);
    }
    list.put_desk(alloc, &DeskRow::Format)?;
    for i in 0..tables.len() {
        let (table, key, row) = row_at(tables, i);
        renew_row(alloc, &mut list, table, key, row)?;
    }
    Ok(list)
}

/// Makes the changes, in order.
fn change_all(alloc: Global, tables: &mut Tables, changes: &[RowChange]) -> Result<(), NoMemory>
    ensures { OnOk result (tables.new ≡ rows_after_changes tables.old changes.now) }
{
    'changes: for change in changes {
        tables.change(alloc, change)?;
    }
    Ok(())
}

/// Brings tables of an older format to that of today. Returns the changes that this makes, none where the tables were of no older format.
pub(crate) fn renew(alloc: Global, tables: &mut Tables) -> Result<ChangeList, NoMemory>
    ensures changes { IfOk result (λ l. l ≡ renewal tables.old) }
    ensures renewed { OnOk result (tables.new ≡ renewed tables.old) }
{
    let list = renewal(alloc, tables)?;
    change_all(alloc, tables, list.as_slice())?;
    Ok(list)
}
