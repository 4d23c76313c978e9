//! A sorted list of rows, in order of table and key.

ghost use Rattle.std.specs.Prelude.{◌≡◌, IfOk, length, map, option_copied, slice_get};
ghost use Rattle.std.specs.List.Sorted.{IsBinarySearchResult, IsSearchInRange};
ghost use Rattle.oe_keeper.specs.Kept.{key_cmp, place};
ghost use Rattle.oe_keeper.specs.Walk.{key_of, pair_of};

use crate::change::Table;
use grid_exact::{NoMemory, Text};
use std::alloc::Global;
use std::cmp::Ordering;

/// A row with its table and key.
#[derive(Debug, Drop)]
pub(crate) struct Entry {
    pub table: Table,
    pub key: Text,
    pub row: Text,
}

impl Entry {
    pub(crate) fn new(alloc: Global, table: Table, key: &str, row: &str) -> Result<Entry, NoMemory>
        ensures { IfOk result (λ e. pair_of e ≡ ((place table, key.now), row.now)) }
    {
        let key = Text::from_str(alloc, key)?;
        let row = Text::from_str(alloc, row)?;
        Ok(Entry { table, key, row })
    }

    fn copy(&self, alloc: Global) -> Result<Entry, NoMemory>
        ensures { IfOk result (λ e. pair_of e ≡ pair_of self.now) }
    {
        Entry::new(alloc, self.table, self.key.as_str(), self.row.as_str())
    }
}

/// Compares the row's table and key with these, the table first, then the bytes of the key.
pub(crate) fn compare(entry: &Entry, table: Table, key: &str) -> Ordering
    ensures { result ≡ key_cmp (key_of entry.now) (place table, key.now) }
{
    match entry.table.place().cmp(&table.place()) {
        Ordering::Equal => entry.key.as_str().cmp(key),
        unequal => unequal,
    }
}

/// The index of the row under this key, or where it would be inserted. A key above all others is found at once.
pub(crate) fn place_of(rows: &[Entry], table: Table, key: &str) -> Result<usize, usize>
    ensures within { IsSearchInRange result (length rows.now) }
    ensures found { IsBinarySearchResult (λ e. key_cmp (key_of e)
        (place table, key.now)) rows.now result }
{
    if let Some(last) = rows.last() {
        if compare(last, table, key) == Ordering::Less {
            return Err(rows.len());
        }
    }
    rows.binary_search_by(|entry| compare(entry, table, key))
}

/// The row at index `i`.
pub(crate) fn row_at(rows: &[Entry], i: usize) -> Option<&Entry>
    ensures { option_copied result ≡ slice_get rows.now i }
{
    rows.get(i)
}

/// Copies of the rows.
pub(crate) fn copies(alloc: Global, rows: &[Entry]) -> Result<Vec<Entry>, NoMemory>
    ensures { IfOk result (λ v. map pair_of v.items ≡ map pair_of rows.now) }
{
    let mut copies = Vec::new(alloc);
    'rows: for row in rows {
        copies.push(row.copy(alloc)?)?;
    }
    Ok(copies)
}
