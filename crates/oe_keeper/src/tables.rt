//! The rows of the five tables.

ghost use Rattle.std.specs.Prelude.{◌≡◌, IfOk, OnOk, OnErr, slice_get};
ghost use Rattle.std.specs.Option.{option_map};
ghost use Rattle.std.specs.FinMap as maps;
ghost use Rattle.oe_keeper.specs.Kept.{rows_after_change, place};

use crate::change::{RowChange, Table};
use crate::pages::{Page, all_rows, copies_of, nth_row, one_page, put_row, remove_row};
use crate::rows::Entry;
use grid_exact::NoMemory;
use std::alloc::Global;
use std::marker::Model;

/// The rows of the five tables, seen as one map from a table's index and a key to a row, in order of table
/// and key.
#[derive(Debug)]
pub struct Tables {
    pages: Vec<Page>,
    /// The number of rows in all pages.
    count: usize,
}

// By hand, so that no crate above proves again how what it holds is dropped.
impl Drop for Tables {
    fn drop(self) {
        let Tables { pages: _, count: _ } = self;
    }
}

impl Model for Tables {
    ghost use Rattle.std.specs.Prelude.{◌≡◌, length, map, T};
    ghost use Rattle.std.specs.List.{All};
    ghost use Rattle.std.specs.FinMap as maps;
    ghost use Rattle.oe_keeper.specs.Kept.{Kept, kept_code, key_cmp};
    ghost use Rattle.oe_keeper.specs.Walk.{pair_of};
    ghost use Rattle.oe_keeper.specs.Paging.{IsFilled, rows_of};

    ghost Value = { Kept };

    ghost coded = { kept_code };

    ghost view = { λ a. maps.from_sorted (map pair_of (rows_of a.pages.items)) };

    ghost invariant = { λ a. T (maps.is_sorted key_cmp (map pair_of (rows_of a.pages.items)))
        × All IsFilled a.pages.items × (a.count ≡ length (rows_of a.pages.items)) };
}

impl Tables {
    /// No rows. It allocates nothing.
    pub fn empty(alloc: Global) -> Tables
        ensures { result ≡ maps.empty }
    {
        Tables {
            pages: Vec::new(alloc),
            count: 0,
        }
    }

    /// The number of rows in all five tables.
    pub fn len(&self) -> usize
        ensures { result ≡ maps.len self.now }
    {
        self.count
    }

    /// The table, the key and the row at index `i` in order of table and key, counted from 0.
    pub fn nth(&self, i: usize) -> Option<(Table, &str, &str)>
        ensures { option_map (λ r. ((place r.0, r.1.now), r.2.now)) result
            ≡ slice_get (maps.entries self.now) i }
    {
        match nth_row(self.pages.as_slice(), i) {
            Some(entry) => Some((entry.table, entry.key.as_str(), entry.row.as_str())),
            None => None,
        }
    }

    /// The same rows in one page, where `nth` finds each without a walk over pages. It is for reading them all.
    ///
    /// # Errors
    ///
    /// `NoMemory` where memory ran out.
    pub fn joined(self, alloc: Global) -> Result<Tables, NoMemory>
        ensures { IfOk result (λ t. t ≡ self) }
    {
        let Tables { pages, count } = self;
        let rows = all_rows(alloc, pages)?;
        let pages = one_page(alloc, rows)?;
        Ok(Tables { pages, count })
    }

    /// A copy.
    pub(crate) fn copy(&self, alloc: Global) -> Result<Tables, NoMemory>
        ensures { IfOk result (λ t. t ≡ self.now) }
    {
        let pages = copies_of(alloc, self.pages.as_slice())?;
        Ok(Tables {
            pages,
            count: self.count,
        })
    }

    /// Stores the row under the key, and replaces a row that is already there.
    fn put(&mut self, alloc: Global, table: Table, key: &str, row: &str) -> Result<(), NoMemory>
        ensures ok { OnOk result (self.new ≡ maps.insert self.old (place table, key.now) row.now) }
        ensures err { OnErr result (self.new ≡ self.old) }
    {
        let entry = Entry::new(alloc, table, key, row)?;
        let Some(more) = self.count.checked_add(1) else {
            return Err(NoMemory);
        };
        if put_row(alloc, &mut self.pages, entry)? {
            self.count = more;
        }
        Ok(())
    }

    /// Deletes the row under the key, if there is one.
    fn remove(&mut self, table: Table, key: &str)
        ensures { self.new ≡ maps.remove self.old (place table, key.now) }
    {
        if remove_row(&mut self.pages, table, key) {
            self.count -= 1;
        }
    }

    /// Makes one change. A row that does not come in order moves a part of the rows alone.
    ///
    /// # Errors
    ///
    /// `NoMemory` where memory ran out. The rows then stay as they were.
    pub fn change(&mut self, alloc: Global, c: &RowChange) -> Result<(), NoMemory>
        ensures ok { OnOk result (self.new ≡ rows_after_change self.old c.now) }
        ensures err { OnErr result (self.new ≡ self.old) }
    {
        match c {
            RowChange::Put { table, key, row } => {
                self.put(alloc, *table, key.as_str(), row.as_str())
            }
            RowChange::Remove { table, key } => {
                self.remove(*table, key.as_str());
                Ok(())
            }
        }
    }
}
