//! Pages: sorted runs of rows, which stand one after another.
//!
//! A row that does not come in order moves the rows of one page alone. A page that is full is split before a row is put into it; no page is
//! empty.

ghost use Rattle.std.specs.Prelude.{◌≡◌, ◌+◌, ◌++◌, ◌<◌, ◌≤◌, ℕ, [], ◌∷◌, true, IfOk, OnOk, OnErr, IsTrue, length, get_or, map, option_copied, slice_get, vec_len, if◌then◌else◌};
ghost use Rattle.std.specs.List.{All};
ghost use Rattle.ordered_list.specs.Ordered.{Rises, put_by, removed_by};
ghost use Rattle.oe_keeper.specs.Kept.{key_cmp, place};
ghost use Rattle.oe_keeper.specs.Walk.{key_of, pair_of};
ghost use Rattle.oe_keeper.specs.Paging.{IsFilled, IsPageOf, begins_above, rows_of};

use crate::change::Table;
use crate::rows::{Entry, compare, copies, place_of, row_at};
use grid_exact::NoMemory;
use std::alloc::Global;
use std::cmp::Ordering;

/// The rows of a page at which it is full.
const FULL_PAGE: usize = 2048;

/// A sorted run of rows.
#[derive(Debug, Drop)]
pub(crate) struct Page {
    pub(crate) rows: Vec<Entry>,
}

impl Page {
    /// Puts the row in its place, instead of the one under its key, and answers whether it is one more.
    fn put(&mut self, entry: Entry) -> Result<bool, NoMemory>
        requires { Rises key_cmp key_of self.old.rows.items }
        ensures put { OnOk result
            (self.new.rows.items ≡ put_by key_cmp key_of entry self.old.rows.items) }
        ensures more { IfOk result (λ is_more. length self.new.rows.items
            ≡ length self.old.rows.items + (if is_more then 1 else 0)) }
        ensures err { OnErr result (self.new.rows.items ≡ self.old.rows.items) }
    {
        match place_of(self.rows.as_slice(), entry.table, entry.key.as_str()) {
            Ok(i) => {
                self.rows[i] = entry;
                Ok(false)
            }
            Err(i) => {
                self.rows.insert(i, entry)?;
                Ok(true)
            }
        }
    }

    /// Takes out the row under the key, and answers whether there was one.
    fn remove(&mut self, table: Table, key: &str) -> bool
        requires { Rises key_cmp key_of self.old.rows.items }
        ensures removed { self.new.rows.items
            ≡ removed_by key_cmp key_of (place table, key.now) self.old.rows.items }
        ensures fewer { length self.new.rows.items + (if result then 1 else 0)
            ≡ length self.old.rows.items }
    {
        match place_of(self.rows.as_slice(), table, key) {
            Ok(i) => {
                self.rows.remove(i);
                true
            }
            Err(_) => false,
        }
    }
}

/// Whether the page begins with a row above the key.
fn is_above(page: &Page, table: Table, key: &str) -> bool
    ensures { result ≡ begins_above (place table, key.now) page.now.rows.items }
{
    match page.rows.as_slice() {
        [first, ..] => compare(first, table, key) == Ordering::Greater,
        [] => false,
    }
}

/// The page that a key belongs in: the last that does not begin above it, or else the first.
fn page_of(pages: &[Page], table: Table, key: &str) -> usize
    requires rises { Rises key_cmp key_of (rows_of pages.now) }
    requires filled { All IsFilled pages.now }
    ensures within { 0 < length pages.now → result < length pages.now }
    ensures place { IsPageOf (place table, key.now) pages.now result }
{
    let mut low = 0;
    let mut high = pages.len();
    'search: while low + 1 < high {
        let middle = low + (high - low) / 2;
        if is_above(&pages[middle], table, key) {
            high = middle;
        } else {
            low = middle;
        }
    }
    low
}

/// Splits a page in two: the last before its last row, so that rows which come in order leave full pages behind them.
fn split(alloc: Global, pages: &mut Vec<Page>, p: usize) -> Result<(), NoMemory>
    requires within { p < vec_len pages.old }
    requires long { (d : _) → 1 < length (get_or pages.old.items p d).rows.items }
    requires filled { All IsFilled pages.old.items }
    ensures same { rows_of pages.new.items ≡ rows_of pages.old.items }
    ensures filled { All IsFilled pages.new.items }
    ensures more { vec_len pages.old ≤ vec_len pages.new }
{
    let len = pages[p].rows.len();
    let at = if p + 1 < pages.len() {
        len / 2
    } else {
        len - 1
    };
    let next = Page {
        rows: Vec::new(alloc),
    };
    pages.insert(p + 1, next)?;
    match pages[p].rows.split_off(at) {
        Ok(rows) => {
            pages[p + 1] = Page { rows };
            Ok(())
        }
        Err(_) => {
            pages.remove(p + 1);
            Err(NoMemory)
        }
    }
}

/// The page that a key belongs in, which is not full.
fn roomy_page(
    alloc: Global,
    pages: &mut Vec<Page>,
    table: Table,
    key: &str,
) -> Result<usize, NoMemory>
    requires some { 0 < vec_len pages.old }
    requires rises { Rises key_cmp key_of (rows_of pages.old.items) }
    requires filled { All IsFilled pages.old.items }
    ensures same { rows_of pages.new.items ≡ rows_of pages.old.items }
    ensures filled { All IsFilled pages.new.items }
    ensures within { IfOk result (λ p. p < vec_len pages.new) }
    ensures place { IfOk result (λ p. IsPageOf (place table, key.now) pages.new.items p) }
{
    let p = page_of(pages.as_slice(), table, key);
    if pages[p].rows.len() < FULL_PAGE {
        return Ok(p);
    }
    split(alloc, pages, p)?;
    Ok(page_of(pages.as_slice(), table, key))
}

/// A page of one row.
fn page_with(alloc: Global, entry: Entry) -> Result<Page, NoMemory>
    ensures { IfOk result (λ page. page.rows.items ≡ entry ∷ []) }
{
    let mut rows = Vec::new(alloc);
    rows.push(entry)?;
    Ok(Page { rows })
}

/// Puts the row in its place, instead of the one under its key, and answers whether it is one more.
pub(crate) fn put_row(alloc: Global, pages: &mut Vec<Page>, entry: Entry) -> Result<bool, NoMemory>
    requires rises { Rises key_cmp key_of (rows_of pages.old.items) }
    requires filled { All IsFilled pages.old.items }
    ensures put { OnOk result (rows_of pages.new.items
        ≡ put_by key_cmp key_of entry (rows_of pages.old.items)) }
    ensures more { IfOk result (λ is_more. length (rows_of pages.new.items)
        ≡ length (rows_of pages.old.items) + (if is_more then 1 else 0)) }
    ensures err { OnErr result (rows_of pages.new.items ≡ rows_of pages.old.items) }
    ensures filled { All IsFilled pages.new.items }
{
    if pages.is_empty() {
        pages.push(page_with(alloc, entry)?)?;
        return Ok(true);
    }
    let p = roomy_page(alloc, pages, entry.table, entry.key.as_str())?;
    let is_more = pages[p].put(entry)?;
    Ok(is_more)
}

/// Takes out the row under the key, and answers whether there was one.
pub(crate) fn remove_row(pages: &mut Vec<Page>, table: Table, key: &str) -> bool
    requires rises { Rises key_cmp key_of (rows_of pages.old.items) }
    requires filled { All IsFilled pages.old.items }
    ensures removed { rows_of pages.new.items
        ≡ removed_by key_cmp key_of (place table, key.now) (rows_of pages.old.items) }
    ensures fewer { length (rows_of pages.new.items) + (if result then 1 else 0)
        ≡ length (rows_of pages.old.items) }
    ensures filled { All IsFilled pages.new.items }
{
    if pages.is_empty() {
        return false;
    }
    let p = page_of(pages.as_slice(), table, key);
    let is_fewer = pages[p].remove(table, key);
    if pages[p].rows.is_empty() {
        pages.remove(p);
    }
    is_fewer
}

/// The row at index `i` of all.
pub(crate) fn nth_row(pages: &[Page], i: usize) -> Option<&Entry>
    ensures { option_copied result ≡ slice_get (rows_of pages.now) i }
{
    let mut left = i;
    'pages: for page in pages {
        if left < page.rows.len() {
            return row_at(page.rows.as_slice(), left);
        }
        left -= page.rows.len();
    }
    None
}

/// Puts the rows behind those that are there.
fn append_rows(all: &mut Vec<Entry>, rows: Vec<Entry>) -> Result<(), NoMemory>
    ensures { OnOk result (all.new.items ≡ all.old.items ++ rows.items) }
{
    'rows: for row in rows {
        all.push(row)?;
    }
    Ok(())
}

/// The rows of all pages, in order.
pub(crate) fn all_rows(alloc: Global, pages: Vec<Page>) -> Result<Vec<Entry>, NoMemory>
    ensures { IfOk result (λ v. v.items ≡ rows_of pages.items) }
{
    let mut all = Vec::new(alloc);
    'pages: for page in pages {
        append_rows(&mut all, page.rows)?;
    }
    Ok(all)
}

/// One page of these rows; none where there are no rows.
pub(crate) fn one_page(alloc: Global, rows: Vec<Entry>) -> Result<Vec<Page>, NoMemory>
    ensures same { IfOk result (λ v. rows_of v.items ≡ rows.items) }
    ensures filled { IfOk result (λ v. All IsFilled v.items) }
{
    let mut pages = Vec::new(alloc);
    if !rows.is_empty() {
        pages.push(Page { rows })?;
    }
    Ok(pages)
}

/// Copies of the pages.
pub(crate) fn copies_of(alloc: Global, pages: &[Page]) -> Result<Vec<Page>, NoMemory>
    requires { All IsFilled pages.now }
    ensures same { IfOk result (λ v. map pair_of (rows_of v.items) ≡ map pair_of (rows_of pages.now)) }
    ensures filled { IfOk result (λ v. All IsFilled v.items) }
{
    let mut all = Vec::new(alloc);
    'pages: for page in pages {
        let rows = copies(alloc, page.rows.as_slice())?;
        all.push(Page { rows })?;
    }
    Ok(all)
}
