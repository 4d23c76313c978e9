//! The book of marks.

ghost use Rattle.std.specs.Prelude.{◌≡◌, ◌≤◌, [], is_some, length, None, option_copied, IfOk, option_map};
ghost use Rattle.review_marks.specs.Books.{row_at, is_marked_in, row_marked_as, marked_cases, rows_after_put, with_mark, with_marks};

use crate::change::{Mark, MarkChange};
use crate::row::Row;
use case_records::CaseList;
use grid_exact::NoMemory;
use std::alloc::Global;
use std::marker::Model;

/// The cases whose determinations are watched, each with its structure, the list that its determination was made on, and its mark. Seen as
/// the rows of the cases in order of number, from case 1 on; a case that is not in the book has no row.
pub struct MarkBook {
    pub(crate) rows: Vec<Option<Row>>,
    pub(crate) alloc: Global,
}

// By hand, so that no crate above proves again how what it holds is dropped.
impl Drop for MarkBook {
    fn drop(self) {
        let MarkBook { rows: _, alloc: _ } = self;
    }
}

impl Model for MarkBook {
    ghost use Rattle.std.specs.Prelude.{◌<◌, ◌^◌, List, Option, length};
    ghost use Rattle.review_marks.specs.declared.row.Row.{Row as ARow};

    ghost Value = { List (Option ARow) };

    ghost view = { λ b. b.rows.items };

    ghost invariant = { λ b. length b.rows.items < 2 ^ 32 };
}

/// Sets the mark of a row, if there is one.
fn set_mark(row: &mut Option<Row>, marked: bool)
    ensures { row.new ≡ option_map (row_marked_as marked) row.old }
{
    if let Some(row) = row {
        row.marked = marked;
    }
}

impl MarkBook {
    /// A book without cases. It allocates nothing.
    pub fn empty(alloc: Global) -> MarkBook
        ensures { result ≡ [] }
    {
        MarkBook {
            rows: Vec::new(alloc),
            alloc,
        }
    }

    /// The row of a case.
    pub(crate) fn row(&self, case: u32) -> Option<&Row>
        ensures { option_copied result ≡ row_at self.now case }
    {
        if case == 0 {
            return None;
        }
        match self.rows.get(case as usize - 1) {
            Some(Some(row)) => Some(row),
            _ => None,
        }
    }

    /// Whether the case is in the book.
    pub fn has(&self, case: u32) -> bool
        ensures { result ≡ is_some (row_at self.now case) }
    {
        self.row(case).is_some()
    }

    /// The number of the last case for which there is a row.
    pub fn last_number(&self) -> u32
        ensures { result ≡ length self.now }
    {
        self.rows.len() as u32
    }

    /// Whether the case is in the book and marked: its list over the present airfields differs from the list that its determination
    /// was made on.
    pub fn is_marked(&self, case: u32) -> bool
        ensures { result ≡ is_marked_in self.now case }
    {
        match self.row(case) {
            Some(row) => row.marked,
            None => false,
        }
    }

    /// The number of marked cases.
    pub fn marked(&self) -> u32
        ensures { result ≡ length (marked_cases self.now) }
    {
        let _ = &self.rows; // a proof knows the invariant of a value where it reads a field
        let mut count = 0;
        for place in 0..self.last_number() {
            if self.is_marked(place + 1) {
                count += 1;
            }
        }
        count
    }

    /// The numbers of the marked cases, in rising order.
    ///
    /// # Errors
    ///
    /// `NoMemory` where memory was refused.
    pub fn list(&self, alloc: Global) -> Result<CaseList, NoMemory>
        ensures { IfOk result (λ l. l ≡ marked_cases self.now) }
    {
        let _ = &self.rows; // as above
        let mut list = CaseList::new(alloc);
        for place in 0..self.last_number() {
            if self.is_marked(place + 1) {
                list.push(place + 1)?;
            }
        }
        Ok(list)
    }

    /// Sets the mark of a case, if the case is in the book.
    fn put(&mut self, mark: Mark)
        ensures { self.new ≡ with_mark mark self.old }
    {
        if mark.case == 0 {
            return;
        }
        let place = mark.case as usize - 1;
        if place >= self.rows.len() {
            return;
        }
        set_mark(&mut self.rows[place], mark.marked);
    }

    /// Sets the marks of several cases.
    pub(crate) fn put_all(&mut self, marks: &[Mark])
        ensures { self.new ≡ with_marks marks.now self.old }
    {
        for mark in marks {
            self.put(*mark);
        }
    }

    /// Stores the row of a case, for which there is room. No case has the number 0.
    pub(crate) fn put_row(&mut self, case: u32, row: Row)
        requires room { case ≤ length self.old }
        ensures { self.new ≡ rows_after_put case row self.old }
    {
        if case == 0 {
            return;
        }
        self.rows[case as usize - 1] = Some(row);
    }
}
