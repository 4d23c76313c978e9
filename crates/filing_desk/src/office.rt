//! The desk with the marks of its cases.

ghost use Rattle.std.specs.Prelude.{◌≡◌, ◌<◌, ◌^◌, List, IfOk, length};
ghost use Rattle.desk_machine.specs.Marks.{case_view, marks};
ghost use Rattle.desk_machine.specs.Reports.{IsExpiryOrder, expiry_rows, review_rows};
ghost use Rattle.desk_machine.specs.States.{empty, last_number};
ghost use Rattle.oe_reports.specs.Tables.{expiry_table, review_table};
ghost use Rattle.oe_reports.specs.declared.rows.ExpiryRow.{ExpiryRow};

use crate::desk::Desk;
use crate::reports::{expiry_report, review_report};
use crate::view::view_of;
use case_records::{CaseList, CaseView};
use grid_exact::{NoMemory, Text};
use review_marks::MarkBook;
use std::alloc::Global;
use std::marker::Model;

/// The desk, and the marks of its standing determinations.
#[derive(Drop)]
pub(crate) struct Office {
    pub(crate) desk: Desk,
    pub(crate) marks: MarkBook,
}

impl Model for Office {
    ghost use Rattle.desk_machine.specs.States.{State};
    ghost use Rattle.filing_desk.specs.Marked.{AreMarks, HasDay};

    ghost Value = { State };

    ghost view = { λ o. o.desk };

    ghost invariant = { λ o. AreMarks o.desk o.marks × HasDay o.desk };
}

impl Office {
    /// An office with an empty desk. It allocates nothing.
    pub(crate) fn empty(alloc: Global) -> Office
        ensures { result ≡ empty }
    {
        Office {
            desk: Desk::empty(alloc),
            marks: MarkBook::empty(alloc),
        }
    }

    /// The number of the last entry, 0 where there is none.
    pub(crate) fn accepted(&self) -> u64
        ensures value { result ≡ last_number self.now }
        ensures few { last_number self.now < 2 ^ 64 }
    {
        self.desk.receipts.len() as u64
    }

    /// The case of this number.
    pub(crate) fn case_view(&self, number: u32) -> Option<CaseView>
        ensures { result ≡ case_view self.now number }
    {
        let marked = self.marks.is_marked(number);
        match self.desk.case(number) {
            Some(case) => Some(view_of(self.desk.day(), marked, number, case)),
            None => None,
        }
    }

    /// The numbers of the cases marked for review.
    pub(crate) fn review(&self, alloc: Global) -> Result<CaseList, NoMemory>
        ensures { IfOk result (λ l. l ≡ marks self.now) }
    {
        self.marks.list(alloc)
    }

    /// The report of the marked cases.
    pub(crate) fn review_report(&self, alloc: Global) -> Result<Text, NoMemory>
        ensures { IfOk result (λ t. t ≡ review_table (review_rows self.now)) }
    {
        let marked = self.review(alloc)?;
        review_report(alloc, &self.desk, &marked)
    }

    /// The report of the standing determinations that have an expiry.
    pub(crate) fn expiry_report(&self, alloc: Global) -> Result<Text, NoMemory>
        ensures { IfOk result (λ t. (rows : List ExpiryRow)
            × IsExpiryOrder (expiry_rows self.now) rows × (t ≡ expiry_table rows)) }
    {
        expiry_report(alloc, &self.desk)
    }

    /// The number of cases marked for review.
    pub(crate) fn marked(&self) -> u32
        ensures { result ≡ length (marks self.now) }
    {
        self.marks.marked()
    }
}
