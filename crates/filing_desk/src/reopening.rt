//! Rebuilds a desk from its stored rows, and computes its marks anew.

ghost use Rattle.std.specs.Prelude.{◌≡◌, ◌<◌, ◌+◌, IfOk, OnOk, length};
ghost use Rattle.desk_tables.specs.Desks.{IsSoundDesk, desk_of};
ghost use Rattle.filing_desk.specs.Marked.{AreMarks, AreMarksTo, HasDay};

use crate::desk::Desk;
use crate::office::Office;
use desk_receipts::Receipts;
use desk_tables::{ChangeList, OpenedDesk};
use grid_exact::{NoMemory, Steps};
use oe_findings::Sky;
use review_marks::MarkBook;
use std::alloc::Global;
use std::marker::Brand;
use std::sync::ledger::{Blank, Ledger};

/// Adds the case to the book, where its determination stands: marked exactly where its list would now differ.
fn watch<L: Ledger>(
    desk: &Desk,
    marks: &mut MarkBook,
    place: u32,
    steps: &mut Steps<L>,
) -> Result<(), NoMemory>
    requires there { place < length desk.now.cases }
    requires before { AreMarksTo desk.now place marks.old }
    ensures { OnOk result (AreMarksTo desk.now (place + 1) marks.new) }
{
    desk.soundness();
    let number = place + 1;
    if !desk.stands(number) {
        return Ok(());
    }
    let Some(case) = desk.case(number) else {
        return Ok(());
    };
    let Some(kept) = &case.list else {
        return Ok(());
    };
    let filing = &case.submission.filing;
    let change = marks.added(number, filing, &kept.list, &desk.sky, steps)?;
    marks.commit(change);
    Ok(())
}

/// Computes the marks of the desk's cases; the steps are counted in the ledger that `blank` opens.
fn counted_marks<L: Ledger>(desk: &Desk, marks: &mut MarkBook, blank: Blank) -> Result<(), NoMemory>
    requires none { AreMarksTo desk.now 0 marks.old }
    requires name { blank.name ≡ L.name }
    requires parts { blank.parts ≡ L.parts }
    requires some { 0 < L.parts }
    ensures { OnOk result (AreMarks desk.now marks.new) }
{
    let mut steps = Steps::<L>::new(blank);
    desk.soundness();
    for place in 0..desk.count() {
        watch(desk, marks, place as u32, &mut steps)?;
    }
    Ok(())
}

/// Computes the marks of the desk's cases.
fn marks_of(alloc: Global, desk: &Desk) -> Result<MarkBook, NoMemory>
    ensures { IfOk result (λ m. AreMarks desk.now m) }
{
    let mut marks = MarkBook::empty(alloc);
    counted_marks::<Brand>(desk, &mut marks, Blank::new(1))?;
    Ok(marks)
}

impl Desk {
    /// A desk with the data from its rows, and the changes that bring these to the format of today.
    ///
    /// # Errors
    ///
    /// `NoMemory` where memory was refused.
    pub(crate) fn of(alloc: Global, opened: OpenedDesk) -> Result<(Desk, ChangeList), NoMemory>
        requires { IsSoundDesk (desk_of opened) }
        ensures desk { IfOk result (λ d. d.0 ≡ desk_of opened) }
        ensures renewal { IfOk result (λ d. d.1 ≡ opened.renewal) }
    {
        let desk = Desk {
            sky: Sky::of(alloc, &opened.register)?,
            today: opened.day,
            closed: opened.closed,
            cases: opened.cases,
            receipts: Receipts::of(alloc, opened.entries)?,
        };
        Ok((desk, opened.renewal))
    }
}

impl Office {
    /// The desk with its marks, computed anew.
    ///
    /// # Errors
    ///
    /// `NoMemory` where memory was refused.
    pub(crate) fn of(alloc: Global, desk: Desk) -> Result<Office, NoMemory>
        requires { HasDay desk }
        ensures { IfOk result (λ o. o ≡ desk) }
    {
        let marks = marks_of(alloc, &desk)?;
        Ok(Office { desk, marks })
    }
}
