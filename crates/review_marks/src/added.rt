//! Adding cases to the book, putting others in their place, and removing them.

ghost use Rattle.std.specs.Prelude.{◌≡◌, ◌≤◌, ◌+◌, ◌-◌, ℕ, List, false, is_some, length, None, OnOk, IfOk, slice_set, true};
ghost use Rattle.airfields.specs.declared.airfield.Airfield.{Airfield as AnAirfield};
ghost use Rattle.oe_findings.specs.List.{findings_of};
ghost use Rattle.review_marks.specs.Books.{rows_after_commit, differs, row_at, HasRoom, IsExact, rows_after_close};
ghost use Rattle.review_marks.specs.declared.change.MarkChange.TheVariants as changes;

use crate::book::MarkBook;
use crate::change::MarkChange;
use crate::listing::{differ, findings};
use crate::row::Row;
use airfields::Filing;
use finding_lists::Findings;
use grid_exact::{NoMemory, Steps};
use oe_findings::Sky;
use std::sync::ledger::Ledger;

impl MarkBook {
    /// Makes room for the row of a case.
    fn reserve(&mut self, case: u32) -> Result<(), NoMemory>
        ensures same { (n : ℕ) → row_at self.new n ≡ row_at self.old n }
        ensures room { OnOk result (case ≤ length self.new) }
    {
        while self.rows.len() < case as usize {
            self.rows.push(None)?;
        }
        Ok(())
    }

    /// The change that adds a case to the book, with this mark. The book itself is unchanged.
    fn change_to_add(
        &mut self,
        case: u32,
        filing: &Filing,
        stored: &Findings,
        marked: bool,
    ) -> Result<MarkChange, NoMemory>
        ensures same { (n : ℕ) → row_at self.new n ≡ row_at self.old n }
        ensures room { OnOk result (case ≤ length self.new) }
        ensures change { IfOk result (λ c. c ≡ changes.Added case
            (record { filing = filing.now; stored = stored.now; marked = marked })) }
    {
        self.reserve(case)?;
        Ok(MarkChange::Added {
            case,
            row: Row {
                filing: *filing,
                stored: stored.copy(self.alloc)?,
                marked,
            },
        })
    }

    /// The change that adds a case to the book, unmarked, where its stored list is its list over the present airfields. The book itself
    /// is unchanged.
    ///
    /// # Errors
    ///
    /// `NoMemory` where memory was refused.
    pub fn added_unmarked(
        &mut self,
        case: u32,
        filing: &Filing,
        stored: &Findings,
    ) -> Result<MarkChange, NoMemory>
        ensures same { (n : ℕ) → row_at self.new n ≡ row_at self.old n }
        ensures room { OnOk result (case ≤ length self.new) }
        ensures change { IfOk result (λ c. c ≡ changes.Added case
            (record { filing = filing.now; stored = stored.now; marked = false })) }
        ensures exact { IfOk result (λ c. (airfields : List AnAirfield)
            → differs stored.now (findings_of airfields filing.now) ≡ false
            → IsExact airfields self.old → IsExact airfields (rows_after_commit c self.new)) }
    {
        self.change_to_add(case, filing, stored, false)
    }

    /// The change that adds a case to the book, marked exactly where its stored list differs from its list over the airfields of
    /// `sky`. A step is one computed list. The book itself is unchanged.
    ///
    /// # Errors
    ///
    /// `NoMemory` where memory was refused.
    pub fn added<L: Ledger>(
        &mut self,
        case: u32,
        filing: &Filing,
        stored: &Findings,
        sky: &Sky,
        steps: &mut Steps<L>,
    ) -> Result<MarkChange, NoMemory>
        ensures same { (n : ℕ) → row_at self.new n ≡ row_at self.old n }
        ensures room { OnOk result (case ≤ length self.new) }
        ensures change { IfOk result (λ c. c ≡ changes.Added case
            (record {
              filing = filing.now;
              stored = stored.now;
              marked = differs stored.now
                  (findings_of sky.now filing.now);
            })) }
        ensures exact { IfOk result (λ c. IsExact sky.now self.old
            → IsExact sky.now (rows_after_commit c self.new)) }
        ensures steps { steps.new ≤ steps.old + 1 }
    {
        steps.tick();
        let list = findings(self.alloc, sky, filing)?;
        self.change_to_add(case, filing, stored, differ(stored, &list))
    }

    /// The change that gives a case of the book another structure and another stored list, those of its revised determination (77.35(a)):
    /// the case is marked exactly where that list differs from the structure's list over the airfields of `sky`, whatever its mark was. A
    /// step is one computed list. The book itself is unchanged.
    ///
    /// # Errors
    ///
    /// `NoMemory` where memory was refused.
    pub fn revised<L: Ledger>(
        &mut self,
        case: u32,
        filing: &Filing,
        stored: &Findings,
        sky: &Sky,
        steps: &mut Steps<L>,
    ) -> Result<MarkChange, NoMemory>
        requires there { is_some (row_at self.old case) ≡ true }
        ensures same { (n : ℕ) → row_at self.new n ≡ row_at self.old n }
        ensures room { OnOk result (case ≤ length self.new) }
        ensures change { IfOk result (λ c. c ≡ changes.Added case
            (record {
              filing = filing.now;
              stored = stored.now;
              marked = differs stored.now
                  (findings_of sky.now filing.now);
            })) }
        ensures exact { IfOk result (λ c. IsExact sky.now self.old
            → IsExact sky.now (rows_after_commit c self.new)) }
        ensures steps { steps.new ≤ steps.old + 1 }
    {
        self.added(case, filing, stored, sky, steps)
    }

    /// Makes a change that was computed for the present book. It allocates nothing.
    pub fn commit(&mut self, change: MarkChange)
        requires room { HasRoom self.old change }
        ensures { self.new ≡ rows_after_commit change self.old }
    {
        match change {
            MarkChange::Added { case, row } => self.put_row(case, row),
            MarkChange::Marked(marks) => self.put_all(marks.as_slice()),
        }
    }

    /// Leaves no row in the place of a case, where there is such a place.
    fn clear_row(&mut self, case: u32)
        ensures { self.new ≡ rows_after_close case self.old }
    {
        if case == 0 {
            return;
        }
        if let Some(row) = self.rows.get_mut(case as usize - 1) {
            *row = None;
        }
    }

    /// Removes a case from the book, if it is there: its determination no longer stands. It allocates nothing.
    pub fn close(&mut self, case: u32)
        ensures rows { self.new ≡ rows_after_close case self.old }
        ensures exact { (airfields : List AnAirfield) → IsExact airfields self.old
            → IsExact airfields self.new }
    {
        self.clear_row(case);
    }
}
