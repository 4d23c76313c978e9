//! The marks after a change of an airfield.

ghost use Rattle.std.specs.Prelude.{◌≡◌, ◌<◌, ◌≤◌, ◌+◌, ◌++◌, ◌∷◌, [], ℕ, List, Some, IfOk, IfSome, OnOk, option_map, cond, false, length};
ghost use Rattle.airfields.specs.Sites.{IsSite};
ghost use Rattle.airfields.specs.declared.airfield.Airfield.{Airfield as AnAirfield};
ghost use Rattle.oe_findings.specs.List.{findings_of};
ghost use Rattle.review_marks.specs.Books.{differs, row_at, rows_after_commit, HasRoom, IsExact};
ghost use Rattle.review_marks.specs.Nearby.{AreNearCases, AreSites};
ghost use Rattle.review_marks.specs.Shares.{AreHeld, change_of, concerns, concerns_row, share_of};
ghost use Rattle.review_marks.specs.Turns.{by_mark, row_after_change, concerned_count, ClimbsTo, HasReached, IsTurnedTo, Leads, Shows};
ghost use Rattle.review_marks.specs.declared.row.Row.{Row as ARow};

use crate::book::MarkBook;
use crate::change::{Mark, MarkChange};
use crate::listing::{differ, findings};
use crate::row::Row;
use crate::share::{FieldChange, Share};
use airport_register::Changed;
use grid_exact::{NoMemory, Steps};
use oe_findings::Sky;
use std::sync::ledger::Ledger;

impl MarkBook {
    /// Whether a change may concern the case of this number: the case's structure stands under a surface or slope of the airfield, before
    /// or after the change, or is on the airfield.
    fn is_reached(&self, number: u32, change: &FieldChange) -> bool
        ensures far { result ≡ false → (r : ARow) → row_at self.now number ≡ Some r
            → concerns change.now r.filing ≡ false }
        ensures site { (r : ARow) → row_at self.now number ≡ Some r → IsSite r.filing }
    {
        match self.row(number) {
            Some(row) => change.reaches(&row.filing),
            None => false,
        }
    }

    /// Appends the number of the case at this index, where the change may concern it.
    fn reach(
        &self,
        place: u32,
        change: &FieldChange,
        numbers: &mut Vec<u32>,
    ) -> Result<(), NoMemory>
        requires { place < length self.now }
        ensures all { OnOk result (HasReached change.now self.now numbers.old.items place
            → HasReached change.now self.now numbers.new.items (place + 1)) }
        ensures rises { OnOk result (ClimbsTo 0 numbers.old.items place
            → ClimbsTo 0 numbers.new.items (place + 1)) }
        ensures sites { OnOk result (AreSites self.now place → AreSites self.now (place + 1)) }
    {
        let _ = &self.rows; // a proof knows the invariant of a value where it reads a field
        if self.is_reached(place + 1, change) {
            numbers.push(place + 1)?;
        }
        Ok(())
    }

    /// The numbers of the cases that a change may concern, in rising order.
    fn reached(&self, change: &FieldChange) -> Result<Vec<u32>, NoMemory>
        ensures all { IfOk result (λ ns. HasReached change.now self.now ns.items
            (length self.now)) }
        ensures rises { IfOk result (λ ns. ClimbsTo 0 ns.items (length self.now)) }
        ensures sites { OnOk result (AreSites self.now (length self.now)) }
    {
        let mut numbers = Vec::new(self.alloc);
        for place in 0..self.last_number() {
            self.reach(place, change, &mut numbers)?;
        }
        Ok(numbers)
    }

    /// Whether a case that the change concerns is marked afterwards. Its list is computed only where the entries on the airfield in the
    /// stored list do not already show that the lists differ.
    #[tactic(auto, using(crate::proofs::Abouts::marked_at_once))]
    fn is_marked_now<L: Ledger>(
        &self,
        row: &Row,
        share: Share,
        sky: &Sky,
        change: &FieldChange,
        steps: &mut Steps<L>,
    ) -> Result<bool, NoMemory>
        requires share { share ≡ share_of change.now.id change.now.is_now row.now.filing }
        requires shows { Shows sky.now change.now }
        ensures mark { IfOk result (λ b. b ≡ differs row.now.stored
            (findings_of sky.now row.now.filing)) }
        ensures steps { steps.new ≤ steps.old + 1 }
    {
        if change.contradicts(self.alloc, &row.filing, share, &row.stored)? {
            return Ok(true);
        }
        steps.tick();
        let list = findings(self.alloc, sky, &row.filing)?;
        Ok(differ(&row.stored, &list))
    }

    /// The new mark of a case after the change, where it differs from the old one.
    fn rechecked<L: Ledger>(
        &self,
        number: u32,
        sky: &Sky,
        change: &FieldChange,
        steps: &mut Steps<L>,
    ) -> Result<Option<Mark>, NoMemory>
        requires { Shows sky.now change.now }
        ensures case { IfOk result (λ o. IfSome o (λ m. m.case ≡ number)) }
        ensures mark { IfOk result (λ o. (r : ARow) → row_at self.now number ≡ Some r
            → by_mark o r ≡ row_after_change sky.now change.now r) }
        ensures steps { steps.new ≤ steps.old + cond
            (concerns_row change.now (row_at self.now number)) 1 0 }
    {
        let Some(row) = self.row(number) else {
            return Ok(None);
        };
        let Some(share) = change.new_share(self.alloc, &row.filing)? else {
            return Ok(None);
        };
        let marked = self.is_marked_now(row, share, sky, change, steps)?;
        if marked == row.marked {
            return Ok(None);
        }
        Ok(Some(Mark {
            case: number,
            marked,
        }))
    }

    /// Appends the new mark of a case after the change, where it differs from the old one.
    fn recheck<L: Ledger>(
        &self,
        number: u32,
        sky: &Sky,
        change: &FieldChange,
        marks: &mut Vec<Mark>,
        steps: &mut Steps<L>,
    ) -> Result<(), NoMemory>
        requires { Shows sky.now change.now }
        ensures turned { OnOk result ((ks : List ℕ)
            → IsTurnedTo sky.now change.now self.now marks.old.items ks
            → IsTurnedTo sky.now change.now self.now marks.new.items (ks ++ number ∷ [])) }
        ensures steps { steps.new ≤ steps.old + cond
            (concerns_row change.now (row_at self.now number)) 1 0 }
    {
        match self.rechecked(number, sky, change, steps)? {
            Some(mark) => {
                marks.push(mark)?;
                Ok(())
            }
            None => Ok(()),
        }
    }

    /// The marks that a change of the register sets and clears: a change of the book, after which each mark says whether the
    /// case's list over the airfields of `sky` differs from its stored list, given that it said so for the airfields before the change.
    /// The book itself is unchanged.
    ///
    /// A case is looked at again only where the airfield, as it was or as it is now, gives other entries to the case's list than before. So its
    /// point lies under a surface or slope of one of the two, or its structure is on the airfield. Where the stored list has other entries about
    /// the airfield than it gives now, the case is marked; else its list is worked out, and a step is one such list. So there are no more
    /// steps than cases whose point lies in an area of the airfield, as it was or as it is now, or whose filing names it.
    ///
    /// # Errors
    ///
    /// `NoMemory` where memory was refused.
    pub fn amended<L: Ledger>(
        &mut self,
        sky: &Sky,
        changed: &Changed,
        steps: &mut Steps<L>,
    ) -> Result<MarkChange, NoMemory>
        requires held { AreHeld (change_of changed.now) }
        requires shows { Shows sky.now (change_of changed.now) }
        ensures same { self.new ≡ self.old }
        ensures room { IfOk result (λ c. HasRoom self.old c) }
        ensures turned { IfOk result (λ c. (n : ℕ)
            → row_at (rows_after_commit c self.old) n
            ≡ option_map (row_after_change sky.now (change_of changed.now)) (row_at self.old n)) }
        ensures exact { IfOk result (λ c. (before : List AnAirfield)
            → Leads before sky.now (change_of changed.now) → IsExact before self.old
            → IsExact sky.now (rows_after_commit c self.old)) }
        ensures steps { steps.new ≤ steps.old + concerned_count (change_of changed.now) self.old }
        ensures near { (n : ℕ) → AreNearCases (change_of changed.now) self.old n
            → steps.new ≤ steps.old + n }
    {
        let change = FieldChange::of(self.alloc, changed)?;
        let reached = self.reached(&change)?;
        let mut marks = Vec::new(self.alloc);
        for i in 0..reached.len() {
            self.recheck(reached[i], sky, &change, &mut marks, steps)?;
        }
        Ok(MarkChange::Marked(marks))
    }
}
