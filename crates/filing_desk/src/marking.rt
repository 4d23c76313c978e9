//! Steps of the desk, each with the entry of its request, and the marks after it. Everything that allocates is done first.

ghost use Rattle.std.specs.Prelude.{◌≡◌, ◌≢◌, ℕ, true, cond, not, Some, None, IfErr, IfSome, OnOk, OnErr};
ghost use Rattle.case_acts.specs.declared.effect.Step.TheVariants as steps;
ghost use Rattle.case_acts.specs.Cases.{IsSound, IsSoundStep};
ghost use Rattle.determination_dates.specs.Days.{IsLimited};
ghost use Rattle.determination_dates.specs.Effects.{IsKept};
ghost use Rattle.desk_machine.specs.States.{with_entry, state_after_step};
ghost use Rattle.desk_machine.specs.Marks.{Goes, IsPresent, stands_in};
ghost use Rattle.desk_tables.specs.Changes.{HasRoom};
ghost use Rattle.desk_receipts.specs.Handed.{IsNew, Keeps};
ghost use Rattle.filing_desk.specs.Served.{TakesStep};
ghost use Rattle.review_marks.specs.Books.{rows_after_close, row_at};

use crate::desk::Desk;
use crate::issued_mark::issued_mark;
use crate::office::Office;
use crate::register_change::mark_change;
use airfields::Filing;
use airport_register::Amendment;
use case_acts::Step;
use case_records::{KeptCase, KeptList, Refusal};
use desk_receipts::Accepted;
use determination_dates::Life;
use jiff::civil::Date;
use oe_keeper::Keeper;
use review_marks::MarkBook;
use std::alloc::Global;

/// Removes a case from the book, unless its determination stands.
fn close_fallen_one(desk: &Desk, marks: &mut MarkBook, number: u32)
    ensures { marks.new ≡ cond (stands_in desk.now number) marks.old
        (rows_after_close number marks.old) }
{
    if !desk.stands(number) {
        marks.close(number);
    }
}

/// Removes the cases from the book whose determinations do not stand.
fn close_fallen(desk: &Desk, marks: &mut MarkBook)
    ensures { (n : ℕ) → row_at marks.new n ≡ cond (not
        (stands_in desk.now n)) None (row_at marks.old n) }
{
    let mut number = marks.last_number();
    while number > 0 {
        close_fallen_one(desk, marks, number);
        number -= 1;
    }
}

impl Office {
    /// Amends the register, where its rules allow it, and marks the determinations whose lists then differ.
    #[tactic(auto, using(review_marks::proofs::Abouts::shown, desk_receipts::proofs::Unasked::unasked))]
    fn amend<K: Keeper>(
        &mut self,
        alloc: Global,
        keeper: &mut K,
        accepted: Accepted,
        a: &Amendment,
    ) -> Result<(), Refusal>
        requires new { IsNew accepted.entry self.old.entries }
        requires loaded { ∥ K.IsLoaded keeper.old ∥₁ }
        ensures { TakesStep K.Tells K.IsLoaded K.IsSteady K.faults keeper.old keeper.new
            accepted.changes accepted.entry (steps.Amended a.now) self.old self.new result }
    {
        let (sky, changed) = self.desk.amended(alloc, a)?;
        let change = match mark_change(&mut self.marks, &sky, &changed) {
            Ok(change) => change,
            Err(_) => return Err(Refusal::NoMemory),
        };
        self.desk.put_sky(alloc, keeper, accepted, sky)?;
        self.marks.commit(change);
        Ok(())
    }

    /// Records a closed day.
    fn close<K: Keeper>(
        &mut self,
        alloc: Global,
        keeper: &mut K,
        accepted: Accepted,
        day: Date,
    ) -> Result<(), Refusal>
        requires new { IsNew accepted.entry self.old.entries }
        requires loaded { ∥ K.IsLoaded keeper.old ∥₁ }
        requires day { IsLimited day }
        ensures { Keeps K.Tells K.IsLoaded K.IsSteady K.faults keeper.old keeper.new
            accepted.changes self.old
            (with_entry accepted.entry (state_after_step (steps.DayClosed day) self.old))
            self.new result }
    {
        self.desk.close(alloc, keeper, accepted, day)
    }

    /// Adds a case after the others.
    fn open<K: Keeper>(
        &mut self,
        alloc: Global,
        keeper: &mut K,
        accepted: Accepted,
        case: KeptCase,
    ) -> Result<(), Refusal>
        requires new { IsNew accepted.entry self.old.entries }
        requires loaded { ∥ K.IsLoaded keeper.old ∥₁ }
        requires case { IsSound case }
        requires room { HasRoom self.old.cases (steps.CaseFiled case) }
        requires goes { Goes self.old (steps.CaseFiled case) }
        ensures { Keeps K.Tells K.IsLoaded K.IsSteady K.faults keeper.old keeper.new
            accepted.changes self.old
            (with_entry accepted.entry (state_after_step (steps.CaseFiled case) self.old))
            self.new result }
    {
        self.desk.open(alloc, keeper, accepted, case)?;
        Ok(())
    }

    /// Sets the desk's day. Determinations that have then expired are no longer watched.
    fn set_day<K: Keeper>(
        &mut self,
        alloc: Global,
        keeper: &mut K,
        accepted: Accepted,
        day: Date,
    ) -> Result<(), Refusal>
        requires new { IsNew accepted.entry self.old.entries }
        requires loaded { ∥ K.IsLoaded keeper.old ∥₁ }
        requires day { IsLimited day }
        requires goes { Goes self.old (steps.DaySet day) }
        ensures { Keeps K.Tells K.IsLoaded K.IsSteady K.faults keeper.old keeper.new
            accepted.changes self.old
            (with_entry accepted.entry (state_after_step (steps.DaySet day) self.old))
            self.new result }
    {
        self.desk.keep(alloc, keeper, accepted)?;
        self.desk.set_day(day);
        close_fallen(&self.desk, &mut self.marks);
        Ok(())
    }

    /// Stores the day on which a form was received, where the case exists.
    fn put_form<K: Keeper>(
        &mut self,
        alloc: Global,
        keeper: &mut K,
        accepted: Accepted,
        number: u32,
        day: Date,
    ) -> Result<(), Refusal>
        requires new { IsNew accepted.entry self.old.entries }
        requires loaded { ∥ K.IsLoaded keeper.old ∥₁ }
        ensures { Keeps K.Tells K.IsLoaded K.IsSteady K.faults keeper.old keeper.new
            accepted.changes self.old
            (with_entry accepted.entry (state_after_step (steps.FormPut number day) self.old))
            self.new result }
    {
        self.desk.keep(alloc, keeper, accepted)?;
        self.desk.put_form(number, day);
        Ok(())
    }

    /// Replaces the life of a case, where the case exists. A determination that then does not stand is no longer watched.
    fn put_life<K: Keeper>(
        &mut self,
        alloc: Global,
        keeper: &mut K,
        accepted: Accepted,
        number: u32,
        life: Life,
    ) -> Result<(), Refusal>
        requires new { IsNew accepted.entry self.old.entries }
        requires loaded { ∥ K.IsLoaded keeper.old ∥₁ }
        requires kept { IfSome life.determination IsKept }
        requires goes { Goes self.old (steps.LifePut number life) }
        ensures { Keeps K.Tells K.IsLoaded K.IsSteady K.faults keeper.old keeper.new
            accepted.changes self.old
            (with_entry accepted.entry (state_after_step (steps.LifePut number life) self.old))
            self.new result }
    {
        self.desk.keep(alloc, keeper, accepted)?;
        self.desk.put_life(number, life);
        close_fallen_one(&self.desk, &mut self.marks, number);
        Ok(())
    }

    /// Replaces the life of a case, and stores the structure and the list of its determination, where the case exists. The determination is
    /// watched from then on, as long as it stands, and is marked exactly where its list differs from that of the structure over the present
    /// airfields; where `own` is true it is that list.
    fn issue<K: Keeper>(
        &mut self,
        alloc: Global,
        keeper: &mut K,
        accepted: Accepted,
        number: u32,
        filing: &Filing,
        life: Life,
        list: KeptList,
        own: bool,
    ) -> Result<(), Refusal>
        requires new { IsNew accepted.entry self.old.entries }
        requires loaded { ∥ K.IsLoaded keeper.old ∥₁ }
        requires kept { IfSome life.determination IsKept }
        requires present { own ≡ true → IsPresent self.old (steps.Issued number filing.now life list) }
        ensures { Keeps K.Tells K.IsLoaded K.IsSteady K.faults keeper.old keeper.new
            accepted.changes self.old
            (with_entry accepted.entry
            (state_after_step (steps.Issued number filing.now life list) self.old))
            self.new result }
    {
        let Some(_) = self.desk.case(number) else {
            return self.desk.keep(alloc, keeper, accepted);
        };
        let change = match issued_mark(
            &mut self.marks,
            number,
            filing,
            &list.list,
            &self.desk,
            own,
        ) {
            Ok(change) => change,
            Err(_) => return Err(Refusal::NoMemory),
        };
        self.desk.keep(alloc, keeper, accepted)?;
        self.desk.issue(number, filing, life, list);
        self.marks.commit(change);
        close_fallen_one(&self.desk, &mut self.marks, number);
        Ok(())
    }

    /// Does a step, and stores the entry of its request. Where `own` is true, a determination is issued on the list over the present
    /// airfields.
    ///
    /// # Errors
    ///
    /// The rule of the register that an amendment breaks, or `NoMemory` where memory ran out, or `KeeperFault` where the keeper failed.
    /// The office is then unchanged.
    pub(crate) fn take<K: Keeper>(
        &mut self,
        alloc: Global,
        keeper: &mut K,
        accepted: Accepted,
        step: Step,
        own: bool,
    ) -> Result<(), Refusal>
        requires new { IsNew accepted.entry self.old.entries }
        requires loaded { ∥ K.IsLoaded keeper.old ∥₁ }
        requires sound { IsSoundStep step }
        requires room { HasRoom self.old.cases step }
        requires goes { Goes self.old step }
        requires present { own ≡ true → IsPresent self.old step }
        ensures { TakesStep K.Tells K.IsLoaded K.IsSteady K.faults keeper.old keeper.new
            accepted.changes accepted.entry step self.old self.new result }
    {
        match step {
            Step::Amended(a) => self.amend(alloc, keeper, accepted, &a),
            Step::DayClosed(day) => self.close(alloc, keeper, accepted, day),
            Step::CaseFiled(case) => self.open(alloc, keeper, accepted, case),
            Step::DaySet(day) => self.set_day(alloc, keeper, accepted, day),
            Step::FormPut { number, day } => self.put_form(alloc, keeper, accepted, number, day),
            Step::LifePut { number, life } => self.put_life(alloc, keeper, accepted, number, life),
            Step::Issued {
                number,
                filing,
                life,
                list,
            } => self.issue(alloc, keeper, accepted, number, &filing, life, list, own),
        }
    }
}
