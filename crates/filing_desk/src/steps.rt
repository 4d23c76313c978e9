//! Changes of the desk's state.

ghost use Rattle.std.specs.Prelude.{◌≡◌, ◌≢◌, Some, None, IfOk, IfErr, IfSome, OnOk, OnErr};
ghost use Rattle.airport_register.specs.Amendments.{after_amendment};
ghost use Rattle.review_marks.specs.Shares.{AreHeld, change_of};
ghost use Rattle.review_marks.specs.Turns.{Leads};
ghost use Rattle.case_acts.specs.declared.effect.Step.TheVariants as steps;
ghost use Rattle.case_acts.specs.Cases.{IsSound};
ghost use Rattle.determination_dates.specs.Days.{IsLimited};
ghost use Rattle.determination_dates.specs.Effects.{IsKept};
ghost use Rattle.desk_machine.specs.States.{with_entry, state_after_step};
ghost use Rattle.desk_machine.specs.Machine.{register_rule};
ghost use Rattle.desk_tables.specs.Changes.{HasRoom};
ghost use Rattle.filing_desk.specs.Desks.{with_register};
ghost use Rattle.desk_receipts.specs.Handed.{IsNew, Keeps};

use crate::desk::Desk;
use airfields::Filing;
use airport_register::{Amendment, Changed};
use case_records::{KeptCase, KeptList, Refusal};
use desk_receipts::Accepted;
use determination_dates::Life;
use jiff::civil::Date;
use oe_findings::Sky;
use oe_keeper::Keeper;
use std::alloc::Global;

impl Desk {
    /// Stores an accepted request through the keeper, and appends its entry.
    pub(crate) fn keep<K: Keeper>(
        &mut self,
        alloc: Global,
        keeper: &mut K,
        accepted: Accepted,
    ) -> Result<(), Refusal>
        requires new { IsNew accepted.entry self.old.entries }
        requires loaded { ∥ K.IsLoaded keeper.old ∥₁ }
        ensures { Keeps K.Tells K.IsLoaded K.IsSteady K.faults keeper.old keeper.new
            accepted.changes self.old
            (with_entry accepted.entry self.old)
            self.new result }
    {
        self.receipts.keep(alloc, keeper, accepted)
    }

    /// The airfields after an amendment, with their surfaces, and the change that was made.
    ///
    /// # Errors
    ///
    /// The first rule of the register that the amendment breaks, or `NoMemory` where memory was refused.
    #[tactic(auto, using(crate::proofs::Causes::no_fault_of_register))]
    pub(crate) fn amended(&self, alloc: Global, a: &Amendment) -> Result<(Sky, Changed), Refusal>
        ensures allowed { IfOk result (λ _. register_rule self.now.register (steps.Amended a.now)
            ≡ None) }
        ensures after { IfOk result (λ r. r.0 ≡ after_amendment self.now.register a.now) }
        ensures held { IfOk result (λ r. AreHeld (change_of r.1)) }
        ensures leads { IfOk result (λ r. Leads self.now.register r.0 (change_of r.1)) }
        ensures cause { IfErr result (λ why. why ≢ Refusal.KeeperFault) }
        ensures refused { IfErr result (λ why. why ≢ Refusal.NoMemory
            → register_rule self.now.register (steps.Amended a.now) ≡ Some why) }
    {
        self.sky.register().limits();
        match self.sky.amended(alloc, a) {
            Ok((sky, changed)) => {
                sky.register().limits();
                Ok((sky, changed))
            }
            Err(why) => Err(Refusal::from(why)),
        }
    }

    /// Replaces the airfields, with their surfaces, by those after an amendment.
    pub(crate) fn put_sky<K: Keeper>(
        &mut self,
        alloc: Global,
        keeper: &mut K,
        accepted: Accepted,
        sky: Sky,
    ) -> Result<(), Refusal>
        requires new { IsNew accepted.entry self.old.entries }
        requires loaded { ∥ K.IsLoaded keeper.old ∥₁ }
        ensures { Keeps K.Tells K.IsLoaded K.IsSteady K.faults keeper.old keeper.new
            accepted.changes self.old
            (with_entry accepted.entry (with_register sky self.old))
            self.new result }
    {
        self.receipts.keep(alloc, keeper, accepted)?;
        self.sky = sky;
        Ok(())
    }

    /// Records a closed day.
    pub(crate) fn close<K: Keeper>(
        &mut self,
        alloc: Global,
        keeper: &mut K,
        accepted: Accepted,
        day: Date,
    ) -> Result<(), Refusal>
        requires new { IsNew accepted.entry self.old.entries }
        requires loaded { ∥ K.IsLoaded keeper.old ∥₁ }
        requires day { IsLimited day }
        ensures { Keeps K.Tells K.IsLoaded K.IsSteady K.faults keeper.old keeper.new
            accepted.changes self.old
            (with_entry accepted.entry (state_after_step (steps.DayClosed day) self.old))
            self.new result }
    {
        self.receipts
            .keep_closing(alloc, keeper, accepted, &mut self.closed, day)
    }

    /// Adds a case after the others.
    #[tactic(auto, using(crate::proofs::Sound::sound_more, desk_receipts::proofs::Unasked::unasked))]
    pub(crate) fn open<K: Keeper>(
        &mut self,
        alloc: Global,
        keeper: &mut K,
        accepted: Accepted,
        case: KeptCase,
    ) -> Result<(), Refusal>
        requires new { IsNew accepted.entry self.old.entries }
        requires loaded { ∥ K.IsLoaded keeper.old ∥₁ }
        requires case { IsSound case }
        requires room { HasRoom self.old.cases (steps.CaseFiled case) }
        ensures { Keeps K.Tells K.IsLoaded K.IsSteady K.faults keeper.old keeper.new
            accepted.changes self.old
            (with_entry accepted.entry (state_after_step (steps.CaseFiled case) self.old))
            self.new result }
    {
        match self.cases.reserve(1) {
            Ok(()) => {}
            Err(_) => return Err(Refusal::NoMemory),
        }
        self.receipts.keep(alloc, keeper, accepted)?;
        self.cases.push_reserved(case);
        Ok(())
    }

    /// Sets the desk's day.
    pub(crate) fn set_day(&mut self, day: Date)
        requires { IsLimited day }
        ensures { self.new ≡ state_after_step (steps.DaySet day) self.old }
    {
        self.today = Some(day);
    }

    /// Stores the day on which a form was received, where the case exists.
    pub(crate) fn put_form(&mut self, number: u32, day: Date)
        ensures { self.new ≡ state_after_step (steps.FormPut number day) self.old }
    {
        if number == 0 {
            return;
        }
        let place = number as usize - 1;
        if place >= self.cases.len() {
            return;
        }
        self.cases[place].form = Some(day);
    }

    /// Replaces the life of a case, where the case exists.
    pub(crate) fn put_life(&mut self, number: u32, life: Life)
        requires kept { IfSome life.determination IsKept }
        ensures { self.new ≡ state_after_step (steps.LifePut number life) self.old }
    {
        if number == 0 {
            return;
        }
        let place = number as usize - 1;
        if place >= self.cases.len() {
            return;
        }
        self.cases[place].life = life;
    }

    /// Replaces the life of a case, and stores the structure and the list of its determination, where the case exists.
    pub(crate) fn issue(&mut self, number: u32, filing: &Filing, life: Life, list: KeptList)
        requires kept { IfSome life.determination IsKept }
        ensures { self.new ≡ state_after_step (steps.Issued number filing.now life list) self.old }
    {
        if number == 0 {
            return;
        }
        let place = number as usize - 1;
        if place >= self.cases.len() {
            return;
        }
        let case = &mut self.cases[place];
        case.submission.filing = *filing;
        case.life = life;
        case.list = Some(list);
    }
}
