//! The row changes for an accepted request.

ghost use Rattle.std.specs.Prelude.{◌≡◌, ◌++◌, Some, IfOk, OnOk};
ghost use Rattle.oe_keeper.specs.Kept.{Kept};
ghost use Rattle.case_records.specs.declared.case.KeptCase.{KeptCase as SomeCase};
ghost use Rattle.desk_machine.specs.States.{case_at, issued_case};
ghost use Rattle.desk_tables.specs.Rows.{is_bare};
ghost use Rattle.desk_tables.specs.Changes.{case_changes, changes, step_changes, HasRoom};

use crate::desk::Desk;
use airfields::Filing;
use case_acts::Step;
use case_records::{KeptCase, KeptList};
use case_requests::Submission;
use desk_machine::Entry;
use desk_tables::ChangeList;
use determination_dates::Life;
use grid_exact::NoMemory;
use jiff::civil::Date;
use oe_keeper::Keeper;
use row_register::DeskRow;
use std::alloc::Global;

/// A copy of a list, if there is one.
fn copy_of(alloc: Global, list: &Option<KeptList>) -> Result<Option<KeptList>, NoMemory>
    ensures { IfOk result (λ l. l ≡ list.now) }
{
    match list {
        Some(list) => Ok(Some(list.copy(alloc)?)),
        None => Ok(None),
    }
}

impl Desk {
    /// Whether the desk is empty.
    #[tactic(auto, using(crate::proofs::Serving::none_of))]
    fn is_bare(&self) -> bool
        ensures { result ≡ is_bare self.now }
    {
        self.sky.register().len() == 0
            && self.today.is_none()
            && self.closed.is_empty()
            && self.cases.is_empty()
            && self.receipts.len() == 0
    }

    /// The row change that stores the day on which a form was received.
    fn change_form(
        &self,
        alloc: Global,
        list: &mut ChangeList,
        number: u32,
        day: Date,
    ) -> Result<(), NoMemory>
        ensures { OnOk result (list.new ≡ list.old ++ case_changes number (λ
            (c : SomeCase). record c { form = Some day }) (case_at self.now.cases number)) }
    {
        let Some(case) = self.case(number) else {
            return Ok(());
        };
        let case = KeptCase {
            submission: case.submission,
            received: case.received,
            form: Some(day),
            life: case.life,
            list: copy_of(alloc, &case.list)?,
        };
        list.put_filing(alloc, number, &case)
    }

    /// The row change that replaces the life of a case.
    fn change_life(
        &self,
        alloc: Global,
        list: &mut ChangeList,
        number: u32,
        life: Life,
    ) -> Result<(), NoMemory>
        ensures { OnOk result (list.new ≡ list.old ++ case_changes number (λ
            (c : SomeCase). record c { life = life }) (case_at self.now.cases number)) }
    {
        let Some(case) = self.case(number) else {
            return Ok(());
        };
        let case = KeptCase {
            submission: case.submission,
            received: case.received,
            form: case.form,
            life,
            list: copy_of(alloc, &case.list)?,
        };
        list.put_filing(alloc, number, &case)
    }

    /// The row change that replaces the life of a case, and stores the structure and the list of its determination.
    fn change_issued(
        &self,
        alloc: Global,
        list: &mut ChangeList,
        number: u32,
        filing: &Filing,
        life: Life,
        rests_on: &KeptList,
    ) -> Result<(), NoMemory>
        ensures { OnOk result (list.new ≡ list.old ++ case_changes number
            (issued_case filing.now life rests_on.now) (case_at self.now.cases number)) }
    {
        let Some(case) = self.case(number) else {
            return Ok(());
        };
        let case = KeptCase {
            submission: Submission {
                filing: *filing,
                ..case.submission
            },
            received: case.received,
            form: case.form,
            life,
            list: Some(rests_on.copy(alloc)?),
        };
        list.put_filing(alloc, number, &case)
    }

    /// The row changes of a step.
    fn change_step(&self, alloc: Global, list: &mut ChangeList, step: &Step) -> Result<(), NoMemory>
        requires { HasRoom self.now.cases step.now }
        ensures { OnOk result (list.new ≡ list.old ++ step_changes self.now step.now) }
    {
        match step {
            Step::Amended(a) => list.amend(alloc, self.sky.register(), a),
            Step::DaySet(day) => list.put_desk(alloc, &DeskRow::Now(*day)),
            Step::DayClosed(day) => list.put_desk(alloc, &DeskRow::Closed(*day)),
            Step::CaseFiled(case) => list.put_filing(alloc, self.cases.len() as u32 + 1, case),
            Step::FormPut { number, day } => self.change_form(alloc, list, *number, *day),
            Step::LifePut { number, life } => self.change_life(alloc, list, *number, *life),
            Step::Issued {
                number,
                filing,
                life,
                list: rests_on,
            } => self.change_issued(alloc, list, *number, filing, *life, rests_on),
        }
    }

    /// The row changes for an accepted request. They are computed only for a keeper that stores them.
    pub(crate) fn changes<K: Keeper>(
        &self,
        alloc: Global,
        keeper: &K,
        entry: &Entry,
        step: &Step,
    ) -> Result<ChangeList, NoMemory>
        requires { HasRoom self.now.cases step.now }
        ensures { IfOk result (λ l. (rows : Kept) → K.Tells keeper.now rows
            → l ≡ changes self.now entry.now step.now) }
    {
        let mut list = ChangeList::new(alloc);
        if !keeper.keeps() {
            return Ok(list);
        }
        if self.is_bare() {
            list.put_desk(alloc, &DeskRow::Format)?;
        }
        self.change_step(alloc, &mut list, step)?;
        list.put_receipt(alloc, entry)?;
        Ok(list)
    }
}
