//! The rulings on acts, on the present state of the desk.

ghost use Rattle.std.specs.Prelude.{◌≡◌, ◌≢◌, ◌<◌, ◌≤◌, true, None, Ok, Err, IfOk, IfSome, MatchResult, option_copied};
ghost use Rattle.wire_requests.specs.Limits.{IsValidAct};
ghost use Rattle.case_requests.specs.Evaluated.{HasFacts};
ghost use Rattle.case_requests.specs.declared.act.Act.TheVariants as acts;
ghost use Rattle.case_acts.specs.Cases.{HasLimitedDates, IsSoundStep};
ghost use Rattle.determination_dates.specs.Days.{IsLimited};
ghost use Rattle.determination_dates.specs.declared.determination.TheConstants.{EXTENSION_MONTHS};
ghost use Rattle.airfields.specs.Sites.{AreFacts, revised_site};
ghost use Rattle.desk_machine.specs.Evaluations.{basis_of, evaluated_site, evaluation_of};
ghost use Rattle.desk_machine.specs.Machine.{ruling_of_act};

use crate::desk::Desk;
use airfields::Filing;
use case_acts::{Effect, Extension, Revision, Step, is_before};
use case_records::{KeptList, Outcome, Refusal};
use case_requests::{Act, Impact, Party, Submission};
use desk_machine::MOST_CASES;
use desk_receipts::{Evaluated, is_own};
use grid_exact::NoMemory;
use jiff::civil::Date;
use review_marks::findings;
use std::alloc::Global;
use wire_requests::plain_of;
use wire_values::Plain;

/// The structure with the new facts of a revision.
fn with_facts(filing: &Filing, asked: &Revision) -> Filing
    requires { AreFacts asked.now.terrain asked.now.height }
    ensures { result ≡ revised_site filing.now asked.now.terrain asked.now.height }
{
    let Ok(revised) = filing.revised(asked.terrain, asked.height) else {
        unreachable!()
    };
    revised
}

impl Desk {
    /// Outcome of a new day.
    fn on_day(&self, day: Date) -> Result<Effect, Refusal>
        requires { IsLimited day }
        ensures value { result ≡ ruling_of_act self.now None (acts.Day day) }
        ensures sound { IfOk result (λ e. IsSoundStep e.step) }
    {
        if let Some(kept) = self.today {
            if is_before(day, kept) {
                return Err(Refusal::DayBack { kept, day });
            }
        }
        Ok(Effect {
            outcome: Outcome::Plain(Plain::Day),
            step: Step::DaySet(day),
        })
    }

    /// Outcome of a notice.
    fn on_file(&self, notice: &Submission) -> Result<Effect, Refusal>
        requires { HasLimitedDates notice.now }
        ensures value { result ≡ ruling_of_act self.now None (acts.File notice.now) }
        ensures sound { IfOk result (λ e. IsSoundStep e.step) }
    {
        let Some(today) = self.day() else {
            return Err(Refusal::NoDay);
        };
        if self.cases.len() >= MOST_CASES {
            return Err(Refusal::CasesFull);
        }
        case_acts::file(self.cases.len() as u32 + 1, today, notice)
    }

    /// Outcome of the form of an emergency.
    fn on_form(&self, number: u32) -> Result<Effect, Refusal>
        ensures value { result ≡ ruling_of_act self.now None (acts.Form number) }
        ensures sound { IfOk result (λ e. IsSoundStep e.step) }
    {
        let Some(today) = self.day() else {
            return Err(Refusal::NoDay);
        };
        let Some(case) = self.case(number) else {
            return Err(Refusal::UnknownCase);
        };
        case_acts::form(number, today, case)
    }

    /// The structure that an act evaluates; `None` where it evaluates none, or there is no such case.
    fn structure(&self, act: &Act) -> Option<Filing>
        requires { HasFacts act.now }
        ensures { result ≡ evaluated_site self.now act.now }
    {
        let Some(number) = act.evaluated_case() else {
            return None;
        };
        match self.case(number) {
            Some(case) => Some(act.evaluated(&case.submission.filing)),
            None => None,
        }
    }

    /// The list that a determination of this structure is made on: the given one, where it is of this structure and its number is at most
    /// `p`; else that over the present airfields.
    ///
    /// # Errors
    ///
    /// `NoMemory` where memory was refused.
    fn evaluation(
        &self,
        alloc: Global,
        filing: &Filing,
        p: u64,
        given: Option<&Evaluated>,
    ) -> Result<KeptList, NoMemory>
        ensures { IfOk result (λ kept. kept
            ≡ evaluation_of self.now p (option_copied given.entry) filing.now) }
    {
        if let Some(evaluated) = given {
            if evaluated.fits(filing, p) {
                return evaluated.kept(alloc);
            }
        }
        let found = findings(alloc, &self.sky, filing)?;
        // the copy has no spare capacity; it is stored as long as the case
        let list = found.copy(alloc)?;
        Ok(KeptList {
            last: self.receipts.len() as u64,
            list,
        })
    }

    /// Whether the act is surely not made on the given list.
    pub(crate) fn is_own(&self, act: &Act, p: u64, given: Option<&Evaluated>) -> bool
        requires { HasFacts act.now }
        ensures { result ≡ true → basis_of self.now p (option_copied given.entry) act.now
            ≡ basis_of self.now p None act.now }
    {
        is_own(self.structure(act), p, given)
    }

    /// Outcome of a determination, made on the given list or on the findings over the present airfields.
    fn on_determine(
        &self,
        alloc: Global,
        number: u32,
        finding: Option<Impact>,
        p: u64,
        given: Option<&Evaluated>,
    ) -> Result<Effect, Refusal>
        ensures value { MatchResult result
            (λ e. ruling_of_act self.now (basis_of self.now p (option_copied given.entry)
            (acts.Determine number finding)) (acts.Determine number finding) ≡ Ok e)
            (λ why. why ≢ Refusal.NoMemory → ruling_of_act self.now (basis_of self.now p
            (option_copied given.entry) (acts.Determine number finding))
            (acts.Determine number finding) ≡ Err why) }
        ensures sound { IfOk result (λ e. IsSoundStep e.step) }
    {
        let Some(today) = self.day() else {
            return Err(Refusal::NoDay);
        };
        let Some(case) = self.case(number) else {
            return Err(Refusal::UnknownCase);
        };
        let Ok(kept) = self.evaluation(alloc, &case.submission.filing, p, given) else {
            return Err(Refusal::NoMemory);
        };
        case_acts::determine(alloc, number, finding, &self.closed, kept, today, case)
    }

    /// Outcome of a petition.
    fn on_petition(&self, number: u32, party: Party) -> Result<Effect, Refusal>
        ensures value { result ≡ ruling_of_act self.now None (acts.Petition number party) }
        ensures sound { IfOk result (λ e. IsSoundStep e.step) }
    {
        let Some(today) = self.day() else {
            return Err(Refusal::NoDay);
        };
        let Some(case) = self.case(number) else {
            return Err(Refusal::UnknownCase);
        };
        case_acts::petition(number, today, case)
    }

    /// Outcome of disposing of the pending petition.
    fn on_dispose(&self, number: u32, affirmed: bool) -> Result<Effect, Refusal>
        ensures value { result ≡ ruling_of_act self.now None (acts.Dispose number affirmed) }
        ensures sound { IfOk result (λ e. IsSoundStep e.step) }
    {
        let Some(today) = self.day() else {
            return Err(Refusal::NoDay);
        };
        let Some(case) = self.case(number) else {
            return Err(Refusal::UnknownCase);
        };
        case_acts::dispose(number, affirmed, today, case)
    }

    /// Outcome of an extension.
    fn on_extend(&self, number: u32, asked: &Extension) -> Result<Effect, Refusal>
        requires months { (1 ≤ asked.now.months) × (asked.now.months ≤ EXTENSION_MONTHS) }
        ensures value { result ≡ ruling_of_act self.now None
            (acts.Extend number asked.now.months asked.now.started asked.now.filed asked.now.warranted) }
        ensures sound { IfOk result (λ e. IsSoundStep e.step) }
    {
        let Some(today) = self.day() else {
            return Err(Refusal::NoDay);
        };
        let Some(case) = self.case(number) else {
            return Err(Refusal::UnknownCase);
        };
        case_acts::extend(number, asked, today, case)
    }

    /// Outcome of a revision on new facts, made on the given list or on the findings over the present airfields.
    fn on_revise(
        &self,
        alloc: Global,
        number: u32,
        asked: &Revision,
        p: u64,
        given: Option<&Evaluated>,
    ) -> Result<Effect, Refusal>
        requires facts { AreFacts asked.now.terrain asked.now.height }
        ensures value { MatchResult result
            (λ e. ruling_of_act self.now (basis_of self.now p (option_copied given.entry)
            (acts.Revise number asked.now.started asked.now.terrain asked.now.height asked.now.finding))
            (acts.Revise number asked.now.started asked.now.terrain asked.now.height asked.now.finding)
            ≡ Ok e)
            (λ why. why ≢ Refusal.NoMemory → ruling_of_act self.now (basis_of self.now p
            (option_copied given.entry)
            (acts.Revise number asked.now.started asked.now.terrain asked.now.height asked.now.finding))
            (acts.Revise number asked.now.started asked.now.terrain asked.now.height asked.now.finding)
            ≡ Err why) }
        ensures sound { IfOk result (λ e. IsSoundStep e.step) }
    {
        let Some(today) = self.day() else {
            return Err(Refusal::NoDay);
        };
        let Some(case) = self.case(number) else {
            return Err(Refusal::UnknownCase);
        };
        let filing = with_facts(&case.submission.filing, asked);
        let Ok(kept) = self.evaluation(alloc, &filing, p, given) else {
            return Err(Refusal::NoMemory);
        };
        case_acts::revise(alloc, number, asked, &self.closed, kept, today, case)
    }

    /// Outcome of an act of the FCC.
    fn on_fcc(&self, number: u32, completion: Option<Date>) -> Result<Effect, Refusal>
        requires { IfSome completion IsLimited }
        ensures value { result ≡ ruling_of_act self.now None (acts.Fcc number completion) }
        ensures sound { IfOk result (λ e. IsSoundStep e.step) }
    {
        let Some(today) = self.day() else {
            return Err(Refusal::NoDay);
        };
        let Some(case) = self.case(number) else {
            return Err(Refusal::UnknownCase);
        };
        case_acts::fcc(number, completion, today, case)
    }

    /// Outcome of abandoning a case.
    fn on_abandon(&self, number: u32) -> Result<Effect, Refusal>
        ensures value { result ≡ ruling_of_act self.now None (acts.Abandon number) }
        ensures sound { IfOk result (λ e. IsSoundStep e.step) }
    {
        let Some(today) = self.day() else {
            return Err(Refusal::NoDay);
        };
        let Some(case) = self.case(number) else {
            return Err(Refusal::UnknownCase);
        };
        case_acts::abandon(number, today, case)
    }

    /// The ruling on an act, without the rules of the register, which are tested when the act is done.
    ///
    /// # Errors
    ///
    /// The first rule that the act breaks, or `NoMemory` where memory was refused.
    #[tactic(auto, using(crate::proofs::Limits::any_limited, crate::proofs::Limits::notice_dates))]
    pub(crate) fn acted(
        &self,
        alloc: Global,
        act: &Act,
        p: u64,
        given: Option<&Evaluated>,
    ) -> Result<Effect, Refusal>
        requires { IsValidAct act.now }
        ensures value { MatchResult result
            (λ e. ruling_of_act self.now (basis_of self.now p (option_copied given.entry) act.now)
            act.now ≡ Ok e)
            (λ why. why ≢ Refusal.NoMemory → ruling_of_act self.now (basis_of self.now p
            (option_copied given.entry) act.now) act.now ≡ Err why) }
        ensures sound { IfOk result (λ e. IsSoundStep e.step) }
    {
        match act {
            Act::Amend(amendment) => Ok(Effect {
                outcome: Outcome::Plain(plain_of(amendment)),
                step: Step::Amended(*amendment),
            }),
            Act::Day(day) => self.on_day(*day),
            Act::Closed(day) => Ok(Effect {
                outcome: Outcome::Plain(Plain::Closed),
                step: Step::DayClosed(*day),
            }),
            Act::File(notice) => self.on_file(notice),
            Act::Form(case) => self.on_form(*case),
            Act::Determine { case, finding } => self.on_determine(alloc, *case, *finding, p, given),
            Act::Petition { case, party } => self.on_petition(*case, *party),
            Act::Dispose { case, affirm } => self.on_dispose(*case, *affirm),
            Act::Extend {
                case,
                months,
                started,
                filed,
                warranted,
            } => self.on_extend(
                *case,
                &Extension {
                    months: *months,
                    started: *started,
                    filed: *filed,
                    warranted: *warranted,
                },
            ),
            Act::Revise {
                case,
                started,
                ground,
                height,
                finding,
            } => {
                let asked = Revision {
                    started: *started,
                    terrain: *ground,
                    height: *height,
                    finding: *finding,
                };
                self.on_revise(alloc, *case, &asked, p, given)
            }
            Act::Fcc { case, completion } => self.on_fcc(*case, *completion),
            Act::Abandon(case) => self.on_abandon(*case),
        }
    }
}
