//! Reads the outcomes of determinations and of their revisions.

ghost use Rattle.std.specs.Prelude.{◌≡◌, ◌≢◌, ◌<◌, ◌^◌, ◌++◌, ◌∷◌, ℕ, List, Option, IfSome, IfNone, IfOk};
ghost use Rattle.std.specs.Fmt.{decimal};
ghost use Rattle.jiff_core.specs.declared.civil.date.Date.{Date as SomeDate};
ghost use Rattle.determination_dates.specs.Days.{IsLimited};
ghost use Rattle.determination_dates.specs.Text.{date_text};
ghost use Rattle.determination_dates.specs.declared.determination.Decision.{Decision as SomeDecision};
ghost use Rattle.wire_values.specs.Words.{decision_word, optional_date, IsAnyLimited};
ghost use Rattle.row_register.specs.Parts.{parts_of};
ghost use Rattle.wire_values.specs.Commas.{with_commas};
ghost use Rattle.wire_replies.specs.Entries.{list_text};
ghost use Rattle.wire_values.specs.Plainness.{IsShortField};
ghost use Rattle.row_cases.specs.Entries.{IsList};
ghost use Rattle.row_receipts.specs.Kinds.{IsDetermined, IsRevised, Reads};
ghost use Rattle.row_receipts.specs.Fields.{issued_fields};
ghost use Rattle.row_receipts.specs.Issuances.{IsIssuance};

use crate::list::take_list;
use crate::number::read_number;
use crate::parts::take_head;
use case_records::Outcome;
use determination_dates::Decision;
use finding_lists::Findings;
use grid_exact::NoMemory;
use jiff::civil::Date;
use row_register::Parts;
use std::alloc::Global;

// Finds the decision by its word.
#[tactic(auto, using(crate::proofs::Words::no_decision))]
fn decision_of(word: &[u8]) -> Option<Decision>
    ensures some { IfSome result (λ d. word.now ≡ decision_word d) }
    ensures none { IfNone result ((d : SomeDecision) → word.now ≢ decision_word d) }
{
    if word == b"nohazard".as_slice() {
        return Some(Decision::NoHazard);
    }
    if word == b"hazard".as_slice() {
        return Some(Decision::Hazard);
    }
    None
}

// A decision, the number of the last entry of its list's register, and its day of issuance.
#[derive(Clone, Copy)]
struct Issue {
    decision: Decision,
    last: u64,
    issued: Date,
}

fn take_issue(parts: &mut Parts<'_>) -> Option<Issue>
    ensures took { IfSome result (λ i. parts.old
        ≡ decision_word i.decision ∷ decimal i.last ∷ date_text i.issued ∷ parts.new) }
    ensures limited { IfSome result (λ i. IsLimited i.issued) }
    ensures none { IfNone result ((decision : SomeDecision) (last : ℕ) (issued : SomeDate)
        (rest : List (List ℕ)) → last < 2 ^ 64 → IsLimited issued
        → parts.old ≢ decision_word decision ∷ decimal last ∷ date_text issued ∷ rest) }
{
    let decision = decision_of(parts.next()?)?;
    let last = read_number(parts.next()?)?;
    let issued = parts.take()?;
    Some(Issue {
        decision,
        last,
        issued,
    })
}

// The days that follow from the issuance.
#[derive(Clone, Copy)]
struct Course {
    deadline: Option<Date>,
    effective: Option<Date>,
    expiry: Option<Date>,
}

fn take_course(parts: &mut Parts<'_>) -> Option<Course>
    ensures took { IfSome result (λ c. parts.old
        ≡ optional_date c.deadline ∷ optional_date c.effective ∷ optional_date c.expiry ∷ parts.new) }
    ensures limited { IfSome result (λ c. IsAnyLimited c.deadline × IsAnyLimited c.effective
        × IsAnyLimited c.expiry) }
    ensures none { IfNone result ((deadline effective expiry : Option SomeDate)
        (rest : List (List ℕ)) → IsAnyLimited deadline → IsAnyLimited effective
        → IsAnyLimited expiry
        → parts.old ≢ optional_date deadline ∷ optional_date effective ∷ optional_date expiry ∷ rest) }
{
    let deadline = parts.take()?;
    let effective = parts.take()?;
    let expiry = parts.take()?;
    Some(Course {
        deadline,
        effective,
        expiry,
    })
}

// A determination before its list.
#[derive(Clone, Copy)]
struct Issued {
    issue: Issue,
    course: Course,
}

fn take_issued(parts: &mut Parts<'_>, form: &[u8], case: u32) -> Option<Issued>
    ensures took { IfSome result (λ d. parts.old
        ≡ issued_fields form.now case d.issue.decision d.issue.last d.issue.issued d.course.deadline d.course.effective d.course.expiry ++ parts.new) }
    ensures limited { IfSome result (λ d. IsLimited d.issue.issued × IsAnyLimited d.course.deadline
        × IsAnyLimited d.course.effective × IsAnyLimited d.course.expiry) }
    ensures small { IfSome result (λ d. d.issue.last < 2 ^ 64) }
    ensures none { IfNone result ((decision : SomeDecision) (last : ℕ) (issued : SomeDate)
        (deadline effective expiry : Option SomeDate) (rest : List (List ℕ))
        → last < 2 ^ 64 → IsLimited issued → IsAnyLimited deadline → IsAnyLimited effective
        → IsAnyLimited expiry
        → parts.old ≢ issued_fields form.now case decision last issued deadline effective expiry ++ rest) }
{
    take_head(parts, form, case)?;
    let issue = take_issue(parts)?;
    let course = take_course(parts)?;
    Some(Issued { issue, course })
}

// A determination with its list.
#[derive(Drop)]
struct Judged {
    told: Issued,
    list: Findings,
}

// Takes a determination of a case with its list, by an act of this form, from the parts.
fn take_judged(
    alloc: Global,
    parts: &mut Parts<'_>,
    form: &[u8],
    case: u32,
) -> Result<Option<Judged>, NoMemory>
    ensures took { IfOk result (λ o. IfSome o (λ j. (rest : List (List ℕ))
        × (parts.old ≡ issued_fields form.now case j.told.issue.decision j.told.issue.last j.told.issue.issued j.told.course.deadline j.told.course.effective j.told.course.expiry ++ rest)
        × (with_commas rest ≡ list_text j.list))) }
    ensures limited { IfOk result (λ o. IfSome o (λ j. IsLimited j.told.issue.issued
        × IsAnyLimited j.told.course.deadline × IsAnyLimited j.told.course.effective
        × IsAnyLimited j.told.course.expiry)) }
    ensures small { IfOk result (λ o. IfSome o (λ j. j.told.issue.last < 2 ^ 64)) }
    ensures whole { IfOk result (λ o. IfSome o (λ j. IsList j.list)) }
    ensures none { IsShortField form.now → IfOk result (λ o. IfNone o
        ((text : List ℕ) → parts_of 44 text ≡ parts.old → IsIssuance form.now case text → ⊥)) }
{
    let Some(told) = take_issued(parts, form, case) else {
        return Ok(None);
    };
    let Some(list) = take_list(alloc, parts)? else {
        return Ok(None);
    };
    Ok(Some(Judged { told, list }))
}

fn determination(case: u32, told: &Issued, list: Findings) -> Outcome
    ensures { result
        ≡ Outcome.Determined case told.now.issue.decision told.now.issue.last told.now.issue.issued told.now.course.deadline told.now.course.effective told.now.course.expiry list }
{
    Outcome::Determined {
        case,
        decision: told.issue.decision,
        last: told.issue.last,
        issued: told.issue.issued,
        deadline: told.course.deadline,
        effective: told.course.effective,
        expiry: told.course.expiry,
        list,
    }
}

/// Reads the determination of a case.
///
/// # Errors
///
/// `NoMemory` where memory was refused.
pub(crate) fn determined(alloc: Global, text: &[u8], case: u32) -> Result<Option<Outcome>, NoMemory>
    ensures { IfOk result (λ o. Reads (IsDetermined case) text.now o) }
{
    let Some(judged) = take_judged(alloc, &mut Parts::new(text, b','), b"determine", case)? else {
        return Ok(None);
    };
    let Judged { told, list } = judged;
    Ok(Some(determination(case, &told, list)))
}

fn revision(case: u32, told: &Issued, list: Findings) -> Outcome
    ensures { result
        ≡ Outcome.Revised case told.now.issue.decision told.now.issue.last told.now.issue.issued told.now.course.deadline told.now.course.effective told.now.course.expiry list }
{
    Outcome::Revised {
        case,
        decision: told.issue.decision,
        last: told.issue.last,
        issued: told.issue.issued,
        deadline: told.course.deadline,
        effective: told.course.effective,
        expiry: told.course.expiry,
        list,
    }
}

/// Reads the determination that was issued in the place of another in a case.
///
/// # Errors
///
/// `NoMemory` where memory was refused.
pub(crate) fn revised(alloc: Global, text: &[u8], case: u32) -> Result<Option<Outcome>, NoMemory>
    ensures { IfOk result (λ o. Reads (IsRevised case) text.now o) }
{
    let Some(judged) = take_judged(alloc, &mut Parts::new(text, b','), b"revise", case)? else {
        return Ok(None);
    };
    let Judged { told, list } = judged;
    Ok(Some(revision(case, &told, list)))
}
