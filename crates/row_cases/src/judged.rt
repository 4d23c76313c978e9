//! Reads the end and the determination of a case.

ghost use Rattle.std.specs.Prelude.{◌≡◌, ◌≢◌, ◌≤◌, ◌<◌, ◌^◌, ◌++◌, ◌∷◌, [], ℕ, List, Bool, Option, Some, None, IfSome, IfNone, IfOk, map};
ghost use Rattle.std.specs.Fmt.{decimal};
ghost use Rattle.std.specs.List.{All};
ghost use Rattle.jiff_core.specs.declared.civil.date.Date.{Date as SomeDate};
ghost use Rattle.determination_dates.specs.Days.{IsLimited};
ghost use Rattle.determination_dates.specs.Text.{date_text};
ghost use Rattle.determination_dates.specs.declared.determination.Decision.{Decision as SomeDecision};
ghost use Rattle.determination_dates.specs.declared.determination.Record.{Record as SomeRecord};
ghost use Rattle.determination_dates.specs.declared.determination.TheConstants.{MOST_EXTENSIONS, MOST_REVISIONS};
ghost use Rattle.determination_dates.specs.declared.life.End.{End as SomeEnd};
ghost use Rattle.finding_lists.specs.declared.finding.Finding.{Finding as SomeFinding};
ghost use Rattle.case_records.specs.declared.case.KeptList.{KeptList as SomeKept};
ghost use Rattle.wire_values.specs.Words.{decision_word, optional_date, IsAnyLimited};
ghost use Rattle.wire_replies.specs.Entries.{entry_text};
ghost use Rattle.row_cases.specs.Entries.{IsEntry, IsList, list_fields};
ghost use Rattle.row_cases.specs.Filings.{end_word, pending_word, record_fields, judged_fields, IsPlainRecord, IsKeptList, IsJudged};

use crate::entry::entry;
use crate::number::take_number;
use case_records::KeptList;
use determination_dates::{Decision, End, MOST_EXTENSIONS, MOST_REVISIONS, Record};
use finding_lists::Findings;
use grid_exact::NoMemory;
use jiff::civil::Date;
use row_register::Parts;
use std::alloc::Global;

// Finds the end of a case by its word.
#[tactic(auto, using(crate::proofs::WordFacts::no_end))]
fn end_of(word: &[u8]) -> Option<Option<End>>
    ensures some { IfSome result (λ end. word.now ≡ end_word end) }
    ensures none { IfNone result ((end : Option SomeEnd) → word.now ≢ end_word end) }
{
    match word {
        b"-" => Some(None),
        b"abandoned" => Some(Some(End::Abandoned)),
        b"reversed" => Some(Some(End::Reversed)),
        _ => None,
    }
}

/// Takes the end of a case from the next part.
pub(crate) fn take_end(parts: &mut Parts<'_>) -> Option<Option<End>>
    ensures took { IfSome result (λ end. parts.old ≡ end_word end ∷ parts.new) }
    ensures none { IfNone result ((end : Option SomeEnd) (rest : List (List ℕ))
        → parts.old ≢ end_word end ∷ rest) }
{
    match parts.next() {
        Some(word) => end_of(word),
        None => None,
    }
}

/// Finds the decision by its word.
#[tactic(auto, using(crate::proofs::WordFacts::no_decision))]
pub(crate) fn decision_of(word: &[u8]) -> Option<Decision>
    ensures some { IfSome result (λ d. word.now ≡ decision_word d) }
    ensures none { IfNone result ((d : SomeDecision) → word.now ≢ decision_word d) }
{
    match word {
        b"nohazard" => Some(Decision::NoHazard),
        b"hazard" => Some(Decision::Hazard),
        _ => None,
    }
}

// Whether a petition is pending, by its word.
#[tactic(auto, using(crate::proofs::WordFacts::no_pending))]
fn pending_of(word: &[u8]) -> Option<bool>
    ensures some { IfSome result (λ b. word.now ≡ pending_word b) }
    ensures none { IfNone result ((b : Bool) → word.now ≢ pending_word b) }
{
    match word {
        b"pending" => Some(true),
        b"-" => Some(false),
        _ => None,
    }
}

fn take_pending(parts: &mut Parts<'_>) -> Option<bool>
    ensures took { IfSome result (λ b. parts.old ≡ pending_word b ∷ parts.new) }
    ensures none { IfNone result ((b : Bool) (rest : List (List ℕ))
        → parts.old ≢ pending_word b ∷ rest) }
{
    match parts.next() {
        Some(word) => pending_of(word),
        None => None,
    }
}

/// The version of a determination's list, its day of issuance, and its last day for a petition.
#[derive(Clone, Copy)]
pub(crate) struct Issue {
    pub(crate) last: u64,
    pub(crate) issued: Date,
    pub(crate) deadline: Option<Date>,
}

/// Takes the issuance of a determination from the next parts.
pub(crate) fn take_issue(parts: &mut Parts<'_>) -> Option<Issue>
    ensures took { IfSome result (λ i. parts.old
        ≡ decimal i.last ∷ date_text i.issued ∷ optional_date i.deadline ∷ parts.new) }
    ensures limited { IfSome result (λ i. IsLimited i.issued × IsAnyLimited i.deadline) }
    ensures none { IfNone result ((last : ℕ) (issued : SomeDate) (deadline : Option SomeDate)
        (rest : List (List ℕ)) → last < 2 ^ 64 → IsLimited issued
        → IsAnyLimited deadline
        → parts.old ≢ decimal last ∷ date_text issued ∷ optional_date deadline ∷ rest) }
{
    let last = take_number(parts, u64::MAX)?;
    let issued = parts.take()?;
    let deadline = parts.take()?;
    Some(Issue {
        last,
        issued,
        deadline,
    })
}

// The fields that set when a determination becomes effective.
#[derive(Clone, Copy)]
struct Course {
    ordinary: Date,
    pending: bool,
    affirmed: Option<Date>,
}

fn take_course(parts: &mut Parts<'_>) -> Option<Course>
    ensures took { IfSome result (λ c. parts.old
        ≡ date_text c.ordinary ∷ pending_word c.pending ∷ optional_date c.affirmed ∷ parts.new) }
    ensures limited { IfSome result (λ c. IsLimited c.ordinary × IsAnyLimited c.affirmed) }
    ensures none { IfNone result ((ordinary : SomeDate) (pending : Bool)
        (affirmed : Option SomeDate) (rest : List (List ℕ)) → IsLimited ordinary
        → IsAnyLimited affirmed
        → parts.old ≢ date_text ordinary ∷ pending_word pending ∷ optional_date affirmed ∷ rest) }
{
    let ordinary = parts.take()?;
    let pending = take_pending(parts)?;
    let affirmed = parts.take()?;
    Some(Course {
        ordinary,
        pending,
        affirmed,
    })
}

// The fields that set its expiry, and the counts of extensions and revisions.
#[derive(Clone, Copy)]
struct Extended {
    set_expiry: Option<Date>,
    extensions: u32,
    revisions: u32,
}

fn take_extended(parts: &mut Parts<'_>) -> Option<Extended>
    ensures took { IfSome result (λ e. parts.old
        ≡ optional_date e.set_expiry ∷ decimal e.extensions ∷ decimal e.revisions ∷ parts.new) }
    ensures limited { IfSome result (λ e. IsAnyLimited e.set_expiry
        × (e.extensions ≤ MOST_EXTENSIONS) × (e.revisions ≤ MOST_REVISIONS)) }
    ensures none { IfNone result ((expiry : Option SomeDate) (extensions revisions : ℕ)
        (rest : List (List ℕ)) → IsAnyLimited expiry → extensions ≤ MOST_EXTENSIONS
        → revisions ≤ MOST_REVISIONS
        → parts.old ≢ optional_date expiry ∷ decimal extensions ∷ decimal revisions ∷ rest) }
{
    let set_expiry = parts.take()?;
    let extensions = take_number(parts, u64::from(MOST_EXTENSIONS))?;
    let revisions = take_number(parts, u64::from(MOST_REVISIONS))?;
    Some(Extended {
        set_expiry,
        extensions: extensions as u32,
        revisions: revisions as u32,
    })
}

// A determination, and the number of the last entry of its list's register.
#[derive(Clone, Copy)]
struct Told {
    record: Record,
    last: u64,
}

// Takes a determination, after its decision.
fn take_record(decision: Decision, parts: &mut Parts<'_>) -> Option<Told>
    ensures took { IfSome result (λ t. parts.old ≡ record_fields t.record t.last ++ parts.new) }
    ensures decided { IfSome result (λ t. t.record.decision ≡ decision) }
    ensures plain { IfSome result (λ t. IsPlainRecord t.record) }
    ensures none { IfNone result ((r : SomeRecord) (last : ℕ) (rest : List (List ℕ))
        → IsPlainRecord r → last < 2 ^ 64 → parts.old ≢ record_fields r last ++ rest) }
{
    let issue = take_issue(parts)?;
    let course = take_course(parts)?;
    let extended = take_extended(parts)?;
    let record = Record {
        issued: issue.issued,
        decision,
        deadline: issue.deadline,
        ordinary: course.ordinary,
        pending: course.pending,
        affirmed: course.affirmed,
        set_expiry: extended.set_expiry,
        extensions: extended.extensions,
        revisions: extended.revisions,
    };
    Some(Told {
        record,
        last: issue.last,
    })
}

// Reads the parts as entries of findings.
fn take_entries(alloc: Global, parts: &mut Parts<'_>) -> Result<Option<Findings>, NoMemory>
    ensures took { IfOk result (λ o. IfSome o (λ list. parts.old ≡ map entry_text list)) }
    ensures whole { IfOk result (λ o. IfSome o (λ list. All IsEntry list)) }
    ensures none { IfOk result (λ o. IfNone o
        ((list : List SomeFinding) → All IsEntry list → parts.old ≢ map entry_text list)) }
{
    let mut list = Findings::new(alloc);
    while let Some(text) = parts.next() {
        let Some(finding) = entry(text) else {
            return Ok(None);
        };
        list.push(finding)?;
    }
    Ok(Some(list))
}

/// Takes a list: the number of entries, and the entries.
///
/// # Errors
///
/// `NoMemory` where memory was refused.
pub(crate) fn take_list(alloc: Global, parts: &mut Parts<'_>) -> Result<Option<Findings>, NoMemory>
    ensures took { IfOk result (λ o. IfSome o (λ list. parts.old ≡ list_fields list)) }
    ensures whole { IfOk result (λ o. IfSome o IsList) }
    ensures none { IfOk result (λ o. IfNone o
        ((list : List SomeFinding) → IsList list → parts.old ≢ list_fields list)) }
{
    let Some(count) = take_number(parts, u64::MAX) else {
        return Ok(None);
    };
    let Some(list) = take_entries(alloc, parts)? else {
        return Ok(None);
    };
    if list.len() as u64 != count {
        return Ok(None);
    }
    Ok(Some(list))
}

/// A determination and its list, where a case has one.
#[derive(Drop)]
pub(crate) struct Judged {
    pub(crate) determination: Option<Record>,
    pub(crate) list: Option<KeptList>,
}

// Takes a determination and its list, after the decision.
fn take_determination(
    alloc: Global,
    decision: Decision,
    parts: &mut Parts<'_>,
) -> Result<Option<Judged>, NoMemory>
    ensures took { IfOk result (λ o. IfSome o
        (λ j. decision_word decision ∷ parts.old ≡ judged_fields j.determination j.list)) }
    ensures judged { IfOk result (λ o. IfSome o (λ j. IsJudged j.determination j.list)) }
    ensures none { IfOk result (λ o. IfNone o
        ((r : SomeRecord) (kept : SomeKept) → IsPlainRecord r → IsKeptList kept
        → parts.old ≢ record_fields r kept.last ++ list_fields kept.list)) }
{
    let Some(told) = take_record(decision, parts) else {
        return Ok(None);
    };
    let Some(list) = take_list(alloc, parts)? else {
        return Ok(None);
    };
    Ok(Some(Judged {
        determination: Some(told.record),
        list: Some(KeptList {
            last: told.last,
            list,
        }),
    }))
}

/// Takes the determination and its list, or a dash.
///
/// # Errors
///
/// `NoMemory` where memory was refused.
pub(crate) fn take_judged(alloc: Global, parts: &mut Parts<'_>) -> Result<Option<Judged>, NoMemory>
    ensures took { IfOk result (λ o. IfSome o
        (λ j. parts.old ≡ judged_fields j.determination j.list)) }
    ensures judged { IfOk result (λ o. IfSome o (λ j. IsJudged j.determination j.list)) }
    ensures none { IfOk result (λ o. IfNone o
        ((r : Option SomeRecord) (kept : Option SomeKept) → IsJudged r kept
        → parts.old ≢ judged_fields r kept)) }
{
    let Some(word) = parts.next() else {
        return Ok(None);
    };
    if word == b"-".as_slice() {
        if !parts.is_done() {
            return Ok(None);
        }
        return Ok(Some(Judged {
            determination: None,
            list: None,
        }));
    }
    let Some(decision) = decision_of(word) else {
        return Ok(None);
    };
    take_determination(alloc, decision, parts)
}
