//! Writes the rows of cases.

ghost use Rattle.std.specs.Prelude.{◌≡◌, ◌++◌, ◌∷◌, [], Option, OnOk, OnErr, string_bytes};
ghost use Rattle.std.specs.Fmt.{decimal, signed_decimal};
ghost use Rattle.determination_dates.specs.Text.{date_text};
ghost use Rattle.grid_exact.specs.Texts.{Extends};
ghost use Rattle.wire_values.specs.Commas.{joined, with_commas};
ghost use Rattle.wire_values.specs.Words.{kind_word, flags_text, name_text, decision_word as decided_word, optional_date};
ghost use Rattle.wire_cursor.specs.Groups.{point_fields, site_fields};
ghost use Rattle.wire_requests.specs.Spellings.{submission_fields};
ghost use Rattle.row_cases.specs.Entries.{list_fields};
ghost use Rattle.row_cases.specs.Filings.{end_word as ended_word, pending_word as pends_word, record_fields, judged_fields, filing_row};

use airfields::Filing;
use case_records::{KeptCase, KeptList};
use case_requests::Submission;
use determination_dates::{Decision, End, Record};
use grid_exact::NoMemory;
use jiff::civil::Date;
use row_register::append_point;
use wire_replies::{append_list, append_next_number, append_next_word};
use wire_values::{FieldValue, Statement, Urgency, WholeNumber, append_next, decision_word};

// Appends a structure's point, ground elevation and height, a comma before each field.
#[tactic(auto, using(grid_exact::proofs::Extending::extending))]
fn append_stand(text: &mut String, filing: &Filing) -> Result<(), NoMemory>
    ensures ok { OnOk result (string_bytes text.new ≡ string_bytes text.old
        ++ with_commas (point_fields filing.now.at ++
        (signed_decimal filing.now.terrain ∷ signed_decimal filing.now.height ∷ []))) }
    ensures part { OnErr result (Extends (string_bytes text.old) (string_bytes text.new)) }
{
    append_point(text, &filing.at)?;
    let terrain = WholeNumber {
        value: filing.ground,
    };
    append_next(text, &terrain)?;
    let height = WholeNumber {
        value: filing.height,
    };
    append_next(text, &height)
}

// Appends a structure's kind, mobile height, flags and airfield, a comma before each field.
#[tactic(auto, using(grid_exact::proofs::Extending::extending))]
fn append_use(text: &mut String, filing: &Filing) -> Result<(), NoMemory>
    ensures ok { OnOk result (string_bytes text.new ≡ string_bytes text.old
        ++ with_commas
        (kind_word filing.now.kind ∷ signed_decimal filing.now.mobile ∷ flags_text filing.now.flags ∷ name_text filing.now.on ∷ [])) }
    ensures part { OnErr result (Extends (string_bytes text.old) (string_bytes text.new)) }
{
    append_next(text, &filing.kind)?;
    let mobile = WholeNumber {
        value: filing.mobile,
    };
    append_next(text, &mobile)?;
    append_next(text, &filing.flags)?;
    append_next(text, &filing.on)
}

// Appends a structure, a comma before each field.
#[tactic(auto, using(grid_exact::proofs::Extending::extending))]
fn append_site(text: &mut String, filing: &Filing) -> Result<(), NoMemory>
    ensures ok { OnOk result (string_bytes text.new
        ≡ string_bytes text.old ++ with_commas (site_fields filing.now)) }
    ensures part { OnErr result (Extends (string_bytes text.old) (string_bytes text.new)) }
{
    append_stand(text, filing)?;
    append_use(text, filing)
}

// Appends a notice; the row begins with it.
#[tactic(auto, using(grid_exact::proofs::Extending::extending))]
fn append_submission(text: &mut String, submission: &Submission) -> Result<(), NoMemory>
    ensures ok { OnOk result (string_bytes text.new
        ≡ string_bytes text.old ++ joined (submission_fields submission.now)) }
    ensures part { OnErr result (Extends (string_bytes text.old) (string_bytes text.new)) }
{
    submission.start.append(text)?;
    append_next(text, &submission.permit)?;
    append_next(text, &submission.fcc)?;
    let urgency = Urgency {
        emergency: submission.emergency,
    };
    append_next(text, &urgency)?;
    let statement = Statement {
        explains: submission.statement,
    };
    append_next(text, &statement)?;
    append_site(text, &submission.filing)
}

fn end_word(end: Option<End>) -> &'static str
    ensures { result.now ≡ ended_word end }
{
    match end {
        None => "-",
        Some(End::Abandoned) => "abandoned",
        Some(End::Reversed) => "reversed",
    }
}

fn pending_word(pending: bool) -> &'static str
    ensures { result.now ≡ pends_word pending }
{
    if pending { "pending" } else { "-" }
}

// Appends a determination's decision, the version of its list, and its first days, a comma before each field.
#[tactic(auto, using(grid_exact::proofs::Extending::extending))]
fn append_issue(text: &mut String, determination: &Record, kept: &KeptList) -> Result<(), NoMemory>
    ensures ok { OnOk result (string_bytes text.new
        ≡ string_bytes text.old ++ with_commas
        (decided_word determination.now.decision ∷ decimal kept.now.last
        ∷ date_text determination.now.issued ∷ optional_date determination.now.deadline ∷ date_text determination.now.ordinary ∷ [])) }
    ensures part { OnErr result (Extends (string_bytes text.old) (string_bytes text.new)) }
{
    append_next_word(text, decision_word(determination.decision))?;
    append_next_number(text, kept.last)?;
    append_next(text, &determination.issued)?;
    append_next(text, &determination.deadline)?;
    append_next(text, &determination.ordinary)
}

// Appends the later fields of a determination, a comma before each.
#[tactic(auto, using(grid_exact::proofs::Extending::extending))]
fn append_course(text: &mut String, determination: &Record) -> Result<(), NoMemory>
    ensures ok { OnOk result (string_bytes text.new
        ≡ string_bytes text.old ++ with_commas (pends_word determination.now.pending
        ∷ optional_date determination.now.affirmed ∷ optional_date determination.now.set_expiry ∷ decimal determination.now.extensions
        ∷ decimal determination.now.revisions ∷ [])) }
    ensures part { OnErr result (Extends (string_bytes text.old) (string_bytes text.new)) }
{
    append_next_word(text, pending_word(determination.pending))?;
    append_next(text, &determination.affirmed)?;
    append_next(text, &determination.set_expiry)?;
    append_next_number(text, u64::from(determination.extensions))?;
    append_next_number(text, u64::from(determination.revisions))
}

// Appends a determination and its list, a comma before each field.
#[tactic(auto, using(grid_exact::proofs::Extending::extending))]
fn append_determination(
    text: &mut String,
    determination: &Record,
    kept: &KeptList,
) -> Result<(), NoMemory>
    ensures ok { OnOk result (string_bytes text.new ≡ string_bytes text.old
        ++ with_commas (decided_word determination.now.decision ∷
        (record_fields determination.now kept.now.last ++ list_fields kept.now.list))) }
    ensures part { OnErr result (Extends (string_bytes text.old) (string_bytes text.new)) }
{
    append_issue(text, determination, kept)?;
    append_course(text, determination)?;
    append_list(text, kept.list.as_slice())
}

// Appends the determination and its list, or a dash, a comma before each field.
#[tactic(auto, using(grid_exact::proofs::Extending::extending))]
fn append_judged(
    text: &mut String,
    determination: &Option<Record>,
    list: &Option<KeptList>,
) -> Result<(), NoMemory>
    ensures ok { OnOk result (string_bytes text.new
        ≡ string_bytes text.old ++ with_commas (judged_fields determination.now list.now)) }
    ensures part { OnErr result (Extends (string_bytes text.old) (string_bytes text.new)) }
{
    match (determination, list) {
        (Some(record), Some(kept)) => append_determination(text, record, kept),
        _ => append_next_word(text, "-"),
    }
}

// Appends the fields between the notice and the determination, a comma before each.
#[tactic(auto, using(grid_exact::proofs::Extending::extending))]
fn append_standing(
    text: &mut String,
    received: &Date,
    form: &Option<Date>,
    end: Option<End>,
) -> Result<(), NoMemory>
    ensures ok { OnOk result (string_bytes text.new
        ≡ string_bytes text.old ++ with_commas
        (date_text received.now ∷ optional_date form.now ∷ ended_word end ∷ [])) }
    ensures part { OnErr result (Extends (string_bytes text.old) (string_bytes text.new)) }
{
    append_next(text, received)?;
    append_next(text, form)?;
    append_next_word(text, end_word(end))
}

/// Appends the row of a case. The list is written where the determination and its list exist.
///
/// # Errors
///
/// `NoMemory` where memory was refused; a part of the row may then be appended.
#[tactic(auto, using(grid_exact::proofs::Extending::extending))]
pub fn append_filing_row(text: &mut String, case: &KeptCase) -> Result<(), NoMemory>
    ensures ok { OnOk result (string_bytes text.new
        ≡ string_bytes text.old ++ filing_row case.now) }
    ensures part { OnErr result (Extends (string_bytes text.old) (string_bytes text.new)) }
{
    append_submission(text, &case.submission)?;
    append_standing(text, &case.received, &case.form, case.life.end)?;
    append_judged(text, &case.life.determination, &case.list)
}
