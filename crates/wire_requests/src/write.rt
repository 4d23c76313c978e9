//! Writes changes as records.

ghost use Rattle.std.specs.Prelude.{◌≡◌, ◌++◌, ◌∷◌, [], is_some, IfOk, OnOk, string_bytes, codes};
ghost use Rattle.std.specs.Fmt.{decimal, signed_decimal};
ghost use Rattle.wire_values.specs.Words.{category_word, progress_word, warrant_word, grant_word, impact_word, optional_date};
ghost use Rattle.wire_values.specs.Commas.{joined, with_commas};
ghost use Rattle.wire_cursor.specs.Groups.{point_fields, end_fields, site_fields};
ghost use Rattle.wire_requests.specs.Spellings.{heliport_fields, runway_fields, amendment_fields, submission_fields, act_fields, change_spelling};
ghost use Rattle.wire_requests.specs.Requests.{IsRecord};
ghost use Rattle.wire_requests.specs.declared.request.Request.TheVariants as requests;

use crate::{Act, Change, Impact, Submission, act_form};
use airfields::{Category, FieldId, Filing, Heliport, Runway, RunwayEnd};
use airport_register::Amendment;
use grid_exact::{NoMemory, Point, Text};
use jiff::civil::Date;
use std::alloc::Global;
use wire_values::{
    Approaches, CaseNumber, Disposal, Grant, Months, Pavement, Progress, Statement, Urgency,
    Warrant, Weight, WholeNumber, append_next, append_text,
};

// Appends a number. By reference, so that the callers' proofs see the number itself and not its 64 bits.
fn append_number(text: &mut String, number: &i64) -> Result<(), NoMemory>
    ensures { OnOk result (string_bytes text.new
        ≡ string_bytes text.old ++ (codes "," ++ signed_decimal number.now)) }
{
    append_next(text, &WholeNumber { value: *number })
}

// Appends a point.
fn append_point(text: &mut String, point: &Point) -> Result<(), NoMemory>
    ensures { OnOk result (string_bytes text.new
        ≡ string_bytes text.old ++ with_commas (point_fields point.now)) }
{
    append_number(text, &point.x)?;
    append_number(text, &point.y)?;
    Ok(())
}

// Appends an end of a runway.
fn append_end(text: &mut String, end: &RunwayEnd) -> Result<(), NoMemory>
    ensures { OnOk result (string_bytes text.new
        ≡ string_bytes text.old ++ with_commas (end_fields end.now)) }
{
    append_point(text, &end.at)?;
    append_number(text, &end.z)?;
    append_next(
        text,
        &Approaches {
            kind: end.kind,
            planned: end.planned,
        },
    )?;
    Ok(())
}

// Appends a runway.
fn append_runway(text: &mut String, runway: &Runway) -> Result<(), NoMemory>
    ensures { OnOk result (string_bytes text.new
        ≡ string_bytes text.old ++ with_commas (runway_fields runway.now)) }
{
    append_next(text, &runway.name)?;
    append_next(
        text,
        &Weight {
            utility: runway.utility,
        },
    )?;
    append_next(text, &Pavement { hard: runway.hard })?;
    append_end(text, &runway.end1)?;
    append_end(text, &runway.end2)?;
    Ok(())
}

// Appends the name and the category of an airfield.
fn append_airfield(text: &mut String, id: &FieldId, category: &Category) -> Result<(), NoMemory>
    ensures { OnOk result (string_bytes text.new
        ≡ string_bytes text.old ++ with_commas (id.now ∷ category_word category.now ∷ [])) }
{
    append_next(text, id)?;
    append_next(text, category)?;
    Ok(())
}

// Appends a heliport.
fn append_heliport(text: &mut String, heliport: &Heliport) -> Result<(), NoMemory>
    ensures { OnOk result (string_bytes text.new
        ≡ string_bytes text.old ++ with_commas (heliport_fields heliport.now)) }
{
    append_airfield(text, &heliport.id, &heliport.category)?;
    append_point(text, &heliport.a)?;
    append_point(text, &heliport.b)?;
    append_number(text, &heliport.width)?;
    append_number(text, &heliport.elevation)?;
    Ok(())
}

// Appends the fields of an amendment.
fn append_amendment(text: &mut String, amendment: &Amendment) -> Result<(), NoMemory>
    ensures { OnOk result (string_bytes text.new
        ≡ string_bytes text.old ++ with_commas (amendment_fields amendment.now)) }
{
    match amendment {
        Amendment::PutAirport {
            id,
            category,
            arp,
            elevation,
        } => {
            append_airfield(text, id, category)?;
            append_point(text, arp)?;
            append_number(text, elevation)?;
            Ok(())
        }
        Amendment::PutRunway { id, runway } => {
            append_next(text, id)?;
            append_runway(text, runway)?;
            Ok(())
        }
        Amendment::DropRunway { id, name } => {
            append_next(text, id)?;
            append_next(text, name)?;
            Ok(())
        }
        Amendment::PutHeliport(heliport) => append_heliport(text, heliport),
        Amendment::Drop(id) => append_next(text, id),
    }
}

// Appends the point and the height of a structure.
fn append_place(text: &mut String, filing: &Filing) -> Result<(), NoMemory>
    ensures { OnOk result (string_bytes text.new ≡ string_bytes text.old ++ with_commas (
        signed_decimal filing.now.at.x ∷ signed_decimal filing.now.at.y ∷ signed_decimal filing.now.terrain ∷ signed_decimal filing.now.height ∷ [])) }
{
    append_point(text, &filing.at)?;
    append_number(text, &filing.ground)?;
    append_number(text, &filing.height)?;
    Ok(())
}

// Appends a structure.
fn append_structure(text: &mut String, filing: &Filing) -> Result<(), NoMemory>
    ensures { OnOk result (string_bytes text.new
        ≡ string_bytes text.old ++ with_commas (site_fields filing.now)) }
{
    append_place(text, filing)?;
    append_next(text, &filing.kind)?;
    append_number(text, &filing.mobile)?;
    append_next(text, &filing.flags)?;
    append_next(text, &filing.on)?;
    Ok(())
}

// Appends a notice.
fn append_submission(text: &mut String, submission: &Submission) -> Result<(), NoMemory>
    ensures { OnOk result (string_bytes text.new
        ≡ string_bytes text.old ++ with_commas (submission_fields submission.now)) }
{
    append_next(text, &submission.start)?;
    append_next(text, &submission.permit)?;
    append_next(text, &submission.fcc)?;
    append_next(
        text,
        &Urgency {
            emergency: submission.emergency,
        },
    )?;
    append_next(
        text,
        &Statement {
            explains: submission.statement,
        },
    )?;
    append_structure(text, &submission.filing)?;
    Ok(())
}

// Appends a case number.
fn append_case(text: &mut String, case: u32) -> Result<(), NoMemory>
    ensures { OnOk result (string_bytes text.new
        ≡ string_bytes text.old ++ (codes "," ++ decimal case)) }
{
    append_next(text, &CaseNumber { number: case })
}

// Appends an extension.
fn append_extension(
    text: &mut String,
    months: u8,
    started: bool,
    filed: &Option<Date>,
    warranted: bool,
) -> Result<(), NoMemory>
    ensures { OnOk result (string_bytes text.new ≡ string_bytes text.old
        ++ with_commas
        (decimal months ∷ progress_word started ∷ optional_date filed.now ∷ warrant_word warranted ∷ [])) }
{
    append_next(text, &Months { count: months })?;
    append_next(text, &Progress { started })?;
    append_next(text, filed)?;
    append_next(text, &Warrant { warranted })?;
    Ok(())
}

// Appends the new facts of a revision, and the finding on them.
fn append_revision(
    text: &mut String,
    started: bool,
    ground: &i64,
    height: &i64,
    finding: &Option<Impact>,
) -> Result<(), NoMemory>
    ensures { OnOk result (string_bytes text.new ≡ string_bytes text.old
        ++ with_commas
        (progress_word started ∷ signed_decimal ground.now ∷ signed_decimal height.now ∷ impact_word finding.now ∷ [])) }
{
    append_next(text, &Progress { started })?;
    append_number(text, ground)?;
    append_number(text, height)?;
    append_next(text, finding)?;
    Ok(())
}

// Appends the FCC's decision.
fn append_grant(text: &mut String, completion: &Option<Date>) -> Result<(), NoMemory>
    ensures { OnOk result (string_bytes text.new
        ≡ string_bytes text.old ++ with_commas
        (grant_word (is_some completion.now) ∷ optional_date completion.now ∷ [])) }
{
    append_next(
        text,
        &Grant {
            granted: completion.is_some(),
        },
    )?;
    append_next(text, completion)?;
    Ok(())
}

// Appends the fields of an act.
fn append_act(text: &mut String, act: &Act) -> Result<(), NoMemory>
    ensures { OnOk result (string_bytes text.new
        ≡ string_bytes text.old ++ with_commas (act_fields act.now)) }
{
    match act {
        Act::Amend(amendment) => append_amendment(text, amendment),
        Act::Day(date) => append_next(text, date),
        Act::Closed(date) => append_next(text, date),
        Act::File(submission) => append_submission(text, submission),
        Act::Form(case) => append_case(text, *case),
        Act::Determine { case, finding } => {
            append_case(text, *case)?;
            append_next(text, finding)?;
            Ok(())
        }
        Act::Petition { case, party } => {
            append_case(text, *case)?;
            append_next(text, party)?;
            Ok(())
        }
        Act::Dispose { case, affirm } => {
            append_case(text, *case)?;
            append_next(text, &Disposal { affirm: *affirm })?;
            Ok(())
        }
        Act::Extend {
            case,
            months,
            started,
            filed,
            warranted,
        } => {
            append_case(text, *case)?;
            append_extension(text, *months, *started, filed, *warranted)?;
            Ok(())
        }
        Act::Revise {
            case,
            started,
            ground,
            height,
            finding,
        } => {
            append_case(text, *case)?;
            append_revision(text, *started, ground, height, finding)?;
            Ok(())
        }
        Act::Fcc { case, completion } => {
            append_case(text, *case)?;
            append_grant(text, completion)?;
            Ok(())
        }
        Act::Abandon(case) => append_case(text, *case),
    }
}

// Appends a change.
fn append_change(text: &mut String, change: &Change) -> Result<(), NoMemory>
    ensures { OnOk result (string_bytes text.new
        ≡ string_bytes text.old ++ joined (change_spelling change.now)) }
{
    append_text(text, act_form(&change.act).word())?;
    append_next(text, &change.caller)?;
    append_next(text, &change.key)?;
    append_act(text, &change.act)?;
    Ok(())
}

/// The record of a change: its fields, joined by commas.
///
/// # Errors
///
/// `NoMemory` where memory was refused.
pub fn write_request(alloc: Global, change: &Change) -> Result<Text, NoMemory>
    ensures text { IfOk result (λ t. t ≡ joined (change_spelling change.now)) }
    ensures canonical { IfOk result (λ t. IsRecord t (requests.Change change.now)) }
{
    change.has_record();
    let mut text = String::new(alloc);
    append_change(&mut text, change)?;
    Ok(Text::from_string(text))
}
