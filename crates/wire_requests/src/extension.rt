//! The forms that extend or revise a determination, record the FCC's decision, or abandon a structure.

ghost use Rattle.std.specs.Prelude.{◌+◌, IfOk, IfErr};
ghost use Rattle.wire_cursor.specs.Shape.{Stops};
ghost use Rattle.wire_requests.specs.Forms.{act_shape};
ghost use Rattle.wire_requests.specs.Readings.{TookAct};
ghost use Rattle.wire_requests.specs.declared.form.ActForm.TheVariants as act_forms;

use airfields::{ELEVATION_LEAST, ELEVATION_MOST, HEIGHT_LIMIT};
use case_requests::Act;
use wire_cursor::{BadField, Cursor};
use wire_values::{CaseNumber, Grant, Months, Progress, Warrant};

/// Reads a request for an extension, after caller and key.
pub(crate) fn extend(cursor: &mut Cursor<'_>) -> Result<Act, BadField>
    ensures took { IfOk result (λ a. TookAct act_forms.Extend a cursor.old cursor.new) }
    ensures stops { IfErr result (λ b. Stops (act_shape act_forms.Extend) cursor.old
        (b.before + 1)) }
{
    let case: CaseNumber = cursor.take()?;
    let months: Months = cursor.take()?;
    let progress: Progress = cursor.take()?;
    let filed = cursor.take()?;
    let warrant: Warrant = cursor.take()?;
    Ok(Act::Extend {
        case: case.number,
        months: months.count,
        started: progress.started,
        filed,
        warranted: warrant.warranted,
    })
}

/// Reads a request for a revision on new facts, after caller and key.
pub(crate) fn revise(cursor: &mut Cursor<'_>) -> Result<Act, BadField>
    ensures took { IfOk result (λ a. TookAct act_forms.Revise a cursor.old cursor.new) }
    ensures stops { IfErr result (λ b. Stops (act_shape act_forms.Revise) cursor.old
        (b.before + 1)) }
{
    let case: CaseNumber = cursor.take()?;
    let progress: Progress = cursor.take()?;
    let ground = cursor.number(ELEVATION_LEAST, ELEVATION_MOST)?;
    let height = cursor.number(0, HEIGHT_LIMIT)?;
    let finding = cursor.take()?;
    Ok(Act::Revise {
        case: case.number,
        started: progress.started,
        ground,
        height,
        finding,
    })
}

/// Reads the FCC's decision, after caller and key.
pub(crate) fn fcc(cursor: &mut Cursor<'_>) -> Result<Act, BadField>
    ensures took { IfOk result (λ a. TookAct act_forms.Fcc a cursor.old cursor.new) }
    ensures stops { IfErr result (λ b. Stops (act_shape act_forms.Fcc) cursor.old (b.before + 1)) }
{
    let case: CaseNumber = cursor.take()?;
    let grant: Grant = cursor.take()?;
    let completion = cursor.completion(grant.granted)?;
    Ok(Act::Fcc {
        case: case.number,
        completion,
    })
}

/// Reads that a structure is abandoned, after caller and key.
pub(crate) fn abandon(cursor: &mut Cursor<'_>) -> Result<Act, BadField>
    ensures took { IfOk result (λ a. TookAct act_forms.Abandon a cursor.old cursor.new) }
    ensures stops { IfErr result (λ b. Stops (act_shape act_forms.Abandon) cursor.old
        (b.before + 1)) }
{
    let case: CaseNumber = cursor.take()?;
    Ok(Act::Abandon(case.number))
}
