//! The forms for notices.

ghost use Rattle.std.specs.Prelude.{◌+◌, IfOk, IfErr};
ghost use Rattle.wire_cursor.specs.Shape.{Stops};
ghost use Rattle.wire_requests.specs.Forms.{act_shape};
ghost use Rattle.wire_requests.specs.Readings.{TookAct};
ghost use Rattle.wire_requests.specs.declared.form.ActForm.TheVariants as act_forms;

use case_requests::{Act, Submission};
use wire_cursor::{BadField, Cursor, structure};
use wire_values::{CaseNumber, Statement, Urgency};

/// Reads a notice, after caller and key.
pub(crate) fn file(cursor: &mut Cursor<'_>) -> Result<Act, BadField>
    ensures took { IfOk result (λ a. TookAct act_forms.File a cursor.old cursor.new) }
    ensures stops { IfErr result (λ b. Stops (act_shape act_forms.File) cursor.old (b.before + 1)) }
{
    let start = cursor.take()?;
    let permit = cursor.take()?;
    let fcc = cursor.take()?;
    let urgency: Urgency = cursor.take()?;
    let statement: Statement = cursor.take()?;
    let filing = structure(cursor)?;
    Ok(Act::File(Submission {
        start,
        permit,
        fcc,
        emergency: urgency.emergency,
        statement: statement.explains,
        filing,
    }))
}

/// Reads the form of an emergency notice, after caller and key.
pub(crate) fn form_came(cursor: &mut Cursor<'_>) -> Result<Act, BadField>
    ensures took { IfOk result (λ a. TookAct act_forms.Form a cursor.old cursor.new) }
    ensures stops { IfErr result (λ b. Stops (act_shape act_forms.Form) cursor.old (b.before + 1)) }
{
    let case: CaseNumber = cursor.take()?;
    Ok(Act::Form(case.number))
}
