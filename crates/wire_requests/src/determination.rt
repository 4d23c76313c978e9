//! The forms of determinations and of petitions for their review.

ghost use Rattle.std.specs.Prelude.{◌+◌, IfOk, IfErr};
ghost use Rattle.wire_cursor.specs.Shape.{Stops};
ghost use Rattle.wire_requests.specs.Forms.{act_shape};
ghost use Rattle.wire_requests.specs.Readings.{TookAct};
ghost use Rattle.wire_requests.specs.declared.form.ActForm.TheVariants as act_forms;

use case_requests::Act;
use wire_cursor::{BadField, Cursor};
use wire_values::{CaseNumber, Disposal};

/// Reads a determination, after caller and key.
pub(crate) fn determine(cursor: &mut Cursor<'_>) -> Result<Act, BadField>
    ensures took { IfOk result (λ a. TookAct act_forms.Determine a cursor.old cursor.new) }
    ensures stops { IfErr result (λ b. Stops (act_shape act_forms.Determine) cursor.old
        (b.before + 1)) }
{
    let case: CaseNumber = cursor.take()?;
    let finding = cursor.take()?;
    Ok(Act::Determine {
        case: case.number,
        finding,
    })
}

/// Reads a petition for review, after caller and key.
pub(crate) fn petition(cursor: &mut Cursor<'_>) -> Result<Act, BadField>
    ensures took { IfOk result (λ a. TookAct act_forms.Petition a cursor.old cursor.new) }
    ensures stops { IfErr result (λ b. Stops (act_shape act_forms.Petition) cursor.old
        (b.before + 1)) }
{
    let case: CaseNumber = cursor.take()?;
    let party = cursor.take()?;
    Ok(Act::Petition {
        case: case.number,
        party,
    })
}

/// Reads the decision on a petition, after caller and key.
pub(crate) fn dispose(cursor: &mut Cursor<'_>) -> Result<Act, BadField>
    ensures took { IfOk result (λ a. TookAct act_forms.Dispose a cursor.old cursor.new) }
    ensures stops { IfErr result (λ b. Stops (act_shape act_forms.Dispose) cursor.old
        (b.before + 1)) }
{
    let case: CaseNumber = cursor.take()?;
    let disposal: Disposal = cursor.take()?;
    Ok(Act::Dispose {
        case: case.number,
        affirm: disposal.affirm,
    })
}
