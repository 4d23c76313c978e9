//! Reads changes, after the word of their form.

ghost use Rattle.std.specs.Prelude.{◌≡◌, ◌+◌, IfOk, IfErr};
ghost use Rattle.wire_cursor.specs.Shape.{Stops, IsBad};
ghost use Rattle.wire_requests.specs.Forms.{act_word, act_shape, fields_of_form};
ghost use Rattle.wire_requests.specs.Readings.{TookAct, IsReading};
ghost use Rattle.wire_requests.specs.declared.form.Form.TheVariants as forms;

use crate::determination::{determine, dispose, petition};
use crate::extension::{abandon, extend, fcc, revise};
use crate::filing::{file, form_came};
use crate::form::ActForm;
use crate::register::plain_act;
use crate::request::{Change, Request};
use case_requests::Act;
use wire_cursor::{BadField, Cursor};

/// Reads a change, after the word of its form.
pub(crate) fn change(cursor: &mut Cursor<'_>, form: ActForm) -> Result<Request, BadField>
    requires { cursor.old.before ≡ act_word form }
    ensures read { IfOk result (λ r. IsReading (forms.Act form) r cursor.old) }
    ensures bad { IfErr result (λ b. IsBad (fields_of_form (forms.Act form)) cursor.old
        (b.before + 1)) }
{
    let caller = cursor.take()?;
    let key = cursor.take()?;
    let act = act(cursor, form)?;
    cursor.end()?;
    Ok(Request::Change(Change { caller, key, act }))
}

// Reads the fields of an act after caller and key.
fn act(cursor: &mut Cursor<'_>, form: ActForm) -> Result<Act, BadField>
    ensures took { IfOk result (λ a. TookAct form a cursor.old cursor.new) }
    ensures stops { IfErr result (λ b. Stops (act_shape form) cursor.old (b.before + 1)) }
{
    match form {
        ActForm::Plain(plain) => plain_act(cursor, plain),
        ActForm::File => file(cursor),
        ActForm::Form => form_came(cursor),
        ActForm::Determine => determine(cursor),
        ActForm::Petition => petition(cursor),
        ActForm::Dispose => dispose(cursor),
        ActForm::Extend => extend(cursor),
        ActForm::Revise => revise(cursor),
        ActForm::Fcc => fcc(cursor),
        ActForm::Abandon => abandon(cursor),
    }
}
