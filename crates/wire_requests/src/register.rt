//! The forms that change the register of airfields or the days of the desk.

ghost use Rattle.std.specs.Prelude.{◌+◌, IfOk, IfErr};
ghost use Rattle.wire_cursor.specs.Shape.{Stops};
ghost use Rattle.wire_requests.specs.Forms.{plain_shape};
ghost use Rattle.wire_requests.specs.Readings.{TookAct};
ghost use Rattle.wire_requests.specs.declared.form.ActForm.TheVariants as act_forms;

use airfields::{Heliport, Runway};
use airport_register::Amendment;
use case_requests::Act;
use wire_cursor::{BadField, Cursor, point, runway_end};
use wire_values::{Pavement, Plain, Weight};

/// Reads the fields after caller and key of a form whose accepted reply holds nothing but the form's name.
pub(crate) fn plain_act(cursor: &mut Cursor<'_>, form: Plain) -> Result<Act, BadField>
    ensures took { IfOk result (λ a. TookAct (act_forms.Plain form) a cursor.old cursor.new) }
    ensures stops { IfErr result (λ b. Stops (plain_shape form) cursor.old (b.before + 1)) }
{
    match form {
        Plain::Airport => airport(cursor),
        Plain::Runway => runway(cursor),
        Plain::DropRunway => drop_runway(cursor),
        Plain::Heliport => heliport(cursor),
        Plain::Drop => drop_airfield(cursor),
        Plain::Day => day(cursor),
        Plain::Closed => closed(cursor),
    }
}

fn airport(cursor: &mut Cursor<'_>) -> Result<Act, BadField>
    ensures took { IfOk result (λ a. TookAct
        (act_forms.Plain Plain.Airport) a cursor.old cursor.new) }
    ensures stops { IfErr result (λ b. Stops (plain_shape Plain.Airport) cursor.old
        (b.before + 1)) }
{
    let id = cursor.take()?;
    let category = cursor.take()?;
    let arp = point(cursor)?;
    let elevation = cursor.whole()?;
    Ok(Act::Amend(Amendment::PutAirport {
        id,
        category,
        arp,
        elevation,
    }))
}

fn runway(cursor: &mut Cursor<'_>) -> Result<Act, BadField>
    ensures took { IfOk result (λ a. TookAct
        (act_forms.Plain Plain.Runway) a cursor.old cursor.new) }
    ensures stops { IfErr result (λ b. Stops (plain_shape Plain.Runway) cursor.old (b.before + 1)) }
{
    let id = cursor.take()?;
    let name = cursor.take()?;
    let weight: Weight = cursor.take()?;
    let pavement: Pavement = cursor.take()?;
    let end1 = runway_end(cursor)?;
    let end2 = runway_end(cursor)?;
    let runway = Runway {
        name,
        utility: weight.utility,
        hard: pavement.hard,
        end1,
        end2,
    };
    Ok(Act::Amend(Amendment::PutRunway { id, runway }))
}

fn drop_runway(cursor: &mut Cursor<'_>) -> Result<Act, BadField>
    ensures took { IfOk result (λ a. TookAct
        (act_forms.Plain Plain.DropRunway) a cursor.old cursor.new) }
    ensures stops { IfErr result (λ b. Stops (plain_shape Plain.DropRunway) cursor.old
        (b.before + 1)) }
{
    let id = cursor.take()?;
    let name = cursor.take()?;
    Ok(Act::Amend(Amendment::DropRunway { id, name }))
}

fn heliport(cursor: &mut Cursor<'_>) -> Result<Act, BadField>
    ensures took { IfOk result (λ a. TookAct
        (act_forms.Plain Plain.Heliport) a cursor.old cursor.new) }
    ensures stops { IfErr result (λ b. Stops (plain_shape Plain.Heliport) cursor.old
        (b.before + 1)) }
{
    let id = cursor.take()?;
    let category = cursor.take()?;
    let a = point(cursor)?;
    let b = point(cursor)?;
    let width = cursor.whole()?;
    let elevation = cursor.whole()?;
    Ok(Act::Amend(Amendment::PutHeliport(Heliport {
        id,
        category,
        a,
        b,
        width,
        elevation,
    })))
}

fn drop_airfield(cursor: &mut Cursor<'_>) -> Result<Act, BadField>
    ensures took { IfOk result (λ a. TookAct (act_forms.Plain Plain.Drop) a cursor.old cursor.new) }
    ensures stops { IfErr result (λ b. Stops (plain_shape Plain.Drop) cursor.old (b.before + 1)) }
{
    let id = cursor.take()?;
    Ok(Act::Amend(Amendment::Drop(id)))
}

fn day(cursor: &mut Cursor<'_>) -> Result<Act, BadField>
    ensures took { IfOk result (λ a. TookAct (act_forms.Plain Plain.Day) a cursor.old cursor.new) }
    ensures stops { IfErr result (λ b. Stops (plain_shape Plain.Day) cursor.old (b.before + 1)) }
{
    let date = cursor.take()?;
    Ok(Act::Day(date))
}

fn closed(cursor: &mut Cursor<'_>) -> Result<Act, BadField>
    ensures took { IfOk result (λ a. TookAct
        (act_forms.Plain Plain.Closed) a cursor.old cursor.new) }
    ensures stops { IfErr result (λ b. Stops (plain_shape Plain.Closed) cursor.old (b.before + 1)) }
{
    let date = cursor.take()?;
    Ok(Act::Closed(date))
}
