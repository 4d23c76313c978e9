//! The query forms: on a structure, a case or an airfield, for reports, and for the number of the newest entry.

ghost use Rattle.std.specs.Prelude.{◌≡◌, ◌+◌, IfOk, IfErr};
ghost use Rattle.wire_cursor.specs.Shape.{IsBad};
ghost use Rattle.wire_requests.specs.Forms.{form_word, fields_of_form};
ghost use Rattle.wire_requests.specs.Readings.{IsReading};
ghost use Rattle.wire_requests.specs.declared.form.Form.TheVariants as forms;

use crate::request::{Query, Request};
use wire_cursor::{BadField, Cursor, structure};
use wire_values::CaseNumber;

/// Reads a screening, after its word.
pub(crate) fn screen(cursor: &mut Cursor<'_>) -> Result<Request, BadField>
    requires { cursor.old.before ≡ form_word forms.Screen }
    ensures read { IfOk result (λ r. IsReading forms.Screen r cursor.old) }
    ensures bad { IfErr result (λ b. IsBad (fields_of_form forms.Screen) cursor.old
        (b.before + 1)) }
{
    let filing = structure(cursor)?;
    cursor.end()?;
    Ok(Request::Query(Query::Screen(filing)))
}

/// Reads a query for a verdict, after its word.
pub(crate) fn verdict(cursor: &mut Cursor<'_>) -> Result<Request, BadField>
    requires { cursor.old.before ≡ form_word forms.Verdict }
    ensures read { IfOk result (λ r. IsReading forms.Verdict r cursor.old) }
    ensures bad { IfErr result (λ b. IsBad (fields_of_form forms.Verdict) cursor.old
        (b.before + 1)) }
{
    let filing = structure(cursor)?;
    cursor.end()?;
    Ok(Request::Query(Query::Verdict(filing)))
}

/// Reads a query for a case, after its word.
pub(crate) fn case(cursor: &mut Cursor<'_>) -> Result<Request, BadField>
    requires { cursor.old.before ≡ form_word forms.Case }
    ensures read { IfOk result (λ r. IsReading forms.Case r cursor.old) }
    ensures bad { IfErr result (λ b. IsBad (fields_of_form forms.Case) cursor.old (b.before + 1)) }
{
    let case: CaseNumber = cursor.take()?;
    cursor.end()?;
    Ok(Request::Query(Query::Case(case.number)))
}

/// Reads a query for an airfield, after its word.
pub(crate) fn airfield(cursor: &mut Cursor<'_>) -> Result<Request, BadField>
    requires { cursor.old.before ≡ form_word forms.Airfield }
    ensures read { IfOk result (λ r. IsReading forms.Airfield r cursor.old) }
    ensures bad { IfErr result (λ b. IsBad (fields_of_form forms.Airfield) cursor.old
        (b.before + 1)) }
{
    let id = cursor.take()?;
    cursor.end()?;
    Ok(Request::Query(Query::Airfield(id)))
}

/// Reads a query for the cases that are marked for review, after its word.
pub(crate) fn review(cursor: &mut Cursor<'_>) -> Result<Request, BadField>
    requires { cursor.old.before ≡ form_word forms.Review }
    ensures read { IfOk result (λ r. IsReading forms.Review r cursor.old) }
    ensures bad { IfErr result (λ b. IsBad (fields_of_form forms.Review) cursor.old
        (b.before + 1)) }
{
    cursor.end()?;
    Ok(Request::Query(Query::Review))
}

/// Reads a query for a report, after its word.
pub(crate) fn report(cursor: &mut Cursor<'_>) -> Result<Request, BadField>
    requires { cursor.old.before ≡ form_word forms.Report }
    ensures read { IfOk result (λ r. IsReading forms.Report r cursor.old) }
    ensures bad { IfErr result (λ b. IsBad (fields_of_form forms.Report) cursor.old
        (b.before + 1)) }
{
    let kind = cursor.take()?;
    cursor.end()?;
    Ok(Request::Query(Query::Report(kind)))
}

/// Reads a query for the number of the newest entry, after its word.
pub(crate) fn sync(cursor: &mut Cursor<'_>) -> Result<Request, BadField>
    requires { cursor.old.before ≡ form_word forms.Sync }
    ensures read { IfOk result (λ r. IsReading forms.Sync r cursor.old) }
    ensures bad { IfErr result (λ b. IsBad (fields_of_form forms.Sync) cursor.old (b.before + 1)) }
{
    cursor.end()?;
    Ok(Request::Query(Query::Sync))
}
