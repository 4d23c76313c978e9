//! The reports on the desk's cases.

ghost use Rattle.std.specs.Prelude.{◌≡◌, ◌++◌, List, OnOk, IfOk, option_to_list};
ghost use Rattle.oe_reports.specs.Tables as tables;
ghost use Rattle.oe_reports.specs.declared.rows.ExpiryRow.{ExpiryRow as AnExpiryRow};
ghost use Rattle.desk_machine.specs.Marks.{marks};
ghost use Rattle.desk_machine.specs.Reports as spec;

use crate::desk::Desk;
use case_records::CaseList;
use determination_dates::expiry;
use grid_exact::{NoMemory, Text};
use oe_reports::{ExpiryRow, ReviewRow, expiry_table, review_table};
use std::alloc::Global;

/// The row of a case: its decision and its day of issuance.
fn review_row(desk: &Desk, number: u32) -> Option<ReviewRow>
    ensures { result ≡ spec.review_row desk.now number }
{
    let case = desk.case(number)?;
    let record = case.life.determination?;
    Some(ReviewRow {
        case: number,
        decision: record.decision,
        issued: record.issued,
    })
}

/// Appends a row, if there is one.
fn put_row<T: Drop>(rows: &mut Vec<T>, row: Option<T>) -> Result<(), NoMemory>
    ensures { OnOk result (rows.new.items ≡ rows.old.items ++ option_to_list row) }
{
    if let Some(row) = row {
        rows.push(row)?;
    }
    Ok(())
}

/// The rows of the marked cases.
fn review_rows(alloc: Global, desk: &Desk, marked: &[u32]) -> Result<Vec<ReviewRow>, NoMemory>
    ensures { IfOk result (λ rows. rows.items ≡ spec.review_rows_of desk.now marked.now) }
{
    let mut rows = Vec::new(alloc);
    for number in marked {
        put_row(&mut rows, review_row(desk, *number))?;
    }
    Ok(rows)
}

/// The report of the marked cases.
///
/// # Errors
///
/// `NoMemory` where memory was refused.
pub(crate) fn review_report(alloc: Global, desk: &Desk, marked: &CaseList) -> Result<Text, NoMemory>
    requires { marked.now ≡ marks desk.now }
    ensures { IfOk result (λ text. text ≡ tables.review_table (spec.review_rows desk.now)) }
{
    let rows = review_rows(alloc, desk, marked.as_slice())?;
    review_table(alloc, rows.as_slice())
}

/// The row of a case whose determination stands on the desk's day and has an expiry.
fn expiry_row(desk: &Desk, number: u32) -> Option<ExpiryRow>
    ensures { result ≡ spec.expiry_row desk.now number }
{
    if !desk.stands(number) {
        return None;
    }
    let case = desk.case(number)?;
    let record = case.life.determination?;
    Some(ExpiryRow {
        expiry: expiry(&record)?,
        case: number,
    })
}

/// The rows of the standing determinations that have an expiry, in order of case. `NoMemory` also where a `u32` cannot count the cases.
fn expiry_rows(alloc: Global, desk: &Desk) -> Result<Vec<ExpiryRow>, NoMemory>
    ensures { IfOk result (λ rows. rows.items ≡ spec.expiry_rows desk.now) }
{
    let Ok(last) = u32::try_from(desk.cases.len()) else {
        return Err(NoMemory);
    };
    let mut rows = Vec::new(alloc);
    for place in 0..last {
        put_row(&mut rows, expiry_row(desk, place + 1))?;
    }
    Ok(rows)
}

/// The report of the standing determinations that have an expiry, by expiry, then by case.
///
/// # Errors
///
/// `NoMemory` where memory was refused.
pub(crate) fn expiry_report(alloc: Global, desk: &Desk) -> Result<Text, NoMemory>
    ensures { IfOk result (λ text. (rows : List AnExpiryRow)
        × spec.IsExpiryOrder (spec.expiry_rows desk.now) rows × (text ≡ tables.expiry_table rows)) }
{
    let mut rows = expiry_rows(alloc, desk)?;
    rows.sort_unstable();
    expiry_table(alloc, rows.as_slice())
}
