//! The tables of cases.

ghost use Rattle.std.specs.Prelude.{◌≡◌, ◌++◌, OnOk, IfOk, string_bytes};
ghost use Rattle.oe_reports.specs.Tables as spec;

use crate::columns::{
    CASE_WIDTH, DECISION_WIDTH, append_gap, append_head, append_left, append_number,
};
use crate::rows::{ExpiryRow, ReviewRow};
use grid_exact::{NoMemory, Text};
use std::alloc::Global;
use wire_values::{FieldValue, ReportKind, append_text, decision_word};

/// Appends the line of a case that is marked for review.
fn append_review(text: &mut String, row: &ReviewRow) -> Result<(), NoMemory>
    ensures { OnOk result (string_bytes text.new
        ≡ string_bytes text.old ++ spec.review_line row.now) }
{
    append_number(text, CASE_WIDTH, u64::from(row.case))?;
    append_gap(text)?;
    append_left(text, DECISION_WIDTH, decision_word(row.decision))?;
    append_gap(text)?;
    row.issued.append(text)?;
    append_text(text, "\n")
}

/// Appends the line of a determination that has an expiry.
fn append_expiry(text: &mut String, row: &ExpiryRow) -> Result<(), NoMemory>
    ensures { OnOk result (string_bytes text.new
        ≡ string_bytes text.old ++ spec.expiry_line row.now) }
{
    row.expiry.append(text)?;
    append_gap(text)?;
    append_number(text, CASE_WIDTH, u64::from(row.case))?;
    append_text(text, "\n")
}

/// The report `review` of the cases marked for review, in the order of the rows.
///
/// # Errors
///
/// `NoMemory` where memory was refused.
pub fn review_table(alloc: Global, rows: &[ReviewRow]) -> Result<Text, NoMemory>
    ensures { IfOk result (λ text. text ≡ spec.review_table rows.now) }
{
    let mut text = String::new(alloc);
    append_head(&mut text, ReportKind::Review, rows.len())?;
    for row in rows {
        append_review(&mut text, row)?;
    }
    Ok(Text::from_string(text))
}

/// The report `expiry` of the determinations that have an expiry, in the order of the rows.
///
/// # Errors
///
/// `NoMemory` where memory was refused.
pub fn expiry_table(alloc: Global, rows: &[ExpiryRow]) -> Result<Text, NoMemory>
    ensures { IfOk result (λ text. text ≡ spec.expiry_table rows.now) }
{
    let mut text = String::new(alloc);
    append_head(&mut text, ReportKind::Expiry, rows.len())?;
    for row in rows {
        append_expiry(&mut text, row)?;
    }
    Ok(Text::from_string(text))
}
