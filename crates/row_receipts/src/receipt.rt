//! The rows of accepted requests.

ghost use Rattle.std.specs.Prelude.{◌≡◌, ◌↔◌, ◌++◌, IsTrue, IfSome, IfNone, IfOk, OnOk, OnErr, string_bytes};
ghost use Rattle.grid_exact.specs.Texts.{Extends};
ghost use Rattle.wire_replies.specs.Outcomes.{outcome_text};
ghost use Rattle.row_receipts.specs.Receipts.{receipt_key, receipt_row, IsReceiptRow};
ghost use Rattle.row_receipts.specs.declared.receipt.ReceiptRow.{ReceiptRow as SomeRow};

use crate::change::read_change;
use crate::cut::lines_of;
use crate::{read_number, read_outcome};
use case_records::Outcome;
use grid_exact::NoMemory;
use std::alloc::Global;
use wire_replies::{append_number, append_outcome};
use wire_requests::{Change, write_request};
use wire_values::{FieldValue, append_text};

/// An accepted request.
#[derive(Drop)]
pub struct ReceiptRow {
    /// The number of its entry.
    pub number: u64,
    /// The request.
    pub change: Change,
    /// Its outcome.
    pub outcome: Outcome,
}

/// Appends the key of an accepted request's row.
///
/// # Errors
///
/// `NoMemory` where memory was refused; a part of the key may then be appended.
#[tactic(auto, using(grid_exact::proofs::Extending::extending))]
pub fn append_receipt_key(text: &mut String, change: &Change) -> Result<(), NoMemory>
    ensures ok { OnOk result (string_bytes text.new
        ≡ string_bytes text.old ++ receipt_key change.now.caller change.now.key) }
    ensures part { OnErr result (Extends (string_bytes text.old) (string_bytes text.new)) }
{
    change.caller.append(text)?;
    append_text(text, " ")?;
    change.key.append(text)
}

// Appends the text of an outcome, as it stands in a reply but without the leading comma.
#[tactic(auto, using(grid_exact::proofs::Extending::extending))]
fn append_told(alloc: Global, text: &mut String, outcome: &Outcome) -> Result<(), NoMemory>
    ensures ok { OnOk result (string_bytes text.new
        ≡ string_bytes text.old ++ outcome_text outcome.now) }
    ensures part { OnErr result (Extends (string_bytes text.old) (string_bytes text.new)) }
{
    let mut told = String::new(alloc);
    append_outcome(&mut told, outcome)?;
    match told.as_str().strip_prefix(",") {
        Some(rest) => append_text(text, rest),
        None => unreachable!(),
    }
}

/// Appends an accepted request's row: the number of its entry, its record and its outcome.
///
/// # Errors
///
/// `NoMemory` where memory was refused; a part of the row may then be appended.
#[tactic(auto, using(grid_exact::proofs::Extending::extending))]
pub fn append_receipt_row(
    alloc: Global,
    text: &mut String,
    number: u64,
    change: &Change,
    outcome: &Outcome,
) -> Result<(), NoMemory>
    ensures ok { OnOk result (string_bytes text.new
        ≡ string_bytes text.old ++ receipt_row number change.now outcome.now) }
    ensures part { OnErr result (Extends (string_bytes text.old) (string_bytes text.new)) }
{
    append_number(text, number)?;
    append_text(text, "\n")?;
    let request = write_request(alloc, change)?;
    append_text(text, request.as_str())?;
    append_text(text, "\n")?;
    append_told(alloc, text, outcome)
}

// Whether the key is that of the request.
fn is_key(alloc: Global, key: &[u8], change: &Change) -> Result<bool, NoMemory>
    ensures { IfOk result (λ b. IsTrue b ↔ key.now ≡ receipt_key change.now.caller change.now.key) }
{
    let mut text = String::new(alloc);
    append_receipt_key(&mut text, change)?;
    Ok(text.as_str().as_bytes() == key)
}

/// Reads the accepted request of a row's key and text; `None` exactly where they are not a row.
///
/// # Errors
///
/// `NoMemory` where memory was refused.
pub fn read_receipt_row(
    alloc: Global,
    key: &[u8],
    row: &[u8],
) -> Result<Option<ReceiptRow>, NoMemory>
    ensures some { IfOk result (λ o. IfSome o (λ v. IsReceiptRow key.now row.now v)) }
    ensures none { IfOk result (λ o. IfNone o
        ((v : SomeRow) → IsReceiptRow key.now row.now v → ⊥)) }
{
    let Some(lines) = lines_of(row) else {
        return Ok(None);
    };
    let Some(number) = read_number(lines.number) else {
        return Ok(None);
    };
    let Some(change) = read_change(alloc, lines.request)? else {
        return Ok(None);
    };
    if !is_key(alloc, key, &change)? {
        return Ok(None);
    }
    let Some(outcome) = read_outcome(alloc, &change.act, lines.outcome)? else {
        return Ok(None);
    };
    Ok(Some(ReceiptRow {
        number,
        change,
        outcome,
    }))
}
