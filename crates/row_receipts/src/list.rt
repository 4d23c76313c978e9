//! Reads lists of findings.
//!
//! `row_cases` reads a list only as part of a case's row, so a list is read after the fields of a fixed, made-up case.

ghost use Rattle.std.specs.Prelude.{◌≡◌, ◌≢◌, ◌↔◌, ◌++◌, List, IfSome, IfNone, IfOk, IsTrue};
ghost use Rattle.finding_lists.specs.declared.finding.Finding.{Finding as SomeFinding};
ghost use Rattle.wire_values.specs.Commas.{with_commas};
ghost use Rattle.wire_replies.specs.Entries.{list_text};
ghost use Rattle.row_cases.specs.Entries.{IsList};
ghost use Rattle.row_receipts.specs.Fields.{frame_text as framing_text, framed_text as framed_list};

use finding_lists::Findings;
use grid_exact::NoMemory;
use row_cases::{one_filing_row, read_filing_row};
use row_register::Parts;
use std::alloc::Global;
use wire_replies::append_list;
use wire_values::append_text;

// The row of that case, up to its list.
fn frame_text() -> &'static str
    ensures { result.now ≡ framing_text }
{
    "2000-01-01,-,-,normal,-,0,0,0,0,object,0,-,-,2000-01-01,-,-,nohazard,0,2000-01-01,-,2000-01-01,-,-,-,0,0"
}

// That row, with the remaining parts appended.
fn framed(alloc: Global, parts: &mut Parts<'_>) -> Result<Vec<u8>, NoMemory>
    ensures { IfOk result (λ row. row.items ≡ framing_text ++ with_commas parts.old) }
{
    let mut row = Vec::from_slice(alloc, frame_text().as_bytes())?;
    while let Some(part) = parts.next() {
        row.push(b',')?;
        row.extend_from_slice(part)?;
    }
    Ok(row)
}

// Whether the row is that row with this list.
fn has_list(alloc: Global, row: &[u8], list: &Findings) -> Result<bool, NoMemory>
    ensures { IfOk result (λ b. IsTrue b ↔ row.now ≡ framed_list list.now) }
{
    let mut text = String::new(alloc);
    append_text(&mut text, frame_text())?;
    append_list(&mut text, list.as_slice())?;
    Ok(text.as_str().as_bytes() == row)
}

// Reads the list in that row.
fn list_in(alloc: Global, row: &[u8]) -> Result<Option<Findings>, NoMemory>
    ensures told { IfOk result (λ o. IfSome o (λ list. row.now ≡ framed_list list)) }
    ensures whole { IfOk result (λ o. IfSome o IsList) }
    ensures none { IfOk result (λ o. IfNone o
        ((list : List SomeFinding) → IsList list → row.now ≢ framed_list list)) }
{
    one_filing_row();
    let Some(read) = read_filing_row(alloc, b"000001", row)? else {
        return Ok(None);
    };
    let Some(kept) = read.case.list else {
        return Ok(None);
    };
    if has_list(alloc, row, &kept.list)? {
        Ok(Some(kept.list))
    } else {
        Ok(None)
    }
}

/// Takes the list from the remaining parts.
///
/// # Errors
///
/// `NoMemory` where memory was refused.
pub(crate) fn take_list(alloc: Global, parts: &mut Parts<'_>) -> Result<Option<Findings>, NoMemory>
    ensures told { IfOk result (λ o. IfSome o (λ list. with_commas parts.old ≡ list_text list)) }
    ensures whole { IfOk result (λ o. IfSome o IsList) }
    ensures none { IfOk result (λ o. IfNone o
        ((list : List SomeFinding) → IsList list → with_commas parts.old ≢ list_text list)) }
{
    let row = framed(alloc, parts)?;
    list_in(alloc, row.as_slice())
}
