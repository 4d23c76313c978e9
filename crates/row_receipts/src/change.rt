//! Reads changes from their canonical records.

ghost use Rattle.std.specs.Prelude.{◌≡◌, ◌≢◌, ◌↔◌, IsTrue, IfSome, IfNone, IfOk};
ghost use Rattle.wire_values.specs.Commas.{joined};
ghost use Rattle.wire_requests.specs.Changes.{Asked};
ghost use Rattle.wire_requests.specs.Limits.{IsChangeRecord};
ghost use Rattle.wire_requests.specs.Spellings.{change_spelling};
ghost use Rattle.wire_requests.specs.Requests.{IsRecord};
ghost use Rattle.wire_requests.specs.declared.request.Request.TheVariants as requests;

use grid_exact::NoMemory;
use std::alloc::Global;
use wire_requests::{Change, ReadRefusal, Request, read_record, write_request};

// The request as a change; `None` for a query.
fn change_of(request: Request) -> Option<Change>
    ensures some { IfSome result (λ c. request ≡ requests.Change c) }
    ensures none { IfNone result ((c : Asked) → request ≢ requests.Change c) }
{
    match request {
        Request::Change(change) => Some(change),
        Request::Query(_) => None,
    }
}

// Reads a line as the record of a change.
fn recorded(alloc: Global, line: &[u8]) -> Result<Option<Change>, NoMemory>
    ensures some { IfOk result (λ o. IfSome o (λ c. IsRecord line.now (requests.Change c))) }
    ensures none { IfOk result (λ o. IfNone o
        ((c : Asked) → IsRecord line.now (requests.Change c) → ⊥)) }
{
    match read_record(alloc, line) {
        Ok(request) => Ok(change_of(request)),
        Err(ReadRefusal::Malformed { .. }) => Ok(None),
        Err(ReadRefusal::NoMemory) => Err(NoMemory),
    }
}

// Whether the line is exactly the canonical record of a change.
fn is_written(alloc: Global, line: &[u8], change: &Change) -> Result<bool, NoMemory>
    ensures { IfOk result (λ b. IsTrue b ↔ line.now ≡ joined (change_spelling change.now)) }
{
    let written = write_request(alloc, change)?;
    Ok(written.as_str().as_bytes() == line)
}

/// Reads a line as the canonical record of a change.
///
/// # Errors
///
/// `NoMemory` where memory was refused.
pub(crate) fn read_change(alloc: Global, line: &[u8]) -> Result<Option<Change>, NoMemory>
    ensures told { IfOk result (λ o. IfSome o (λ c. line.now ≡ joined (change_spelling c))) }
    ensures good { IfOk result (λ o. IfSome o (λ c. IsChangeRecord c)) }
    ensures none { IfOk result (λ o. IfNone o
        ((c : Asked) → IsChangeRecord c → line.now ≢ joined (change_spelling c))) }
{
    let Some(change) = recorded(alloc, line)? else {
        return Ok(None);
    };
    if is_written(alloc, line, &change)? {
        change.has_record();
        Ok(Some(change))
    } else {
        Ok(None)
    }
}
