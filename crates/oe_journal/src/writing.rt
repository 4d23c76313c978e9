//! A list of changes as bytes.

ghost use Rattle.std.specs.Prelude.{◌≡◌, ◌<◌, ◌^◌, ◌++◌, [], ◌∷◌, length, IfOk, OnOk};
ghost use Rattle.oe_journal.specs.Spelling.{text, spelled_change, spelled, block, FitsText, Fits, AreChanges};
ghost use Rattle.oe_journal.specs.Frames.{lists_of};

use crate::marks::{CLOSED_GATE, OPEN_GATE, PUT, REMOVE};
use grid_exact::{NoMemory, Text};
use oe_keeper::RowChange;
use std::alloc::Global;

fn put_text(out: &mut Vec<u8>, t: &Text) -> Result<(), NoMemory>
    ensures bytes { OnOk result (out.new.items ≡ out.old.items ++ text t.now) }
    ensures fits { FitsText t.now }
{
    let bytes = t.as_str().as_bytes();
    out.extend_from_slice(&(bytes.len() as u64).to_be_bytes())?;
    out.extend_from_slice(bytes)?;
    Ok(())
}

fn put_change(out: &mut Vec<u8>, change: &RowChange) -> Result<(), NoMemory>
    ensures bytes { OnOk result (out.new.items ≡ out.old.items ++ spelled_change change.now) }
    ensures fits { OnOk result (Fits change.now) }
{
    match change {
        RowChange::Put { table, key, row } => {
            out.extend_from_slice(&[PUT, table.place()])?;
            put_text(out, key)?;
            put_text(out, row)
        }
        RowChange::Remove { table, key } => {
            out.extend_from_slice(&[REMOVE, table.place()])?;
            put_text(out, key)
        }
    }
}

fn payload_of(alloc: Global, changes: &[RowChange]) -> Result<Vec<u8>, NoMemory>
    ensures bytes { IfOk result (λ v. v.items ≡ spelled changes.now) }
    ensures fits { OnOk result (AreChanges changes.now) }
{
    let mut out = Vec::new(alloc);
    'changes: for change in changes {
        put_change(&mut out, change)?;
    }
    Ok(out)
}

/// The frame that holds the changes, with its gate open, and a closed gate behind it. Read as a file it
/// stands for this one list.
///
/// # Errors
///
/// `NoMemory` where memory was refused.
pub(crate) fn frame_of(alloc: Global, changes: &[RowChange]) -> Result<Vec<u8>, NoMemory>
    ensures bytes { IfOk result (λ v. v.items ≡ 1 ∷ block (spelled changes.now)) }
    ensures bound { OnOk result (length (spelled changes.now) < 2 ^ 63) }
    ensures fits { OnOk result (AreChanges changes.now) }
    ensures read { IfOk result (λ v. lists_of v.items ≡ changes.now ∷ []) }
{
    let payload = payload_of(alloc, changes)?;
    let mut out = Vec::new(alloc);
    out.push(OPEN_GATE)?;
    out.extend_from_slice(&(payload.len() as u64).to_be_bytes())?;
    out.extend_from_slice(&payload)?;
    out.push(CLOSED_GATE)?;
    Ok(out)
}
