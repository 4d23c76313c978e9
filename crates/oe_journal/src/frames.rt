//! The rows that the bytes of a file stand for.

ghost use Rattle.std.specs.Prelude.{◌≡◌, ◌≤◌, ◌++◌, [], ◌∷◌, IfOk, OnOk, OnErr, Some, None, length, drop, option_copied, if◌then◌else◌};
ghost use Rattle.oe_keeper.specs.Kept.{rows_after_change, rows_after_changes};
ghost use Rattle.oe_journal.specs.Frames.{counts, first_of, damaged, list_of, rows_of, extent};

use crate::error::ReadError;
use crate::marks::OPEN_GATE;
use crate::parsing::changes_in;
use grid_exact::{NoMemory, Text};
use oe_keeper::{RowChange, Table, Tables};
use std::alloc::Global;

/// The payload of the first frame, where that counts.
#[tactic(auto, unfolding(crate::specs::Frames::counts, crate::specs::Frames::size_at))]
fn first_payload(file: &[u8]) -> Option<&[u8]>
    ensures payload { option_copied result ≡ first_of file.now }
{
    if file.len() < 10 || file[0] != OPEN_GATE {
        return None;
    }
    let size = u64::from_be_bytes([
        file[1], file[2], file[3], file[4], file[5], file[6], file[7], file[8],
    ]);
    let rest = &file[9..];
    if size < rest.len() as u64 {
        Some(&rest[..size as usize])
    } else {
        None
    }
}

/// Puts the row that stands for a damaged frame.
fn put_damaged(alloc: Global, tables: &mut Tables, place: usize) -> Result<(), NoMemory>
    ensures { OnOk result (tables.new ≡ rows_after_change tables.old (damaged place)) }
{
    let mut key = String::new(alloc);
    key.push_str("damaged ")?;
    key.push_str(place.to_string(alloc)?.as_str())?;
    let change = RowChange::Put {
        table: Table::Desk,
        key: Text::from_string(key),
        row: Text::from_str(alloc, "-")?,
    };
    tables.change(alloc, &change)
}

/// Makes the changes, in order.
fn change_all(alloc: Global, tables: &mut Tables, changes: &[RowChange]) -> Result<(), NoMemory>
    ensures { OnOk result (tables.new ≡ rows_after_changes tables.old changes.now) }
{
    'changes: for change in changes {
        tables.change(alloc, change)?;
    }
    Ok(())
}

/// Makes the changes that a frame stands for.
fn change_by(
    alloc: Global,
    tables: &mut Tables,
    place: usize,
    payload: &[u8],
) -> Result<(), NoMemory>
    ensures { OnOk result
        (tables.new ≡ rows_after_changes tables.old (list_of (place, payload.now))) }
{
    match changes_in(alloc, payload) {
        Ok(changes) => change_all(alloc, tables, &changes),
        Err(ReadError::Malformed) => put_damaged(alloc, tables, place),
        Err(ReadError::Memory) => Err(NoMemory),
    }
}

/// The rows that the bytes stand for, and the place of the first gate that does not count.
///
/// # Errors
///
/// `NoMemory` where memory was refused.
pub(crate) fn rows_in(alloc: Global, file: &[u8]) -> Result<(Tables, usize), NoMemory>
    ensures rows { IfOk result (λ r. r.0 ≡ rows_of file.now) }
    ensures end { IfOk result (λ r. r.1 ≡ extent file.now) }
    ensures within { IfOk result (λ r. r.1 ≤ length file.now) }
{
    let mut tables = Tables::empty(alloc);
    let mut end = 0;
    'frames: while let Some(payload) = first_payload(&file[end..]) {
        change_by(alloc, &mut tables, end, payload)?;
        end += 9 + payload.len();
    }
    Ok((tables, end))
}
