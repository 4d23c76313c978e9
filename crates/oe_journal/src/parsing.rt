//! A list of changes from its bytes.

ghost use Rattle.std.specs.Prelude.{◌≡◌, Some, None, List, IfOk, length, option_copied, if◌then◌else◌};
ghost use Rattle.std.specs.Str.{is_utf8};
ghost use Rattle.oe_keeper.specs.declared.change.RowChange.{RowChange as Change};
ghost use Rattle.oe_journal.specs.Spelling.{Spells};
ghost use Rattle.oe_journal.specs.Reading.{Gives, IfMalformed, number_at, utf8_at, text_at, table_at, put_at, removal_at, change_at, changes_of};

use crate::error::ReadError;
use crate::marks::{PUT, REMOVE};
use grid_exact::Text;
use oe_keeper::{RowChange, Table};
use std::alloc::Global;
use std::str;

fn number_of(bytes: &[u8]) -> Result<(u64, &[u8]), ReadError>
    ensures { Gives (λ x. (x.0, x.1.now)) result (number_at bytes.now) }
{
    if bytes.len() < 8 {
        return Err(ReadError::Malformed);
    }
    let (front, rest) = bytes.split_at(8);
    let number = u64::from_be_bytes([
        front[0], front[1], front[2], front[3], front[4], front[5], front[6], front[7],
    ]);
    Ok((number, rest))
}

fn utf8_of(bytes: &[u8]) -> Result<&str, ReadError>
    ensures { Gives (λ x. x.now) result (utf8_at bytes.now) }
{
    match str::from_utf8(bytes) {
        Ok(text) => Ok(text),
        Err(_) => Err(ReadError::Malformed),
    }
}

#[tactic(auto, unfolding(crate::specs::Reading::text_at))]
fn text_of(alloc: Global, bytes: &[u8]) -> Result<(Text, &[u8]), ReadError>
    ensures { Gives (λ x. (x.0, x.1.now)) result (text_at bytes.now) }
{
    let (len, rest) = number_of(bytes)?;
    if (rest.len() as u64) < len {
        return Err(ReadError::Malformed);
    }
    let (text, after) = rest.split_at(len as usize);
    let text = utf8_of(text)?;
    Ok((Text::from_str(alloc, text)?, after))
}

fn table_of(byte: u8) -> Result<Table, ReadError>
    ensures { Gives (λ x. x) result (table_at byte) }
{
    match byte {
        0 => Ok(Table::Airfield),
        1 => Ok(Table::Runway),
        2 => Ok(Table::Desk),
        3 => Ok(Table::Filing),
        4 => Ok(Table::Receipt),
        _ => Err(ReadError::Malformed),
    }
}

#[tactic(auto, unfolding(crate::specs::Reading::put_at))]
fn put_of(alloc: Global, place: u8, bytes: &[u8]) -> Result<(RowChange, &[u8]), ReadError>
    ensures { Gives (λ x. (x.0, x.1.now)) result (put_at place bytes.now) }
{
    let table = table_of(place)?;
    let (key, rest) = text_of(alloc, bytes)?;
    let (row, rest) = text_of(alloc, rest)?;
    Ok((RowChange::Put { table, key, row }, rest))
}

#[tactic(auto, unfolding(crate::specs::Reading::removal_at))]
fn removal_of(alloc: Global, place: u8, bytes: &[u8]) -> Result<(RowChange, &[u8]), ReadError>
    ensures { Gives (λ x. (x.0, x.1.now)) result (removal_at place bytes.now) }
{
    let table = table_of(place)?;
    let (key, rest) = text_of(alloc, bytes)?;
    Ok((RowChange::Remove { table, key }, rest))
}

#[tactic(auto, unfolding(crate::specs::Reading::change_at))]
fn change_of(alloc: Global, bytes: &[u8]) -> Result<(RowChange, &[u8]), ReadError>
    ensures { Gives (λ x. (x.0, x.1.now)) result (change_at bytes.now) }
{
    match bytes {
        [letter, place, rest @ ..] => {
            if *letter == PUT {
                put_of(alloc, *place, rest)
            } else if *letter == REMOVE {
                removal_of(alloc, *place, rest)
            } else {
                Err(ReadError::Malformed)
            }
        }
        _ => Err(ReadError::Malformed),
    }
}

/// The changes that the bytes spell, all of the bytes.
pub(crate) fn changes_in(alloc: Global, bytes: &[u8]) -> Result<Vec<RowChange>, ReadError>
    ensures read { Gives (λ v. v.items) result (changes_of bytes.now) }
    ensures spelled { IfOk result (λ v. Spells bytes.now v.items) }
    ensures malformed { IfMalformed result ((changes : List Change) → Spells bytes.now changes → ⊥) }
{
    let mut changes = Vec::new(alloc);
    let mut rest = bytes;
    'rest: while !rest.is_empty() {
        let (change, after) = change_of(alloc, rest)?;
        changes.push(change)?;
        rest = after;
    }
    Ok(changes)
}
