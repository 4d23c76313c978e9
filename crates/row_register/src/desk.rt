//! The rows of the table `desk`.

ghost use Rattle.std.specs.Prelude.{◌≡◌, ◌≢◌, ◌++◌, IfSome, IfNone, OnOk, OnErr, string_bytes, codes};
ghost use Rattle.jiff_core.specs.declared.civil.date.Date.{Date as Plain};
ghost use Rattle.determination_dates.specs.Days.{IsLimited};
ghost use Rattle.determination_dates.specs.Text.{date_text};
ghost use Rattle.grid_exact.specs.Texts.{Extends};
ghost use Rattle.row_register.specs.Desk.{desk_key, desk_row, IsDeskRow};
ghost use Rattle.row_register.specs.declared.desk.DeskRow.{DeskRow as Kept};

use determination_dates::read_date;
use grid_exact::NoMemory;
use jiff::civil::Date;
use wire_values::{FieldValue, append_text};

/// A row of the table `desk`. Each date is from 1900-01-01 to 2999-12-31.
#[derive(Clone, Copy, Debug, PartialEq, Eq)]
pub enum DeskRow {
    /// The format version of the tables, 3.
    Format,
    /// The desk's day.
    Now(Date),
    /// A closed day.
    Closed(Date),
}

/// Appends the key of a row of the table `desk`.
///
/// # Errors
///
/// `NoMemory` where memory was refused; a part of the key may then be appended.
#[tactic(auto, using(grid_exact::proofs::Extending::extending))]
pub fn append_desk_key(text: &mut String, value: &DeskRow) -> Result<(), NoMemory>
    ensures ok { OnOk result (string_bytes text.new ≡ string_bytes text.old ++ desk_key value.now) }
    ensures part { OnErr result (Extends (string_bytes text.old) (string_bytes text.new)) }
{
    match value {
        DeskRow::Format => append_text(text, "format"),
        DeskRow::Now(_) => append_text(text, "now"),
        DeskRow::Closed(date) => {
            append_text(text, "closed ")?;
            date.append(text)
        }
    }
}

/// Appends a row of the table `desk`.
///
/// # Errors
///
/// `NoMemory` where memory was refused; a part of the row may then be appended.
pub fn append_desk_row(text: &mut String, value: &DeskRow) -> Result<(), NoMemory>
    ensures ok { OnOk result (string_bytes text.new ≡ string_bytes text.old ++ desk_row value.now) }
    ensures part { OnErr result (Extends (string_bytes text.old) (string_bytes text.new)) }
{
    match value {
        DeskRow::Format => append_text(text, "3"),
        DeskRow::Now(date) => date.append(text),
        DeskRow::Closed(_) => append_text(text, "-"),
    }
}

// Reads the closed day in a key.
fn closed_day(key: &[u8]) -> Option<Date>
    ensures some { IfSome result (λ d. IsLimited d × (key.now ≡ codes "closed " ++ date_text d)) }
    ensures none { IfNone result ((d : Plain) → IsLimited d
        → key.now ≢ codes "closed " ++ date_text d) }
{
    match key.strip_prefix(b"closed ".as_slice()) {
        Some(date) => read_date(date),
        None => None,
    }
}

/// Reads a row of the table `desk` from its key and text; `None` where they are not a row.
pub fn read_desk_row(key: &[u8], row: &[u8]) -> Option<DeskRow>
    ensures some { IfSome result (λ v. IsDeskRow key.now row.now v) }
    ensures none { IfNone result ((v : Kept) → IsDeskRow key.now row.now v → ⊥) }
{
    if key == b"format".as_slice() {
        return if row == b"3".as_slice() {
            Some(DeskRow::Format)
        } else {
            None
        };
    }
    if key == b"now".as_slice() {
        return match read_date(row) {
            Some(date) => Some(DeskRow::Now(date)),
            None => None,
        };
    }
    if row != b"-".as_slice() {
        return None;
    }
    match closed_day(key) {
        Some(date) => Some(DeskRow::Closed(date)),
        None => None,
    }
}
