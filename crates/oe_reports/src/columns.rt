//! The columns of tables, and the first line of a table.

ghost use Rattle.std.specs.Prelude.{◌≡◌, ◌++◌, OnOk, string_bytes};
ghost use Rattle.std.specs.Fmt.{decimal};
ghost use Rattle.oe_reports.specs.Columns as spec;
ghost use Rattle.oe_reports.specs.Tables.{head_line};

use grid_exact::NoMemory;
use itoa::Buffer;
use wire_values::{ReportKind, append_text};

/// The width of the case column, in characters.
pub const CASE_WIDTH: usize = 6;

/// The width of the decision column.
pub const DECISION_WIDTH: usize = 8;

/// The width of the column of airfield names.
pub const ID_WIDTH: usize = 8;

/// The width of the column of `airport` or `heliport`.
pub const KIND_WIDTH: usize = 8;

/// The width of the elevation column.
pub const ELEVATION_WIDTH: usize = 7;

/// The width of the column of the number of runways.
pub const RUNWAYS_WIDTH: usize = 2;

/// Appends that number of spaces.
pub(crate) fn append_spaces(text: &mut String, count: usize) -> Result<(), NoMemory>
    ensures { OnOk result (string_bytes text.new ≡ string_bytes text.old ++ spec.spaces count) }
{
    for _ in 0..count {
        append_text(text, " ")?;
    }
    Ok(())
}

/// Appends the gap between two columns.
pub(crate) fn append_gap(text: &mut String) -> Result<(), NoMemory>
    ensures { OnOk result (string_bytes text.new ≡ string_bytes text.old ++ spec.gap) }
{
    append_text(text, "  ")
}

/// Appends a word, right-aligned in a column.
pub(crate) fn append_right(text: &mut String, width: usize, word: &str) -> Result<(), NoMemory>
    ensures { OnOk result (string_bytes text.new
        ≡ string_bytes text.old ++ spec.at_right width word.now) }
{
    append_spaces(text, width.saturating_sub(word.len()))?;
    append_text(text, word)
}

/// Appends a word, left-aligned in a column.
pub(crate) fn append_left(text: &mut String, width: usize, word: &str) -> Result<(), NoMemory>
    ensures { OnOk result (string_bytes text.new
        ≡ string_bytes text.old ++ spec.at_left width word.now) }
{
    append_text(text, word)?;
    append_spaces(text, width.saturating_sub(word.len()))
}

/// Appends a number, right-aligned in a column.
pub(crate) fn append_number(text: &mut String, width: usize, number: u64) -> Result<(), NoMemory>
    ensures { OnOk result (string_bytes text.new
        ≡ string_bytes text.old ++ spec.at_right width (decimal number)) }
{
    let mut buffer = Buffer::new();
    append_right(text, width, buffer.format(number))
}

/// Appends the first line of a table.
pub(crate) fn append_head(text: &mut String, kind: ReportKind, count: usize) -> Result<(), NoMemory>
    ensures { OnOk result (string_bytes text.new ≡ string_bytes text.old ++ head_line kind count) }
{
    let mut buffer = Buffer::new();
    append_text(text, "report,")?;
    append_text(text, kind.word())?;
    append_text(text, ",")?;
    append_text(text, buffer.format(count as u64))?;
    append_text(text, "\n")
}
