//! Rows of cases from before there were revisions.

ghost use Rattle.std.specs.Prelude.{◌≡◌, ◌++◌, OnOk, string_bytes};
ghost use Rattle.row_cases.specs.Older.{renewed_row};

use grid_exact::NoMemory;
use wire_values::append_text;

/// The index, from 0, of the count of revisions among the fields of a row with a determination.
pub const REVISIONS_PLACE: usize = 25;

/// Appends the row of a case from before there were revisions as a row of today: where it has a determination, that was not revised. A text
/// that is no such row is appended as it is, or as a text that is no row either.
///
/// # Errors
///
/// `NoMemory` where memory was refused.
pub fn append_renewed_row(text: &mut String, row: &str) -> Result<(), NoMemory>
    ensures { OnOk result (string_bytes text.new ≡ string_bytes text.old ++ renewed_row row.now) }
{
    let mut rest = row;
    for place in 0..REVISIONS_PLACE {
        let Some((field, behind)) = rest.split_once(',') else {
            return append_text(text, rest);
        };
        append_text(text, field)?;
        append_text(text, ",")?;
        rest = behind;
    }
    append_text(text, "0,")?;
    append_text(text, rest)
}
