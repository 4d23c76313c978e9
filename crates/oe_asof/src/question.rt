//! Lines that ask what the list of a structure was.

ghost use Rattle.std.specs.Prelude.{◌≡◌, ◌≢◌, ◌∷◌, ◌+◌, ◌≤◌, ◌<◌, ◌^◌, ◌≤ℤ◌, pos, ℕ, length, IfOk, IfErr, IfSome, IfNone};
ghost use Rattle.std.specs.Fmt.{decimal};
ghost use Rattle.wire_cursor.specs.Groups.{IsValidSite, site_fields};
ghost use Rattle.wire_requests.specs.Forms.{FirstWrong, form_word};
ghost use Rattle.wire_requests.specs.declared.form.Form.TheVariants as forms;
ghost use Rattle.oe_asof.specs.Lines.{Asks, IsQuestion, IsRefusal, IsWrong, asks};

use airfields::Filing;
use csv::ByteRecord;
use grid_exact::LINE_LIMIT;
use record_fields::{Fields, find_fields};
use std::alloc::Global;
use whole_number::NUMBER_LIMIT;
use wire_cursor::{BadField, Cursor, structure};
use wire_requests::ReadRefusal;
use wire_values::number_within;

/// The field of the number, counted from 1.
pub const NUMBER_FIELD: u32 = 2;

/// The first field of the structure.
const SITE_FIELD: u32 = NUMBER_FIELD + 1;

/// What a line asks: the list of a structure as of the entry of a number.
#[derive(Drop)]
pub(crate) struct AsOf {
    pub(crate) number: u64,
    pub(crate) filing: Filing,
}

/// Whether a line asks for a list as of an earlier entry, well or not.
pub(crate) fn asks_as_of(line: &[u8]) -> bool
    ensures { result ≡ asks line.now }
{
    line.starts_with(b"asof,")
}

/// Parses the number of an entry.
fn entry_number(text: &[u8]) -> Option<u64>
    ensures some { IfSome result (λ n. text.now ≡ decimal n) }
    ensures small { IfSome result (λ n. pos n ≤ℤ NUMBER_LIMIT) }
    ensures none { IfNone result ((n : ℕ) → pos n ≤ℤ NUMBER_LIMIT → text.now ≢ decimal n) }
{
    match number_within(text, 0, NUMBER_LIMIT) {
        Some(number) => Some(number as u64),
        None => None,
    }
}

/// Reads a structure that the fields are, as those after the word of a screening.
fn site(fields: Fields<'_>) -> Result<Filing, BadField>
    requires few { length fields < 2 ^ 64 }
    ensures read { IfOk result (λ s. fields.entry ≡ site_fields s) }
    ensures valid { IfOk result (λ s. IsValidSite s) }
    ensures bad { IfErr result (λ b. FirstWrong (form_word forms.Screen ∷ fields.entry) (b.before + 2)) }
{
    let mut cursor = Cursor::new(fields);
    let filing = structure(&mut cursor)?;
    cursor.end()?;
    Ok(filing)
}

/// Reads what the fields ask; else the first wrong field.
fn as_of(fields: Fields<'_>) -> Result<AsOf, u32>
    requires few { length fields < 2 ^ 64 }
    ensures read { IfOk result (λ q. IsQuestion fields.entry q.number q.filing) }
    ensures wrong { IfErr result (λ field. IsWrong fields.entry field) }
{
    let mut fields = fields;
    let Some(_first) = fields.next() else {
        return Err(NUMBER_FIELD);
    };
    let Some(text) = fields.next() else {
        return Err(NUMBER_FIELD);
    };
    let Some(number) = entry_number(text) else {
        return Err(NUMBER_FIELD);
    };
    match site(fields) {
        Ok(filing) => Ok(AsOf { number, filing }),
        Err(bad) => Err(bad.before as u32 + SITE_FIELD),
    }
}

/// Reads what a line asks that begins with the word. `row` is a buffer that is reused.
///
/// # Errors
///
/// `Malformed` where it asks nothing, and `NoMemory` where memory was refused.
pub(crate) fn read_as_of(
    alloc: Global,
    line: &[u8],
    row: &mut ByteRecord,
) -> Result<AsOf, ReadRefusal>
    requires short { length line.now ≤ LINE_LIMIT }
    ensures read { IfOk result (λ q. Asks line.now q.number q.filing) }
    ensures refused { IfErr result (λ why. IsRefusal line.now why) }
{
    match find_fields(alloc, line, row) {
        Err(_) => Err(ReadRefusal::NoMemory),
        Ok(None) => Err(ReadRefusal::Malformed { field: 0 }),
        Ok(Some(fields)) => match as_of(fields) {
            Ok(question) => Ok(question),
            Err(field) => Err(ReadRefusal::Malformed { field }),
        },
    }
}
