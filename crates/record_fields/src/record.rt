//! A line as one record.

ghost use Rattle.std.specs.Prelude.{◌≡◌, ◌<◌, ◌^◌, IfOk, IfSome, length, option_map};
ghost use Rattle.csv.specs.Records.{fields_of};
ghost use Rattle.record_fields.specs.Fields.{one_record};

use crate::fields::Fields;
use crate::plain::is_plain;
use csv::{ByteRecord, ReaderBuilder};
use std::alloc::{AllocError, Global};

/// The fields of a line that is one record, or `None` where it is not. Where the line cannot be split at its commas, its fields are
/// stored in `row`.
///
/// # Errors
///
/// `AllocError` where memory was refused.
#[tactic(auto, using(crate::proofs::PlainFacts::one_record_plain, crate::proofs::PlainFacts::no_record))]
pub fn find_fields<'a>(
    alloc: Global,
    line: &'a [u8],
    row: &'a mut ByteRecord,
) -> Result<Option<Fields<'a>>, AllocError>
    ensures found { IfOk result (λ fields. fields ≡ one_record line.now) }
    ensures few { IfOk result (λ fields. IfSome fields (λ f. length f < 2 ^ 64)) }
{
    if line.is_empty() {
        return Ok(None);
    }
    if is_plain(line) {
        return Ok(Some(Fields::of_text(line)));
    }
    match read_one(alloc, line)? {
        Some(fields) => {
            *row = fields;
            Ok(Some(Fields::of_row(row)))
        }
        None => Ok(None),
    }
}

// The same, using a `csv` reader.
#[inline(never)]
fn read_one(alloc: Global, line: &[u8]) -> Result<Option<ByteRecord>, AllocError>
    ensures { IfOk result (λ row. option_map fields_of row ≡ one_record line.now) }
{
    let mut reader = ReaderBuilder::new()
        .has_headers(false)
        .flexible(true)
        .from_reader(alloc, line);
    let mut fields = ByteRecord::new(alloc);
    let mut more = ByteRecord::new(alloc);
    match reader.read_byte_record(&mut fields) {
        Err(_) => return Err(AllocError),
        Ok(false) => return Ok(None),
        Ok(true) => {}
    }
    match reader.read_byte_record(&mut more) {
        Err(_) => Err(AllocError),
        Ok(true) => Ok(None),
        Ok(false) => Ok(Some(fields)),
    }
}
