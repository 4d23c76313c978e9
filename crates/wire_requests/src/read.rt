//! Reads requests from lines.

ghost use Rattle.std.specs.Prelude.{◌≡◌, ◌+◌, ◌<◌, ◌^◌, ℕ, List, length, IfOk, IfErr};
ghost use Rattle.wire_requests.specs.Forms.{FirstWrong};
ghost use Rattle.wire_requests.specs.Requests.{spelling, IsGood, IsRecord, IsRefusal};

use crate::change::change;
use crate::form::{Form, named_form};
use crate::queries::{airfield, case, report, review, screen, sync, verdict};
use crate::request::{ReadRefusal, Request};
use csv::ByteRecord;
use grid_exact::LINE_LIMIT;
use record_fields::{Fields, find_fields};
use std::alloc::Global;
use wire_cursor::{BadField, Cursor};

// Reads the request whose spelling the fields are.
#[tactic(auto, using(crate::proofs::FormFacts::all_fields))]
fn request(fields: Fields<'_>) -> Result<Request, BadField>
    requires few { length fields < 2 ^ 64 }
    ensures read { IfOk result (λ r. fields.entry ≡ spelling r) }
    ensures good { IfOk result (λ r. IsGood r) }
    ensures bad { IfErr result (λ b. FirstWrong fields.entry (b.before + 1)) }
{
    let mut cursor = Cursor::new(fields);
    match named_form(&mut cursor) {
        Some(Form::Act(form)) => change(&mut cursor, form),
        Some(Form::Screen) => screen(&mut cursor),
        Some(Form::Verdict) => verdict(&mut cursor),
        Some(Form::Case) => case(&mut cursor),
        Some(Form::Airfield) => airfield(&mut cursor),
        Some(Form::Review) => review(&mut cursor),
        Some(Form::Report) => report(&mut cursor),
        Some(Form::Sync) => sync(&mut cursor),
        None => Err(BadField { before: 0 }),
    }
}

// The refusal of a record that is malformed at a field.
#[tactic(auto, using(crate::proofs::FormFacts::wrong_early))]
fn malformed(bad: BadField) -> ReadRefusal
    requires { (fields : List (List ℕ)) × FirstWrong fields (bad.before + 1) }
    ensures { result ≡ ReadRefusal.Malformed (bad.before + 1) }
{
    ReadRefusal::Malformed {
        field: bad.before as u32 + 1,
    }
}

/// Reads records, and reuses its buffer of fields from line to line.
#[derive(Drop)]
pub struct RecordReader {
    alloc: Global,
    row: ByteRecord,
}

impl RecordReader {
    /// A reader. It allocates nothing.
    pub fn new(alloc: Global) -> RecordReader {
        RecordReader {
            alloc,
            row: ByteRecord::new(alloc),
        }
    }

    /// Reads a line, without its line end, as a request.
    ///
    /// # Errors
    ///
    /// `Malformed` where the line is the record of no request, and `NoMemory` where memory was refused.
    pub fn record(&mut self, line: &[u8]) -> Result<Request, ReadRefusal>
        ensures found { IfOk result (λ r. IsRecord line.now r) }
        ensures malformed { IfErr result (λ e. IsRefusal line.now e) }
    {
        if line.len() > LINE_LIMIT {
            return Err(ReadRefusal::Malformed { field: 0 });
        }
        if line.is_empty() {
            return Err(ReadRefusal::Malformed { field: 1 });
        }
        match find_fields(self.alloc, line, &mut self.row) {
            Err(_) => Err(ReadRefusal::NoMemory),
            Ok(None) => Err(ReadRefusal::Malformed { field: 0 }),
            Ok(Some(fields)) => match request(fields) {
                Ok(request) => Ok(request),
                Err(bad) => Err(malformed(bad)),
            },
        }
    }
}

/// Reads a line, without its line end, as a request.
///
/// # Errors
///
/// `Malformed` where the line is the record of no request, and `NoMemory` where memory was refused.
pub fn read_record(alloc: Global, line: &[u8]) -> Result<Request, ReadRefusal>
    ensures found { IfOk result (λ r. IsRecord line.now r) }
    ensures malformed { IfErr result (λ e. IsRefusal line.now e) }
{
    RecordReader::new(alloc).record(line)
}
