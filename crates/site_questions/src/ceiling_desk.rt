//! How high structures may be, line by line.

ghost use Rattle.std.specs.Prelude.{◌≡◌, ◌<◌, ◌≤◌, ◌++◌, List, ℕ, Option, length, OnOk, OnErr, codes, string_bytes};
ghost use Rattle.grid_exact.specs.Texts.{Extends};
ghost use Rattle.oe_ceiling.specs.Ceilings.{IsCeilingOf};
ghost use Rattle.oe_http.specs.Session.{Answered, Begun, HasCauses, IsOfLines, WritesWhole};
ghost use Rattle.site_questions.specs.Ceilings.{CeilingAnswers, CeilingStep, IsCeilingReply, IsRecordReply, ceiling_text, height_text};
ghost use Rattle.site_questions.specs.Charts.{Chart, chart};

use crate::screens::{FORM_FIELD, append_refused, screen_of};
use airfields::Filing;
use finding_lists::Finding;
use grid_exact::{LINE_LIMIT, NoMemory, Steps};
use oe_ceiling::{ceiling, findings_above};
use oe_findings::Sky;
use oe_http::{Answering, Ended, Sink, Source, records};
use std::alloc::Global;
use std::marker::{Brand, Model};
use std::sync::ledger::{Blank, Ledger};
use wire_replies::{append_list, append_next_number, append_next_word};
use wire_requests::{ReadRefusal, RecordReader, Request};
use wire_values::{WholeNumber, append_next, append_text};

/// The field of a `screen` record that has the height, counted from 1.
pub const HEIGHT_FIELD: u32 = 5;

/// Answers lines that ask how high a structure may be; seen as the airfields, and the number of the last accepted change.
#[derive(Drop)]
pub struct CeilingDesk<'a> {
    alloc: Global,
    sky: &'a Sky,
    last: u64,
    records: RecordReader,
}

impl<'a> Model for CeilingDesk<'a> {
    ghost use Rattle.site_questions.specs.Charts.{Chart, chart};

    ghost Value = { Chart };

    ghost view = { λ d. chart d.sky.now d.last };
}

/// Appends a comma and a ceiling, or a dash where there is none.
fn append_height(text: &mut String, ceiling: Option<i64>) -> Result<(), NoMemory>
    ensures ok { OnOk result (string_bytes text.new
        ≡ string_bytes text.old ++ (codes "," ++ height_text ceiling)) }
    ensures part { OnErr result (Extends (string_bytes text.old) (string_bytes text.new)) }
{
    match ceiling {
        Some(height) => append_next(text, &WholeNumber { value: height }),
        None => append_next_word(text, "-"),
    }
}

/// Appends a ceiling and what bars the structure from being higher.
#[tactic(auto, using(grid_exact::proofs::Extending::extending))]
fn append_ceiling(
    text: &mut String,
    last: u64,
    ceiling: Option<i64>,
    list: &[Finding],
) -> Result<(), NoMemory>
    ensures ok { OnOk result (string_bytes text.new
        ≡ string_bytes text.old ++ ceiling_text last ceiling list.now) }
    ensures part { OnErr result (Extends (string_bytes text.old) (string_bytes text.new)) }
{
    append_text(text, "ceiling")?;
    append_next_number(text, last)?;
    append_height(text, ceiling)?;
    append_list(text, list)?;
    append_text(text, "\n")
}

/// As `append_bound`; the steps are counted in the ledger that `blank` opens.
fn append_counted_bound<L: Ledger>(
    alloc: Global,
    sky: &Sky,
    last: u64,
    filing: &Filing,
    blank: Blank,
    text: &mut String,
) -> Result<(), NoMemory>
    requires name { blank.name ≡ L.name }
    requires parts { blank.parts ≡ L.parts }
    requires some { 0 < L.parts }
    ensures ok { OnOk result (IsCeilingReply (chart sky.now last) filing.now
        (string_bytes text.old) (string_bytes text.new)) }
    ensures part { OnErr result (Extends (string_bytes text.old) (string_bytes text.new)) }
{
    let mut steps = Steps::<L>::new(blank);
    let height = ceiling(sky, filing, &mut steps);
    match findings_above(alloc, sky, filing, height, &mut steps) {
        Ok(list) => append_ceiling(text, last, height, list.as_slice()),
        Err(_) => append_refused(text, ReadRefusal::NoMemory),
    }
}

/// Appends the ceiling of a structure, whose own height is not used.
fn append_bound(
    alloc: Global,
    sky: &Sky,
    last: u64,
    filing: &Filing,
    text: &mut String,
) -> Result<(), NoMemory>
    ensures ok { OnOk result (IsCeilingReply (chart sky.now last) filing.now
        (string_bytes text.old) (string_bytes text.new)) }
    ensures part { OnErr result (Extends (string_bytes text.old) (string_bytes text.new)) }
{
    append_counted_bound::<Brand>(alloc, sky, last, filing, Blank::new(1), text)
}

/// Appends the reply to a record.
fn append_told(
    alloc: Global,
    sky: &Sky,
    last: u64,
    request: &Request,
    text: &mut String,
) -> Result<(), NoMemory>
    ensures ok { OnOk result (IsRecordReply (chart sky.now last) request.now
        (string_bytes text.old) (string_bytes text.new)) }
    ensures part { OnErr result (Extends (string_bytes text.old) (string_bytes text.new)) }
{
    let Some(filing) = screen_of(request) else {
        let field = FORM_FIELD;
        return append_refused(text, ReadRefusal::Malformed { field });
    };
    if filing.height != 0 {
        let field = HEIGHT_FIELD;
        return append_refused(text, ReadRefusal::Malformed { field });
    }
    append_bound(alloc, sky, last, filing, text)
}

/// Appends the reply to a line; an empty line has none.
fn append_answer(
    alloc: Global,
    sky: &Sky,
    last: u64,
    records: &mut RecordReader,
    line: &[u8],
    text: &mut String,
) -> Result<(), NoMemory>
    ensures ok { OnOk result (CeilingAnswers (chart sky.now last) line.now
        (string_bytes text.old) (string_bytes text.new)) }
    ensures part { OnErr result (Extends (string_bytes text.old) (string_bytes text.new)) }
{
    if line.is_empty() {
        return Ok(());
    }
    match records.record(line) {
        Ok(request) => append_told(alloc, sky, last, &request, text),
        Err(refusal) => append_refused(text, refusal),
    }
}

impl<'a> CeilingDesk<'a> {
    /// A desk over these airfields, where `last` is the number of the last accepted change. It allocates
    /// nothing.
    pub fn over(alloc: Global, sky: &'a Sky, last: u64) -> CeilingDesk<'a>
        ensures { result ≡ chart sky.now last }
    {
        CeilingDesk {
            alloc,
            sky,
            last,
            records: RecordReader::new(alloc),
        }
    }
}

impl<'a> Answering for CeilingDesk<'a> {
    ghost use Rattle.site_questions.specs.Ceilings.{CeilingStep};

    ghost step = { CeilingStep };

    fn answer(&mut self, line: &[u8], text: &mut String) -> Result<(), NoMemory> {
        append_answer(
            self.alloc,
            self.sky,
            self.last,
            &mut self.records,
            line,
            text,
        )
    }

    fn answer_long(&mut self, text: &mut String) -> Result<(), NoMemory> {
        append_refused(text, ReadRefusal::Malformed { field: 0 })
    }
}

/// Replies to each line of the input, in order, with the ceiling of the structure that it asks about, over these airfields. `last` is the
/// number of the last accepted change. Each line is a `screen` record whose height is 0.
pub fn ceilings<S: Source, O: Sink>(
    alloc: Global,
    sky: &Sky,
    last: u64,
    input: &mut S,
    output: &mut O,
) -> Ended
    // At `Closed` the output is its old content and the reply to each line of the input, in order.
    ensures closed { result ≡ Ended.Closed → (after : Chart) × Answered CeilingStep (chart sky.now last)
        after (S.left input.old) (O.held output.old) (O.held output.new) }
    // However it ends, the output is its old content and a beginning of these replies.
    ensures begun { Begun CeilingStep (chart sky.now last) (S.left input.old)
        (O.held output.old) (O.held output.new) }
    ensures written { (after : Chart) × WritesWhole CeilingStep (chart sky.now last) after result
        (S.left input.old) (S.left input.new) (O.held output.old) (O.held output.new) }
    // It ends in one of the ways of a session over lines.
    ensures lines { IsOfLines result }
    ensures causes { HasCauses result (S.left input.old) (S.left input.new) (S.faults input.old)
        (S.faults input.new) (O.faults output.old) (O.faults output.new) }
{
    records(
        alloc,
        &mut CeilingDesk::over(alloc, sky, last),
        input,
        output,
    )
}
