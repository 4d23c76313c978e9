//! The findings of ways, line by line.

ghost use Rattle.std.specs.Prelude.{◌≡◌, ◌≢◌, ◌<◌, ◌≤◌, ◌++◌, [], List, ℕ, length, OnOk, OnErr, codes, string_bytes};
ghost use Rattle.std.specs.List.{flat_map};
ghost use Rattle.grid_exact.specs.Texts.{Extends};
ghost use Rattle.oe_http.specs.Session.{HasCauses, IsOfLines, WritesWhole};
ghost use Rattle.oe_http.specs.Causes.{Rose};
ghost use Rattle.site_questions.specs.Charts.{chart};
ghost use Rattle.site_questions.specs.Ways.{Survey, WayAnswers, WayStep, IsJoinReply, IsStationReply, IsWayReply, counts_text, joining_text, station_text, survey, way_text};
ghost use Rattle.site_questions.specs.WaySessions.{WaysAnswered, WaysBegun, Closes};

use crate::screens::{FORM_FIELD, append_refused, screen_of};
use airfields::Filing;
use grid_exact::{LINE_LIMIT, NoMemory, Steps};
use oe_findings::Sky;
use oe_http::{Answering, Ended, Sink, Source, records, write_whole};
use oe_stations::{Way, WayFinding, WayRefusal, way_findings};
use std::alloc::Global;
use std::marker::{Brand, Model};
use std::sync::ledger::{Blank, Ledger};
use wire_replies::{append_entry, append_next_number, append_number};
use wire_requests::{ReadRefusal, RecordReader, Request};
use wire_values::append_text;

/// The line that ends a way.
const WAY_END: &[u8] = b"-";

/// Answers lines that give ways station by station; seen as the airfields, the number of the last accepted change, and the stations of
/// the way since the last one ended.
#[derive(Drop)]
pub struct WayDesk<'a> {
    alloc: Global,
    sky: &'a Sky,
    last: u64,
    way: Way,
    records: RecordReader,
}

impl<'a> Model for WayDesk<'a> {
    ghost use Rattle.site_questions.specs.Ways.{Survey, survey};

    ghost Value = { Survey };

    ghost view = { λ d. survey d.sky.now d.last d.way };
}

/// Appends the findings of a way, a comma before each, each with its station.
#[tactic(auto, using(grid_exact::proofs::Extending::extending))]
fn append_findings(text: &mut String, list: &[WayFinding]) -> Result<(), NoMemory>
    ensures ok { OnOk result (string_bytes text.new
        ≡ string_bytes text.old ++ flat_map station_text list.now) }
    ensures part { OnErr result (Extends (string_bytes text.old) (string_bytes text.new)) }
{
    for found in list {
        append_entry(text, &found.finding)?;
        append_text(text, " ")?;
        append_number(text, u64::from(found.station))?;
    }
    Ok(())
}

/// Appends the number of the last accepted change, that of the stations, and that of the findings.
#[tactic(auto, using(grid_exact::proofs::Extending::extending))]
fn append_counts(text: &mut String, last: u64, stations: u64, findings: u64) -> Result<(), NoMemory>
    ensures ok { OnOk result (string_bytes text.new
        ≡ string_bytes text.old ++ counts_text last stations findings) }
    ensures part { OnErr result (Extends (string_bytes text.old) (string_bytes text.new)) }
{
    append_text(text, "stations,")?;
    append_number(text, last)?;
    append_next_number(text, stations)?;
    append_next_number(text, findings)
}

/// Appends the reply with the findings of a way.
#[tactic(auto, using(grid_exact::proofs::Extending::extending))]
fn append_way_text(
    text: &mut String,
    last: u64,
    stations: u64,
    list: &[WayFinding],
) -> Result<(), NoMemory>
    ensures ok { OnOk result (string_bytes text.new
        ≡ string_bytes text.old ++ way_text last stations list.now) }
    ensures part { OnErr result (Extends (string_bytes text.old) (string_bytes text.new)) }
{
    append_counts(text, last, stations, list.len() as u64)?;
    append_findings(text, list)?;
    append_text(text, "\n")
}

/// As `append_way`; the steps are counted in the ledger that `blank` opens.
fn append_counted_way<L: Ledger>(
    alloc: Global,
    sky: &Sky,
    last: u64,
    way: &Way,
    blank: Blank,
    text: &mut String,
) -> Result<(), NoMemory>
    requires name { blank.name ≡ L.name }
    requires parts { blank.parts ≡ L.parts }
    requires some { 0 < L.parts }
    requires stations { 0 < length way.now }
    ensures ok { OnOk result (IsWayReply (chart sky.now last) way.now
        (string_bytes text.old) (string_bytes text.new)) }
    ensures part { OnErr result (Extends (string_bytes text.old) (string_bytes text.new)) }
{
    match way_findings(alloc, sky, way, &mut Steps::<L>::new(blank)) {
        Ok(list) => append_way_text(text, last, way.len() as u64, list.as_slice()),
        Err(_) => append_refused(text, ReadRefusal::NoMemory),
    }
}

/// Appends the findings of a way that has stations.
fn append_way(
    alloc: Global,
    sky: &Sky,
    last: u64,
    way: &Way,
    text: &mut String,
) -> Result<(), NoMemory>
    requires stations { 0 < length way.now }
    ensures ok { OnOk result (IsWayReply (chart sky.now last) way.now
        (string_bytes text.old) (string_bytes text.new)) }
    ensures part { OnErr result (Extends (string_bytes text.old) (string_bytes text.new)) }
{
    append_counted_way::<Brand>(alloc, sky, last, way, Blank::new(1), text)
}

/// Ends the way, and appends its findings; a way without stations is refused.
fn append_end(
    alloc: Global,
    sky: &Sky,
    last: u64,
    way: &mut Way,
    text: &mut String,
) -> Result<(), NoMemory>
    ensures ok { OnOk result (WayAnswers (survey sky.now last way.old) WAY_END.now
        (string_bytes text.old) (string_bytes text.new) (survey sky.now last way.new)) }
    ensures made { OnErr result ((reply : List ℕ) × WayStep (survey sky.now last way.old) WAY_END.now
        reply (survey sky.now last way.new)) }
    ensures part { OnErr result (Extends (string_bytes text.old) (string_bytes text.new)) }
{
    if way.is_empty() {
        return append_text(text, "no,37,WayEmpty\n");
    }
    let told = append_way(alloc, sky, last, way, text);
    way.clear();
    told
}

/// Appends why a structure is not the next station.
fn append_joining(text: &mut String, refusal: WayRefusal) -> Result<(), NoMemory>
    ensures ok { OnOk result (string_bytes text.new
        ≡ string_bytes text.old ++ joining_text refusal) }
    ensures part { OnErr result (Extends (string_bytes text.old) (string_bytes text.new)) }
{
    match refusal {
        WayRefusal::WayFull => append_text(text, "no,35,WayFull\n"),
        WayRefusal::WayMixed => append_text(text, "no,36,WayMixed\n"),
        WayRefusal::NotAWay => append_text(text, "no,38,NotAWay\n"),
        WayRefusal::NoMemory => append_refused(text, ReadRefusal::NoMemory),
    }
}

/// Makes a structure the next station, or appends why it is not.
fn append_station(way: &mut Way, filing: &Filing, text: &mut String) -> Result<(), NoMemory>
    ensures ok { OnOk result (IsStationReply way.old filing.now
        (string_bytes text.old) (string_bytes text.new) way.new) }
    ensures made { OnErr result ((reply : List ℕ)
        × IsStationReply way.old filing.now [] reply way.new) }
    ensures part { OnErr result (Extends (string_bytes text.old) (string_bytes text.new)) }
{
    match way.push(filing) {
        Ok(()) => Ok(()),
        Err(refusal) => append_joining(text, refusal),
    }
}

/// Appends the reply to a record, which is none for a structure that becomes the next station.
fn append_told(way: &mut Way, request: &Request, text: &mut String) -> Result<(), NoMemory>
    ensures ok { OnOk result (IsJoinReply way.old request.now
        (string_bytes text.old) (string_bytes text.new) way.new) }
    ensures made { OnErr result ((reply : List ℕ)
        × IsJoinReply way.old request.now [] reply way.new) }
    ensures part { OnErr result (Extends (string_bytes text.old) (string_bytes text.new)) }
{
    let Some(filing) = screen_of(request) else {
        let field = FORM_FIELD;
        return append_refused(text, ReadRefusal::Malformed { field });
    };
    append_station(way, filing, text)
}

/// Appends the reply to a line; an empty line has none.
fn append_answer(
    alloc: Global,
    sky: &Sky,
    last: u64,
    way: &mut Way,
    records: &mut RecordReader,
    line: &[u8],
    text: &mut String,
) -> Result<(), NoMemory>
    ensures ok { OnOk result (WayAnswers (survey sky.now last way.old) line.now
        (string_bytes text.old) (string_bytes text.new) (survey sky.now last way.new)) }
    ensures made { OnErr result ((reply : List ℕ) × WayStep (survey sky.now last way.old) line.now
        reply (survey sky.now last way.new)) }
    ensures part { OnErr result (Extends (string_bytes text.old) (string_bytes text.new)) }
{
    if line.is_empty() {
        return Ok(());
    }
    if line == WAY_END {
        return append_end(alloc, sky, last, way, text);
    }
    match records.record(line) {
        Ok(request) => append_told(way, &request, text),
        Err(refusal) => append_refused(text, refusal),
    }
}

impl<'a> WayDesk<'a> {
    /// A desk over these airfields with a way without stations, where `last` is the number of the last accepted change. It allocates
    /// nothing.
    pub fn over(alloc: Global, sky: &'a Sky, last: u64) -> WayDesk<'a>
        ensures { result ≡ survey sky.now last [] }
    {
        WayDesk {
            alloc,
            sky,
            last,
            way: Way::new(alloc),
            records: RecordReader::new(alloc),
        }
    }

    /// Ends the way that the last line has left, where it has stations, and writes its text.
    fn close<O: Sink>(&mut self, output: &mut O) -> Ended
        ensures closes { Closes self.old result (O.held output.old) (O.held output.new) }
        ensures lines { IsOfLines result }
        ensures cause { result ≡ Ended.WriteFault → Rose (O.faults output.old) (O.faults output.new) }
        ensures later { O.faults output.old ≤ O.faults output.new }
    {
        if self.way.is_empty() {
            return Ended::Closed;
        }
        let mut text = String::new(self.alloc);
        if self.answer(WAY_END, &mut text).is_err() {
            return Ended::NoMemory;
        }
        match write_whole(output, text.as_bytes()) {
            Ok(()) => Ended::Closed,
            Err(_) => Ended::WriteFault,
        }
    }
}

impl<'a> Answering for WayDesk<'a> {
    ghost use Rattle.site_questions.specs.Ways.{WayStep};

    ghost step = { WayStep };

    fn answer(&mut self, line: &[u8], text: &mut String) -> Result<(), NoMemory> {
        append_answer(
            self.alloc,
            self.sky,
            self.last,
            &mut self.way,
            &mut self.records,
            line,
            text,
        )
    }

    fn answer_long(&mut self, text: &mut String) -> Result<(), NoMemory> {
        append_refused(text, ReadRefusal::Malformed { field: 0 })
    }
}

/// Replies to each line of the input, in order: a `screen` record of a road, railroad or waterway adds a station to the way, and a dash
/// ends the way and is replied to with its findings over these airfields. A way that has stations at the end of the input ends there.
/// `last` is the number of the last accepted change.
pub fn ways<S: Source, O: Sink>(
    alloc: Global,
    sky: &Sky,
    last: u64,
    input: &mut S,
    output: &mut O,
) -> Ended
    // At `Closed` the output is its old content and the reply to each line of the input, in order, and the findings of the way that
    // they leave.
    ensures closed { result ≡ Ended.Closed → WaysAnswered (survey sky.now last [])
        (S.left input.old) (O.held output.old) (O.held output.new) }
    // However it ends, the output is its old content and a beginning of these texts.
    ensures begun { WaysBegun (survey sky.now last []) (S.left input.old)
        (O.held output.old) (O.held output.new) }
    // At the end of the input nothing is left of it; where it stops before, each line that was read whole has its reply.
    ensures written { (after : Survey) × WritesWhole WayStep (survey sky.now last []) after result
        (S.left input.old) (S.left input.new) (O.held output.old) (O.held output.new) }
    // It ends in one of the ways of a session over lines.
    ensures lines { IsOfLines result }
    ensures causes { HasCauses result (S.left input.old) (S.left input.new) (S.faults input.old)
        (S.faults input.new) (O.faults output.old) (O.faults output.new) }
{
    let mut desk = WayDesk::over(alloc, sky, last);
    match records(alloc, &mut desk, input, output) {
        Ended::Closed => desk.close(output),
        ended => ended,
    }
}
