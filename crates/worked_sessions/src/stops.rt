//! Sections over a journal whose disk stops, at each of its calls in turn.

use crate::broken::Broken;
use crate::desks::answer_lines;
use crash_disks::MemoryDisk;
use filing_desk::{Clerk, OpenRefusal};
use oe_http::{FakeSink, Sink, write_whole};
use oe_journal::JournalKeeper;
use oe_keeper::{FailList, Keeper};
use std::alloc::Global;

/// There is room for so many bytes of the replies to a section.
const ROOM: usize = 65_536;

/// A section calls the disk fewer times.
const MOST_CALLS: u64 = 10_000;

/// A keeper whose disk stops at one of its calls.
pub(crate) trait Stopping: Keeper + Drop {
    /// A keeper over an empty disk that stops at this call.
    fn stopping(alloc: Global, stop: Option<u64>) -> Self;

    /// A keeper over the image of the disk that a crash may leave and `pick` picks.
    fn crashed(self, alloc: Global, pick: u64) -> Result<Self, Broken>;
}

impl Stopping for JournalKeeper<MemoryDisk> {
    fn stopping(alloc: Global, stop: Option<u64>) -> Self {
        JournalKeeper::new(MemoryDisk::new(alloc, FailList::new(alloc), stop))
    }

    fn crashed(self, alloc: Global, pick: u64) -> Result<Self, Broken> {
        Ok(JournalKeeper::new(self.into_disk().crashed(alloc, pick)?))
    }
}

/// The desk of a section after its lines, and the replies.
#[derive(Drop)]
struct Run<K: Keeper + Drop> {
    clerk: Clerk<K>,
    replies: FakeSink,
}

/// Answers the lines.
fn answered<K: Keeper + Drop>(
    alloc: Global,
    clerk: Clerk<K>,
    lines: &[u8],
) -> Result<Run<K>, Broken> {
    let mut replies = FakeSink::new(alloc, ROOM, Vec::new(alloc))?;
    let clerk = answer_lines(alloc, clerk, lines, &mut replies)?;
    Ok(Run { clerk, replies })
}

/// Writes how many rows a crash leaves where the disk stops within a load.
fn write_rows<K: Stopping, O: Sink>(
    alloc: Global,
    stop: u64,
    pick: u64,
    output: &mut O,
) -> Result<(), Broken> {
    let mut keeper = K::stopping(alloc, Some(stop));
    if keeper.load(alloc, None).is_ok() {
        return Err(Broken);
    }
    let rows = keeper.crashed(alloc, pick)?.load(alloc, None)?.len();
    let line = format!(in alloc; "stop {stop}: not opened; {rows} rows\n")?;
    write_whole(output, line.as_bytes())?;
    Ok(())
}

/// Writes the replies from the first on that is not the one without a stop.
fn write_others<O: Sink>(replies: &[u8], without: &[u8], output: &mut O) -> Result<(), Broken> {
    let lines = replies.split(|b| *b == b'\n');
    let mut is_other = false;
    for (line, other) in lines.zip(without.split(|b| *b == b'\n')) {
        is_other = is_other || line != other;
        if is_other && !line.is_empty() {
            write_whole(output, b" ")?;
            write_whole(output, line)?;
            write_whole(output, b";")?;
        }
    }
    Ok(())
}

/// Writes how many changes were accepted, the replies that are not those without a stop, and how many entries
/// a desk has that is opened after a crash.
fn write_entries<K: Stopping, O: Sink>(
    alloc: Global,
    stop: u64,
    run: Run<K>,
    without: &[u8],
    pick: u64,
    output: &mut O,
) -> Result<(), Broken> {
    let accepted = run.clerk.accepted();
    let line = format!(in alloc; "stop {stop}: {accepted} accepted;")?;
    write_whole(output, line.as_bytes())?;
    write_others(run.replies.bytes(), without, output)?;
    let keeper = run.clerk.into_keeper().crashed(alloc, pick)?;
    let entries = Clerk::open(alloc, keeper, None)?.accepted();
    let line = format!(in alloc; " {entries} kept\n")?;
    write_whole(output, line.as_bytes())?;
    Ok(())
}

/// Writes what a stop at this call leaves. Whether the lines do not call the disk so often.
fn write_stop<K: Stopping, O: Sink>(
    alloc: Global,
    lines: &[u8],
    without: &[u8],
    stop: u64,
    pick: u64,
    output: &mut O,
) -> Result<bool, Broken> {
    match Clerk::open(alloc, K::stopping(alloc, Some(stop)), None) {
        Ok(clerk) => {
            let run = answered(alloc, clerk, lines)?;
            let is_past = run.replies.bytes() == without;
            write_entries(alloc, stop, run, without, pick, output)?;
            Ok(is_past)
        }
        Err(OpenRefusal::KeeperFault) => {
            write_rows::<K, O>(alloc, stop, pick, output)?;
            Ok(false)
        }
        Err(_) => Err(Broken),
    }
}

/// Writes the replies to the lines over such a keeper, and then what a stop at each call of its disk leaves.
pub(crate) fn answer_stops<K: Stopping, O: Sink>(
    alloc: Global,
    lines: &[u8],
    pick: u64,
    output: &mut O,
) -> Result<(), Broken> {
    let run = answered(
        alloc,
        Clerk::open(alloc, K::stopping(alloc, None), None)?,
        lines,
    )?;
    let without = run.replies.bytes();
    write_whole(output, without)?;
    for stop in 1..MOST_CALLS {
        if write_stop::<K, O>(alloc, lines, without, stop, pick, output)? {
            return Ok(());
        }
    }
    Err(Broken)
}
