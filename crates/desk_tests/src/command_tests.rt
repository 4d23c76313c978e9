//! Runs over streams in memory, and runs whose gate fails.

use crate::links::link;
use grid_exact::Bytes;
use link_gates::FakeGate;
use oe_commands::run::run;
use oe_commands::{Status, Words};
use oe_http::{FakeLink, FakeSink, FakeSource};
use oe_keeper::{FailList, MemoryKeeper, Tables};
use std::alloc::Global;
use std::sync::Wait;
use std::test::Fail;
use std::thread::Threads;

/// The words of a line, with one space between two.
fn words(alloc: Global, line: &str) -> Result<Words, Fail> {
    let mut words = Words::new(alloc);
    for word in line.split(' ') {
        words.push(word)?;
    }
    Ok(words)
}

/// An input of these bytes that does not fail.
fn source_of(alloc: Global, bytes: &[u8]) -> Result<FakeSource, Fail> {
    let bytes = Bytes::from_slice(alloc, bytes)?;
    Ok(FakeSource::new(bytes, 4096, Vec::new(alloc)))
}

/// A keeper of no rows.
pub(crate) fn no_rows(alloc: Global) -> MemoryKeeper {
    MemoryKeeper::new(alloc, Tables::empty(alloc), FailList::new(alloc))
}

/// A gate without links.
pub(crate) fn no_links(alloc: Global) -> FakeGate<FakeLink> {
    FakeGate::new(Vec::new(alloc), Vec::new(alloc), None)
}

/// How a run with the words of a line ends, and its output. The write of the number `fail` fails (none: 0).
pub(crate) fn ran_over<R: Threads + Wait + Sync>(
    rt: &R,
    alloc: Global,
    line: &str,
    mut input: FakeSource,
    fail: u64,
    keeper: MemoryKeeper,
    mut gate: FakeGate<FakeLink>,
) -> Result<(Status, FakeSink), Fail> {
    let mut output = FakeSink::new(alloc, 4096, vec![in alloc; fail]?)?;
    let words = words(alloc, line)?;
    let status = run(
        rt,
        alloc,
        &words,
        &mut input,
        &mut output,
        keeper,
        &mut gate,
    );
    Ok((status, output))
}

/// How a run without links ends over a keeper and an input, and its output.
pub(crate) fn ran<R: Threads + Wait + Sync>(
    rt: &R,
    alloc: Global,
    line: &str,
    text: &str,
    keeper: MemoryKeeper,
) -> Result<(Status, FakeSink), Fail> {
    let input = source_of(alloc, text.as_bytes())?;
    ran_over(rt, alloc, line, input, 0, keeper, no_links(alloc))
}

/// Two lists of one link each, which asks once.
fn lists(alloc: Global) -> Result<Vec<Vec<FakeLink>>, Fail> {
    let first = vec![in alloc; link(alloc)?]?;
    let second = vec![in alloc; link(alloc)?]?;
    Ok(vec![in alloc; first, second]?)
}

/// A desk whose links are served, one by each of two workers. Where the address can't be listened at, or a port can't be made, no link is, and
/// the line says so; a link that can't be had ends its worker, and a line that is not written is told.
#[test]
fn runs_that_serve_links(rt: HostRuntime) -> Result<(), Fail> {
    let alloc = rt.alloc();
    // the call of the gate, that of `next` and the write that fail (none: 0), the words, and what then comes
    let table = [
        (
            0,
            0,
            0,
            "serve --listen x --workers=2 --turns 1",
            "served 2\n",
            0,
        ),
        (
            0,
            0,
            0,
            "serve --turns=5 --listen x --workers 1",
            "served 1\n",
            0,
        ),
        (
            1,
            0,
            0,
            "serve --listen x --workers 2 --turns 1",
            "served 0\n",
            9,
        ),
        (
            3,
            0,
            0,
            "serve --listen x --workers 2 --turns 1",
            "served 0\n",
            9,
        ),
        (
            0,
            2,
            0,
            "serve --listen x --workers 2 --turns 2",
            "served 2\n",
            9,
        ),
        (0, 0, 1, "serve --listen x --workers 2 --turns 1", "", 4),
    ];
    for (call, next, write, line, text, number) in table {
        let next_fail = if next == 0 { None } else { Some(next) };
        let gate = FakeGate::new(lists(alloc)?, vec![in alloc; call]?, next_fail);
        let input = source_of(alloc, b"review\n")?;
        let (status, output) = ran_over(&rt, alloc, line, input, write, no_rows(alloc), gate)?;
        assert_eq!(rt; status.number(), number);
        assert!(rt; output.bytes() == text.as_bytes());
    }
    Ok(())
}
