//! A desk whose keeper, input or output fails at each of its calls in turn.

use crate::command_tests::{no_links, ran_over};
use grid_exact::Bytes;
use oe_http::{FakeSink, FakeSource};
use oe_keeper::{FailList, MemoryKeeper, Tables};
use std::alloc::Global;
use std::sync::Wait;
use std::test::Fail;
use std::thread::Threads;

/// Marks that come and go: 455 bytes with the ends of the lines.
const RECORDS: [&str; 14] = [
    "airport,u,1,AAA,public,0,0,1000",
    "runway,u,2,AAA,09/27,other,hard,-50000,0,1000,P,50000,0,1000,NA",
    "day,u,3,2026-01-15",
    "file,u,4,2026-03-01,-,-,normal,-,152000,0,1000,2942,object,0,-,-",
    "file,u,5,2026-03-01,-,-,normal,-,5280000,0,1000,100,object,0,-,AAA",
    "determine,o,6,1,none",
    "determine,o,7,2,-",
    "review",
    "runway,u,8,AAA,09/27,other,hard,-50000,0,1000,P,50000,0,1000,V",
    "review",
    "runway,u,9,AAA,09/27,other,hard,-50000,0,1000,P,50000,0,1000,NA",
    "review",
    "drop,u,10,AAA",
    "review",
];

const REPLIES: [&str; 14] = [
    "ok,1,published,airport",
    "ok,2,published,runway",
    "ok,3,published,day",
    "ok,4,published,case,1,timely,-,-",
    "ok,5,published,case,2,timely,-,-",
    "ok,6,published,determine,1,nohazard,5,2026-01-15,2026-02-16,2026-02-24,2027-08-24,5,17a2 AAA - 942,19a AAA - 1442,19d AAA 09/27.2 0,9a - - 942,9b1 AAA 09/27 1922",
    "ok,7,published,determine,2,nohazard,6,2026-01-15,-,2026-01-15,2027-07-15,1,9d AAA - 0",
    "review,0",
    "ok,8,published,runway",
    "review,1,1",
    "ok,9,published,runway",
    "review,0",
    "ok,10,published,drop",
    "review,2,1,2",
];

/// The lines, each with its end.
fn text_of(alloc: Global, lines: &[&str]) -> Result<Vec<u8>, Fail> {
    let mut text = Vec::new(alloc);
    for line in lines {
        text.extend_from_slice(line.as_bytes())?;
        text.push(b'\n')?;
    }
    Ok(text)
}

/// The number of the status of a desk whose input comes so many bytes a read, and what it writes, where these calls of its keeper, its input
/// and its output fail.
fn ends<R: Threads + Wait + Sync>(
    rt: &R,
    alloc: Global,
    most: usize,
    kept: u64,
    read: u64,
    written: u64,
) -> Result<(u8, FakeSink), Fail> {
    let mut fails = FailList::new(alloc);
    fails.push(kept)?;
    let bytes = Bytes::from_vec(text_of(alloc, &RECORDS)?);
    let input = FakeSource::new(bytes, most.max(1), vec![in alloc; read]?);
    let keeper = MemoryKeeper::new(alloc, Tables::empty(alloc), fails);
    let gate = no_links(alloc);
    let (status, output) = ran_over(rt, alloc, "desk --db x", input, written, keeper, gate)?;
    Ok((status.number(), output))
}

#[test]
fn a_load_that_fails(rt: HostRuntime) -> Result<(), Fail> {
    let (number, output) = ends(&rt, rt.alloc(), 64, 1, 0, 0)?;
    assert_eq!(rt; number, 5);
    assert!(rt; output.bytes().is_empty());
    Ok(())
}

/// Eight reads have bytes, and one finds the end.
#[test]
fn an_input_that_fails_at_each_read(rt: HostRuntime) -> Result<(), Fail> {
    let alloc = rt.alloc();
    let replies = text_of(alloc, &REPLIES)?;
    for read in 1..10u64 {
        let (number, output) = ends(&rt, alloc, 64, 0, read, 0)?;
        assert_eq!(rt; number, 3);
        assert!(rt; replies.as_slice().starts_with(output.bytes()));
    }
    let (number, output) = ends(&rt, alloc, 64, 0, 10, 0)?;
    assert_eq!(rt; number, 0);
    assert!(rt; output.bytes() == replies.as_slice());
    Ok(())
}

/// Where the bytes of the input come one by one each reply is a write.
#[test]
fn an_output_that_fails_at_each_write(rt: HostRuntime) -> Result<(), Fail> {
    let alloc = rt.alloc();
    let mut replies = Vec::new(alloc);
    let mut write: u64 = 1;
    for reply in REPLIES {
        let (number, output) = ends(&rt, alloc, 1, 0, 0, write)?;
        assert_eq!(rt; number, 4);
        assert!(rt; output.bytes() == replies.as_slice());
        replies.extend_from_slice(reply.as_bytes())?;
        replies.push(b'\n')?;
        write = write.saturating_add(1);
    }
    let (number, output) = ends(&rt, alloc, 1, 0, 0, write)?;
    assert_eq!(rt; number, 0);
    assert!(rt; output.bytes() == replies.as_slice());
    Ok(())
}
