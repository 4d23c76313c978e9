//! A service over a gate in memory.

use crate::meeting::Meeting;
use desk_service::{Plan, ServiceEnd, serve};
use filing_desk::Clerk;
use link_gates::FakeGate;
use oe_http::FakeSink;
use std::sync::Arc;
use std::sync::atomic::{AtomicU64, Ordering};
use std::test::Fail;

// Each of two links holds its response back until the other has one to write: both end only where both are served at a time.
#[test]
fn two_links_are_served_at_a_time(rt: HostRuntime) -> Result<(), Fail> {
    let alloc = rt.alloc();
    let flags = Arc::new(alloc, AtomicU64::new(0))?;
    let first = vec![in alloc; Meeting::new(alloc, &flags, 1, 2, 4)?]?;
    let second = vec![in alloc; Meeting::new(alloc, &flags, 2, 1, 8)?]?;
    let mut gate = FakeGate::new(vec![in alloc; first, second]?, Vec::new(alloc), None);
    let mut output = FakeSink::new(alloc, 100, Vec::new(alloc))?;
    let plan = Plan {
        address: "x",
        workers: 2,
        turns: 1,
    };
    assert_eq!(rt;
        serve(
            &rt,
            alloc,
            Clerk::unkept(alloc),
            &plan,
            &mut gate,
            &mut output
        ),
        ServiceEnd::Done
    );
    assert_eq!(rt; output.bytes(), b"served 2\n".as_slice());
    assert_eq!(rt; flags.load(Ordering::SeqCst), 15);
    Ok(())
}
