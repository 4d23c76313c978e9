//! What sessions are told.

use grid_exact::Bytes;
use oe_http::{Answering, Ended, FakeSink, FakeSource, records};
use std::alloc::Global;
use std::process::Abort;
use std::test::Fail;

/// There is room for so many bytes of a reply.
const ROOM: usize = 4_096;

/// One of two sessions.
#[derive(Clone, Copy, Debug, PartialEq, Eq)]
pub(crate) enum Session {
    First,
    Second,
}

/// A session, its line, and the reply.
pub(crate) type Turn<'a> = (Session, &'a str, &'a str);

/// An airport with one runway.
pub(crate) const AIRPORT: [Turn<'static>; 2] = [
    (
        Session::First,
        "airport,u,1,AAA,public,0,0,1000",
        "ok,1,published,airport\n",
    ),
    (
        Session::First,
        "runway,u,2,AAA,09/27,other,hard,-50000,0,1000,P,50000,0,1000,NA",
        "ok,2,published,runway\n",
    ),
];

/// A case east of it.
pub(crate) const CASE: [Turn<'static>; 2] = [
    (Session::First, "day,u,3,2026-01-15", "ok,3,published,day\n"),
    (
        Session::First,
        "file,u,4,2026-03-01,-,-,normal,-,152000,0,1000,2942,object,0,-,-",
        "ok,4,published,case,1,timely,-,-\n",
    ),
];

/// Checks that a session over a line alone writes this reply.
pub(crate) fn check_reply<A: Answering, R: Abort>(
    rt: &R,
    alloc: Global,
    desk: &mut A,
    line: &str,
    reply: &str,
) -> Result<(), Fail> {
    let line = Bytes::from_slice(alloc, line.as_bytes())?;
    let mut input = FakeSource::new(line, ROOM, Vec::new(alloc));
    let mut output = FakeSink::new(alloc, ROOM, Vec::new(alloc))?;
    assert_eq!(rt;
        records(alloc, desk, &mut input, &mut output),
        Ended::Closed
    );
    assert_eq!(rt; output.bytes(), reply.as_bytes());
    Ok(())
}

/// Checks that two sessions tell the replies of these turns.
pub(crate) fn check_replies<A: Answering, B: Answering, R: Abort>(
    rt: &R,
    alloc: Global,
    first: &mut A,
    second: &mut B,
    turns: &[Turn<'_>],
) -> Result<(), Fail> {
    for turn in turns {
        let (session, line, reply) = *turn;
        match session {
            Session::First => check_reply(rt, alloc, first, line, reply)?,
            Session::Second => check_reply(rt, alloc, second, line, reply)?,
        }
    }
    Ok(())
}
