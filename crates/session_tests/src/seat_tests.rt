//! Two sessions of one clerk behind its lock, each with a seat of its own.
ghost use Rattle.std.specs.Prelude.{◌≡◌, ◌<◌, Some};
ghost use Rattle.desk_machine.specs.States.{empty, last_number};

use crate::sessions::Session::{First, Second};
use crate::sessions::{AIRPORT, CASE, Turn, check_replies};
use desk_machine::Entry;
use desk_service::SeatDesk;
use filing_desk::Clerk;
use oe_findings::Sky;
use oe_keeper::NoKeeper;
use publishing_clerk::{Locked, Opening, PublishingClerk};
use std::alloc::Global;
use std::marker::Brand;
use std::process::Abort;
use std::sync::{Mutex, Wait};
use std::test::Fail;
use tree_versions::{Seat, Seats, Unnamed};

type Shared<J> = Mutex<PublishingClerk<NoKeeper, J>>;

/// The second session sees no airfields before the first has put one.
const NONE_YET: [Turn<'static>; 1] = [(
    Second,
    "screen,-152000,0,1000,2000,object,0,-,-",
    "found,0,0\n",
)];

/// Then it sees them, before and after it has asked for what is published.
const SYNC: [Turn<'static>; 3] = [
    (
        Second,
        "screen,-152000,0,1000,2000,object,0,-,-",
        "found,2,2,19a AAA - 500,9b1 AAA 09/27 980\n",
    ),
    (Second, "sync", "sync,2\n"),
    (
        Second,
        "screen,-152000,0,1000,2000,object,0,-,-",
        "found,2,2,19a AAA - 500,9b1 AAA 09/27 980\n",
    ),
];

/// Determinations of the first session, and which of them are marked for review as the second is told.
const REVIEW: [Turn<'static>; 10] = [
    (
        First,
        "file,u,5,2026-03-01,-,-,normal,-,5280000,0,1000,100,object,0,-,AAA",
        "ok,5,published,case,2,timely,-,-\n",
    ),
    (
        First,
        "determine,o,6,1,none",
        "ok,6,published,determine,1,nohazard,5,2026-01-15,2026-02-16,2026-02-24,2027-08-24,5,17a2 AAA - 942,19a AAA - 1442,19d AAA 09/27.2 0,9a - - 942,9b1 AAA 09/27 1922\n",
    ),
    (
        First,
        "determine,o,7,2,-",
        "ok,7,published,determine,2,nohazard,6,2026-01-15,-,2026-01-15,2027-07-15,1,9d AAA - 0\n",
    ),
    (Second, "review", "review,0\n"),
    (
        First,
        "runway,u,8,AAA,09/27,other,hard,-50000,0,1000,P,50000,0,1000,V",
        "ok,8,published,runway\n",
    ),
    (Second, "review", "review,1,1\n"),
    (
        First,
        "runway,u,9,AAA,09/27,other,hard,-50000,0,1000,P,50000,0,1000,NA",
        "ok,9,published,runway\n",
    ),
    (Second, "review", "review,0\n"),
    (First, "drop,u,10,AAA", "ok,10,published,drop\n"),
    (Second, "review", "review,2,1,2\n"),
];

/// The two seats.
fn pair<J: Opening>(
    seats: &mut Seats<Entry, Sky, J>,
) -> Result<(Seat<Entry, Sky, J>, Seat<Entry, Sky, J>), Fail> {
    match (seats.pop(), seats.pop()) {
        (Some(first), Some(second)) => Ok((first, second)),
        _ => Err(Fail::from("no two seats")),
    }
}

/// Two sessions, of which one looks at what the other changes. Each list of turns follows the one before.
fn look_on<J: Opening, R: Wait + Abort>(
    rt: &R,
    alloc: Global,
    clerk: &Shared<J>,
    mut seats: Seats<Entry, Sky, J>,
    said: &[&[Turn<'_>]],
) -> Result<(), Fail> {
    let (first, second) = pair(&mut seats)?;
    let mut first = SeatDesk::over(rt, alloc, first, Locked::new(clerk));
    let mut second = SeatDesk::over(rt, alloc, second, Locked::new(clerk));
    for turns in said {
        check_replies(rt, alloc, &mut first, &mut second, turns)?;
    }
    Ok(())
}

/// Opens an empty clerk under a name, and has the two sessions.
fn look_on_one_clerk<J: Opening, R: Wait + Abort>(
    rt: &R,
    alloc: Global,
    history: Unnamed<Entry>,
    said: &[&[Turn<'_>]],
) -> Result<(), Fail>
    requires book { history ≡ J.book }
    requires first { J.first ≡ Some empty.register }
    requires base { J.base ≡ last_number empty }
    requires opening { J.opening ≡ empty }
{
    let (clerk, seats) = PublishingClerk::<NoKeeper, J>::open(
        rt,
        alloc,
        Clerk::unkept(alloc),
        history,
        2,
    )?;
    let clerk = Mutex::new(clerk);
    let result = look_on(rt, alloc, &clerk, seats, said);
    clerk.into_inner().into_keeper(rt);
    result
}

// What one session has changed, the other sees: its airfields, the cases and their marks.
#[test]
fn a_session_sees_what_another_changed(rt: HostRuntime) -> Result<(), Fail> {
    let alloc = rt.alloc();
    let said: [&[Turn<'static>]; 5] = [&NONE_YET, &AIRPORT, &SYNC, &CASE, &REVIEW];
    look_on_one_clerk::<Brand, _>(&rt, alloc, Unnamed::new(), &said)
}
