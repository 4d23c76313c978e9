//! Determinations on lists that were evaluated before a change.
ghost use Rattle.std.specs.Prelude.{◌≡◌, ◌<◌, Some};
ghost use Rattle.desk_machine.specs.States.{empty, last_number};

use crate::sessions::{AIRPORT, CASE, check_reply};
use desk_machine::Entry;
use desk_service::SeatDesk;
use filing_desk::Clerk;
use oe_findings::Sky;
use oe_keeper::NoKeeper;
use oe_wire::{Request, append_reply, read_record};
use publishing_clerk::{Evaluation, Front, Locked, Opening, PublishingClerk};
use std::alloc::Global;
use std::marker::Brand;
use std::process::Abort;
use std::sync::{Mutex, Wait};
use std::test::Fail;
use tree_versions::{Seat, Seats, Unnamed};

type Shared<J> = Mutex<PublishingClerk<NoKeeper, J>>;

/// A change of the runway, and what is then to be reviewed.
#[derive(Clone, Copy, Debug, PartialEq, Eq)]
struct Between {
    line: &'static str,
    review: &'static str,
}

/// The list of the first case over what a seat shows once it was told of all that is published.
fn evaluate<J: Opening, R: Wait>(
    rt: &R,
    alloc: Global,
    clerk: &Shared<J>,
    mut seat: Seat<Entry, Sky, J>,
) -> Result<Evaluation<J>, Fail> {
    let mut front = Locked::new(clerk);
    seat.learn(front.note(rt));
    let Some(filing) = front.filing(rt, 1).filing() else {
        return Err(Fail::from("no case"));
    };
    let shown = seat.current()?;
    Ok(Evaluation::over(alloc, &shown, &filing)?)
}

/// A determination of the first case on this list. It names the version of the list, after four changes, and not the newest.
fn determine<J: Opening, R: Wait + Abort>(
    rt: &R,
    alloc: Global,
    clerk: &Shared<J>,
    evaluation: &Evaluation<J>,
) -> Result<(), Fail> {
    let Request::Change(change) = read_record(alloc, b"determine,o,6,1,none")? else {
        return Err(Fail::from("no change"));
    };
    let ruling = Locked::new(clerk).apply(rt, alloc, &change, Some(evaluation));
    let mut text = String::new(alloc);
    append_reply(&mut text, ruling.reply())?;
    assert_eq!(rt;
        text.as_str(),
        "ok,6,published,determine,1,nohazard,4,2026-01-15,2026-02-16,2026-02-24,2027-08-24,5,17a2 AAA - 942,19a AAA - 1442,19d AAA 09/27.2 0,9a - - 942,9b1 AAA 09/27 1922\n"
    );
    Ok(())
}

/// A list is evaluated, then the runway is changed, and then the determination is made.
fn overtake<J: Opening, R: Wait + Abort>(
    rt: &R,
    alloc: Global,
    clerk: &Shared<J>,
    mut seats: Seats<Entry, Sky, J>,
    between: &Between,
) -> Result<(), Fail> {
    let (Some(first), Some(second)) = (seats.pop(), seats.pop()) else {
        return Err(Fail::from("no two seats"));
    };
    let mut desk = SeatDesk::over(rt, alloc, first, Locked::new(clerk));
    for (_, line, reply) in AIRPORT {
        check_reply(rt, alloc, &mut desk, line, reply)?;
    }
    for (_, line, reply) in CASE {
        check_reply(rt, alloc, &mut desk, line, reply)?;
    }
    let evaluation = evaluate(rt, alloc, clerk, second)?;
    check_reply(
        rt,
        alloc,
        &mut desk,
        between.line,
        "ok,5,published,runway\n",
    )?;
    determine(rt, alloc, clerk, &evaluation)?;
    check_reply(rt, alloc, &mut desk, "review", between.review)
}

/// The same over an empty clerk that is opened under a name.
fn overtake_once<J: Opening, R: Wait + Abort>(
    rt: &R,
    alloc: Global,
    history: Unnamed<Entry>,
    between: &Between,
) -> Result<(), Fail>
    requires book { history ≡ J.book }
    requires first { J.first ≡ Some empty.register }
    requires base { J.base ≡ last_number empty }
    requires opening { J.opening ≡ empty }
{
    let (clerk, seats) = PublishingClerk::<NoKeeper, J>::open(
        rt,
        alloc,
        Clerk::unkept(alloc),
        history,
        2,
    )?;
    let clerk = Mutex::new(clerk);
    let result = overtake(rt, alloc, &clerk, seats, between);
    clerk.into_inner().into_keeper(rt);
    result
}

// A determination on the list of an older version is marked for review where the list over the newest one differs, and only there: a visual
// approach has a steeper surface than the one it replaces, and a runway that is put again as it was changes nothing.
#[test]
fn a_list_that_was_overtaken_is_marked_if_it_differs(rt: HostRuntime) -> Result<(), Fail> {
    let alloc = rt.alloc();
    let differs = Between {
        line: "runway,u,5,AAA,09/27,other,hard,-50000,0,1000,P,50000,0,1000,V",
        review: "review,1,1\n",
    };
    let same = Between {
        line: "runway,u,5,AAA,09/27,other,hard,-50000,0,1000,P,50000,0,1000,NA",
        review: "review,0\n",
    };
    overtake_once::<Brand, _>(&rt, alloc, Unnamed::new(), &differs)?;
    overtake_once::<Brand, _>(&rt, alloc, Unnamed::new(), &same)
}
