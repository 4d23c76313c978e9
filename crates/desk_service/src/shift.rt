//! What one worker has, and how it works.

ghost use Rattle.std.specs.Prelude.{◌≡◌, ◌≢◌, ◌≤◌, ◌<◌, ◌+◌, ◌∷◌, true, false, IfOk, IfSome, All, None, length, map, vec_len};
ghost use Rattle.oe_http.specs.Causes.{Rose};
ghost use Rattle.http_session.specs.Replying.{Replies};
ghost use Rattle.desk_service.specs.Sittings.{Sitting};
ghost use Rattle.desk_service.specs.Replies.{LineOver};
ghost use Rattle.link_gates.specs.Ports.{NoneLeft};
ghost use Rattle.link_gates.specs.Serving.{SessionOf, WorksOff};
ghost use Rattle.link_gates.specs.Teams.{served_in};
ghost use Rattle.link_gates.specs.declared.shift.TheConstants.{TURN_LIMIT};

use crate::desk::SeatDesk;
use desk_machine::Entry;
use grid_exact::NoMemory;
use http_messages::Routes;
use http_session::Routed;
use link_gates::{Port, Shift, TURN_LIMIT, Worked, worker};
use oe_findings::Sky;
use oe_http::Answering;
use oe_keeper::Keeper;
use publishing_clerk::{Locked, Opening, PublishingClerk};
use std::alloc::Global;
use std::sync::{Mutex, Wait};
use tree_versions::{Seat, Seats};

/// What the desk of a worker is made of, besides the clerk.
#[derive(Drop)]
struct Furniture<J: Opening> {
    routes: Routes,
    seat: Seat<Entry, Sky, J>,
}

/// The work of one worker: a seat, the shared clerk, and a port. It works once.
#[derive(Drop)]
pub(crate) struct DeskShift<'a, K: Keeper, J: Opening, P> {
    alloc: Global,
    clerk: &'a Mutex<PublishingClerk<K, J>>,
    furniture: Option<Furniture<J>>,
    port: P,
    turns: u64,
    ghost few: { turns ≤ TURN_LIMIT },
}

/// Serves the links of a port over what answers records, by the routes.
fn serve_desk<A: Answering + Drop, P: Port>(
    alloc: Global,
    routes: Routes,
    desk: A,
    port: &mut P,
    turns: u64,
) -> Worked
    // It took the first links, had a session on each, and gave each back, in order, as its session left it.
    ensures works { (after : A) × WorksOff (λ s x ended t y. SessionOf (Replies A.step) ended s t
        (P.Link.Source.left x) (P.Link.Source.left y) (P.Link.Sink.held x) (P.Link.Sink.held y)
        (P.Link.Source.faults x) (P.Link.Source.faults y)
        (P.Link.Sink.faults x) (P.Link.Sink.faults y))
        desk after (P.links port.old) (P.links port.new)
        (P.given port.old) (P.given port.new) result.served }
    ensures out { P.out port.old ≡ false → P.out port.new ≡ false }
    ensures most { result.served ≤ turns }
    // It stops early only where the port failed, or had no link.
    ensures none { result.served < turns → result.failed ≡ false → NoneLeft (P.links port.new) }
    ensures count { result.failed ≡ false
        → IfSome (served_in turns (P.links port.old)) (λ n. result.served ≡ n) }
    ensures failed { result.failed ≡ true → Rose (P.faults port.old) (P.faults port.new) }
    ensures later { P.faults port.old ≤ P.faults port.new }
    ensures steady { P.IsSteady port.old → result.failed ≡ false }
{
    worker(alloc, &mut Routed::new(routes, desk), port, turns)
}

/// Serves the links of a port over a seat and the shared clerk.
fn serve_port<K: Keeper, J: Opening, P: Port, R: Wait>(
    rt: &R,
    alloc: Global,
    clerk: &Mutex<PublishingClerk<K, J>>,
    furniture: Furniture<J>,
    port: &mut P,
    turns: u64,
) -> Worked
    // The same, over what the seat shows and what the clerk is asked.
    ensures works { (before : Sitting K) × (after : Sitting K)
        × (before.front ≡ furniture.seat.front) × (before.told ≡ furniture.seat.told)
        × WorksOff (λ s x ended t y. SessionOf (Replies
        (LineOver K.Tells K.IsSteady K.faults J.first J.base J.opening)) ended s t
        (P.Link.Source.left x) (P.Link.Source.left y) (P.Link.Sink.held x) (P.Link.Sink.held y)
        (P.Link.Source.faults x) (P.Link.Source.faults y)
        (P.Link.Sink.faults x) (P.Link.Sink.faults y))
        before after (P.links port.old) (P.links port.new)
        (P.given port.old) (P.given port.new) result.served }
    ensures out { P.out port.old ≡ false → P.out port.new ≡ false }
    ensures most { result.served ≤ turns }
    ensures none { result.served < turns → result.failed ≡ false → NoneLeft (P.links port.new) }
    ensures count { result.failed ≡ false
        → IfSome (served_in turns (P.links port.old)) (λ n. result.served ≡ n) }
    ensures failed { result.failed ≡ true → Rose (P.faults port.old) (P.faults port.new) }
    ensures later { P.faults port.old ≤ P.faults port.new }
    ensures steady { P.IsSteady port.old → result.failed ≡ false }
{
    let Furniture { routes, seat } = furniture;
    let desk = SeatDesk::over(rt, alloc, seat, Locked::new(clerk));
    serve_desk(alloc, routes, desk, port, turns)
}

impl<'a, K: Keeper, J: Opening, P: Port> Shift for DeskShift<'a, K, J, P> {
    ghost use Rattle.std.specs.Prelude.{◌≢◌, None};
    ghost use Rattle.link_gates.specs.Teams.{served_in};

    ghost serves = { λ s. served_in s.turns (P.links s.port) };

    // a shift that has worked has no seat any more
    ghost IsSteady = { λ s. P.IsSteady s.port × (s.furniture ≢ None) };

    fn work<R: Wait>(&mut self, rt: &R) -> Worked {
        let Some(furniture) = self.furniture.take() else {
            return Worked {
                served: 0,
                failed: true,
            };
        };
        serve_port(
            rt,
            self.alloc,
            self.clerk,
            furniture,
            &mut self.port,
            self.turns,
        )
    }
}

/// Takes the first port.
fn take_first<P>(ports: &mut Vec<P>) -> P
    requires some { 0 < vec_len ports.old }
    ensures items { ports.old.items ≡ result ∷ ports.new.items }
    ensures len { vec_len ports.old ≡ vec_len ports.new + 1 }
{
    ports.remove(0)
}

/// A shift of one worker.
///
/// # Errors
///
/// `NoMemory` where memory was refused.
fn shift_of<'a, K: Keeper, J: Opening, P: Port + Drop>(
    alloc: Global,
    clerk: &'a Mutex<PublishingClerk<K, J>>,
    seat: Seat<Entry, Sky, J>,
    port: P,
    turns: u64,
) -> Result<DeskShift<'a, K, J, P>, NoMemory>
    requires few { turns ≤ TURN_LIMIT }
    ensures port { IfOk result (λ s. s.port ≡ port) }
    ensures turns { IfOk result (λ s. s.turns ≡ turns) }
    ensures ready { IfOk result (λ s. s.furniture ≢ None) }
{
    let routes = Routes::new(alloc)?;
    Ok(DeskShift {
        alloc,
        clerk,
        furniture: Some(Furniture { routes, seat }),
        port,
        turns,
    })
}

/// A shift for each port, in order, each with a seat.
///
/// # Errors
///
/// `NoMemory` where memory was refused.
pub(crate) fn shifts<'a, K: Keeper, J: Opening, P: Port + Drop>(
    alloc: Global,
    clerk: &'a Mutex<PublishingClerk<K, J>>,
    mut seats: Seats<Entry, Sky, J>,
    mut ports: Vec<P>,
    turns: u64,
) -> Result<Vec<DeskShift<'a, K, J, P>>, NoMemory>
    requires seats { length seats ≡ vec_len ports }
    requires turns { turns ≤ TURN_LIMIT }
    ensures count { IfOk result (λ all. vec_len all ≡ vec_len ports) }
    ensures serves { IfOk result (λ all. map (λ s. served_in s.turns (P.links s.port)) all.items
        ≡ map (λ port. served_in turns (P.links port)) ports.items) }
    ensures steady { All P.IsSteady ports.items
        → IfOk result (λ all. All (λ s. P.IsSteady s.port × (s.furniture ≢ None)) all.items) }
{
    let mut all = Vec::with_capacity(alloc, ports.len())?;
    while !ports.is_empty() {
        let Some(seat) = seats.pop() else {
            unreachable!();
        };
        let port = take_first(&mut ports);
        all.push_reserved(shift_of(alloc, clerk, seat, port, turns)?);
    }
    Ok(all)
}
