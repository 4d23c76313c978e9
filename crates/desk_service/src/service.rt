//! The service.

ghost use Rattle.std.specs.Prelude.{◌≡◌, ◌≢◌, ◌≤◌, ◌<◌, [], List, Some, false, true, IfOk, length, string_bytes};
ghost use Rattle.desk_machine.specs.States.{last_number};
ghost use Rattle.oe_http.specs.Causes.{Rose};
ghost use Rattle.link_gates.specs.Teams.{served_of};
ghost use Rattle.link_gates.specs.declared.shift.TheConstants.{TURN_LIMIT};
ghost use Rattle.tree_versions.specs.declared.publisher.TheConstants.{MOST_SEATS};
ghost use Rattle.desk_service.specs.Services.{Serves, Tells, served_line};

use crate::shift::shifts;
use desk_machine::Entry;
use filing_desk::Clerk;
use grid_exact::NoMemory;
use link_gates::{Gate, GateErr, Port, TURN_LIMIT, Worked, open_ports, work_all};
use oe_findings::Sky;
use oe_http::{Sink, write_whole};
use oe_keeper::Keeper;
use publishing_clerk::{Opening, PublishingClerk};
use std::alloc::Global;
use std::marker::Brand;
use std::sync::{Mutex, Wait};
use std::thread::Threads;
use tree_versions::{MOST_SEATS, Seats, Unnamed};

/// What to serve: the address, the number of workers, and the most links that each serves.
#[derive(Clone, Copy, Debug, PartialEq, Eq)]
pub struct Plan<'a> {
    pub address: &'a str,
    pub workers: u32,
    pub turns: u64,
}

/// How a service ended.
#[derive(Clone, Copy, Debug, PartialEq, Eq)]
pub enum ServiceEnd {
    /// All workers worked to their end.
    Done,
    /// The gate or a port failed.
    GateFault,
    /// The line could not be written.
    WriteFault,
    /// Memory was refused.
    NoMemory,
}

/// Serves the links of a gate over a shared clerk. Where the gate or a port fails before the workers start, none starts.
///
/// # Errors
///
/// `NoMemory` where memory was refused before the workers start.
fn serve_links<K: Keeper + Send, J: Opening + Send + Sync, G: Gate, R: Threads + Wait + Sync>(
    rt: &R,
    alloc: Global,
    clerk: &Mutex<PublishingClerk<K, J>>,
    seats: Seats<Entry, Sky, J>,
    plan: &Plan<'_>,
    gate: &mut G,
) -> Result<Worked, NoMemory>
    requires seats { length seats ≡ plan.now.workers }
    requires turns { plan.now.turns ≤ TURN_LIMIT }
    ensures count { (lists : List (List G.Port.Link)) → G.lists gate.old ≡ Some lists
        → IfOk result (λ t. t.failed ≡ false → t.served ≡ served_of plan.now.workers plan.now.turns lists) }
    ensures steady { G.IsSteady gate.old → IfOk result (λ t. t.failed ≡ false) }
{
    let none = Worked {
        served: 0,
        failed: true,
    };
    if gate.listen(plan.address).is_err() {
        return Ok(none);
    }
    match open_ports(alloc, gate, plan.workers as usize) {
        Ok(ports) => {
            let mut shifts = shifts(alloc, clerk, seats, ports, plan.turns)?;
            Ok(work_all(rt, shifts.as_mut_slice()))
        }
        Err(GateErr::Failed) => Ok(none),
        Err(GateErr::NoMemory) => Err(NoMemory),
    }
}

/// Opens a clerk for publication under a name, and serves the links of a gate over it.
///
/// # Errors
///
/// `NoMemory` where memory was refused before the workers start.
fn serve_named<
    K: Keeper + Drop + Send,
    J: Opening + Send + Sync,
    G: Gate,
    R: Threads + Wait + Sync,
>(
    rt: &R,
    alloc: Global,
    clerk: Clerk<K>,
    history: Unnamed<Entry>,
    plan: &Plan<'_>,
    gate: &mut G,
) -> Result<Worked, NoMemory>
    requires book { history ≡ J.book }
    requires first { J.first ≡ Some clerk.state.register }
    requires base { J.base ≡ last_number clerk.state }
    requires opening { J.opening ≡ clerk.state }
    requires none { clerk.accepted ≡ [] }
    requires workers { (0 < plan.now.workers) × (plan.now.workers ≤ MOST_SEATS) }
    requires turns { plan.now.turns ≤ TURN_LIMIT }
    ensures count { (lists : List (List G.Port.Link)) → G.lists gate.old ≡ Some lists
        → IfOk result (λ t. t.failed ≡ false → t.served ≡ served_of plan.now.workers plan.now.turns lists) }
    ensures steady { G.IsSteady gate.old → IfOk result (λ t. t.failed ≡ false) }
{
    let (clerk, seats) = PublishingClerk::<K, J>::open(
        rt,
        alloc,
        clerk,
        history,
        plan.workers as usize,
    )?;
    let clerk = Mutex::new(clerk);
    let worked = serve_links(rt, alloc, &clerk, seats, plan, gate);
    clerk.into_inner().into_keeper(rt);
    worked
}

/// The line that tells how many links were served.
fn served_text(alloc: Global, served: u64) -> Result<String, NoMemory>
    ensures { IfOk result (λ text. string_bytes text ≡ served_line served) }
{
    let text = format!(in alloc; "served {served}\n")?;
    Ok(text)
}

/// Writes how many links were served, and then tells whether a port failed.
#[tactic(auto, using(crate::proofs::LineFacts::line_done, crate::proofs::LineFacts::line_fault, crate::proofs::LineFacts::line_cut, crate::proofs::LineFacts::none_written))]
fn tell<O: Sink>(alloc: Global, worked: Worked, output: &mut O) -> ServiceEnd
    ensures tells { Tells worked.served result (O.held output.old) (O.held output.new) }
    ensures done { result ≡ ServiceEnd.Done → worked.failed ≡ false }
    ensures fault { result ≡ ServiceEnd.GateFault → worked.failed ≡ true }
    ensures cause { result ≡ ServiceEnd.WriteFault → Rose (O.faults output.old) (O.faults output.new) }
    ensures later { O.faults output.old ≤ O.faults output.new }
{
    let Ok(text) = served_text(alloc, worked.served) else {
        return ServiceEnd::NoMemory;
    };
    if write_whole(output, text.as_bytes()).is_err() {
        return ServiceEnd::WriteFault;
    }
    if worked.failed {
        return ServiceEnd::GateFault;
    }
    ServiceEnd::Done
}

/// Serves HTTP over a clerk: opens it for publication, listens, makes a port for each worker, has each worker serve its links in a thread of
/// its own where one can be made, and writes `served C` and a line feed, C being the number of links served. Where the gate or a port fails
/// before the workers start, none starts, and C is 0.
#[tactic(auto, using(crate::proofs::LineFacts::told, crate::proofs::LineFacts::not_begun))]
pub fn serve<K: Keeper + Drop + Send, G: Gate, O: Sink, R: Threads + Wait + Sync>(
    rt: &R,
    alloc: Global,
    clerk: Clerk<K>,
    plan: &Plan<'_>,
    gate: &mut G,
    output: &mut O,
) -> ServiceEnd
    requires none { clerk.accepted ≡ [] }
    requires workers { (0 < plan.now.workers) × (plan.now.workers ≤ MOST_SEATS) }
    requires turns { plan.now.turns ≤ TURN_LIMIT }
    ensures serves { Serves plan.now.workers plan.now.turns (G.lists gate.old) result
        (O.held output.old) (O.held output.new) }
    ensures steady { G.IsSteady gate.old → result ≢ ServiceEnd.GateFault }
    ensures cause { result ≡ ServiceEnd.WriteFault → Rose (O.faults output.old) (O.faults output.new) }
    ensures later { O.faults output.old ≤ O.faults output.new }
{
    match serve_named::<K, Brand, G, R>(rt, alloc, clerk, Unnamed::new(), plan, gate) {
        Ok(worked) => tell(alloc, worked, output),
        Err(NoMemory) => ServiceEnd::NoMemory,
    }
}
