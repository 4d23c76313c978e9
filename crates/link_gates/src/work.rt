//! What serves the links of one port.

ghost use Rattle.std.specs.Prelude.{◌≡◌, ◌≤◌, ◌<◌, true, false, IfSome, min, length};
ghost use Rattle.oe_http.specs.Causes.{Rose};
ghost use Rattle.link_gates.specs.Serving.{SessionOf, WorksOff};
ghost use Rattle.link_gates.specs.Ports.{NoneLeft};

use crate::Port;
use http_session::{Replying, session};
use std::alloc::Global;

/// What workers did.
#[derive(Clone, Copy, Debug, PartialEq, Eq)]
pub struct Worked {
    /// The number of links that were served.
    pub served: u64,
    /// Whether a port failed.
    pub failed: bool,
}

/// Serves links of a port, at most so many: takes each, has its session, and gives it back with how the session ended.
#[tactic(auto, using(crate::proofs::WorkFacts::works_start, crate::proofs::WorkFacts::works_on, crate::proofs::WorkFacts::works_count))]
pub fn worker<A: Replying, P: Port>(alloc: Global, desk: &mut A, port: &mut P, turns: u64) -> Worked
    // It took the first links, had a session on each, and gave each back, in order, as its session left it.
    ensures works { WorksOff (λ s x ended t y. SessionOf A.step ended s t
        (P.Link.Source.left x) (P.Link.Source.left y) (P.Link.Sink.held x) (P.Link.Sink.held y)
        (P.Link.Source.faults x) (P.Link.Source.faults y)
        (P.Link.Sink.faults x) (P.Link.Sink.faults y))
        desk.old desk.new (P.links port.old) (P.links port.new)
        (P.given port.old) (P.given port.new) result.served }
    ensures out { P.out port.old ≡ false → P.out port.new ≡ false }
    ensures most { result.served ≤ turns }
    // It stops early only where the port failed or, where the port tells its links, none was left.
    ensures none { result.served < turns → result.failed ≡ false → NoneLeft (P.links port.new) }
    ensures count { result.failed ≡ false
        → IfSome (P.links port.old) (λ links. result.served ≡ min turns (length links)) }
    ensures failed { result.failed ≡ true → Rose (P.faults port.old) (P.faults port.new) }
    ensures later { P.faults port.old ≤ P.faults port.new }
    ensures steady { P.IsSteady port.old → P.IsSteady port.new }
    ensures unfailing { P.IsSteady port.old → result.failed ≡ false }
{
    let mut served = 0;
    while served < turns {
        match port.next() {
            Err(_) => {
                return Worked {
                    served,
                    failed: true,
                };
            }
            Ok(None) => {
                return Worked {
                    served,
                    failed: false,
                };
            }
            Ok(Some(link)) => {
                let mut link = link;
                let ended = session(alloc, desk, &mut link);
                port.done(link, ended);
                served += 1;
            }
        }
    }
    Worked {
        served,
        failed: false,
    }
}
