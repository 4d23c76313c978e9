//! The ports of a gate.

ghost use Rattle.std.specs.Prelude.{◌≡◌, ◌≤◌, false, List, ℕ, Some, All, IfOk, IsErrOf, drop, map, vec_len};
ghost use Rattle.oe_http.specs.Causes.{Rose};
ghost use Rattle.link_gates.specs.Ports.{NoneLeft};
ghost use Rattle.link_gates.specs.Teams.{first_lists, together, served_in, served_of};

use crate::{Gate, GateErr};
use std::alloc::Global;

/// So many ports of a gate, in order.
///
/// # Errors
///
/// `Failed` where the gate failed, and `NoMemory` where memory was refused. The ports that were made are dropped.
#[tactic(auto, using(crate::proofs::OpenFacts::opens_start, crate::proofs::OpenFacts::serves_opened))]
pub fn open_ports<G: Gate>(
    alloc: Global,
    gate: &mut G,
    count: usize,
) -> Result<Vec<G::Port>, GateErr>
    ensures count { IfOk result (λ ports. vec_len ports ≡ count) }
    // They have the gate's first lists, and none once there is no list.
    ensures links { (lists : List (List G.Port.Link)) → G.lists gate.old ≡ Some lists
        → IfOk result (λ ports. (map G.Port.links ports.items
        ≡ map (λ xs. Some xs) (first_lists count lists)) × (G.lists gate.new ≡ Some (drop count lists))) }
    ensures fresh { IfOk result (λ ports. All (λ port. (G.Port.out port ≡ false)
        × NoneLeft (G.Port.given port)) ports.items) }
    // What workers with so many turns serve of them.
    ensures serves { (turns : ℕ) (lists : List (List G.Port.Link)) → G.lists gate.old ≡ Some lists
        → IfOk result (λ ports. together (map (λ port. served_in turns (G.Port.links port)) ports.items)
        ≡ Some (served_of count turns lists)) }
    ensures later { G.faults gate.old ≤ G.faults gate.new }
    ensures cause { IsErrOf result GateErr.Failed → Rose (G.faults gate.old) (G.faults gate.new) }
    ensures steady { G.IsSteady gate.old → G.IsSteady gate.new }
    ensures steady_ports { G.IsSteady gate.old → IfOk result (λ ports. All G.Port.IsSteady ports.items) }
    ensures unfailing { G.IsSteady gate.old → IsErrOf result GateErr.Failed → ⊥ }
{
    let Ok(mut ports) = Vec::with_capacity(alloc, count) else {
        return Err(GateErr::NoMemory);
    };
    for _ in 0..count {
        ports.push_reserved(gate.port(alloc)?);
    }
    Ok(ports)
}
