//! Runs where nothing is stored.

ghost use Rattle.std.specs.Prelude.{◌≡◌, ◌≢◌, List, ℕ, Option};
ghost use Rattle.oe_keeper.specs.declared.change.Table.{Table};
ghost use Rattle.desk_machine.specs.States.{empty};
ghost use Rattle.oe_http.specs.Session.{Unfailed};
ghost use Rattle.command_words.specs.Commands.{AskFor, IsCommand};
ghost use Rattle.oe_commands.specs.Commands.{AsksForGate};
ghost use Rattle.oe_commands.specs.Runs.{IsComplete, PlainRun};
ghost use Rattle.oe_commands.specs.declared.status.Status.TheVariants as statuses;

use crate::run::run;
use crate::status::Status;
use command_words::{Service, Words};
use desk_tables::opened_empty;
use link_gates::Gate;
use oe_http::{Sink, Source};
use oe_keeper::NoKeeper;
use std::alloc::Global;
use std::sync::Wait;
use std::thread::Threads;

/// Runs over a keeper that stores nothing. The desk then starts empty, and no line is refused because of a keeper's fault.
pub fn run_unkept<R: Threads + Wait + Sync, S: Source, O: Sink, G: Gate>(
    rt: &R,
    alloc: Global,
    words: &Words,
    input: &mut S,
    output: &mut O,
    gate: &mut G,
) -> Status
    ensures served { (service : Service) (path : Option (List ℕ)) → AskFor service words.now path
        → PlainRun service empty result (S.left input.old) (S.left input.new) (O.held output.old)
        (O.held output.new) }
    ensures fault { result ≢ Status.KeeperFault }
    ensures bad_row { (table : Table) (key : List ℕ) → result ≢ statuses.BadRow table key }
    ensures complete { IsCommand words.now → (AsksForGate words.now → G.IsSteady gate.old)
        → Unfailed (S.faults input.old) (S.faults input.new)
        (O.faults output.old) (O.faults output.new)
        → IsComplete result }
{
    opened_empty();
    run(rt, alloc, words, input, output, NoKeeper, gate)
}
