//! The top-level function of the program.

ghost use Rattle.std.specs.Prelude.{◌≡◌, ◌≢◌, ◌<◌, ◌≤◌, ◌⊎◌, List, ℕ, Option, option_copied};
ghost use Rattle.oe_keeper.specs.Kept.{Kept, place};
ghost use Rattle.oe_keeper.specs.declared.change.Table.{Table};
ghost use Rattle.desk_tables.specs.Opening.{IsFirstBad};
ghost use Rattle.oe_http.specs.Session.{Answered, Begun, HasCauses, IsOfLines, Unfailed, WritesWhole};
ghost use Rattle.desk_receipts.specs.Handed.{Told};
ghost use Rattle.line_desk.specs.Desk.{Serving, StepOver, serving};
ghost use Rattle.desk_machine.specs.States.{last_number};
ghost use Rattle.site_questions.specs.Questions.{QuestionSession};
ghost use Rattle.command_words.specs.Commands.{AskFor, AsksToServe, IsCommand, IsGenerate};
ghost use Rattle.oe_commands.specs.Commands.{AskToOpen, AsksForGate, TellsUsage};
ghost use Rattle.oe_commands.specs.Generating.{GenerateWrites, IsGenerateEnd};
ghost use Rattle.oe_commands.specs.Runs.{HasGoodRows, IsSessionEnd, IsUnopened, IsUntouched, IsComplete, PlainRun, RunCauses, RunOver, Served, ServedLinks};
ghost use Rattle.oe_http.specs.Causes.{Rose};
ghost use Rattle.tree_versions.specs.declared.publisher.TheConstants.{MOST_SEATS};
ghost use Rattle.link_gates.specs.declared.shift.TheConstants.{TURN_LIMIT};
ghost use Rattle.oe_commands.specs.declared.status.Status.TheVariants as statuses;

use crate::generate::generate;
use crate::status::{Status, ended_status, refused_status, service_status};
use command_words::{Command, Service, Words};
use desk_service::Plan;
use filing_desk::Clerk;
use line_desk::LineDesk;
use link_gates::Gate;
use oe_asof::dated_records;
use oe_http::{Ended, Sink, Source, records};
use oe_keeper::Keeper;
use site_questions::{Question, questions};
use std::alloc::Global;
use std::sync::Wait;
use std::thread::Threads;

/// Runs the session of a desk over this clerk.
fn session<K: Keeper + Drop, S: Source, O: Sink>(
    alloc: Global,
    clerk: Clerk<K>,
    input: &mut S,
    output: &mut O,
) -> Ended
    ensures closed { result ≡ Ended.Closed
        → (after : Serving K) × Answered (StepOver K.Tells K.IsSteady K.faults) (serving clerk)
        after (S.left input.old) (O.held output.old) (O.held output.new) }
    ensures begun { Begun (StepOver K.Tells K.IsSteady K.faults) (serving clerk)
        (S.left input.old) (O.held output.old) (O.held output.new) }
    ensures written { (after : Serving K)
        × WritesWhole (StepOver K.Tells K.IsSteady K.faults) (serving clerk) after result
        (S.left input.old) (S.left input.new) (O.held output.old) (O.held output.new) }
    ensures lines { IsOfLines result }
    ensures causes { HasCauses result (S.left input.old) (S.left input.new)
        (S.faults input.old) (S.faults input.new) (O.faults output.old) (O.faults output.new) }
{
    records(alloc, &mut LineDesk::over(alloc, clerk), input, output)
}

/// Replies to questions over the airfields of this clerk.
fn ask<K: Keeper, S: Source, O: Sink>(
    alloc: Global,
    clerk: &Clerk<K>,
    question: Question,
    input: &mut S,
    output: &mut O,
) -> Ended
    ensures told { QuestionSession question clerk.now.state.register (last_number clerk.now.state)
        result (S.left input.old) (S.left input.new) (O.held output.old) (O.held output.new) }
    ensures lines { IsOfLines result }
    ensures causes { HasCauses result (S.left input.old) (S.left input.new)
        (S.faults input.old) (S.faults input.new) (O.faults output.old) (O.faults output.new) }
{
    let sky = clerk.sky();
    questions(alloc, question, sky, clerk.accepted(), input, output)
}

/// Serves the input from the desk of this clerk, and returns the status of the run.
#[tactic(auto, using(crate::proofs::RunFacts::session_end, crate::proofs::RunFacts::run_causes))]
fn serve<K: Keeper + Drop, S: Source, O: Sink>(
    alloc: Global,
    clerk: Clerk<K>,
    service: Service,
    input: &mut S,
    output: &mut O,
) -> Status
    ensures session { RunOver K.Tells K.IsSteady K.faults service (serving clerk) result
        (S.left input.old) (S.left input.new) (O.held output.old) (O.held output.new) }
    ensures steady { K.IsSteady clerk.keeper → PlainRun service clerk.state result
        (S.left input.old) (S.left input.new) (O.held output.old) (O.held output.new) }
    ensures told { Told K.Tells clerk.keeper clerk.state }
    ensures end { IsSessionEnd result }
    ensures causes { RunCauses result (S.left input.old) (S.left input.new)
        (S.faults input.old) (S.faults input.new) (O.faults output.old) (O.faults output.new) }
{
    // what the keeper tells are the rows of the clerk
    clerk.keeper();
    match service {
        Service::Desk => { ended_status(session(alloc, clerk, input, output)) }
        Service::AsOf => ended_status(dated_records(alloc, clerk, input, output)),
        Service::Ceiling => ended_status(ask(alloc, &clerk, Question::Ceilings, input, output)),
        Service::Stations => ended_status(ask(alloc, &clerk, Question::Ways, input, output)),
    }
}

/// Opens the desk from the tables that its keeper has at a path, and serves the input from it.
fn serve_kept<K: Keeper + Drop, S: Source, O: Sink>(
    alloc: Global,
    keeper: K,
    service: Service,
    path: Option<&str>,
    input: &mut S,
    output: &mut O,
) -> Status
    ensures served { Served K.Tells K.Finds K.IsSteady K.faults service keeper
        (option_copied path.entry) result
        (S.left input.old) (S.left input.new) (O.held output.old) (O.held output.new)
        ⊎ (IsUnopened K.Finds K.IsSteady keeper (option_copied path.entry) result
        × (input.new ≡ input.old) × (output.new ≡ output.old)) }
    ensures usage { result ≢ Status.Usage }
    ensures gate { result ≢ Status.GateFault }
    ensures fault { K.IsSteady keeper → result ≢ Status.KeeperFault }
    ensures bad_row { (table : Table) (key : List ℕ) → result ≡ statuses.BadRow table key
        → (rows : Kept) × K.Finds keeper (option_copied path.entry) rows
        × IsFirstBad rows (place table, key) }
    ensures untouched { IsUntouched result → (input.new ≡ input.old) × (output.new ≡ output.old) }
    ensures causes { RunCauses result (S.left input.old) (S.left input.new)
        (S.faults input.old) (S.faults input.new) (O.faults output.old) (O.faults output.new) }
{
    match Clerk::open(alloc, keeper, path) {
        Ok(clerk) => serve(alloc, clerk, service, input, output),
        Err(refusal) => refused_status(refusal),
    }
}

/// Opens the desk from the tables that its keeper has at a path, and serves links of a gate by HTTP.
fn serve_links<R: Threads + Wait + Sync, K: Keeper + Drop + Send, G: Gate, O: Sink>(
    rt: &R,
    alloc: Global,
    keeper: K,
    plan: &Plan<'_>,
    path: Option<&str>,
    gate: &mut G,
    output: &mut O,
) -> Status
    requires workers { (0 < plan.now.workers) × (plan.now.workers ≤ MOST_SEATS) }
    requires turns { plan.now.turns ≤ TURN_LIMIT }
    ensures links { ServedLinks K.Tells K.Finds K.IsSteady K.faults plan.now.workers plan.now.turns
        (G.lists gate.old) keeper (option_copied path.entry) result
        (O.held output.old) (O.held output.new)
        ⊎ (IsUnopened K.Finds K.IsSteady keeper (option_copied path.entry) result
        × (output.new ≡ output.old) × (gate.new ≡ gate.old)) }
    ensures usage { result ≢ Status.Usage }
    ensures gate { G.IsSteady gate.old → result ≢ Status.GateFault }
    ensures fault { K.IsSteady keeper → result ≢ Status.KeeperFault }
    ensures bad_row { (table : Table) (key : List ℕ) → result ≡ statuses.BadRow table key
        → (rows : Kept) × K.Finds keeper (option_copied path.entry) rows
        × IsFirstBad rows (place table, key) }
    ensures untouched { IsUntouched result → (output.new ≡ output.old) × (gate.new ≡ gate.old) }
    ensures read { (result ≢ Status.ReadFault) × (result ≢ Status.InputLong) }
    ensures write { result ≡ Status.WriteFault → Rose (O.faults output.old) (O.faults output.new) }
{
    match Clerk::open(alloc, keeper, path) {
        Ok(clerk) => {
            // what the keeper tells are the rows of the clerk
            clerk.keeper();
            service_status(desk_service::serve(rt, alloc, clerk, plan, gate, output))
        }
        Err(refusal) => refused_status(refusal),
    }
}

/// Runs the program. With the words `desk`, `serve`, `ceiling`, `stations` and `asof` a desk is opened from the tables that its keeper has at
/// the path of `--db`, or at none. With `desk` it answers each line of the input, in order. With `asof` it does so too, and replies to lines
/// that ask what the list of a structure was after an earlier entry. With `serve` it answers requests by HTTP on the links of the gate, many at
/// a time, and writes the number of links. With `ceiling` each structure of the input is told its greatest height without a finding, and with
/// `stations` each way of the input its list, over the airfields that the desk was opened with. With `generate SEED COUNT` a desk is generated,
/// and its counts are written in one line.
///
/// Where the bytes of the input or the output are not known, as with the system's streams, the clauses on bytes say nothing.
#[tactic(auto, using(crate::proofs::RunFacts::generate_causes))]
pub fn run<R: Threads + Wait + Sync, S: Source, O: Sink, K: Keeper + Drop + Send, G: Gate>(
    rt: &R,
    alloc: Global,
    words: &Words,
    input: &mut S,
    output: &mut O,
    keeper: K,
    gate: &mut G,
) -> Status
    // A desk was opened in the state of the rows that its keeper has, and the output is what its service tells from there on, in which no
    // change is told as not kept where the keeper never fails; or none was opened, and both streams are as they were.
    ensures served { (service : Service) (path : Option (List ℕ)) → AskFor service words.now path
        → Served K.Tells K.Finds K.IsSteady K.faults service keeper path result
        (S.left input.old) (S.left input.new) (O.held output.old) (O.held output.new)
        ⊎ (IsUnopened K.Finds K.IsSteady keeper path result
        × (input.new ≡ input.old) × (output.new ≡ output.old)) }
    // The same of a desk that is opened to serve links, and the line that tells how many were served.
    ensures links { (address : List ℕ) (workers turns : ℕ) (path : Option (List ℕ))
        → AsksToServe words.now address workers turns path
        → ServedLinks K.Tells K.Finds K.IsSteady K.faults workers turns (G.lists gate.old) keeper path
        result (O.held output.old) (O.held output.new)
        ⊎ (IsUnopened K.Finds K.IsSteady keeper path result × (output.new ≡ output.old)
        × (gate.new ≡ gate.old)) }
    // A keeper that never fails is not reported to have failed.
    ensures fault { K.IsSteady keeper → result ≢ Status.KeeperFault }
    // Nor is a gate. Only a desk that serves links asks it.
    ensures gate { G.IsSteady gate.old → result ≢ Status.GateFault }
    ensures unasked { ((address : List ℕ) (workers turns : ℕ) (path : Option (List ℕ))
        → AsksToServe words.now address workers turns path → ⊥)
        → (result ≢ Status.GateFault) × (gate.new ≡ gate.old) }
    // The row that is named is the first bad one of those that a load may find.
    ensures bad_row { (table : Table) (key : List ℕ) → result ≡ statuses.BadRow table key
        → (path : Option (List ℕ)) × AskToOpen words.now path
        × ((rows : Kept) × K.Finds keeper path rows × IsFirstBad rows (place table, key)) }
    // The line of a desk that was made by draws, and how that command ends.
    ensures generated { (seed count : ℕ) → IsGenerate words.now seed count
        → GenerateWrites seed count result (O.held output.old) (O.held output.new) }
    ensures ended { (seed count : ℕ) → IsGenerate words.now seed count → IsGenerateEnd result }
    // Usage is the status exactly where the words are no command, if memory sufficed to read them.
    ensures usage { TellsUsage words.now result }
    // Words that are no command touch neither stream nor the gate, whatever the status.
    ensures no_command { (IsCommand words.now → ⊥) → (input.new ≡ input.old) × (output.new ≡ output.old)
        × (gate.new ≡ gate.old) }
    // At `Usage`, and where a keeper failed or a row is bad, both streams and the gate are unchanged, known or not: nothing was read, nothing
    // written, and no link waited for.
    ensures untouched { IsUntouched result → (input.new ≡ input.old) × (output.new ≡ output.old)
        × (gate.new ≡ gate.old) }
    // Only a desk that answers lines reads.
    ensures unread { ((service : Service) (path : Option (List ℕ)) → AskFor service words.now path → ⊥)
        → input.new ≡ input.old }
    // A fault is reported only where that stream's count of faults rose.
    ensures causes { RunCauses result (S.left input.old) (S.left input.new)
        (S.faults input.old) (S.faults input.new) (O.faults output.old) (O.faults output.new) }
    // A command over a keeper that never fails, good rows, streams that did not fail and, with `serve`, a gate that never fails, is done, or has
    // taken 2^40 bytes, or memory ran out.
    ensures complete { IsCommand words.now → K.IsSteady keeper
        → (AsksForGate words.now → G.IsSteady gate.old)
        → HasGoodRows K.Finds keeper words.now
        → Unfailed (S.faults input.old) (S.faults input.new)
        (O.faults output.old) (O.faults output.new)
        → IsComplete result }
{
    let Ok(command) = words.asks_for() else {
        return Status::NoMemory;
    };
    match command {
        None => Status::Usage,
        Some(Command::Answer { service, file }) => {
            serve_kept(alloc, keeper, service, file, input, output)
        }
        Some(
            Command::Serve {
                address,
                workers,
                turns,
                file,
            },
        ) => {
            let plan = Plan {
                address,
                workers,
                turns,
            };
            serve_links(rt, alloc, keeper, &plan, file, gate, output)
        }
        Some(Command::Generate { seed, count }) => generate(alloc, seed, count, output),
    }
}
