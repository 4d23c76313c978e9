//! The command `generate`: generates a desk and writes its counts in one line.

ghost use Rattle.std.specs.Prelude.{◌≡◌, ◌≤◌, IfOk, string_bytes};
ghost use Rattle.oe_http.specs.Causes.{Rose};
ghost use Rattle.oe_commands.specs.Generating.{GenerateWrites, IsGenerateEnd, generated_line};
ghost use Rattle.desk_generator.specs.declared.generator.TheConstants.{COUNT_LIMIT};

use crate::status::Status;
use desk_generator::{COUNT_LIMIT, Tally, generated};
use grid_exact::NoMemory;
use oe_http::{Sink, write_whole};
use std::alloc::Global;

/// The line with the counts of the desk generated from this seed.
fn tally_text(alloc: Global, seed: u64, count: u32) -> Result<String, NoMemory>
    requires { count ≤ COUNT_LIMIT }
    ensures { IfOk result (λ text. string_bytes text ≡ generated_line seed count) }
{
    let tally = Tally::of(&generated(alloc, seed, count)?);
    let Tally {
        airfields,
        cases,
        entries,
        marked,
    } = tally;
    let text = format!(in alloc;
        "airfields {airfields} cases {cases} entries {entries} marked {marked}\n"
    )?;
    Ok(text)
}

/// Generates the desk in memory, and writes the line with its counts.
#[tactic(auto, using(crate::proofs::GenerateFacts::line_written, crate::proofs::GenerateFacts::line_cut, crate::proofs::GenerateFacts::none_made))]
pub(crate) fn generate<O: Sink>(alloc: Global, seed: u64, count: u32, output: &mut O) -> Status
    requires { count ≤ COUNT_LIMIT }
    ensures writes { GenerateWrites seed count result (O.held output.old) (O.held output.new) }
    ensures ends { IsGenerateEnd result }
    ensures cause { result ≡ Status.WriteFault → Rose (O.faults output.old) (O.faults output.new) }
{
    let Ok(text) = tally_text(alloc, seed, count) else {
        return Status::NoMemory;
    };
    match write_whole(output, text.as_bytes()) {
        Ok(()) => Status::Done,
        Err(_) => Status::WriteFault,
    }
}
