//! The session of a desk that keeps what the airfields were.

ghost use Rattle.std.specs.Prelude.{◌≡◌};
ghost use Rattle.line_desk.specs.Desk.{serving};
ghost use Rattle.oe_http.specs.Session.{HasCauses, IsOfLines};
ghost use Rattle.desk_machine.specs.States.{last_number};
ghost use Rattle.oe_asof.specs.Histories.{IsCurrent};
ghost use Rattle.oe_asof.specs.Sessions.{DatedSession};

use crate::desk::{DatedDesk, history_from};
use crate::history::History;
use filing_desk::Clerk;
use oe_http::{Ended, Sink, Source, records};
use oe_keeper::Keeper;
use std::alloc::Global;

/// Runs the session of a desk with this history.
fn session<K: Keeper + Drop, S: Source, O: Sink>(
    alloc: Global,
    clerk: Clerk<K>,
    history: History,
    input: &mut S,
    output: &mut O,
) -> Ended
    requires begins { IsCurrent (last_number clerk.state) clerk.state.register
        clerk.state history.versions }
    ensures told { DatedSession K.Tells K.IsSteady K.faults (serving clerk) result
        (S.left input.old) (S.left input.new) (O.held output.old) (O.held output.new) }
    ensures lines { IsOfLines result }
    ensures causes { HasCauses result (S.left input.old) (S.left input.new)
        (S.faults input.old) (S.faults input.new) (O.faults output.old) (O.faults output.new) }
{
    records(
        alloc,
        &mut DatedDesk::over(alloc, clerk, history),
        input,
        output,
    )
}

/// Replies to each line of the input, in order. A line that begins with `asof,` asks for the list of a structure over the airfields as they
/// stood after the entry of a number, or is refused at its first wrong field; each other line is answered as a desk does. The entries
/// that can be asked for are those accepted in the session, and the last one before it. It ends with `NoMemory` where memory was refused
/// for a version of the airfields.
pub fn dated_records<K: Keeper + Drop, S: Source, O: Sink>(
    alloc: Global,
    clerk: Clerk<K>,
    input: &mut S,
    output: &mut O,
) -> Ended
    // The output is its old content and the replies to the lines of the input, or a beginning of them, by how it ends.
    ensures told { DatedSession K.Tells K.IsSteady K.faults (serving clerk) result
        (S.left input.old) (S.left input.new) (O.held output.old) (O.held output.new) }
    // It ends in one of the ways of a session over lines.
    ensures lines { IsOfLines result }
    ensures causes { HasCauses result (S.left input.old) (S.left input.new)
        (S.faults input.old) (S.faults input.new) (O.faults output.old) (O.faults output.new) }
{
    match history_from(alloc, &clerk) {
        Ok(history) => session(alloc, clerk, history, input, output),
        Err(_) => Ended::NoMemory,
    }
}
