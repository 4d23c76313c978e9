//! Both kinds of questions, behind one function.

ghost use Rattle.oe_http.specs.Session.{HasCauses, IsOfLines};
ghost use Rattle.site_questions.specs.Questions.{QuestionSession};

use crate::ceiling_desk::ceilings;
use crate::way_desk::ways;
use oe_findings::Sky;
use oe_http::{Ended, Sink, Source};
use std::alloc::Global;

/// What the lines of a session ask.
#[derive(Clone, Copy, Debug, PartialEq, Eq)]
pub enum Question {
    /// How high structures may be, one a line.
    Ceilings,
    /// The findings of ways, given station by station.
    Ways,
}

/// Replies to each line of the input, in order, as `ceilings` or `ways` does, over these airfields. `last` is the number of the last
/// accepted change. It is lent these two alone, and no desk or keeper, so nothing is stored.
pub fn questions<S: Source, O: Sink>(
    alloc: Global,
    question: Question,
    sky: &Sky,
    last: u64,
    input: &mut S,
    output: &mut O,
) -> Ended
    // The output is its old content and the replies to the lines of the input, or a beginning of them, by how it ends.
    ensures told { QuestionSession question sky.now last result (S.left input.old) (S.left input.new)
        (O.held output.old) (O.held output.new) }
    // It ends in one of the ways of a session over lines.
    ensures lines { IsOfLines result }
    ensures causes { HasCauses result (S.left input.old) (S.left input.new) (S.faults input.old)
        (S.faults input.new) (O.faults output.old) (O.faults output.new) }
{
    match question {
        Question::Ceilings => ceilings(alloc, sky, last, input, output),
        Question::Ways => ways(alloc, sky, last, input, output),
    }
}
