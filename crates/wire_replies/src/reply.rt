//! Replies.

use case_records::{CaseList, CaseView, Outcome, Refusal};
use finding_lists::{Findings, Verdict};
use grid_exact::Text;

/// The answer to a request.
#[derive(Drop)]
pub enum Reply {
    /// The request is entry `entry` of the desk; `published` says whether every session sees it.
    Accepted {
        entry: u64,
        published: bool,
        outcome: Outcome,
    },
    /// The request was refused and changed nothing.
    Refused(Refusal),
    /// The list of findings; `last` is the number of the last accepted change.
    Found {
        last: u64,
        list: Findings,
    },
    /// The verdict on a list of findings; `last` is the number of the last accepted change.
    Verdict {
        last: u64,
        verdict: Verdict,
    },
    /// The status of a case.
    Case(CaseView),
    /// The row of an airfield.
    Airfield(Text),
    /// The cases that are marked for review.
    Review(CaseList),
    /// The table of a report, with a line feed after each of its lines.
    Report(Text),
    /// The number of the newest entry that the session sees, 0 where there is none.
    Synced {
        last: u64,
    },
}
