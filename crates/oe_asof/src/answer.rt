//! What a history answers.

use finding_lists::Findings;

/// The list of findings as of an earlier entry, or why there is none.
#[derive(Drop)]
pub enum Dated {
    /// The list over the airfields as they stood after the entry.
    Found(Findings),
    /// 39: no airfields are kept under the number of the entry. `first` and `last` are the first and the last number that has some.
    NotKept { first: u64, last: u64 },
    /// Memory was refused.
    NoMemory,
}
