//! The counts of a desk.

ghost use Rattle.std.specs.Prelude.{◌≡◌, ◌-◌, ◌^◌, length, min};
ghost use Rattle.desk_generator.specs.Tallies.{tally_of};

use filing_desk::Clerk;
use oe_keeper::NoKeeper;

/// The counts of a desk.
#[derive(Clone, Copy, Debug, PartialEq, Eq)]
pub struct Tally {
    /// The number of airfields.
    pub airfields: usize,
    /// The number of cases.
    pub cases: u32,
    /// The number of accepted requests.
    pub entries: u64,
    /// The number of cases marked for review.
    pub marked: u32,
}

/// The number of cases; no desk has as many as a `u32` can count.
fn count_cases(clerk: &Clerk<NoKeeper>) -> u32
    ensures { result ≡ min (length clerk.now.state.cases) (2 ^ 32 - 1) }
{
    let mut count: u32 = 0;
    while let Some(next) = count.checked_add(1) {
        if clerk.filing(next).is_none() {
            return count;
        }
        count = next;
    }
    count
}

impl Tally {
    /// Counts the desk of this clerk.
    pub fn of(clerk: &Clerk<NoKeeper>) -> Tally
        ensures { result ≡ tally_of clerk.now.state }
    {
        Tally {
            airfields: clerk.sky().register().len(),
            cases: count_cases(clerk),
            entries: clerk.accepted(),
            marked: clerk.marked(),
        }
    }
}
