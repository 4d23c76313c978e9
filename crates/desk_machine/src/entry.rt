//! Accepted requests.

ghost use Rattle.std.specs.Prelude.{◌≡◌, IfOk};

use case_records::Outcome;
use grid_exact::NoMemory;
use oe_findings::Sky;
use std::alloc::Global;
use tree_versions::Version;
use wire_requests::Change;

/// The greatest number of cases.
pub const MOST_CASES: usize = 300_000;

/// An accepted request, with its number and its outcome.
#[derive(Drop)]
pub struct Entry {
    /// Its place among all entries, counted from 1.
    pub number: u64,
    pub change: Change,
    pub outcome: Outcome,
}

impl Entry {
    /// The same entry once more.
    ///
    /// # Errors
    ///
    /// `NoMemory` where memory was refused.
    pub fn copy(&self, alloc: Global) -> Result<Entry, NoMemory>
        ensures { IfOk result (λ e. e ≡ self.now) }
    {
        Ok(Entry {
            number: self.number,
            change: self.change,
            outcome: self.outcome.copy(alloc)?,
        })
    }
}

impl Version<Entry> for Sky {
    ghost use Rattle.std.specs.Prelude.{◌≡◌};
    ghost use Rattle.desk_machine.specs.Fronts.{register_after_act};

    ghost follows = { λ old e new. new ≡ register_after_act old e.change.act };
}
