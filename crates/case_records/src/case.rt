//! Cases.

ghost use Rattle.std.specs.Prelude.{◌≡◌, IfOk};

use case_requests::Submission;
use determination_dates::{Decision, Life, Status};
use finding_lists::Findings;
use grid_exact::NoMemory;
use jiff::civil::Date;
use std::alloc::Global;

/// The list of findings that a determination was made on.
#[derive(Drop)]
pub struct KeptList {
    /// The number of the last change that was accepted before the list was computed; 0 where there was none.
    pub last: u64,
    /// The findings.
    pub list: Findings,
}

impl KeptList {
    /// Copies the list.
    ///
    /// # Errors
    ///
    /// `NoMemory` where memory was refused.
    pub fn copy(&self, alloc: Global) -> Result<KeptList, NoMemory>
        ensures { IfOk result (λ k. k ≡ self.now) }
    {
        Ok(KeptList {
            last: self.last,
            list: self.list.copy(alloc)?,
        })
    }
}

/// A case: a notice and its history.
#[derive(Drop)]
pub struct KeptCase {
    /// The notice.
    pub submission: Submission,
    /// The day on which the notice was received.
    pub received: Date,
    /// The day on which the form of an emergency notice was received.
    pub form: Option<Date>,
    /// Whether and how the case ended, and its determination.
    pub life: Life,
    /// The list of the determination; `Some` exactly where there is a determination.
    pub list: Option<KeptList>,
}

/// A case as the reply to a query shows it. Dates that do not exist are `None`.
#[derive(Clone, Copy, Debug, PartialEq, Eq)]
pub struct CaseView {
    /// Its number.
    pub case: u32,
    /// Its status on the desk's day.
    pub status: Status,
    pub decision: Option<Decision>,
    pub issued: Option<Date>,
    /// The last day for a petition.
    pub deadline: Option<Date>,
    pub effective: Option<Date>,
    pub expiry: Option<Date>,
    /// The last day to request an extension (77.35(a)).
    pub last_day: Option<Date>,
    /// Whether it is marked for review.
    pub marked: bool,
}
