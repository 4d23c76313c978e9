//! Acts.

ghost use Rattle.std.specs.Prelude.{◌≡◌};
ghost use Rattle.case_requests.specs.Evaluated.{HasFacts, evaluated_case as case_evaluated, evaluated_of};

use crate::submission::Submission;
use airfields::Filing;
use airport_register::Amendment;
use jiff::civil::Date;

/// The finding of a determination where a structure exceeds a standard (77.31).
#[derive(Clone, Copy, Debug, PartialEq, Eq)]
pub enum Impact {
    /// It would have a substantial adverse effect on air navigation.
    Substantial,
    /// It would have no such effect.
    NotSubstantial,
}

/// Who petitions for review (77.37).
#[derive(Clone, Copy, Debug, PartialEq, Eq)]
pub enum Party {
    /// The sponsor of the structure.
    Sponsor,
    /// One who made a substantive comment in time.
    Commenter,
    /// One with a substantive comment who could not make it in time.
    LateComment,
}

/// The content of a changing request. Cases are given by number.
#[derive(Clone, Copy, Debug, PartialEq, Eq)]
pub enum Act {
    /// A change to the register of airfields.
    Amend(Amendment),
    /// The desk's day becomes this one.
    Day(Date),
    /// The government is closed on this day (77.39(c)).
    Closed(Date),
    /// A notice opens a case (77.5, 77.7).
    File(Submission),
    /// The form that follows an emergency notice was received (77.7(e)).
    Form(u32),
    /// A determination is issued (77.31).
    Determine {
        case: u32,
        /// The finding where a standard is exceeded; `None` where none is.
        finding: Option<Impact>,
    },
    /// A petition for review is received (77.37).
    Petition {
        case: u32,
        party: Party,
    },
    /// The pending petition is decided: the determination is affirmed or reversed.
    Dispose {
        case: u32,
        affirm: bool,
    },
    /// A request to extend the determination's expiry (77.35).
    Extend {
        case: u32,
        months: u8,
        /// Whether structural work has started.
        started: bool,
        /// The day of the application to the FCC for a construction permit.
        filed: Option<Date>,
        /// Whether more time is warranted.
        warranted: bool,
    },
    /// A request to revise the determination on new facts (77.35(a)): another is issued on them in its place.
    Revise {
        case: u32,
        /// Whether structural work has started.
        started: bool,
        /// The new elevation of the ground at the structure, in tenths of a foot.
        ground: i64,
        /// The new height above ground, in tenths of a foot.
        height: i64,
        /// The finding where a standard is exceeded; `None` where none is.
        finding: Option<Impact>,
    },
    /// The FCC grants a permit with a completion date, or refuses it (77.35(b), (c)).
    Fcc {
        case: u32,
        completion: Option<Date>,
    },
    /// The sponsor abandons the structure (77.33(b)).
    Abandon(u32),
}

impl Act {
    /// The number of the case whose structure the act evaluates: a determination does, and a revision.
    pub fn evaluated_case(&self) -> Option<u32>
        ensures { result ≡ case_evaluated self.now }
    {
        match self {
            Act::Determine { case, .. } => Some(*case),
            Act::Revise { case, .. } => Some(*case),
            _ => None,
        }
    }

    /// The structure that the act evaluates, where its case has this one: a revision evaluates it with the new facts (77.35(a)).
    pub fn evaluated(&self, filing: &Filing) -> Filing
        requires { HasFacts self.now }
        ensures { result ≡ evaluated_of self.now filing.now }
    {
        match self {
            Act::Revise { ground, height, .. } => match filing.revised(*ground, *height) {
                Ok(revised) => revised,
                Err(_) => unreachable!(),
            },
            _ => *filing,
        }
    }
}
