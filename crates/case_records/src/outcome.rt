//! The outcomes of accepted requests.

ghost use Rattle.std.specs.Prelude.{◌≡◌, IfOk};

use determination_dates::{Decision, Timeliness};
use finding_lists::Findings;
use grid_exact::NoMemory;
use jiff::civil::Date;
use std::alloc::Global;
use wire_values::Plain;

/// The outcome of an accepted request. Cases are given by number.
#[derive(Drop)]
pub enum Outcome {
    /// Accepted, with no further result.
    Plain(Plain),
    /// A notice opened a case.
    Filed {
        case: u32,
        /// Whether the notice is in time.
        timely: Timeliness,
        /// The number of days by which the notice came after the application to the FCC, 0 where in time (77.7(c)); `None` without one.
        fcc: Option<u32>,
        /// Whether a statement explains a height of more than 2,000 feet (77.7(d)); `None` where the height is not more.
        explained: Option<bool>,
    },
    /// The form of an emergency notice was received (77.7(e)); the days by which it was late, or 0 where it was in time.
    FormCame {
        case: u32,
        late: u32,
    },
    /// A determination was issued.
    Determined {
        case: u32,
        decision: Decision,
        /// The number of the last change that was accepted before the list was computed.
        last: u64,
        issued: Date,
        /// The last day for a petition.
        deadline: Option<Date>,
        effective: Option<Date>,
        expiry: Option<Date>,
        /// The findings that the determination was made on.
        list: Findings,
    },
    /// A determination was revised on new facts: this one was issued in its place (77.35(a)).
    Revised {
        case: u32,
        decision: Decision,
        /// The number of the last change that was accepted before the list was computed.
        last: u64,
        issued: Date,
        /// The last day for a petition.
        deadline: Option<Date>,
        effective: Option<Date>,
        expiry: Option<Date>,
        /// The findings that the determination was made on.
        list: Findings,
    },
    /// A petition is pending.
    Petitioned {
        case: u32,
    },
    /// The pending petition was decided: the determination was affirmed or reversed.
    Disposed {
        case: u32,
        affirmed: bool,
        effective: Option<Date>,
        expiry: Option<Date>,
    },
    /// The expiry was extended; `last_day` is the last day to request the next extension.
    Extended {
        case: u32,
        expiry: Date,
        last_day: Date,
    },
    /// The expiry was set by the FCC's decision (77.35(c)).
    Fcc {
        case: u32,
        expiry: Date,
    },
    /// The structure was abandoned.
    Abandoned {
        case: u32,
    },
}

impl Outcome {
    /// Copies the outcome.
    ///
    /// # Errors
    ///
    /// `NoMemory` where memory was refused.
    pub fn copy(&self, alloc: Global) -> Result<Outcome, NoMemory>
        ensures { IfOk result (λ o. o ≡ self.now) }
    {
        match self {
            Outcome::Plain(plain) => Ok(Outcome::Plain(*plain)),
            Outcome::Filed {
                case,
                timely,
                fcc,
                explained,
            } => Ok(Outcome::Filed {
                case: *case,
                timely: *timely,
                fcc: *fcc,
                explained: *explained,
            }),
            Outcome::FormCame { case, late } => Ok(Outcome::FormCame {
                case: *case,
                late: *late,
            }),
            Outcome::Determined {
                case,
                decision,
                last,
                issued,
                deadline,
                effective,
                expiry,
                list,
            } => Ok(Outcome::Determined {
                case: *case,
                decision: *decision,
                last: *last,
                issued: *issued,
                deadline: *deadline,
                effective: *effective,
                expiry: *expiry,
                list: list.copy(alloc)?,
            }),
            Outcome::Revised {
                case,
                decision,
                last,
                issued,
                deadline,
                effective,
                expiry,
                list,
            } => Ok(Outcome::Revised {
                case: *case,
                decision: *decision,
                last: *last,
                issued: *issued,
                deadline: *deadline,
                effective: *effective,
                expiry: *expiry,
                list: list.copy(alloc)?,
            }),
            Outcome::Petitioned { case } => Ok(Outcome::Petitioned { case: *case }),
            Outcome::Disposed {
                case,
                affirmed,
                effective,
                expiry,
            } => Ok(Outcome::Disposed {
                case: *case,
                affirmed: *affirmed,
                effective: *effective,
                expiry: *expiry,
            }),
            Outcome::Extended {
                case,
                expiry,
                last_day,
            } => Ok(Outcome::Extended {
                case: *case,
                expiry: *expiry,
                last_day: *last_day,
            }),
            Outcome::Fcc { case, expiry } => Ok(Outcome::Fcc {
                case: *case,
                expiry: *expiry,
            }),
            Outcome::Abandoned { case } => Ok(Outcome::Abandoned { case: *case }),
        }
    }
}
