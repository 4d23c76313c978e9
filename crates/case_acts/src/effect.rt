//! Effects of accepted requests: their outcome and their change to the state.

use airfields::Filing;
use airport_register::Amendment;
use case_records::{KeptCase, KeptList, Outcome};
use determination_dates::Life;
use jiff::civil::Date;

/// The change that an accepted request makes to the register, the day, the closed days or the cases. Cases are given by number.
#[derive(Drop)]
pub enum Step {
    /// The register is amended.
    Amended(Amendment),
    /// The desk's day becomes this one.
    DaySet(Date),
    /// The government is closed on this day (77.39(c)).
    DayClosed(Date),
    /// A case is added after the others.
    CaseFiled(KeptCase),
    /// The form of an emergency was received on this day (77.7(e)).
    FormPut {
        number: u32,
        day: Date,
    },
    /// The case's life is replaced.
    LifePut {
        number: u32,
        life: Life,
    },
    /// The case's life is replaced, and the structure and the list of its determination are stored.
    Issued {
        number: u32,
        filing: Filing,
        life: Life,
        list: KeptList,
    },
}

/// The outcome of a request, and the change that it makes.
#[derive(Drop)]
pub struct Effect {
    pub outcome: Outcome,
    pub step: Step,
}
