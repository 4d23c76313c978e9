//! Amendments of the register, and their results.

use airfields::{Airfield, Category, FieldId, Heliport, Runway, RunwayName};
use grid_exact::Point;
use std::sync::Arc;

/// A change to the register.
#[derive(Clone, Copy, Debug, PartialEq, Eq)]
pub enum Amendment {
    /// Adds an airport without runways, or gives an existing one this category, reference point and elevation; it keeps its runways.
    PutAirport {
        id: FieldId,
        category: Category,
        arp: Point,
        elevation: i64,
    },
    /// Puts the runway on the airport, instead of the one with its name.
    PutRunway {
        id: FieldId,
        runway: Runway,
    },
    /// Removes the airport's runway of this name.
    DropRunway {
        id: FieldId,
        name: RunwayName,
    },
    /// Adds the heliport, or replaces the heliport with its name.
    PutHeliport(Heliport),
    /// Removes the airfield.
    Drop(FieldId),
}

/// Why an amendment is refused.
#[derive(Clone, Copy, Debug, PartialEq, Eq)]
pub enum AmendRefusal {
    /// A utility runway has an end that has, or is planned for, a precision approach.
    PrecisionOnUtility,
    /// No airfield of this name is registered.
    UnknownAirfield,
    /// The airport has no runway of this name.
    UnknownRunway,
    /// The runway's length is outside its limits.
    RunwayLength,
    /// An end of the runway, or of an existing runway of the airport, is too far from the reference point in a coordinate.
    RunwayFar,
    /// The runway's name is new, and the airport has `MOST_RUNWAYS` runways.
    TooManyRunways,
    /// The airfield's name is new, and the register has `MOST_AIRFIELDS` airfields.
    RegisterFull,
    /// An elevation is outside its limits.
    ElevationRange,
    /// The axis or the width of a heliport is outside its limits.
    HeliportShape,
    /// The name is that of an airfield of the other kind.
    WrongKind,
    /// Memory was refused.
    NoMemory,
}

/// The result of an amendment: the airfield with this name, before and after.
#[derive(Drop)]
pub struct Changed {
    /// The name of the changed airfield.
    pub id: FieldId,
    /// The airfield before the amendment; `None` where there was none.
    pub before: Option<Arc<Airfield>>,
    /// The airfield after the amendment; `None` where it was removed.
    pub after: Option<Arc<Airfield>>,
}
