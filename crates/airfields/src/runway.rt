//! Runways and their ends.

use crate::names::RunwayName;
use grid_exact::Point;
use ordered_list::Keyed;
use runway_classes::{ApproachKind, more_precise};

/// An end of a runway.
#[derive(Clone, Copy, Debug, PartialEq, Eq)]
pub struct RunwayEnd {
    /// The position of the end of the runway, or of the stopway or clearway.
    pub at: Point,
    /// Its elevation, in tenths of a foot.
    pub z: i64,
    /// The kind of approach that the end has.
    pub kind: ApproachKind,
    /// The kind of approach that is planned for the end, if there is one.
    pub planned: Option<ApproachKind>,
}

impl RunwayEnd {
    ghost use Rattle.std.specs.Prelude.{◌≡◌};
    ghost use Rattle.airfields.specs.Runways.{effective};

    /// The more precise of the approaches that the end has and is planned for (77.19). Its surfaces follow this kind.
    pub fn effective(&self) -> ApproachKind
        ensures { result ≡ effective self.now }
    {
        match self.planned {
            Some(planned) => more_precise(self.kind, planned),
            None => self.kind,
        }
    }
}

/// A runway of an airport.
#[derive(Clone, Copy, Debug, PartialEq, Eq)]
pub struct Runway {
    /// Its name, by which the runways of an airport are ordered.
    pub name: RunwayName,
    /// Whether it is only for propeller driven aircraft of 12,500 pounds and less (77.3).
    pub utility: bool,
    /// Whether it has a prepared hard surface (77.19(c)).
    pub hard: bool,
    /// The first end in the runway's notice.
    pub end1: RunwayEnd,
    /// The other end.
    pub end2: RunwayEnd,
}

/// The key of a runway is its name.
impl Keyed for Runway {
    ghost use Rattle.airfields.specs.Runways.{name_of};

    type Key = RunwayName;

    ghost key = { name_of };

    fn key(&self) -> RunwayName {
        self.name
    }
}
