//! Draws airports, each with a runway, and structures.

ghost use Rattle.std.specs.Prelude.{◌≡◌, ◌≤ℤ◌, ◌<ℤ◌, neg_ℤ, pos};
ghost use Rattle.wire_values.specs.Words.{IsAirfieldName};
ghost use Rattle.desk_generator.specs.Draws.{next, state_of_draw};
ghost use Rattle.desk_generator.specs.Drawings.{point, runway_end, at_least, airport, structure};
ghost use Rattle.desk_generator.specs.Requests.{IsToldAirport};

use crate::draws::Draws;
use crate::names::{airport_name, runway_name};
use airfields::{FieldId, Filing, Flags, Runway, RunwayEnd, StructureKind};
use grid_exact::Point;
use runway_classes::ApproachKind;

/// Elevations are drawn from 0 to below this, in tenths of a foot.
pub const ELEVATIONS: u64 = 5_000;

/// The least distance of a runway end from the reference point, in tenths of a foot.
pub const LEAST_ARM: i64 = 20_000;

/// The range above `LEAST_ARM` from which that distance is drawn, in tenths of a foot.
pub const ARMS: u64 = 20_000;

/// The least height of a structure, in tenths of a foot.
pub const LEAST_HEIGHT: i64 = 1;

/// The range above `LEAST_HEIGHT` from which heights are drawn, in tenths of a foot.
pub const HEIGHTS: u64 = 6_000;

/// A drawn airport with its one runway, which runs from west to east through the reference point, at the airport's elevation.
#[derive(Clone, Copy, Debug, PartialEq, Eq)]
pub struct DrawnAirport {
    /// Its name.
    pub id: FieldId,
    /// Its reference point.
    pub at: Point,
    /// Its elevation, in tenths of a foot.
    pub elevation: i64,
    /// Its runway.
    pub runway: Runway,
}

/// The point of these coordinates.
fn point_at(x: i64, y: i64) -> Point
    requires west { neg_ℤ (pos 600_000) ≤ℤ x }
    requires east { x ≤ℤ pos 600_000 }
    requires south { neg_ℤ (pos 600_000) ≤ℤ y }
    requires north { y ≤ℤ pos 600_000 }
    ensures { result ≡ point x y }
{
    match Point::new(x, y) {
        Ok(at) => at,
        Err(_) => unreachable!(),
    }
}

/// The end of a runway with these coordinates.
fn end_at(x: i64, y: i64, elevation: i64, kind: ApproachKind) -> RunwayEnd
    requires west { neg_ℤ (pos 600_000) ≤ℤ x }
    requires east { x ≤ℤ pos 600_000 }
    requires south { neg_ℤ (pos 600_000) ≤ℤ y }
    requires north { y ≤ℤ pos 600_000 }
    ensures { result ≡ runway_end x y elevation kind }
{
    RunwayEnd {
        at: point_at(x, y),
        z: elevation,
        kind,
        planned: None,
    }
}

impl Draws {
    /// Draws the distance of an end of a runway from the reference point, in tenths of a foot.
    fn arm(&mut self) -> i64
        ensures value { result ≡ at_least LEAST_ARM ARMS self.new }
        ensures least { LEAST_ARM ≤ℤ result }
        ensures most { result <ℤ pos 40_000 }
        ensures source { self.new ≡ next self.old }
    {
        LEAST_ARM + self.length(ARMS)
    }

    /// Draws the airport of this number.
    pub(crate) fn airport(&mut self, number: u32) -> DrawnAirport
        ensures value { result ≡ airport number self.old }
        ensures told { IsToldAirport result }
        ensures source { self.new ≡ state_of_draw 7 self.old }
    {
        let x = self.coordinate();
        let y = self.coordinate();
        let elevation = self.length(ELEVATIONS);
        let west = self.arm();
        let east = self.arm();
        let kind1 = self.approach();
        let kind2 = self.approach();
        DrawnAirport {
            id: airport_name(number),
            at: point_at(x, y),
            elevation,
            runway: Runway {
                name: runway_name(),
                utility: false,
                hard: true,
                end1: end_at(x - west, y, elevation, kind1),
                end2: end_at(x + east, y, elevation, kind2),
            },
        }
    }

    /// Draws a structure.
    pub(crate) fn structure(&mut self) -> Filing
        ensures value { result ≡ structure self.old }
        ensures named { IsAirfieldName result.on }
        ensures source { self.new ≡ state_of_draw 4 self.old }
    {
        let x = self.coordinate();
        let y = self.coordinate();
        let ground = self.length(ELEVATIONS);
        let height = LEAST_HEIGHT + self.length(HEIGHTS);
        let flags = Flags {
            shielded: false,
            device: false,
            other_rule: false,
            increases: false,
            controlled: false,
            temporary: false,
        };
        match Filing::new(
            point_at(x, y),
            ground,
            height,
            StructureKind::Object,
            0,
            flags,
            None,
        ) {
            Ok(filing) => filing,
            Err(_) => unreachable!(),
        }
    }
}
