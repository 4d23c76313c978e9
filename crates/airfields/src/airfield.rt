//! Airports and heliports.

use crate::category::Category;
use crate::names::FieldId;
use crate::runways::Runways;
use grid_exact::Point;

/// An airport.
#[derive(Drop)]
pub struct Airport {
    /// Its name in the register.
    pub id: FieldId,
    /// Its category under 77.9(d).
    pub category: Category,
    /// The airport reference point.
    pub arp: Point,
    /// The established airport elevation, in tenths of a foot.
    pub elevation: i64,
    /// Its runways, in order of name.
    pub runways: Runways,
}

/// A heliport, which can be copied.
#[derive(Clone, Copy, Debug, PartialEq, Eq)]
pub struct Heliport {
    /// Its name in the register.
    pub id: FieldId,
    /// Its category under 77.9(d).
    pub category: Category,
    /// One end of the axis of its takeoff and landing area.
    pub a: Point,
    /// The other end of that axis.
    pub b: Point,
    /// The width of that area, in tenths of a foot.
    pub width: i64,
    /// The established elevation, in tenths of a foot.
    pub elevation: i64,
}

/// An airport or a heliport.
#[derive(Drop)]
pub enum Airfield {
    /// An airport, with its runways.
    Airport(Airport),
    /// A heliport.
    Heliport(Heliport),
}
