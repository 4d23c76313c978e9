//! The parts of a heliport.

/// One of the two ends of the axis of a heliport's takeoff and landing area.
#[derive(Clone, Copy, Debug, PartialEq, Eq)]
pub enum PadEnd {
    /// The end `a` of the heliport.
    One,
    /// The end `b` of the heliport.
    Two,
}

/// The part of a heliport that a transitional surface lies beside.
#[derive(Clone, Copy, Debug, PartialEq, Eq)]
pub enum Beside {
    /// The primary surface.
    Primary,
    /// The approach surface of the first end.
    ApproachOne,
    /// The approach surface of the second end.
    ApproachTwo,
}

/// The excess of a top over each surface of 77.23 of a heliport at a point, in tenths of a foot, rounded down; `None` where it is not
/// above, or the surface does not cover the point.
#[derive(Clone, Copy, Debug, PartialEq, Eq)]
pub struct PadExcesses {
    /// The primary surface.
    pub primary: Option<u32>,
    /// The approach surface of the first end.
    pub approach1: Option<u32>,
    /// The approach surface of the second end.
    pub approach2: Option<u32>,
    /// The transitional surface beside the primary surface.
    pub beside_primary: Option<u32>,
    /// The transitional surface beside the approach surface of the first end.
    pub beside_approach1: Option<u32>,
    /// The transitional surface beside the approach surface of the second end.
    pub beside_approach2: Option<u32>,
}
