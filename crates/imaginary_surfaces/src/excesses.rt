//! The excesses of a top over the surfaces of one runway.

/// The excess of a top over each surface of a runway at a point, in tenths of a foot, rounded down; `None` where it is not above, or the
/// surface does not cover the point.
#[derive(Clone, Copy, PartialEq, Eq, Debug)]
pub struct StripExcesses {
    /// Over the primary surface (77.19(c)).
    pub primary: Option<u32>,
    /// Over the approach surface of the first end (77.19(d)).
    pub approach1: Option<u32>,
    /// Over the approach surface of the second end (77.19(d)).
    pub approach2: Option<u32>,
    /// Over the transitional surface beside the primary surface (77.19(e)).
    pub beside_primary: Option<u32>,
    /// Over the transitional surface beside the approach surface of the first end (77.19(e)).
    pub beside_approach1: Option<u32>,
    /// Over the transitional surface beside the approach surface of the second end (77.19(e)).
    pub beside_approach2: Option<u32>,
}
