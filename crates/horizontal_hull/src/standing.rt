//! The surface over a point.

/// The surface of an airport that covers a point: horizontal, conical or neither (77.19(a), (b)).
#[derive(Clone, Copy, Debug, PartialEq, Eq)]
pub enum Standing {
    /// The horizontal surface covers the point.
    Horizontal,
    /// The conical surface covers it; the value is the least whole level at or above it, in tenths of a foot.
    Conical(i64),
    /// Neither surface covers it.
    Beyond,
}
