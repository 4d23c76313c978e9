//! Areas with or without their edge.

/// Whether the edge of an area belongs to it.
#[derive(Clone, Copy, Debug, PartialEq, Eq)]
pub(crate) enum Edge {
    /// The edge belongs to it.
    Closed,
    /// The edge does not belong to it.
    Open,
}
