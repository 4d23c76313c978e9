//! Classes of runways: the widths, lengths and slopes of a runway's surfaces (77.19(a), (c) and (d)) by its use and by the
//! approaches to its ends. All lengths are in tenths of a foot.
#![tactic(auto)]

mod class;
mod laws;
mod table;

pub use class::{
    EndClass, PRECISION_SLOPE, PRECISION_SLOPE2, PRECISION_SPLIT, PrecisionOnUtility, RunwayClass,
    WIDENING_SCALE,
};
pub use laws::numbers;
pub use table::{RADIUS_MOST, classify, more_precise};

/// The kind of approach that a runway end has or is planned for (77.19), in rising order of precision.
#[derive(Clone, Copy, Debug, PartialEq, Eq)]
pub enum ApproachKind {
    /// Visual approaches alone.
    Visual,
    /// Nonprecision instrument approaches with visibility minimums greater than three-fourths of a statute mile.
    NonprecisionAbove,
    /// Nonprecision instrument approaches with visibility minimums as low as three-fourths of a statute mile.
    NonprecisionLow,
    /// Precision instrument approaches.
    Precision,
}
