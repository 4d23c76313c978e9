//! The position of a point relative to a surface between two lateral boundaries.

ghost use Rattle.std.specs.Prelude.{◌≡◌};
ghost use Rattle.heliport_surfaces.specs.Sizes.{HasPlaceSizes};

use crate::rules::TRANSITION_REACH;
use grid_exact::{is_at_least_root, is_at_most_root};

/// The position of a point relative to the primary or an approach surface. All lengths are times the length of the axis.
#[derive(Clone, Copy)]
pub(crate) struct PadPlace {
    /// Whether the point is within the surface's extent along the axis.
    pub(crate) is_along: bool,
    /// The distance to a side, on the scale of the surface.
    pub(crate) out: i128,
    /// The distance of the lateral boundary there on that scale; it is multiplied by the root of `square`.
    pub(crate) edge: i128,
    /// The distance from the axis.
    pub(crate) aside: i128,
    /// The square of the length of the axis.
    pub(crate) square: u128,
    ghost sized: { HasPlaceSizes out edge aside square },
}

impl PadPlace {
    ghost use Rattle.heliport_surfaces.specs.Places.{is_covered as is_covered_of, is_covered_beside as is_covered_beside_of};
    ghost use Rattle.heliport_surfaces.specs.Shapes.{place_shape};

    /// Whether the surface covers the point.
    #[tactic(auto, using(grid_exact::proofs::Sizes::fits), unfolding(crate::specs::Places::is_covered))]
    pub(crate) fn is_covered(&self) -> bool
        ensures { result ≡ is_covered_of (place_shape self.now) }
    {
        self.is_along && is_at_most_root(self.out, self.edge, self.square)
    }

    /// Whether a transitional surface beside it covers the point.
    #[tactic(auto, using(grid_exact::proofs::Sizes::fits), unfolding(crate::specs::Places::is_covered_beside))]
    pub(crate) fn is_covered_beside(&self) -> bool
        ensures { result ≡ is_covered_beside_of (place_shape self.now) }
    {
        self.is_along
            && is_at_least_root(self.out, self.edge, self.square)
            && is_at_most_root(self.aside, TRANSITION_REACH as i128, self.square)
    }
}
