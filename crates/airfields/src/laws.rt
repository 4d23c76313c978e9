//! Lemmas about structures, and the limits and numbers of this crate as numerals.

ghost use Rattle.std.specs.Prelude.{◌≡◌, ◌↔◌, true, pos, neg_ℤ};
ghost use Rattle.airfields.specs.Sites.{Site};
ghost use Rattle.airfields.specs.contracts.structure.FilingPartialEq.TheImpl as filing;

use crate::filing::MOBILE_LIMIT;
use crate::limits::{
    ELEVATION_LEAST, ELEVATION_MOST, HELIPORT_AXIS_LEAST, HELIPORT_AXIS_MOST, HELIPORT_WIDTH_LEAST,
    HELIPORT_WIDTH_MOST, RUNWAY_LEAST, RUNWAY_MOST, RUNWAY_REACH,
};
use crate::names::NAME_LIMIT;
use crate::runways::{LONG_RUNWAY, MOST_RUNWAYS};
use crate::structure::HEIGHT_LIMIT;

/// A lemma, never run: the numbers of this crate, in tenths of a foot. A runway is long above 3,200 feet (77.9(b) and 77.17(a)(2)). The
/// others are limits of the desk's input: elevations, heights above ground, the height of the highest mobile object, the length of a
/// runway and the distance of its ends from the reference point, the axis and the width of a heliport, the number of runways of an
/// airport, and the number of bytes of a name.
pub fn numbers()
    ensures long_runway { LONG_RUNWAY ≡ 32_000 }
    ensures elevation_least { ELEVATION_LEAST ≡ neg_ℤ (pos 20_000) }
    ensures elevation_most { ELEVATION_MOST ≡ pos 200_000 }
    ensures height { HEIGHT_LIMIT ≡ pos 100_000 }
    ensures mobile { MOBILE_LIMIT ≡ pos 1_000 }
    ensures runway_least { RUNWAY_LEAST ≡ 1_000 }
    ensures runway_most { RUNWAY_MOST ≡ 200_000 }
    ensures runway_reach { RUNWAY_REACH ≡ 400_000 }
    ensures axis_least { HELIPORT_AXIS_LEAST ≡ 100 }
    ensures axis_most { HELIPORT_AXIS_MOST ≡ 10_000 }
    ensures width_least { HELIPORT_WIDTH_LEAST ≡ pos 100 }
    ensures width_most { HELIPORT_WIDTH_MOST ≡ pos 5_000 }
    ensures runways { MOST_RUNWAYS ≡ 16 }
    ensures name { NAME_LIMIT ≡ 8 }
{}

/// A lemma, never run: two structures are equal exactly where `==` returns true.
pub fn same_structure()
    ensures { (a b : Site) → (filing.ghosts.eq a b ≡ true) ↔ (a ≡ b) }
{}
