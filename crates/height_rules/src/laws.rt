//! Lemmas about the definitions of the limits; never run.

ghost use Rattle.std.specs.Prelude.{◌≡◌, pos};
ghost use Rattle.grid_exact.specs.Excess.{IsExcess};
ghost use Rattle.airfields.specs.Sites.{Site, IsSite};
ghost use Rattle.airfields.specs.declared.airfield.Airport.{Airport};
ghost use Rattle.height_rules.specs.AboveGround.{notice_surface, notice_excess, height_surface, height_excess};
ghost use Rattle.height_rules.specs.Heights.{notice_top, standards_top};
ghost use Rattle.height_rules.specs.NearAirport.{near_surface, near_excess};

use crate::above_ground::{NOTICE_HEIGHT, OBSTRUCTION_HEIGHT};
use crate::area::OUTER_REACH;
use crate::heights::{INTERSTATE_RAISED, PRIVATE_RAISED, RAIL_RAISED, ROAD_RAISED, TOP_MOST};
use crate::limit::{INNER_HEIGHT, INNER_RADIUS, NAUTICAL_MILE, RISE_PER_MILE};
use crate::near_airport::OUTER_HUNDREDTHS;

/// For a structure within the limits of a filing, `notice_excess` is its excess over the height of 77.9(a), and none exactly where it
/// is not above.
#[tactic(auto, using(crate::proofs::HeightFacts::notice_excess_is))]
pub fn notice_excess_is()
    ensures { (s : Site) → IsSite s → IsExcess (notice_surface s) (notice_top s) (notice_excess s) }
{}

/// The same for `height_excess` and the height of 77.17(a)(1).
#[tactic(auto, using(crate::proofs::HeightFacts::height_excess_is))]
pub fn height_excess_is()
    ensures { (s : Site) → IsSite s →
        IsExcess (height_surface s) (standards_top s) (height_excess s) }
{}

/// The same for `near_excess` and the limit of 77.17(a)(2) of any airport.
#[tactic(auto, using(crate::proofs::NearFacts::near_excess_is))]
pub fn near_excess_is()
    ensures { (a : Airport) (s : Site) → IsSite s →
        IsExcess (near_surface a s) (standards_top s) (near_excess a s) }
{}

/// A lemma, never run: the numbers of the limits, in tenths of a foot. Notice is required above 200 feet (77.9(a)), and a structure above
/// 499 feet is an obstruction (77.17(a)(1)). The limit near an airport is 200 feet above its base within 3 nautical miles and rises by
/// 100 feet for each further one, up to 499 feet at 5.99 (77.17(a)(2)). 17 feet are added to a highway, 15 to another road, at least 10
/// to a private road, 23 to a railroad (77.9(c)). No top is above 30,100 feet.
pub fn numbers()
    ensures notice { NOTICE_HEIGHT ≡ pos 2_000 }
    ensures obstruction { OBSTRUCTION_HEIGHT ≡ pos 4_990 }
    ensures mile { NAUTICAL_MILE ≡ pos 60_761 }
    ensures inner_radius { INNER_RADIUS ≡ 182_283 }
    ensures inner_height { INNER_HEIGHT ≡ pos 2_000 }
    ensures rise { RISE_PER_MILE ≡ pos 1_000 }
    ensures outer { OUTER_HUNDREDTHS ≡ pos 599 }
    ensures outer_reach { OUTER_REACH ≡ pos 363_958 }
    ensures interstate { INTERSTATE_RAISED ≡ pos 170 }
    ensures road { ROAD_RAISED ≡ pos 150 }
    ensures private_road { PRIVATE_RAISED ≡ pos 100 }
    ensures railroad { RAIL_RAISED ≡ pos 230 }
    ensures top { TOP_MOST ≡ pos 301_000 }
{}
