//! Heights above the ground at the site.

ghost use Rattle.std.specs.Prelude.{◌≡◌, ◌+ℤ◌, ◌≤◌, ◌^◌, ◌≤ℤ◌, ⊤, IfSome, pos};
ghost use Rattle.grid_exact.specs.Excess.{IsExcess, flat_surface};
ghost use Rattle.grid_exact.specs.Level.{IsLevel};
ghost use Rattle.height_rules.specs.Heights.{notice_top, standards_top};
ghost use Rattle.height_rules.specs.AboveGround.{notice_surface, notice_excess, height_surface, height_excess};

use crate::heights::{top_for_notice, top_for_standards};
use airfields::Filing;
use grid_exact::flat_excess;

/// Height above ground above which notice is required, in tenths of a foot: 200 feet (77.9(a)).
pub const NOTICE_HEIGHT: i64 = 2_000;

/// Height above ground above which a structure is an obstruction, in tenths of a foot: 499 feet (77.17(a)(1)).
pub const OBSTRUCTION_HEIGHT: i64 = 4_990;

/// The excess of `top` over a height above the ground at the site, in tenths of a foot; `None` where it is not above.
fn excess_over_ground(filing: &Filing, height: i64, top: i64) -> Option<u32>
    requires least { pos 0 ≤ℤ height }
    requires most { height ≤ℤ OBSTRUCTION_HEIGHT }
    requires top { IsLevel top }
    ensures exact { IsExcess (flat_surface ⊤ (filing.now.terrain +ℤ height)) top result }
    ensures size { IfSome result (λ e. e ≤ 2 ^ 26) }
{
    flat_excess(filing.ground + height, top)
}

/// The excess of the structure over 200 feet above ground, in tenths of a foot (77.9(a)); `None` where it is not above.
#[tactic(auto, using(crate::proofs::HeightFacts::flat_listed))]
pub fn excess_200(filing: &Filing) -> Option<u32>
    ensures exact { IsExcess (notice_surface filing.now) (notice_top filing.now) result }
    ensures value { result ≡ notice_excess filing.now }
{
    excess_over_ground(filing, NOTICE_HEIGHT, top_for_notice(filing))
}

/// The excess of the structure over 499 feet above ground, in tenths of a foot (77.17(a)(1)); `None` where it is not above.
#[tactic(auto, using(crate::proofs::HeightFacts::flat_listed))]
pub fn excess_499(filing: &Filing) -> Option<u32>
    ensures exact { IsExcess (height_surface filing.now) (standards_top filing.now) result }
    ensures value { result ≡ height_excess filing.now }
{
    excess_over_ground(filing, OBSTRUCTION_HEIGHT, top_for_standards(filing))
}
