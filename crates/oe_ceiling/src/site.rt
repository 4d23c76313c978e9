//! A structure at another height.

ghost use Rattle.std.specs.Prelude.{◌≡◌, ◌+◌, ◌≤◌, ◌↔◌, IsTrue, ℕ, pos, ◌≤ℤ◌, length};
ghost use Rattle.airfields.specs.declared.structure.TheConstants.{HEIGHT_LIMIT};
ghost use Rattle.surface_tree.specs.declared.square.TheConstants.{TOP_LEVEL};
ghost use Rattle.oe_findings.specs.Nearness.{AreNear};
ghost use Rattle.oe_ceiling.specs.Ceilings.{at_height as at_height_of, IsClear};

use airfields::Filing;
use grid_exact::Steps;
use oe_findings::Sky;
use std::sync::ledger::Ledger;

/// The structure with another height above the ground.
pub(crate) fn at_height(filing: &Filing, height: i64) -> Filing
    requires least { pos 0 ≤ℤ height }
    requires most { height ≤ℤ HEIGHT_LIMIT }
    ensures { result ≡ at_height_of filing.now height }
{
    Filing {
        at: filing.at,
        ground: filing.ground,
        height,
        kind: filing.kind,
        mobile: filing.mobile,
        flags: filing.flags,
        on: filing.on,
    }
}

/// Whether the structure has no finding with this height. It takes no memory.
pub(crate) fn is_clear<L: Ledger>(
    sky: &Sky,
    filing: &Filing,
    height: i64,
    steps: &mut Steps<L>,
) -> bool
    requires least { pos 0 ≤ℤ height }
    requires most { height ≤ℤ HEIGHT_LIMIT }
    ensures found { IsTrue result ↔ IsClear sky.now filing.now height }
    ensures near { (n : ℕ) → AreNear sky.now filing.now.at n
        → steps.new ≤ steps.old + (TOP_LEVEL + 1 + n) }
{
    sky.is_clear(&at_height(filing, height), steps)
}
