//! The ceiling over a site, and the findings a tenth of a foot above it.

ghost use Rattle.std.specs.Prelude.{◌≡◌, ◌+◌, ◌*◌, ◌≤◌, ℕ, ℤ, pos, ◌≤ℤ◌, Option, IfSome, IfOk};
ghost use Rattle.surface_tree.specs.declared.square.TheConstants.{TOP_LEVEL};
ghost use Rattle.airfields.specs.declared.structure.TheConstants.{HEIGHT_LIMIT};
ghost use Rattle.height_rules.specs.declared.above_ground.TheConstants.{OBSTRUCTION_HEIGHT};
ghost use Rattle.oe_findings.specs.List.{findings_of};
ghost use Rattle.oe_findings.specs.Nearness.{AreNear};
ghost use Rattle.oe_ceiling.specs.Ceilings.{at_height as at_height_of, height_above as height_above_of, IsBinding, IsCeiling, IsCeilingOf, IsClear};

use crate::site::{at_height, is_clear};
use airfields::Filing;
use finding_lists::Findings;
use grid_exact::{NoMemory, Steps};
use oe_findings::Sky;
use std::alloc::Global;
use std::sync::ledger::Ledger;

/// The number of halvings that leave one height of all heights below 2^13, of which 4,990 tenths of a foot is the highest that
/// 77.17(a)(1) permits.
pub const HALVINGS: u32 = 13;

/// The number of lists that a search for a ceiling looks at: one at height 0, and one for each halving.
pub const LISTS: u32 = 14;

/// The greatest height without a finding, where there is none at height 0.
fn highest_clear<L: Ledger>(sky: &Sky, filing: &Filing, steps: &mut Steps<L>) -> i64
    requires { IsClear sky.now filing.now (pos 0) }
    ensures highest { IsCeiling sky.now filing.now result }
    ensures most { result ≤ℤ OBSTRUCTION_HEIGHT }
    ensures near { (n : ℕ) → AreNear sky.now filing.now.at n
        → steps.new ≤ steps.old + HALVINGS * (TOP_LEVEL + 1 + n) }
{
    filing.limits();
    let mut height = 0;
    let mut left = HALVINGS;
    while left > 0 {
        left -= 1;
        let step = i64::from(2_u32.pow(left));
        if is_clear(sky, filing, height + step, steps) {
            height += step;
        }
    }
    height
}

/// The greatest height at which the structure has no finding over the airfields, in tenths of a foot above the ground; `None` where it
/// has one even at height 0. The filing's own height is not used. It takes no memory.
///
/// No ceiling is above 4,990: above it 77.17(a)(1) is exceeded. A step is one square or one airfield of a search: at most 14 searches of
/// at most `TOP_LEVEL + 1` squares and as many airfields as there are surfaces near the structure.
pub fn ceiling<L: Ledger>(sky: &Sky, filing: &Filing, steps: &mut Steps<L>) -> Option<i64>
    ensures found { IsCeilingOf sky.now filing.now result }
    ensures most { IfSome result (λ height. height ≤ℤ OBSTRUCTION_HEIGHT) }
    ensures near { (n : ℕ) → AreNear sky.now filing.now.at n
        → steps.new ≤ steps.old + LISTS * (TOP_LEVEL + 1 + n) }
{
    if is_clear(sky, filing, 0, steps) {
        Some(highest_clear(sky, filing, steps))
    } else {
        None
    }
}

/// The height a tenth of a foot above the ceiling, or 0 where there is none.
fn height_above(ceiling: Option<i64>) -> i64
    requires least { IfSome ceiling (λ height. pos 0 ≤ℤ height) }
    requires most { IfSome ceiling (λ height. height ≤ℤ OBSTRUCTION_HEIGHT) }
    ensures found { result ≡ height_above_of ceiling }
    ensures least { pos 0 ≤ℤ result }
    ensures most { result ≤ℤ HEIGHT_LIMIT }
{
    match ceiling {
        Some(height) => height + 1,
        None => 0,
    }
}

/// The findings of the structure a tenth of a foot above its ceiling, or at height 0 where it has none.
///
/// # Errors
///
/// `NoMemory` where memory was refused.
pub fn findings_above<L: Ledger>(
    alloc: Global,
    sky: &Sky,
    filing: &Filing,
    ceiling: Option<i64>,
    steps: &mut Steps<L>,
) -> Result<Findings, NoMemory>
    requires least { IfSome ceiling (λ height. pos 0 ≤ℤ height) }
    requires most { IfSome ceiling (λ height. height ≤ℤ OBSTRUCTION_HEIGHT) }
    ensures found { IfOk result (λ list. list ≡
        findings_of sky.now (at_height_of filing.now (height_above_of ceiling))) }
    ensures near { (n : ℕ) → AreNear sky.now filing.now.at n
        → steps.new ≤ steps.old + (TOP_LEVEL + 1 + n) }
{
    sky.findings(alloc, &at_height(filing, height_above(ceiling)), steps)
}

/// What bars the structure from being higher: its findings a tenth of a foot above its ceiling, or at height 0 where it has none.
///
/// # Errors
///
/// `NoMemory` where memory was refused.
pub fn binding<L: Ledger>(
    alloc: Global,
    sky: &Sky,
    filing: &Filing,
    steps: &mut Steps<L>,
) -> Result<Findings, NoMemory>
    ensures found { IfOk result (λ list. IsBinding sky.now filing.now list) }
    ensures near { (n : ℕ) → AreNear sky.now filing.now.at n
        → steps.new ≤ steps.old + (LISTS + 1) * (TOP_LEVEL + 1 + n) }
{
    let highest = ceiling(sky, filing, steps);
    findings_above(alloc, sky, filing, highest, steps)
}
