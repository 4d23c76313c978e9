//! The tops that the rules are applied to.

ghost use Rattle.std.specs.Prelude.{◌≡◌, ◌≤ℤ◌, pos};
ghost use Rattle.grid_exact.specs.Level.{IsLevel};
ghost use Rattle.height_rules.specs.Heights.{allowance_of, notice_top, standards_top};

use airfields::{ELEVATION_MOST, Filing, HEIGHT_LIMIT, MOBILE_LIMIT, StructureKind};

/// Height added to an Interstate highway for its traffic, in tenths of a foot: 17 feet (77.9(c)).
pub const INTERSTATE_RAISED: i64 = 170;

/// Height added to another public roadway, in tenths of a foot: 15 feet (77.9(c)).
pub const ROAD_RAISED: i64 = 150;

/// Least height added to a private road, in tenths of a foot: 10 feet (77.9(c)).
pub const PRIVATE_RAISED: i64 = 100;

/// Height added to a railroad, in tenths of a foot: 23 feet (77.9(c)).
pub const RAIL_RAISED: i64 = 230;

/// The highest possible top, in tenths of a foot: the highest ground, the greatest height, and the greatest allowance, which is that
/// for the greatest mobile object.
pub const TOP_MOST: i64 = ELEVATION_MOST + HEIGHT_LIMIT + MOBILE_LIMIT;

/// The height added to a traverse way for the traffic on it, in tenths of a foot; 0 for other structures (77.9(c)).
pub fn allowance(filing: &Filing) -> i64
    ensures value { result ≡ allowance_of filing.now }
    ensures low { pos 0 ≤ℤ result }
    ensures high { result ≤ℤ MOBILE_LIMIT }
{
    match filing.kind {
        StructureKind::Object | StructureKind::Antenna => 0,
        StructureKind::Interstate => INTERSTATE_RAISED,
        StructureKind::Road => ROAD_RAISED,
        StructureKind::Private => filing.mobile.max(PRIVATE_RAISED),
        StructureKind::Rail => RAIL_RAISED,
        StructureKind::Water => filing.mobile,
    }
}

/// The top for the notice rules, in tenths of a foot: ground, height and allowance.
pub fn top_for_notice(filing: &Filing) -> i64
    ensures value { result ≡ notice_top filing.now }
    ensures level { IsLevel result }
    ensures low { filing.now.terrain ≤ℤ result }
    ensures high { result ≤ℤ TOP_MOST }
{
    filing.ground + (filing.height + allowance(filing))
}

/// The top for the standards, in tenths of a foot: as for notice, but a traverse way on or near an airport with an operative ground
/// traffic control service has no allowance (77.17(b)).
pub fn top_for_standards(filing: &Filing) -> i64
    ensures value { result ≡ standards_top filing.now }
    ensures level { IsLevel result }
    ensures low { filing.now.terrain ≤ℤ result }
    ensures high { result ≤ℤ TOP_MOST }
{
    if filing.flags.controlled {
        return filing.ground + filing.height;
    }
    top_for_notice(filing)
}
