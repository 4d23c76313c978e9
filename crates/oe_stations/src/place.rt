//! The order of findings in a list.

ghost use Rattle.std.specs.Prelude.{◌≡◌};
ghost use Rattle.oe_stations.specs.Order.{part_of, place_of, rank_of};

use airfields::{FieldId, RunwayName};
use finding_lists::{Finding, Rule};

/// The place of a finding in the order of a list.
#[derive(Clone, Copy, Debug, PartialEq, Eq, PartialOrd, Ord)]
pub struct Place {
    /// The part of the list: the height of 77.17(a)(1), the standards of the airfields, 77.9(a), the slopes of 77.9(b), or 77.9(d).
    pub part: u8,
    /// The airfield, if the rule has one.
    pub field: Option<FieldId>,
    /// The runway, if the rule has one; what belongs to no runway comes before.
    pub runway: Option<RunwayName>,
    /// The number of the rule.
    pub rank: u8,
    /// The end or side of the surface, or 0.
    pub side: u8,
}

/// The part of the list that has the findings of a rule.
fn part_of_rule(rule: Rule) -> u8
    ensures { result ≡ part_of rule }
{
    match rule {
        Rule::H499 => 0,
        Rule::NoticeA | Rule::WayA => 2,
        Rule::NoticeB1
        | Rule::NoticeB2
        | Rule::NoticeB3
        | Rule::WayB1
        | Rule::WayB2
        | Rule::WayB3 => 3,
        Rule::NoticeD => 4,
        _ => 1,
    }
}

/// The number of a rule.
fn rank_of_rule(rule: Rule) -> u8
    ensures { result ≡ rank_of rule }
{
    match rule {
        Rule::H499 => 0,
        Rule::Near => 1,
        Rule::Horizontal => 2,
        Rule::Conical => 3,
        Rule::Primary => 4,
        Rule::Approach => 5,
        Rule::Transition => 6,
        Rule::PadPrimary => 7,
        Rule::PadApproach => 8,
        Rule::PadTransition => 9,
        Rule::NoticeA => 10,
        Rule::NoticeB1 => 11,
        Rule::NoticeB2 => 12,
        Rule::NoticeB3 => 13,
        Rule::NoticeD => 14,
        Rule::WayA => 15,
        Rule::WayB1 => 16,
        Rule::WayB2 => 17,
        Rule::WayB3 => 18,
    }
}

impl Place {
    /// The place of the finding.
    pub fn of(finding: &Finding) -> Place
        ensures { result ≡ place_of finding.now }
    {
        Place {
            part: part_of_rule(finding.rule),
            field: finding.key.field,
            runway: finding.key.runway,
            rank: rank_of_rule(finding.rule),
            side: finding.key.part,
        }
    }
}
