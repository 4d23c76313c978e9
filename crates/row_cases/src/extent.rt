//! The parts of a finding's key, by rule.

ghost use Rattle.std.specs.Prelude.{◌≡◌};
ghost use Rattle.row_cases.specs.Entries.{extent_of};

use finding_lists::Rule;

/// The parts that a rule's key has.
#[derive(Clone, Copy)]
pub(crate) enum Extent {
    /// Nothing.
    Nowhere,
    /// An airfield.
    Whole,
    /// A runway of an airfield.
    Strip,
    /// The end or side of a runway, at least this number: 0 where it may be the side of the primary surface, else 1.
    StripPart(u8),
    /// The end or side of a heliport, with the least number likewise.
    PadPart(u8),
}

/// The parts that a rule's key has.
pub(crate) fn extent_of(rule: Rule) -> Extent
    ensures { result ≡ extent_of rule }
{
    match rule {
        Rule::H499 | Rule::NoticeA | Rule::WayA => Extent::Nowhere,
        Rule::Primary | Rule::NoticeB1 | Rule::NoticeB2 | Rule::WayB1 | Rule::WayB2 => {
            Extent::Strip
        }
        Rule::Approach => Extent::StripPart(1),
        Rule::Transition => Extent::StripPart(0),
        Rule::PadApproach => Extent::PadPart(1),
        Rule::PadTransition => Extent::PadPart(0),
        _ => Extent::Whole,
    }
}
