//! One entry of a list of findings.

ghost use Rattle.std.specs.Prelude.{◌≡◌};

use airfields::{FieldId, RunwayName};

/// A standard or a notice rule that a structure may exceed.
#[derive(Clone, Copy, Debug, PartialEq, Eq)]
pub enum Rule {
    /// The standard of 77.17(a)(1): 499 feet above ground.
    H499,
    /// The limit near an airport of 77.17(a)(2).
    Near,
    /// The horizontal surface of 77.19(a).
    Horizontal,
    /// The conical surface of 77.19(b).
    Conical,
    /// The primary surface of 77.19(c).
    Primary,
    /// An approach surface of 77.19(d).
    Approach,
    /// A transitional surface of 77.19(e).
    Transition,
    /// A heliport's primary surface of 77.23(a).
    PadPrimary,
    /// A heliport's approach surface of 77.23(b).
    PadApproach,
    /// A heliport's transitional surface of 77.23(c).
    PadTransition,
    /// Notice because of the height of 77.9(a).
    NoticeA,
    /// Notice because of the slope of 77.9(b)(1).
    NoticeB1,
    /// Notice because of the slope of 77.9(b)(2).
    NoticeB2,
    /// Notice because of the slope of 77.9(b)(3).
    NoticeB3,
    /// Notice of a structure on an airfield that 77.9(d) describes.
    NoticeD,
    /// Notice by 77.9(a) for a traverse way, under 77.9(c).
    WayA,
    /// Notice by 77.9(b)(1) for a traverse way, under 77.9(c).
    WayB1,
    /// Notice by 77.9(b)(2) for a traverse way, under 77.9(c).
    WayB2,
    /// Notice by 77.9(b)(3) for a traverse way, under 77.9(c).
    WayB3,
}

impl Rule {
    ghost use Rattle.finding_lists.specs.Verdicts.{is_notice as is_notice_of};

    /// Whether it is a notice rule of 77.9; the others are standards (77.17, 77.19, 77.23).
    pub fn is_notice(self) -> bool
        ensures { result ≡ is_notice_of self }
    {
        match self {
            Rule::NoticeA
            | Rule::NoticeB1
            | Rule::NoticeB2
            | Rule::NoticeB3
            | Rule::NoticeD
            | Rule::WayA
            | Rule::WayB1
            | Rule::WayB2
            | Rule::WayB3 => true,
            _ => false,
        }
    }
}

/// The surface or slope that is exceeded under a rule.
#[derive(Clone, Copy, Debug, PartialEq, Eq)]
pub struct SurfaceKey {
    /// The airfield, if the rule has one.
    pub field: Option<FieldId>,
    /// The runway, if the rule has one.
    pub runway: Option<RunwayName>,
    /// The end, 1 or 2; or the side of a transitional surface, 0 beside the primary surface, 1 or 2 beside that approach surface; 0 where
    /// neither.
    pub part: u8,
}

/// An exceeded rule, its surface, and the excess in tenths of a foot, rounded down.
#[derive(Clone, Copy, Debug, PartialEq, Eq)]
pub struct Finding {
    pub rule: Rule,
    pub key: SurfaceKey,
    pub excess: u32,
}
