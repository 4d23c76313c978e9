//! Structures with their tops.

ghost use Rattle.std.specs.Prelude.{◌≡◌, ◌≤ℤ◌};
ghost use Rattle.grid_exact.specs.Level.{IsLevel};
ghost use Rattle.height_rules.specs.Heights.{notice_top, standards_top};

use crate::heights::{TOP_MOST, top_for_notice, top_for_standards};
use airfields::Filing;
use grid_exact::Point;
use outline_boxes::Spot;
use std::marker::Model;

/// The structure of a filing with both of its tops and with its position prepared for box tests, computed once for all airfields near it;
/// contracts see it as the structure of the filing.
#[derive(Drop)]
pub struct Structure {
    filing: Filing,
    spot: Spot,
    standards_top: i64,
    notice_top: i64,
}

impl Model for Structure {
    ghost use Rattle.airfields.specs.Sites.{Site};
    ghost use Rattle.std.specs.Prelude.{◌≡◌};
    ghost use Rattle.height_rules.specs.Heights.{HasTops};

    ghost Value = { Site };

    ghost view = { λ s. s.filing };

    ghost invariant = { λ s. HasTops s.filing s.standards_top s.notice_top × (s.spot ≡ s.filing.at) };
}

impl Structure {
    /// The structure of a filing.
    pub fn of(filing: &Filing) -> Structure
        ensures { result ≡ filing.now }
    {
        Structure {
            filing: *filing,
            spot: Spot::of(&filing.at),
            standards_top: top_for_standards(filing),
            notice_top: top_for_notice(filing),
        }
    }

    /// The filing.
    pub fn filing(&self) -> &Filing
        ensures { result.now ≡ self.now }
    {
        &self.filing
    }

    /// The position of the structure.
    #[inline(always)]
    pub fn at(&self) -> &Point
        ensures { result.now ≡ self.now.at }
    {
        &self.filing.at
    }

    /// The position of the structure, prepared for box tests.
    #[inline(always)]
    pub fn spot(&self) -> &Spot
        ensures { result.now ≡ self.now.at }
    {
        &self.spot
    }

    /// The top for the standards, in tenths of a foot.
    #[inline(always)]
    pub fn standards_top(&self) -> i64
        ensures value { result ≡ standards_top self.now }
        ensures level { IsLevel result }
        ensures low { self.now.terrain ≤ℤ result }
        ensures high { result ≤ℤ TOP_MOST }
    {
        self.standards_top
    }

    /// The top for the notice rules, in tenths of a foot.
    #[inline(always)]
    pub fn notice_top(&self) -> i64
        ensures value { result ≡ notice_top self.now }
        ensures level { IsLevel result }
        ensures low { self.now.terrain ≤ℤ result }
        ensures high { result ≤ℤ TOP_MOST }
    {
        self.notice_top
    }
}
