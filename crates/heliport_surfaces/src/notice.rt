//! The slope of notice near a heliport.

ghost use Rattle.std.specs.Prelude.{◌≡◌, ◌↔◌, ◌*◌, ◌^◌, ◌≤◌, ◌-ℤ◌, ◌+ℤ◌, ◌≤ℤ◌, unsigned_abs, IsTrue};
ghost use Rattle.std.specs.Ordering.{is_le as is_le_of, is_lt as is_lt_of};
ghost use Rattle.grid_exact.specs.Level.{IsLevel};
ghost use Rattle.heliport_surfaces.specs.Notices.{is_within};
ghost use Rattle.heliport_surfaces.specs.Shapes.{gap_shape};
ghost use Rattle.heliport_surfaces.specs.declared.rules.TheConstants.{NOTICE_RANGE};

use crate::gap::LandingGap;
use crate::rules::{NOTICE_RISE, NOTICE_SLOPE};
use grid_exact::{Rising, Sloping};
use std::cmp::Ordering;

/// The slope of 77.9(b)(3) at a point that it reaches: 25 to 1 from the elevation of the heliport, outward from the takeoff and landing
/// area.
#[derive(Clone, Copy)]
pub(crate) struct NoticeSlope {
    gap: LandingGap,
    z: i64,
    ghost low: { unsigned_abs z ≤ 2 ^ 18 },
    ghost near: { IsTrue (is_within (gap_shape gap) NOTICE_RANGE) },
}

impl NoticeSlope {
    ghost use Rattle.heliport_surfaces.specs.Notices.{IsAboveNotice, IsAtNotice};

    /// The slope at a point that it reaches, from the point's position relative to the area and the elevation of the heliport.
    pub(crate) fn new(gap: LandingGap, z: i64) -> NoticeSlope
        requires low { unsigned_abs z ≤ 2 ^ 18 }
        requires near { IsTrue (is_within (gap_shape gap) NOTICE_RANGE) }
        ensures gap { gap_shape result.gap ≡ gap_shape gap }
        ensures z { result.z ≡ z }
    {
        NoticeSlope { gap, z }
    }

    /// The distance at which the slope has a level, which is at most 200 feet above the elevation.
    fn distance(&self, level: i64) -> u128
        requires low { self.now.z ≤ℤ level }
        requires high { level ≤ℤ (self.now.z +ℤ NOTICE_RISE) }
        ensures value { result ≡ NOTICE_SLOPE * unsigned_abs (level -ℤ self.now.z) }
        ensures size { result ≤ NOTICE_RANGE }
    {
        NOTICE_SLOPE * (level - self.z).unsigned_abs() as u128
    }

    /// Compares the height of the slope with a level.
    fn compare(&self, level: i64) -> Ordering
        requires { IsLevel level }
        ensures reached { IsTrue (is_le_of result)
            ↔ IsAtNotice self.now.z (gap_shape self.now.gap) level }
        ensures exceeded { IsTrue (is_lt_of result)
            ↔ IsAboveNotice self.now.z (gap_shape self.now.gap) level }
    {
        if level < self.z {
            return Ordering::Greater;
        }
        if self.z + NOTICE_RISE < level {
            return Ordering::Less;
        }
        self.gap.compare(self.distance(level))
    }
}

impl Rising for NoticeSlope {
    ghost use Rattle.heliport_surfaces.specs.Notices.{IsAtNotice};
    ghost use Rattle.heliport_surfaces.specs.Laws.{notice_rises};

    ghost reaches = { λ s z. IsAtNotice s.z (gap_shape s.gap) z };

    fn is_reached(&self, level: i64) -> bool {
        self.compare(level).is_le()
    }

    ghost rises = { λ s y z h k. notice_rises s.z (gap_shape s.gap) y z h k };
}

impl Sloping for NoticeSlope {
    ghost use Rattle.heliport_surfaces.specs.Notices.{IsAboveNotice};
    ghost use Rattle.heliport_surfaces.specs.Laws.{above_reaches};

    ghost exceeds = { λ s z. IsAboveNotice s.z (gap_shape s.gap) z };

    fn is_exceeded(&self, level: i64) -> bool {
        self.compare(level).is_lt()
    }

    ghost exceeds_reaches = { λ s z h. above_reaches s.z (gap_shape s.gap) z h };
}
