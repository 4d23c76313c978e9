//! The surfaces of one heliport.

ghost use Rattle.std.specs.Prelude.{◌≡◌};
ghost use Rattle.grid_exact.specs.Excess.{IsExcess};
ghost use Rattle.grid_exact.specs.Level.{IsLevel};
ghost use Rattle.airfields.specs.Airfields.{IsHeldHeliport};
ghost use Rattle.airfields.specs.Categories.{is_described as is_described_of};
ghost use Rattle.heliport_surfaces.specs.Shapes.{approach_shape, landing_shape};
ghost use Rattle.heliport_surfaces.specs.Landings.{excess_over_primary_side};
ghost use Rattle.heliport_surfaces.specs.Approaches.{excess_over_approach_side};
ghost use Rattle.heliport_surfaces.specs.Pads.{landing_of, approach_of, landing_offset, approach_offset, excess_over_side, IsPadExcesses, pad_primary, pad_approach, pad_transition, pad_notice, pad_primary_excess, pad_approach_excess, pad_transition_excess, pad_notice_excess};

use crate::approach::PadApproach;
use crate::landing::LandingArea;
use crate::parts::{Beside, PadEnd, PadExcesses};
use crate::prepare::{approach, landing};
use airfields::Heliport;
use grid_exact::Point;
use std::marker::Model;

/// No surface is exceeded.
const NO_EXCESSES: PadExcesses = PadExcesses {
    primary: None,
    approach1: None,
    approach2: None,
    beside_primary: None,
    beside_approach1: None,
    beside_approach2: None,
};

/// The surfaces of a heliport, prepared for many points; contracts see it as the heliport. A heliport that 77.9(d) does not describe has
/// no surfaces: every excess is `None`.
#[derive(Drop)]
pub struct Pad {
    heliport: Heliport,
    pub(crate) landing: LandingArea,
    pub(crate) approach1: PadApproach,
    pub(crate) approach2: PadApproach,
}

impl Model for Pad {
    ghost use Rattle.airfields.specs.declared.airfield.Heliport.{Heliport};
    ghost use Rattle.heliport_surfaces.specs.Prepared.{IsPrepared};

    ghost Value = { Heliport };

    ghost view = { λ p. p.heliport };

    ghost invariant = { λ p. IsPrepared p.heliport p.landing p.approach1 p.approach2 };
}

impl Pad {
    /// The surfaces of a heliport within the limits of the register.
    pub fn of(h: &Heliport) -> Pad
        requires held { IsHeldHeliport h.now }
        ensures heliport { result ≡ h.now }
    {
        Pad {
            heliport: *h,
            landing: landing(h),
            approach1: approach(h, PadEnd::One),
            approach2: approach(h, PadEnd::Two),
        }
    }

    /// The heliport.
    pub fn heliport(&self) -> &Heliport
        ensures { result.now ≡ self.now }
    {
        &self.heliport
    }

    /// Whether 77.9(d) describes the heliport, so that it has surfaces.
    fn is_described(&self) -> bool
        ensures described { result ≡ is_described_of self.now.category }
        ensures held { IsHeldHeliport self.now }
    {
        self.heliport.category.described()
    }

    /// The takeoff and landing area.
    fn landing(&self) -> &LandingArea
        ensures { landing_shape result.now ≡ landing_of self.now }
    {
        &self.landing
    }

    /// The approach surface of this end.
    fn approach(&self, end: PadEnd) -> &PadApproach
        ensures { approach_shape result.now ≡ approach_of self.now end }
    {
        match end {
            PadEnd::One => &self.approach1,
            PadEnd::Two => &self.approach2,
        }
    }

    /// The excess of `top` over each surface of 77.23 at a point, in tenths of a foot, rounded down.
    #[tactic(auto, unfolding(crate::specs::Pads::pad_primary_excess, crate::specs::Pads::pad_approach_excess, crate::specs::Pads::pad_transition_excess))]
    pub fn excesses(&self, x: &Point, top: i64) -> PadExcesses
        requires top { IsLevel top }
        ensures value { IsPadExcesses self.now x.now top result }
    {
        if !self.is_described() {
            return NO_EXCESSES;
        }
        let landing = self.landing();
        let approach1 = self.approach(PadEnd::One);
        let approach2 = self.approach(PadEnd::Two);
        let at = landing.axis.offset(x);
        let at1 = approach1.axis.offset(x);
        let at2 = approach2.axis.offset(x);
        PadExcesses {
            primary: landing.excess(&at, top),
            approach1: approach1.excess(&at1, top),
            approach2: approach2.excess(&at2, top),
            beside_primary: landing.excess_beside(&at, top),
            beside_approach1: approach1.excess_beside(&at1, top),
            beside_approach2: approach2.excess_beside(&at2, top),
        }
    }

    /// The excess of `top` over the primary surface at a point, in tenths of a foot, rounded down (77.23(a)). `None` where it is not
    /// above, or the surface does not cover the point.
    #[tactic(auto, unfolding(crate::specs::Pads::pad_primary_excess))]
    pub fn excess_primary(&self, x: &Point, top: i64) -> Option<u32>
        requires top { IsLevel top }
        ensures exact { IsExcess (pad_primary self.now x.now) top result }
        ensures value { result ≡ pad_primary_excess self.now x.now top }
    {
        if !self.is_described() {
            return None;
        }
        let landing = self.landing();
        landing.excess(&landing.axis.offset(x), top)
    }

    /// The excess of `top` over the approach surface of an end at a point, in tenths of a foot, rounded down (77.23(b)). `None` where it
    /// is not above, or the surface does not cover the point.
    #[tactic(auto, unfolding(crate::specs::Pads::pad_approach_excess))]
    pub fn excess_approach(&self, end: PadEnd, x: &Point, top: i64) -> Option<u32>
        requires top { IsLevel top }
        ensures exact { IsExcess (pad_approach self.now end x.now) top result }
        ensures value { result ≡ pad_approach_excess self.now end x.now top }
    {
        if !self.is_described() {
            return None;
        }
        let approach = self.approach(end);
        approach.excess(&approach.axis.offset(x), top)
    }

    /// The excess of `top` over the transitional surface beside the primary surface.
    fn beside_primary(&self, x: &Point, top: i64) -> Option<u32>
        requires top { IsLevel top }
        ensures { result ≡ excess_over_primary_side (landing_of self.now) (landing_offset self.now
            x.now) top }
    {
        let landing = self.landing();
        landing.excess_beside(&landing.axis.offset(x), top)
    }

    /// The excess of `top` over the transitional surface beside the approach surface of an end.
    fn beside_approach(&self, end: PadEnd, x: &Point, top: i64) -> Option<u32>
        requires top { IsLevel top }
        ensures { result ≡ excess_over_approach_side (approach_of self.now end) (approach_offset
            self.now end x.now) top }
    {
        let approach = self.approach(end);
        approach.excess_beside(&approach.axis.offset(x), top)
    }

    /// The excess of `top` over the transitional surface beside this part.
    fn side(&self, beside: Beside, x: &Point, top: i64) -> Option<u32>
        requires top { IsLevel top }
        ensures { result ≡ excess_over_side self.now beside x.now top }
    {
        match beside {
            Beside::Primary => self.beside_primary(x, top),
            Beside::ApproachOne => self.beside_approach(PadEnd::One, x, top),
            Beside::ApproachTwo => self.beside_approach(PadEnd::Two, x, top),
        }
    }

    /// The excess of `top` over the transitional surface beside the primary or an approach surface at a point, in tenths of a foot,
    /// rounded down (77.23(c)). `None` where it is not above, or the surface does not cover the point.
    #[tactic(auto, unfolding(crate::specs::Pads::pad_transition_excess))]
    pub fn excess_transition(&self, beside: Beside, x: &Point, top: i64) -> Option<u32>
        requires top { IsLevel top }
        ensures exact { IsExcess (pad_transition self.now beside x.now) top result }
        ensures value { result ≡ pad_transition_excess self.now beside x.now top }
    {
        if !self.is_described() {
            return None;
        }
        self.side(beside, x, top)
    }

    /// The excess of `top` over the slope of 25 to 1 from the takeoff and landing area at a point, in tenths of a foot, rounded down
    /// (77.9(b)(3)). `None` where it is not above, or the point is more than 5,000 feet from the area.
    #[tactic(auto, unfolding(crate::specs::Pads::pad_notice_excess))]
    pub fn excess_notice(&self, x: &Point, top: i64) -> Option<u32>
        requires top { IsLevel top }
        ensures exact { IsExcess (pad_notice self.now x.now) top result }
        ensures value { result ≡ pad_notice_excess self.now x.now top }
    {
        if !self.is_described() {
            return None;
        }
        let landing = self.landing();
        landing.excess_notice(&landing.axis.offset(x), top)
    }
}
