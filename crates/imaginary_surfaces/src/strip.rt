//! The surfaces of one runway.

ghost use Rattle.std.specs.Prelude.{◌≡◌};
ghost use Rattle.grid_exact.specs.Excess.{IsExcess};
ghost use Rattle.grid_exact.specs.Level.{IsLevel};
ghost use Rattle.grid_exact.specs.Lines.{offset as offset_of};
ghost use Rattle.airfields.specs.Runways.{IsProper};
ghost use Rattle.imaginary_surfaces.specs.Shapes.{approach_shape};
ghost use Rattle.runway_lines.specs.Ends.{AreCenters, centers as centers_of};
ghost use Rattle.imaginary_surfaces.specs.Strips.{primary_of, approach_of, IsStripExcesses, primary_surface, approach_surface, primary_excess, approach_excess};
ghost use Rattle.imaginary_surfaces.specs.Strips.{primary_transition_surface, approach_transition_surface, primary_transition_excess, approach_transition_excess};

use crate::approach::ApproachSurface;
use crate::clearance::Clearance;
use crate::excesses::StripExcesses;
use crate::place::Place;
use crate::prepare::{approach, primary};
use crate::primary::PrimarySurface;
use airfields::Runway;
use grid_exact::{Cap, Point};
use runway_lines::{End, center};
use std::marker::Model;

/// The imaginary surfaces of a runway, prepared for many points; contracts see it as the runway.
#[derive(Drop)]
pub struct Strip {
    /// Stored next to the line of the primary surface, since most points need nothing else.
    pub(crate) clearance: Clearance,
    pub(crate) primary: PrimarySurface,
    approach1: ApproachSurface,
    approach2: ApproachSurface,
    runway: Runway,
}

impl Model for Strip {
    ghost use Rattle.airfields.specs.declared.runway.Runway.{Runway};
    ghost use Rattle.imaginary_surfaces.specs.Prepared.{IsPrepared};

    ghost Value = { Runway };

    ghost view = { λ s. s.runway };

    ghost invariant = { λ s. IsPrepared s.runway s.primary s.approach1 s.approach2 s.clearance };
}

impl Strip {
    /// The surfaces of a runway within the limits of the register.
    pub fn of(runway: &Runway) -> Strip
        requires proper { IsProper runway.now }
        ensures runway { result ≡ runway.now }
    {
        let one = center(runway, End::One);
        let two = center(runway, End::Two);
        let primary = primary(runway, &one, &two);
        let approach1 = approach(runway, End::One, &one, &two);
        let approach2 = approach(runway, End::Two, &two, &one);
        Strip {
            clearance: Clearance::of(&primary, &approach1, &approach2),
            primary,
            approach1,
            approach2,
            runway: *runway,
        }
    }

    /// The runway.
    pub fn runway(&self) -> &Runway
        ensures { result.now ≡ self.now }
    {
        &self.runway
    }

    /// The approach surface of this end.
    pub(crate) fn approach(&self, end: End) -> &ApproachSurface
        ensures shape { approach_shape result.now ≡ approach_of self.now end }
    {
        match end {
            End::One => &self.approach1,
            End::Two => &self.approach2,
        }
    }

    /// The position of a point relative to the line of the primary surface.
    pub(crate) fn by_primary(&self, x: &Point) -> Place
        ensures { result ≡ offset_of (primary_of self.now).line x.now }
    {
        Place::by(&self.primary.axis, x)
    }

    /// The position of a point relative to the line of the approach surface of this end.
    pub(crate) fn by_approach(&self, end: End, x: &Point) -> Place
        ensures { result ≡ offset_of (approach_of self.now end).line x.now }
    {
        Place::by(&self.approach(end).axis, x)
    }

    /// The excess of `top` over the primary surface at a point with this offset from its line.
    pub(crate) fn over_primary(&self, at: &Place, x: &Point, top: i64) -> Option<u32>
        requires at { at.now ≡ offset_of (primary_of self.now).line x.now }
        requires top { IsLevel top }
        ensures exact { IsExcess (primary_surface self.now x.now) top result }
        ensures value { result ≡ primary_excess self.now x.now top }
    {
        self.primary.excess(at, x, top)
    }

    /// The excess of `top` over the approach surface of an end at a point with this offset from its line; only the contract uses the
    /// point.
    pub(crate) fn over_approach(&self, end: End, at: &Place, x: &Point, top: i64) -> Option<u32>
        requires at { at.now ≡ offset_of (approach_of self.now end).line x.now }
        requires top { IsLevel top }
        ensures exact { IsExcess (approach_surface self.now end x.now) top result }
        ensures value { result ≡ approach_excess self.now end x.now top }
    {
        self.approach(end).excess(at, top)
    }

    /// The excess of `top` over the transitional surface beside the primary surface at a point with this offset from the primary's line.
    pub(crate) fn beside_primary(&self, at: &Place, x: &Point, top: i64, cap: &Cap) -> Option<u32>
        requires at { at.now ≡ offset_of (primary_of self.now).line x.now }
        requires top { IsLevel top }
        ensures exact { IsExcess (primary_transition_surface self.now x.now cap.now) top result }
        ensures value { result ≡ primary_transition_excess self.now x.now cap.now top }
    {
        self.primary.excess_beside(at, x, top, cap)
    }

    /// The excess of `top` over the transitional surface beside the approach surface of an end at a point with this offset from the
    /// approach's line; only the contract uses the point.
    pub(crate) fn beside_approach(
        &self,
        end: End,
        at: &Place,
        x: &Point,
        top: i64,
        cap: &Cap,
    ) -> Option<u32>
        requires at { at.now ≡ offset_of (approach_of self.now end).line x.now }
        requires top { IsLevel top }
        ensures exact { IsExcess (approach_transition_surface self.now end x.now cap.now) top
            result }
        ensures value { result ≡ approach_transition_excess self.now end x.now cap.now top }
    {
        self.approach(end).excess_beside(at, top, cap)
    }

    /// The excess of `top` over the primary surface at a point, in tenths of a foot, rounded down (77.19(c)). `None` where it is not
    /// above, or the surface does not cover the point.
    pub fn excess_primary(&self, x: &Point, top: i64) -> Option<u32>
        requires top { IsLevel top }
        ensures exact { IsExcess (primary_surface self.now x.now) top result }
        ensures value { result ≡ primary_excess self.now x.now top }
    {
        self.over_primary(&self.by_primary(x), x, top)
    }

    /// The excess of `top` over the approach surface of an end at a point, in tenths of a foot, rounded down (77.19(d)). `None` where it
    /// is not above, or the surface does not cover the point.
    pub fn excess_approach(&self, end: End, x: &Point, top: i64) -> Option<u32>
        requires top { IsLevel top }
        ensures exact { IsExcess (approach_surface self.now end x.now) top result }
        ensures value { result ≡ approach_excess self.now end x.now top }
    {
        self.over_approach(end, &self.by_approach(end, x), x, top)
    }

    /// The excess of `top` over the transitional surface beside the primary surface at a point, in tenths of a foot, rounded down
    /// (77.19(e)). `cap` is the level of the horizontal and conical surfaces at the point, where transitional surfaces end; any level is
    /// allowed. `None` where the top is not above, or the surface does not cover the point.
    pub fn excess_transition_primary(&self, x: &Point, top: i64, cap: &Cap) -> Option<u32>
        requires top { IsLevel top }
        ensures exact { IsExcess (primary_transition_surface self.now x.now cap.now) top result }
        ensures value { result ≡ primary_transition_excess self.now x.now cap.now top }
    {
        self.beside_primary(&self.by_primary(x), x, top, cap)
    }

    /// The excess of `top` over the transitional surface beside the approach surface of an end at a point, in tenths of a foot, rounded
    /// down (77.19(e)). `cap` is the level of the horizontal and conical surfaces at the point, where transitional surfaces end; any
    /// level is allowed. `None` where the top is not above, or the surface does not cover the point.
    pub fn excess_transition_approach(
        &self,
        end: End,
        x: &Point,
        top: i64,
        cap: &Cap,
    ) -> Option<u32>
        requires top { IsLevel top }
        ensures exact { IsExcess (approach_transition_surface self.now end x.now cap.now) top
            result }
        ensures value { result ≡ approach_transition_excess self.now end x.now cap.now top }
    {
        self.beside_approach(end, &self.by_approach(end, x), x, top, cap)
    }

    /// The excess of `top` over each of the six surfaces at a point, in tenths of a foot (77.19(c), (d) and (e)). `cap` is the level of
    /// the horizontal and conical surfaces at the point. Most calls are for points clear of the runway, so the rest is a separate
    /// function.
    #[inline(always)]
    pub fn excesses(&self, x: &Point, top: i64, cap: &Cap) -> StripExcesses
        requires top { IsLevel top }
        ensures value { IsStripExcesses self.now x.now top cap.now result }
    {
        let at = self.by_primary(x);
        if self.is_clear(&at, x, top) {
            return StripExcesses {
                primary: None,
                approach1: None,
                approach2: None,
                beside_primary: None,
                beside_approach1: None,
                beside_approach2: None,
            };
        }
        self.excesses_near(&at, x, top, cap)
    }

    /// The same at a point with this offset from the line of the primary surface, which is computed once for the surfaces along it.
    #[inline(never)]
    fn excesses_near(&self, at: &Place, x: &Point, top: i64, cap: &Cap) -> StripExcesses
        requires at { at.now ≡ offset_of (primary_of self.now).line x.now }
        requires top { IsLevel top }
        ensures value { IsStripExcesses self.now x.now top cap.now result }
    {
        if !self.primary.is_past_start(at) {
            return self.excesses_before(at, x, top, cap);
        }
        if !self.primary.is_before_end(at) {
            return self.excesses_past(at, x, top, cap);
        }
        self.excesses_between(at, x, top, cap)
    }

    /// The coordinates of the two ends of the primary surface on the extended centerline (77.19(c)): the ends of the runway, or 200 feet
    /// past them for a prepared hard surface, rounded down to whole tenths of a foot.
    pub fn centers(&self) -> ((i64, i64), (i64, i64))
        ensures exact { AreCenters self.now result }
        ensures value { result ≡ centers_of self.now }
    {
        let one = self.approach1.axis.from;
        let two = self.approach2.axis.from;
        ((one.x, one.y), (two.x, two.y))
    }
}
