//! The only runway of an airport, prepared for many points.

ghost use Rattle.std.specs.Prelude.{◌≡◌, ◌∷◌, [], IfSome, pos};
ghost use Rattle.grid_exact.specs.Level.{IsLevel};
ghost use Rattle.grid_exact.specs.Lines.{square as square_of};
ghost use Rattle.airfields.specs.Airfields.{IsHeldAirport};
ghost use Rattle.airfields.specs.Runways.{IsProper};
ghost use Rattle.runway_lines.specs.Profiles.{profile, profile_of};
ghost use Rattle.runway_notice.specs.Notices.{notice_slope};
ghost use Rattle.runway_notice.specs.Slopes.{sub_of as sub_of_runways};
ghost use Rattle.runway_notice.specs.Surfaces.{slope_excess};

use crate::candidate::Candidate;
use crate::end_slope::end_excess;
use crate::guesses::Guesses;
use crate::notice::{excess_over, sub_of};
use crate::parts::{Place, square_length};
use crate::short_end::ShortEnd;
use crate::slope::{Slope, Sub};
use airfields::{Airport, Runway};
use grid_exact::{Axis, Point};
use runway_lines::Centerline;
use std::marker::Model;

/// The only runway of an airport that 77.9(d) describes, with everything that does not depend on the point; contracts see it as the
/// runway. It needs no search for the nearest runway and no other data of the airport.
#[derive(Drop)]
pub struct LoneRunway {
    /// The ends, the square of the length and the slope are stored first, since most structures need only these.
    first: ShortEnd,
    second: ShortEnd,
    square: i64,
    sub: Sub,
    guesses: Guesses,
    runway: Runway,
}

impl Model for LoneRunway {
    ghost use Rattle.airfields.specs.declared.runway.Runway.{Runway};
    ghost use Rattle.runway_notice.specs.LoneRunways.{IsReady};

    ghost Value = { Runway };

    ghost view = { λ l. l.runway };

    ghost invariant = { λ l. IsReady l.runway l.first l.second l.square l.sub };
}

/// The square of a runway's length.
fn square(line: &Centerline) -> i64
    ensures { result ≡ pos (square_of (profile line.now).line) }
{
    square_length(&line.axis.way) as i64
}

impl LoneRunway {
    ghost use Rattle.runway_notice.specs.Candidates.{IsCandidate};
    ghost use Rattle.runway_notice.specs.LoneRunways.{IsLoneOf};

    /// The prepared runway, which must be its airport's only one.
    fn ready(runway: &Runway, sub: Sub) -> LoneRunway
        requires proper { IsProper runway.now }
        requires sub { sub ≡ sub_of_runways (runway.now ∷ []) }
        ensures runway { result ≡ runway.now }
    {
        LoneRunway {
            first: ShortEnd::of(&runway.end1),
            second: ShortEnd::of(&runway.end2),
            square: square(&Centerline::of(runway)),
            sub,
            guesses: Guesses::of(runway),
            runway: *runway,
        }
    }

    /// The runway of the airport, if it is the only one and 77.9(d) describes the airport.
    pub fn of(airport: &Airport) -> Option<LoneRunway>
        requires held { IsHeldAirport airport.now }
        ensures lone { IfSome result (λ r. IsLoneOf airport.now r) }
    {
        if !airport.category.described() || airport.runways.len() != 1 {
            return None;
        }
        let runway = airport.runways.as_slice().first()?;
        Some(LoneRunway::ready(runway, sub_of(&airport.runways)))
    }

    /// The centerline, from the ends in their compact form.
    fn line(&self) -> Centerline
        ensures { profile result ≡ profile_of self.now }
    {
        let z = self.first.elevation();
        Centerline {
            axis: Axis {
                from: self.first.start(),
                way: self.first.to_end(&self.second),
            },
            z,
            rise: self.second.elevation() - z,
        }
    }

    /// The candidate for this runway and a point.
    fn candidate(&self, point: &Point) -> Candidate
        ensures runway { result.runway.now ≡ self.now }
        ensures candidate { IsCandidate point.now result }
    {
        let line = self.line();
        Candidate {
            runway: &self.runway,
            line,
            at: Place::of(&line.axis, point),
        }
    }

    /// The excess of `top` over the slope from the runway at the point. Most points lie before the first end or past the second, where
    /// the end is the nearest point.
    fn excess_over(&self, airport: &Airport, point: &Point, top: i64) -> Option<u32>
        requires lone { IsLoneOf airport.now self.now }
        requires top { IsLevel top }
        ensures { result ≡ slope_excess airport.now self.now point.now top }
    {
        let along = self.first.along(&self.second, point);
        if along < 0 {
            let end = &self.first;
            return end_excess(self.sub, end.elevation(), end.square_to(point), top);
        }
        if self.square < along {
            let end = &self.second;
            return end_excess(self.sub, end.elevation(), end.square_to(point), top);
        }
        let runway = self.candidate(point);
        excess_over(airport, &runway, &self.guesses, self.sub, point, top)
    }

    /// The excess of `top` over the slope of 77.9(b)(1) or (2) from the runways of the airport, the same as `excess_notice`.
    pub fn excess(&self, airport: &Airport, point: &Point, top: i64) -> Option<Slope>
        requires held { IsHeldAirport airport.now }
        requires lone { IsLoneOf airport.now self.now }
        requires top { IsLevel top }
        ensures value { result ≡ notice_slope airport.now point.now top }
    {
        let excess = self.excess_over(airport, point, top)?;
        Some(Slope {
            sub: self.sub,
            runway: self.runway.name,
            excess,
        })
    }
}
