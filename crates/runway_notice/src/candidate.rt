//! Candidates for the nearest runway.

ghost use Rattle.std.specs.Prelude.{◌≡◌, ◌^◌, ◌≤◌, ◌≤ℤ◌, ◌*ℤ◌, pos, unsigned_abs};
ghost use Rattle.std.specs.Int.{int_div_euclid};
ghost use Rattle.std.specs.Ordering.{int_cmp, is_lt};
ghost use Rattle.airfields.specs.Runways.{IsProper};
ghost use Rattle.runway_notice.specs.Distances.{square_distance};
ghost use Rattle.runway_notice.specs.Nearest.{elevation_of, nearness_cmp};

use crate::guesses::{Guesses, about_length, quotient};
use crate::parts::Place;
use crate::square_distance::SquareDistance;
use airfields::Runway;
use grid_exact::{Point, Vector};
use runway_lines::Centerline;
use std::cmp::Ordering;

/// A runway with its centerline, and the position of one point relative to it.
#[derive(Clone, Copy)]
pub(crate) struct Candidate<'a> {
    pub(crate) runway: &'a Runway,
    pub(crate) line: Centerline,
    pub(crate) at: Place,
}

impl<'a> Candidate<'a> {
    ghost use Rattle.runway_notice.specs.Candidates.{IsCandidate};
    ghost use Rattle.runway_notice.specs.Measures.{fraction};
    ghost use Rattle.runway_notice.specs.Places.{place_offset};

    /// The candidate for a runway and a point.
    pub(crate) fn of(runway: &'a Runway, point: &Point) -> Candidate<'a>
        requires proper { IsProper runway.now }
        ensures runway { result.runway.now ≡ runway.now }
        ensures candidate { IsCandidate point.now result }
    {
        let line = Centerline::of(runway);
        Candidate {
            runway,
            line,
            at: Place::of(&line.axis, point),
        }
    }

    /// The distance of the point from the centerline.
    pub(crate) fn distance(&self) -> SquareDistance
        ensures { fraction result ≡ square_distance (place_offset self.now.at) }
    {
        SquareDistance::of(&self.at)
    }

    /// The elevation of the centerline's nearest point minus that of the first end, rounded down.
    fn climb(&self, guesses: &Guesses) -> i64
        requires least { pos 0 ≤ℤ self.now.at.along }
        requires most { self.now.at.along ≤ℤ pos self.now.at.square }
        ensures value { result ≡ int_div_euclid (self.now.line.rise
            *ℤ self.now.at.along) (pos self.now.at.square) }
        ensures size { unsigned_abs result ≤ 2 ^ 18 }
    {
        let at = &self.at;
        quotient(
            guesses.climb(at.along),
            self.line.rise * at.along,
            at.square,
        )
    }

    /// The elevation of the centerline's nearest point, in tenths of a foot. The contract uses the point itself; the code uses its offset.
    #[inline(always)]
    pub(crate) fn elevation(&self, point: &Point, guesses: &Guesses) -> i64
        requires { IsCandidate point.now self.now }
        ensures value { result ≡ elevation_of point.now self.now.runway.now }
        ensures size { unsigned_abs result ≤ 2 ^ 19 }
    {
        if self.at.is_before() {
            return self.runway.end1.z;
        }
        if self.at.is_past() {
            return self.runway.end2.z;
        }
        self.line.z + self.climb(guesses)
    }

    /// The approximate distance of the point from the centerline, in tenths of a foot; correctness does not depend on it.
    pub(crate) fn about_distance(&self, point: &Point, guesses: &Guesses) -> f64 {
        if self.at.is_before() {
            return about_length(&Vector::between(&self.runway.end1.at, point));
        }
        if self.at.is_past() {
            return about_length(&Vector::between(&self.runway.end2.at, point));
        }
        guesses.distance(self.at.aside as i64)
    }

    /// Compares the elevations of the two centerlines, each at its nearest point.
    fn cmp_elevation(&self, other: &Candidate, point: &Point) -> Ordering
        requires this { IsCandidate point.now self.now }
        requires other { IsCandidate point.now other.now }
        ensures { result ≡ int_cmp (elevation_of point.now self.now.runway.now) (elevation_of
            point.now other.now.runway.now) }
    {
        let own = self.elevation(point, &Guesses::of(self.runway));
        own.cmp(&other.elevation(point, &Guesses::of(other.runway)))
    }

    /// Whether it is nearer to the point than the other, or equally near with a lower centerline.
    #[tactic(auto, using(crate::proofs::CandidateFacts::ranked))]
    pub(crate) fn is_nearer(&self, other: &Candidate, point: &Point) -> bool
        requires this { IsCandidate point.now self.now }
        requires other { IsCandidate point.now other.now }
        ensures { result ≡ is_lt (nearness_cmp point.now self.now.runway.now other.now.runway.now) }
    {
        match self.distance().compare(&other.distance()) {
            Ordering::Less => true,
            Ordering::Greater => false,
            Ordering::Equal => self.cmp_elevation(other, point).is_lt(),
        }
    }
}
