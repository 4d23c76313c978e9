//! The surfaces of a runway that can cover a point. Between the two ends of the primary surface these are the primary surface and the one
//! beside it; beyond an end, the approach surface there and the one beside it.

ghost use Rattle.std.specs.Prelude.{◌≡◌, ◌≤ℤ◌, ◌<ℤ◌, pos};
ghost use Rattle.grid_exact.specs.Level.{IsLevel};
ghost use Rattle.grid_exact.specs.Lines.{along, offset as offset_of, square};

use crate::beside_approach::EndExcesses;
use crate::excesses::StripExcesses;
use crate::place::Place;
use crate::strip::Strip;
use grid_exact::{Cap, Point};
use runway_lines::End;

impl Strip {
    ghost use Rattle.airfields.specs.Runways.{IsProper};
    ghost use Rattle.imaginary_surfaces.specs.Strips.{IsStripExcesses, primary_of, approach_of, approach_excess, approach_transition_excess};

    /// The excess of `top` over the approach surface of an end, and over the transitional surface beside it, at a point with this offset
    /// from its line; only the contract uses the point.
    fn excesses_at(&self, end: End, at: &Place, x: &Point, top: i64, cap: &Cap) -> EndExcesses
        requires at { at.now ≡ offset_of (approach_of self.now end).line x.now }
        requires top { IsLevel top }
        ensures over { result.over ≡ approach_excess self.now end x.now top }
        ensures beside { result.beside ≡ approach_transition_excess self.now end x.now cap.now top }
        ensures proper { IsProper self.now }
    {
        let _ = &self.primary; // a proof knows the invariant of a value where it reads a field
        self.approach(end).excesses(at, top, cap)
    }

    /// The excess of `top` over each surface at a point before the first end of the primary surface, with this offset from its line.
    pub(crate) fn excesses_before(
        &self,
        at: &Place,
        x: &Point,
        top: i64,
        cap: &Cap,
    ) -> StripExcesses
        requires at { at.now ≡ offset_of (primary_of self.now).line x.now }
        requires before { along (primary_of self.now).line x.now <ℤ pos 0 }
        requires top { IsLevel top }
        ensures value { IsStripExcesses self.now x.now top cap.now result }
    {
        let ahead = self.excesses_at(End::One, &at.turned(), x, top, cap);
        StripExcesses {
            primary: None,
            approach1: ahead.over,
            approach2: None,
            beside_primary: None,
            beside_approach1: ahead.beside,
            beside_approach2: None,
        }
    }

    /// As above, for a point past the second end.
    pub(crate) fn excesses_past(&self, at: &Place, x: &Point, top: i64, cap: &Cap) -> StripExcesses
        requires at { at.now ≡ offset_of (primary_of self.now).line x.now }
        requires past { pos (square (primary_of self.now).line) <ℤ along (primary_of
            self.now).line x.now }
        requires top { IsLevel top }
        ensures value { IsStripExcesses self.now x.now top cap.now result }
    {
        let ahead = self.excesses_at(End::Two, &at.moved(), x, top, cap);
        StripExcesses {
            primary: None,
            approach1: None,
            approach2: ahead.over,
            beside_primary: None,
            beside_approach1: None,
            beside_approach2: ahead.beside,
        }
    }

    /// As above, for a point abeam the primary surface.
    pub(crate) fn excesses_between(
        &self,
        at: &Place,
        x: &Point,
        top: i64,
        cap: &Cap,
    ) -> StripExcesses
        requires at { at.now ≡ offset_of (primary_of self.now).line x.now }
        requires past_start { pos 0 ≤ℤ along (primary_of self.now).line x.now }
        requires before_end { along (primary_of self.now).line
            x.now ≤ℤ pos (square (primary_of self.now).line) }
        requires top { IsLevel top }
        ensures value { IsStripExcesses self.now x.now top cap.now result }
    {
        let _ = &self.primary; // so that a proof knows the invariant
        StripExcesses {
            primary: self.over_primary(at, x, top),
            approach1: None,
            approach2: None,
            beside_primary: self.beside_primary(at, x, top, cap),
            beside_approach1: None,
            beside_approach2: None,
        }
    }
}
