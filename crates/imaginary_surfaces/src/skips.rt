//! The excesses of a top over those surfaces of a runway whose areas contain a point.

ghost use Rattle.std.specs.Prelude.{◌≡◌, None};
ghost use Rattle.grid_exact.specs.Area.{Has};
ghost use Rattle.grid_exact.specs.Level.{IsLevel};
ghost use Rattle.grid_exact.specs.Lines.{offset as offset_of};

use crate::excesses::StripExcesses;
use crate::place::Place;
use crate::strip::Strip;
use grid_exact::{Area, Cap, Point};
use runway_lines::End;

impl Strip {
    ghost use Rattle.imaginary_surfaces.specs.Areas.{SkipsIn};
    ghost use Rattle.imaginary_surfaces.specs.Strips.{IsStripExcesses, primary_of, approach_of, primary_excess, approach_excess, primary_transition_excess, approach_transition_excess};

    /// The excess of `top` over the primary surface, computed only where its area contains the point.
    fn primary_in(&self, area: &Area, at: &Place, x: &Point, top: i64) -> Option<u32>
        requires at { at.now ≡ offset_of (primary_of self.now).line x.now }
        requires top { IsLevel top }
        requires skip { ¬ Has area.now x.now → primary_excess self.now x.now top ≡ None }
        ensures value { result ≡ primary_excess self.now x.now top }
    {
        if !area.has(x) {
            return None;
        }
        self.over_primary(at, x, top)
    }

    /// The excess over the transitional surface beside the primary surface, computed only where its own area contains the point.
    fn beside_primary_in(
        &self,
        area: &Area,
        at: &Place,
        x: &Point,
        top: i64,
        cap: &Cap,
    ) -> Option<u32>
        requires at { at.now ≡ offset_of (primary_of self.now).line x.now }
        requires top { IsLevel top }
        requires skip { ¬ Has area.now x.now →
            primary_transition_excess self.now x.now cap.now top ≡ None }
        ensures value { result ≡ primary_transition_excess self.now x.now cap.now top }
    {
        if !area.has(x) {
            return None;
        }
        self.beside_primary(at, x, top, cap)
    }

    /// The excess over the approach surface of an end, computed only where its area contains the point.
    fn approach_in(&self, end: End, area: &Area, at: &Place, x: &Point, top: i64) -> Option<u32>
        requires at { at.now ≡ offset_of (approach_of self.now end).line x.now }
        requires top { IsLevel top }
        requires skip { ¬ Has area.now x.now → approach_excess self.now end x.now top ≡ None }
        ensures value { result ≡ approach_excess self.now end x.now top }
    {
        if !area.has(x) {
            return None;
        }
        self.over_approach(end, at, x, top)
    }

    /// The excess over the transitional surface beside that approach surface, computed only where its own area contains the point.
    fn beside_approach_in(
        &self,
        end: End,
        area: &Area,
        at: &Place,
        x: &Point,
        top: i64,
        cap: &Cap,
    ) -> Option<u32>
        requires at { at.now ≡ offset_of (approach_of self.now end).line x.now }
        requires top { IsLevel top }
        requires skip { ¬ Has area.now x.now →
            approach_transition_excess self.now end x.now cap.now top ≡ None }
        ensures value { result ≡ approach_transition_excess self.now end x.now cap.now top }
    {
        if !area.has(x) {
            return None;
        }
        self.beside_approach(end, at, x, top, cap)
    }

    /// As `excesses`, with the areas of the surfaces: a surface whose area does not contain the point is skipped, and is not exceeded.
    pub fn excesses_in(&self, areas: &[Area; 6], x: &Point, top: i64, cap: &Cap) -> StripExcesses
        requires top { IsLevel top }
        requires areas { SkipsIn self.now x.now top cap.now areas.now }
        ensures value { IsStripExcesses self.now x.now top cap.now result }
    {
        let at = self.by_primary(x);
        let at1 = self.by_approach(End::One, x);
        let at2 = self.by_approach(End::Two, x);
        StripExcesses {
            primary: self.primary_in(&areas[0], &at, x, top),
            approach1: self.approach_in(End::One, &areas[1], &at1, x, top),
            approach2: self.approach_in(End::Two, &areas[2], &at2, x, top),
            beside_primary: self.beside_primary_in(&areas[3], &at, x, top, cap),
            beside_approach1: self.beside_approach_in(End::One, &areas[4], &at1, x, top, cap),
            beside_approach2: self.beside_approach_in(End::Two, &areas[5], &at2, x, top, cap),
        }
    }
}
