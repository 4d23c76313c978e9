//! The height of the conical surface above the horizontal one.

ghost use Rattle.std.specs.Prelude.{◌∷◌, ◌+◌, ◌<◌, ◌≤◌};
ghost use Rattle.std.specs.List.{list_any};
ghost use Rattle.center_polygon.specs.Somes.{some_two};
ghost use Rattle.horizontal_hull.specs.Close.{AreClose, IsNearBoth};
ghost use Rattle.horizontal_hull.specs.Rises.{IsLeastRise, in_risen};

use crate::arc::Arc;
use crate::capsule::is_in_discs;
use crate::guess::guess_rise;
use crate::seen::Seen;
use crate::sizes::{CONICAL_RISE, CONICAL_SLOPE};
use grid_exact::Point;

/// The next value tested in a search from `least` to `reached`: the guess, then the number below or above it, and then the middle.
fn probe(least: u32, reached: u32, guess: u32) -> u32
    requires open { least < reached }
    ensures low { least ≤ result }
    ensures high { result < reached }
{
    if least <= guess && guess < reached {
        return guess;
    }
    if guess == reached {
        return reached - 1;
    }
    if 0 < least && guess == least - 1 {
        return least;
    }
    least + (reached - least) / 2
}

/// The least rise, below `most`, at which the capsule of two arcs contains the point.
#[inline(always)]
fn rise_of_two(a: &Arc, b: &Arc, x: &Point, most: u32) -> u32
    requires near { IsNearBoth a.now b.now x.now }
    requires most { most ≤ CONICAL_RISE + 1 }
    ensures { IsLeastRise (λ k. in_risen x.now k a.now b.now) most result }
{
    if most == 0 {
        return 0;
    }
    // Discs first, which are faster.
    if is_in_discs(a, b, x) {
        return 0;
    }
    let seen = Seen::of(a, b, x);
    let guess = guess_rise(a, b, x).min(most);
    let mut least = 0;
    let mut reached = most;
    while least < reached {
        let asked = probe(least, reached, guess);
        if seen.is_within(CONICAL_SLOPE * asked) {
            reached = asked;
        } else {
            least = asked + 1;
        }
    }
    reached
}

/// The least rise, below `most`, at which the capsule of an arc and any one of the others contains the point.
fn rise_with(a: &Arc, others: &[Arc], x: &Point, most: u32) -> u32
    requires close { AreClose (a.now ∷ others.now) x.now }
    requires most { most ≤ CONICAL_RISE + 1 }
    ensures { IsLeastRise (λ k. list_any (in_risen x.now k a.now) others.now) most result }
{
    let mut rise = most;
    for b in others {
        rise = rise_of_two(a, b, x, rise);
    }
    rise
}

/// The least rise at which the capsule of any two arcs contains the point; more than `CONICAL_RISE` where none does.
pub(crate) fn least_rise(arcs: &[Arc], x: &Point) -> u32
    requires close { AreClose arcs.now x.now }
    ensures { IsLeastRise (λ k. some_two (in_risen x.now k) arcs.now) (CONICAL_RISE + 1) result }
{
    // An airport with one runway has only two arcs.
    if let [a, b] = arcs {
        return rise_of_two(a, b, x, CONICAL_RISE + 1);
    }
    let mut rise = CONICAL_RISE + 1;
    for (i, a) in arcs.iter().enumerate() {
        rise = rise_with(a, &arcs[i + 1..], x, rise);
    }
    rise
}
