//! A visit of the squares over a point.

ghost use Rattle.std.specs.Prelude.{◌≡◌, ◌+◌, ◌≤◌, ◌++◌, ◌<◌, ◌-◌, List, length, map, option_map, take, slice_index_or};
ghost use Rattle.std.specs.Arc.{arc_value};
ghost use Rattle.std.specs.List.{filter, All};
ghost use Rattle.grid_exact.specs.Area.{has_point};
ghost use Rattle.surface_tree.specs.declared.entry.Entry.{Entry};
ghost use Rattle.surface_tree.specs.declared.placed.Plot.{Plot};
ghost use Rattle.surface_tree.specs.declared.visit.TheConstants.{BLOCK};
ghost use Rattle.outline_boxes.specs.Bounds.{box_of};
ghost use Rattle.surface_tree.specs.Parts.{PartHolds, QuartersHold, RestHolds, SomeHolds, item_of};
ghost use Rattle.surface_tree.specs.Visits.{HasPoint, SeesMore, SeesRest, hits, count_below, count_of_looks};

use crate::entry::Entry;
use crate::part::{Part, Quarters};
use crate::placed::Placed;
use crate::square::Square;
use crate::visitor::Visitor;
use grid_exact::Steps;
use outline_boxes::Spot;
use std::sync::Arc;
use std::sync::ledger::Ledger;

/// Entries tested before any item is given; places within a block fit into bytes.
pub(crate) const BLOCK: usize = 256;

/// Writes the places of the entries whose areas contain the point into `picks`, and returns their number.
///
/// It has no branch: each place is written, and the count advances past hits only. About a third of the entries are hits, so a branch
/// would often be mispredicted; a visit took twice as long with one.
fn pick<T: Drop, L: Ledger>(
    entries: &[Entry<T>],
    x: &Spot,
    picks: &mut [u8; BLOCK],
    steps: &mut Steps<L>,
) -> usize
    requires short { length entries.now ≤ BLOCK }
    ensures few { result ≤ length entries.now }
    ensures within { All (λ i. i < length entries.now) (take result picks.new) }
    ensures picked { (d : Entry T) → map (λ i. slice_index_or entries.now i d)
        (take result picks.new) ≡ filter (λ e. has_point (box_of e.bounds) x.now) entries.now }
    ensures cost { steps.new ≡ steps.old + length entries.now }
{
    let mut count = 0;
    for i in 0..entries.len() {
        steps.tick();
        picks[count] = i as u8;
        count += usize::from(entries[i].bounds.has(x));
    }
    count
}

/// Gives the visitor the items at these places.
fn hand_out<T: Placed + Drop, W: Visitor<T>>(entries: &[Entry<T>], picks: &[u8], visitor: &mut W)
    requires within { All (λ i. i < length entries.now) picks.now }
    ensures seen { (d : Entry T) → SeesMore W.seen visitor.old visitor.new (map
        (λ i. item_of (slice_index_or entries.now i d)) picks.now) }
{
    for pick in picks {
        visitor.item(&entries[*pick as usize].item);
    }
}

/// Gives the visitor those items of one block whose areas contain the point.
fn visit_block<T: Placed + Drop, L: Ledger, W: Visitor<T>>(
    entries: &[Entry<T>],
    x: &Spot,
    visitor: &mut W,
    steps: &mut Steps<L>,
)
    requires short { length entries.now ≤ BLOCK }
    requires some { 0 < length entries.now }
    ensures seen { SeesMore W.seen visitor.old visitor.new
        (map item_of (filter (λ e. has_point (box_of e.bounds) x.now) entries.now)) }
    ensures cost { steps.new ≡ steps.old + length entries.now }
{
    let mut picks = [0; BLOCK];
    let count = pick(entries, x, &mut picks, steps);
    hand_out(entries, &picks[..count], visitor);
}

/// Gives the visitor those of the items whose areas contain the point.
#[cycle(entries)]
fn visit_entries<T: Placed + Drop, L: Ledger, W: Visitor<T>>(
    entries: &[Entry<T>],
    x: &Spot,
    visitor: &mut W,
    steps: &mut Steps<L>,
)
    ensures seen { SeesMore W.seen visitor.old visitor.new
        (map item_of (filter (λ e. has_point (box_of e.bounds) x.now) entries.now)) }
    ensures cost { steps.new ≡ steps.old + length entries.now }
{
    if entries.is_empty() {
        return;
    }
    if entries.len() <= BLOCK {
        visit_block(entries, x, visitor, steps);
        return;
    }
    let (first, rest) = entries.split_at(BLOCK);
    visit_block(first, x, visitor, steps);
    visit_entries(rest, x, visitor, steps);
}

/// The quarter of a square that the point lies in, and its contents. It is a function apart from the visit so that a processor can choose
/// the quarter without a branch, which it would often mispredict.
#[inline(always)]
fn quarter_over<'a, T: Drop>(
    quarters: &'a Quarters<T>,
    square: &Square,
    x: &Spot,
) -> (&'a Arc<Part<T>>, Square)
    requires deep { 0 < square.now.level }
    ensures level { result.1.level ≡ square.now.level - 1 }
    ensures point { HasPoint square.now x.now → HasPoint result.1 x.now }
    ensures holds { (plot : T → Plot) (items : List T)
        → QuartersHold plot items square.now quarters.now
        → PartHolds plot items result.1 (arc_value result.0.now) }
{
    if square.is_north(x) {
        if square.is_east(x) {
            (&quarters.north_east, square.north_east())
        } else {
            (&quarters.north_west, square.north_west())
        }
    } else if square.is_east(x) {
        (&quarters.south_east, square.south_east())
    } else {
        (&quarters.south_west, square.south_west())
    }
}

/// Gives the visitor those items of the square and its parts whose areas contain the point: the square's own first, then those of the
/// quarter that contains the point.
#[cycle(visit)]
pub(crate) fn visit_part<T: Placed + Drop, L: Ledger, W: Visitor<T>>(
    part: &Part<T>,
    square: &Square,
    x: &Spot,
    visitor: &mut W,
    steps: &mut Steps<L>,
)
    ensures seen { (items : List T) → HasPoint square.now x.now
        → PartHolds T.plot_of items square.now part.now
        → SeesMore W.seen visitor.old visitor.new (hits T.plot_of x.now square.now.level items) }
    ensures cost { (items : List T) → HasPoint square.now x.now
        → PartHolds T.plot_of items square.now part.now
        → steps.new ≤ steps.old +
        (square.now.level + 1) + count_of_looks T.plot_of x.now square.now.level items }
{
    match part {
        Part::Bare => {}
        Part::Quartered(quarters) => {
            steps.tick();
            visit_quarters(quarters, square, x, visitor, steps);
        }
        Part::Own(entries, rest) => {
            steps.tick();
            visit_entries(entries, x, visitor, steps);
            visit_rest(rest, square, x, visitor, steps);
        }
    }
}

/// Gives the visitor those items of the square's parts whose areas contain the point, where it has received those of the square itself.
#[cycle(visit)]
fn visit_rest<T: Placed + Drop, L: Ledger, W: Visitor<T>>(
    rest: &Part<T>,
    square: &Square,
    x: &Spot,
    visitor: &mut W,
    steps: &mut Steps<L>,
)
    ensures seen { (items : List T) → HasPoint square.now x.now
        → RestHolds T.plot_of items square.now rest.now
        → SeesRest W.seen visitor.old visitor.new T.plot_of x.now square.now.level items }
    ensures cost { (items : List T) → HasPoint square.now x.now
        → RestHolds T.plot_of items square.now rest.now
        → steps.new ≤ steps.old +
        square.now.level + count_below T.plot_of x.now square.now.level items }
{
    if let Part::Quartered(quarters) = rest {
        visit_quarters(quarters, square, x, visitor, steps);
    }
}

/// The same of its quarters.
#[cycle(visit)]
fn visit_quarters<T: Placed + Drop, L: Ledger, W: Visitor<T>>(
    quarters: &Quarters<T>,
    square: &Square,
    x: &Spot,
    visitor: &mut W,
    steps: &mut Steps<L>,
)
    ensures seen { (items : List T) → HasPoint square.now x.now
        → QuartersHold T.plot_of items square.now quarters.now
        → SeesRest W.seen visitor.old visitor.new T.plot_of x.now square.now.level items }
    ensures cost { (items : List T) → HasPoint square.now x.now
        → QuartersHold T.plot_of items square.now quarters.now
        → steps.new ≤ steps.old +
        square.now.level + count_below T.plot_of x.now square.now.level items }
{
    if square.level == 0 {
        return;
    }
    let (part, quarter) = quarter_over(quarters, square, x);
    visit_part(part, &quarter, x, visitor, steps);
}

/// Gives the visitor the items of a tree whose areas contain the point.
pub(crate) fn visit_root<T: Placed + Drop, L: Ledger, W: Visitor<T>>(
    root: &Option<Arc<Part<T>>>,
    square: &Square,
    x: &Spot,
    visitor: &mut W,
    steps: &mut Steps<L>,
)
    ensures seen { (items : List T) → HasPoint square.now x.now
        → SomeHolds T.plot_of items square.now.level square.now.west square.now.south
        (option_map arc_value root.now)
        → SeesMore W.seen visitor.old visitor.new (hits T.plot_of x.now square.now.level items) }
    ensures cost { (items : List T) → HasPoint square.now x.now
        → SomeHolds T.plot_of items square.now.level square.now.west square.now.south
        (option_map arc_value root.now)
        → steps.new ≤ steps.old +
        (square.now.level + 1) + count_of_looks T.plot_of x.now square.now.level items }
{
    if let Some(part) = root {
        visit_part(part, square, x, visitor, steps);
    }
}
