//! One change of the squares: new nodes beside the old ones, which are unchanged.
//!
//! Putting an item and removing one take the same path: through the squares that the area meets, each of which is made anew.

ghost use Rattle.std.specs.Prelude.{◌≡◌, ◌≤◌, ◌<◌, IfOk, Option, [], option_map, true, ℕ, ℤ};
ghost use Rattle.std.specs.Arc.{arc_value};
ghost use Rattle.surface_tree.specs.Squares.{in_cell, overlaps};
ghost use Rattle.surface_tree.specs.Changes.{Follows};
ghost use Rattle.surface_tree.specs.Parts.{Holds, HoldsOwn, OwnHolds, PartHolds, QuartersHold, RestHolds};

use crate::edit::Edit;
use crate::entry::{Entry, entries_with, shared_entries, take_entry};
use crate::part::{Part, Quarters, same_quarters};
use crate::placed::Placed;
use crate::square::Square;
use grid_exact::NoMemory;
use outline_boxes::Bounds;
use std::alloc::Global;
use std::sync::Arc;

/// The changed entries of a square that itself holds the area.
fn edited_entries<T: Placed + Drop>(
    alloc: Global,
    entries: &[Entry<T>],
    edit: &Edit<T>,
) -> Result<Vec<Entry<T>>, NoMemory>
    ensures { IfOk result (λ v. (level : ℕ) (west south : ℤ)
        → in_cell level west south edit.now.plot ≡ true
        → Follows T.Key.cmp T.key_of T.plot_of edit.now.key edit.now.plot
        (option_map arc_value edit.now.item)
        (λ xs. HoldsOwn T.plot_of xs level west south entries.now)
        (λ xs. HoldsOwn T.plot_of xs level west south v.items)) }
{
    match &edit.item {
        Some(item) => {
            let item = Arc::try_clone(item)?;
            let bounds = Bounds::of(&edit.plot.area);
            entries_with(alloc, entries, Entry { bounds, item })
        }
        None => {
            let mut all = shared_entries(alloc, entries, entries.len())?;
            take_entry(&mut all, edit.key);
            Ok(all)
        }
    }
}

/// The part of the tree after the change.
#[cycle(change)]
pub(crate) fn changed_part<T: Placed + Drop>(
    alloc: Global,
    part: &Arc<Part<T>>,
    square: &Square,
    edit: &Edit<T>,
) -> Result<Arc<Part<T>>, NoMemory>
    requires deep { edit.now.plot.level ≤ square.now.level }
    ensures { IfOk result (λ q. Follows T.Key.cmp T.key_of T.plot_of edit.now.key edit.now.plot
        (option_map arc_value edit.now.item)
        (λ xs. PartHolds T.plot_of xs square.now (arc_value part.now))
        (λ xs. PartHolds T.plot_of xs square.now (arc_value q))) }
{
    if !square.overlaps(&edit.plot.area) {
        return Ok(Arc::try_clone(part)?);
    }
    let part = reached_part(alloc, part, square, edit)?;
    Ok(Arc::new(alloc, part)?)
}

#[cycle(change)]
fn reached_part<T: Placed + Drop>(
    alloc: Global,
    part: &Arc<Part<T>>,
    square: &Square,
    edit: &Edit<T>,
) -> Result<Part<T>, NoMemory>
    requires deep { edit.now.plot.level ≤ square.now.level }
    requires met { overlaps square.now.level square.now.west square.now.south edit.now.plot.area
        ≡ true }
    ensures { IfOk result (λ q. Follows T.Key.cmp T.key_of T.plot_of edit.now.key edit.now.plot
        (option_map arc_value edit.now.item)
        (λ xs. PartHolds T.plot_of xs square.now (arc_value part.now))
        (λ xs. PartHolds T.plot_of xs square.now q)) }
{
    match &**part {
        Part::Own(entries, rest) => changed_own(alloc, entries, rest, square, edit),
        _ => {
            let entries = Vec::new(alloc);
            changed_own(alloc, &entries, part, square, edit)
        }
    }
}

/// The changed square, from the items that it holds itself and the rest.
#[cycle(change)]
fn changed_own<T: Placed + Drop>(
    alloc: Global,
    entries: &[Entry<T>],
    rest: &Arc<Part<T>>,
    square: &Square,
    edit: &Edit<T>,
) -> Result<Part<T>, NoMemory>
    requires deep { edit.now.plot.level ≤ square.now.level }
    requires met { overlaps square.now.level square.now.west square.now.south edit.now.plot.area
        ≡ true }
    ensures { IfOk result (λ q. Follows T.Key.cmp T.key_of T.plot_of edit.now.key edit.now.plot
        (option_map arc_value edit.now.item)
        (λ xs. OwnHolds T.plot_of xs square.now entries.now
        × RestHolds T.plot_of xs square.now (arc_value rest.now))
        (λ xs. PartHolds T.plot_of xs square.now q)) }
{
    if edit.plot.level == square.level {
        let entries = edited_entries(alloc, entries, edit)?;
        let rest = Arc::try_clone(rest)?;
        return Ok(Part::Own(entries, rest));
    }
    let rest = changed_rest(alloc, rest, square, edit)?;
    if entries.is_empty() {
        return Ok(rest);
    }
    let entries = shared_entries(alloc, entries, entries.len())?;
    let rest = Arc::new(alloc, rest)?;
    Ok(Part::Own(entries, rest))
}

/// The quarters after the change, for a square with items of its own, and for one with none.
#[cycle(change)]
fn changed_rest<T: Placed + Drop>(
    alloc: Global,
    rest: &Arc<Part<T>>,
    square: &Square,
    edit: &Edit<T>,
) -> Result<Part<T>, NoMemory>
    requires deep { edit.now.plot.level < square.now.level }
    ensures { IfOk result (λ q. (below : ℕ)
        → Follows T.Key.cmp T.key_of T.plot_of edit.now.key edit.now.plot
        (option_map arc_value edit.now.item)
        (λ xs. (square.now.level < below → OwnHolds T.plot_of xs square.now [])
        × RestHolds T.plot_of xs square.now (arc_value rest.now))
        (λ xs. Holds T.plot_of xs below square.now.level square.now.west square.now.south q)) }
{
    match &**rest {
        Part::Quartered(quarters) => changed_quarters(alloc, quarters, square, edit),
        _ => {
            let quarters = same_quarters(rest)?;
            changed_quarters(alloc, &quarters, square, edit)
        }
    }
}

#[cycle(change)]
fn changed_quarters<T: Placed + Drop>(
    alloc: Global,
    quarters: &Quarters<T>,
    square: &Square,
    edit: &Edit<T>,
) -> Result<Part<T>, NoMemory>
    requires deep { edit.now.plot.level < square.now.level }
    ensures { IfOk result (λ q. (below : ℕ)
        → Follows T.Key.cmp T.key_of T.plot_of edit.now.key edit.now.plot
        (option_map arc_value edit.now.item)
        (λ xs. (square.now.level < below → OwnHolds T.plot_of xs square.now [])
        × QuartersHold T.plot_of xs square.now quarters.now)
        (λ xs. Holds T.plot_of xs below square.now.level square.now.west square.now.south q)) }
{
    let south_west = changed_part(alloc, &quarters.south_west, &square.south_west(), edit)?;
    let south_east = changed_part(alloc, &quarters.south_east, &square.south_east(), edit)?;
    let north_west = changed_part(alloc, &quarters.north_west, &square.north_west(), edit)?;
    let north_east = changed_part(alloc, &quarters.north_east, &square.north_east(), edit)?;
    Ok(Part::Quartered(Quarters {
        south_west,
        south_east,
        north_west,
        north_east,
    }))
}
