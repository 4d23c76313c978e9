//! The nodes of a tree.

ghost use Rattle.std.specs.Prelude.{◌≡◌, IfOk, option_map};
ghost use Rattle.std.specs.Arc.{arc_value};
ghost use Rattle.surface_tree.specs.Parts.{AreAll};

use crate::entry::Entry;
use grid_exact::NoMemory;
use std::sync::Arc;

/// The contents of a square and its parts.
///
/// A change makes each square on the way to an item anew, and a tree may be kept for each of many versions. Most of these squares hold no
/// items themselves: so a node has room for a list of items or for four quarters, and not for both.
#[derive(Drop)]
#[cycle(part)]
pub(crate) enum Part<T: Drop> {
    /// Nothing.
    Bare,
    /// The contents of the four quarters. Items of the square itself, where there are some, stand above it in an `Own`.
    Quartered(Quarters<T>),
    /// The items that the square itself holds, in order of their keys, and what its quarters hold: `Bare` or `Quartered`.
    Own(Vec<Entry<T>>, Arc<Part<T>>),
}

/// The contents of the four quarters of a square.
#[derive(Drop)]
#[cycle(part)]
pub(crate) struct Quarters<T: Drop> {
    pub(crate) south_west: Arc<Part<T>>,
    pub(crate) south_east: Arc<Part<T>>,
    pub(crate) north_west: Arc<Part<T>>,
    pub(crate) north_east: Arc<Part<T>>,
}

/// Four quarters with the same contents, for which one node stands.
pub(crate) fn same_quarters<T: Drop>(part: &Arc<Part<T>>) -> Result<Quarters<T>, NoMemory>
    ensures { IfOk result (λ q. AreAll (arc_value part.now) q) }
{
    Ok(Quarters {
        south_west: Arc::try_clone(part)?,
        south_east: Arc::try_clone(part)?,
        north_west: Arc::try_clone(part)?,
        north_east: Arc::try_clone(part)?,
    })
}

/// The contents of a tree, shared with the old tree.
pub(crate) fn shared_root<T: Drop>(
    root: &Option<Arc<Part<T>>>,
) -> Result<Option<Arc<Part<T>>>, NoMemory>
    ensures { IfOk result (λ q. option_map arc_value q ≡ option_map arc_value root.now) }
{
    match root {
        None => Ok(None),
        Some(part) => {
            let part = Arc::try_clone(part)?;
            Ok(Some(part))
        }
    }
}
