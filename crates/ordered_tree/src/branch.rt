//! The nodes of a tree.
//!
//! The tree is an AVL tree: the two sides of a fork differ by at most one level. No contract states this, since only the time of a look-up
//! depends on it; the contracts state which items are listed.

ghost use Rattle.std.specs.Prelude.{◌≡◌, ◌+◌, ◌++◌, ◌∷◌, IfOk, length};
ghost use Rattle.std.specs.Arc.{arc_value};
ghost use Rattle.ordered_tree.specs.Branches.{IsCounted, items_of};

use grid_exact::NoMemory;
use std::alloc::Global;
use std::sync::Arc;

/// A part of the tree.
#[derive(Drop)]
#[cycle(branch)]
pub(crate) enum Branch<T: Drop> {
    Leaf,
    Fork(Arc<Fork<T>>),
}

/// An item, and the items below and above it.
#[derive(Drop)]
#[cycle(branch)]
pub(crate) struct Fork<T: Drop> {
    pub(crate) item: Arc<T>,
    pub(crate) below: Branch<T>,
    pub(crate) above: Branch<T>,
    height: u32,
    /// The number of items: the fork's own, and those below and above it.
    count: usize,
}

/// The same part, shared with the old tree.
pub(crate) fn shared_branch<T: Drop>(branch: &Branch<T>) -> Result<Branch<T>, NoMemory>
    ensures listed { IfOk result (λ b. items_of b ≡ items_of branch.now) }
    ensures counted { IfOk result (λ b. IsCounted branch.now → IsCounted b) }
{
    match branch {
        Branch::Leaf => Ok(Branch::Leaf),
        Branch::Fork(fork) => {
            let fork = Arc::try_clone(fork)?;
            Ok(Branch::Fork(fork))
        }
    }
}

/// The number of levels of a part.
pub(crate) fn height<T: Drop>(branch: &Branch<T>) -> u32 {
    match branch {
        Branch::Leaf => 0,
        Branch::Fork(fork) => fork.height,
    }
}

/// The number of items in a part.
pub(crate) fn count<T: Drop>(branch: &Branch<T>) -> usize
    ensures { IsCounted branch.now → result ≡ length (items_of branch.now) }
{
    match branch {
        Branch::Leaf => 0,
        Branch::Fork(fork) => fork.count,
    }
}

/// The number of items in a fork of two parts. A number that does not fit a `usize` would fit no memory, so it is reported as `NoMemory`.
fn count_with<T: Drop>(below: &Branch<T>, above: &Branch<T>) -> Result<usize, NoMemory>
    requires below { IsCounted below.now }
    requires above { IsCounted above.now }
    ensures { IfOk result (λ n. n ≡ length (items_of below.now) + 1 + length (items_of above.now)) }
{
    match count(below).checked_add(count(above)) {
        None => Err(NoMemory),
        Some(others) => others.checked_add(1).ok_or(NoMemory),
    }
}

/// A fork of two parts.
pub(crate) fn branched<T: Drop>(
    alloc: Global,
    below: Branch<T>,
    item: Arc<T>,
    above: Branch<T>,
) -> Result<Branch<T>, NoMemory>
    requires below { IsCounted below }
    requires above { IsCounted above }
    ensures listed { IfOk result (λ b. items_of b ≡ items_of below ++ arc_value item
        ∷ items_of above) }
    ensures counted { IfOk result (λ b. IsCounted b) }
{
    let count = count_with(&below, &above)?;
    let height = height(&below).max(height(&above)).saturating_add(1);
    let fork = Arc::new(
        alloc,
        Fork {
            item,
            below,
            above,
            height,
            count,
        },
    )?;
    Ok(Branch::Fork(fork))
}
