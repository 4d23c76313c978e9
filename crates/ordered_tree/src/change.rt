//! Putting and removing an item: the forks on the path to it are made anew, and all others are shared.

ghost use Rattle.std.specs.Prelude.{◌≡◌, ◌++◌, ◌∷◌, IfOk};
ghost use Rattle.std.specs.Arc.{arc_value};
ghost use Rattle.ordered_list.specs.Ordered.{Rises, put_by, removed_by};
ghost use Rattle.ordered_tree.specs.Branches.{IsCounted, IsCountedIn, items_of, items_of_fork};

use crate::branch::{Branch, Fork, branched, shared_branch};
use crate::key_of::KeyOf;
use crate::turn::balanced;
use grid_exact::NoMemory;
use std::alloc::Global;
use std::cmp::Ordering;
use std::sync::Arc;

/// The part with the item in its place, instead of the one under its key.
#[cycle(insert)]
pub(crate) fn insert<T: Drop, K: KeyOf<T>>(
    alloc: Global,
    branch: &Branch<T>,
    item: Arc<T>,
) -> Result<Branch<T>, NoMemory>
    requires branch { IsCounted branch.now }
    ensures listed { IfOk result (λ b. Rises K.Key.cmp K.key_of (items_of branch.now) →
        items_of b ≡ put_by K.Key.cmp K.key_of (arc_value item) (items_of branch.now)) }
    ensures counted { IfOk result (λ b. IsCounted b) }
{
    match branch {
        Branch::Leaf => branched(alloc, Branch::Leaf, item, Branch::Leaf),
        Branch::Fork(fork) => insert_in::<T, K>(alloc, fork, item),
    }
}

#[cycle(insert)]
fn insert_in<T: Drop, K: KeyOf<T>>(
    alloc: Global,
    old: &Fork<T>,
    item: Arc<T>,
) -> Result<Branch<T>, NoMemory>
    requires old { IsCountedIn old.now }
    ensures listed { IfOk result (λ b. Rises K.Key.cmp K.key_of (items_of_fork old.now) →
        items_of b ≡ put_by K.Key.cmp K.key_of (arc_value item) (items_of_fork old.now)) }
    ensures counted { IfOk result (λ b. IsCounted b) }
{
    match K::key(&item).cmp(&K::key(&old.item)) {
        Ordering::Less => {
            let below = insert::<T, K>(alloc, &old.below, item)?;
            let above = shared_branch(&old.above)?;
            let item = Arc::try_clone(&old.item)?;
            balanced(alloc, below, item, above)
        }
        Ordering::Greater => {
            let above = insert::<T, K>(alloc, &old.above, item)?;
            let below = shared_branch(&old.below)?;
            let item = Arc::try_clone(&old.item)?;
            balanced(alloc, below, item, above)
        }
        Ordering::Equal => {
            let below = shared_branch(&old.below)?;
            let above = shared_branch(&old.above)?;
            branched(alloc, below, item, above)
        }
    }
}

/// The first item, and the part with the others.
fn first_out<T: Drop>(alloc: Global, old: &Fork<T>) -> Result<(Arc<T>, Branch<T>), NoMemory>
    requires old { IsCountedIn old.now }
    ensures listed { IfOk result (λ r. items_of_fork old.now ≡ arc_value r.0 ∷ items_of r.1) }
    ensures counted { IfOk result (λ r. IsCounted r.1) }
{
    match &old.below {
        Branch::Leaf => {
            let item = Arc::try_clone(&old.item)?;
            let above = shared_branch(&old.above)?;
            Ok((item, above))
        }
        Branch::Fork(low) => {
            let (first, below) = first_out(alloc, low)?;
            let item = Arc::try_clone(&old.item)?;
            let above = shared_branch(&old.above)?;
            let rest = balanced(alloc, below, item, above)?;
            Ok((first, rest))
        }
    }
}

/// The items of one part followed by those of another.
fn joined<T: Drop>(
    alloc: Global,
    below: &Branch<T>,
    above: &Branch<T>,
) -> Result<Branch<T>, NoMemory>
    requires below { IsCounted below.now }
    requires above { IsCounted above.now }
    ensures listed { IfOk result (λ b. items_of b ≡ items_of below.now ++ items_of above.now) }
    ensures counted { IfOk result (λ b. IsCounted b) }
{
    match above {
        Branch::Leaf => shared_branch(below),
        Branch::Fork(high) => {
            let (first, rest) = first_out(alloc, high)?;
            let below = shared_branch(below)?;
            balanced(alloc, below, first, rest)
        }
    }
}

/// The part without the item under the key.
#[cycle(remove)]
pub(crate) fn remove<T: Drop, K: KeyOf<T>>(
    alloc: Global,
    branch: &Branch<T>,
    key: K::Key,
) -> Result<Branch<T>, NoMemory>
    requires branch { IsCounted branch.now }
    ensures listed { IfOk result (λ b. Rises K.Key.cmp K.key_of (items_of branch.now) →
        items_of b ≡ removed_by K.Key.cmp K.key_of key (items_of branch.now)) }
    ensures counted { IfOk result (λ b. IsCounted b) }
{
    match branch {
        Branch::Leaf => Ok(Branch::Leaf),
        Branch::Fork(fork) => remove_in::<T, K>(alloc, fork, key),
    }
}

#[cycle(remove)]
fn remove_in<T: Drop, K: KeyOf<T>>(
    alloc: Global,
    old: &Fork<T>,
    key: K::Key,
) -> Result<Branch<T>, NoMemory>
    requires old { IsCountedIn old.now }
    ensures listed { IfOk result (λ b. Rises K.Key.cmp K.key_of (items_of_fork old.now) →
        items_of b ≡ removed_by K.Key.cmp K.key_of key (items_of_fork old.now)) }
    ensures counted { IfOk result (λ b. IsCounted b) }
{
    match key.cmp(&K::key(&old.item)) {
        Ordering::Less => {
            let below = remove::<T, K>(alloc, &old.below, key)?;
            let above = shared_branch(&old.above)?;
            let item = Arc::try_clone(&old.item)?;
            balanced(alloc, below, item, above)
        }
        Ordering::Greater => {
            let above = remove::<T, K>(alloc, &old.above, key)?;
            let below = shared_branch(&old.below)?;
            let item = Arc::try_clone(&old.item)?;
            balanced(alloc, below, item, above)
        }
        Ordering::Equal => joined(alloc, &old.below, &old.above),
    }
}
