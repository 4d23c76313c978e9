//! Rotations that balance a fork of two parts, one of which may be too high.

ghost use Rattle.std.specs.Prelude.{◌≡◌, ◌++◌, ◌∷◌, IfOk};
ghost use Rattle.std.specs.Arc.{arc_value};
ghost use Rattle.ordered_tree.specs.Branches.{IsCounted, IsCountedIn, items_of, items_of_fork};

use crate::branch::{Branch, Fork, branched, height, shared_branch};
use grid_exact::NoMemory;
use std::alloc::Global;
use std::sync::Arc;

/// A balanced fork of two parts, one of which may be two levels higher.
pub(crate) fn balanced<T: Drop>(
    alloc: Global,
    below: Branch<T>,
    item: Arc<T>,
    above: Branch<T>,
) -> Result<Branch<T>, NoMemory>
    requires below { IsCounted below }
    requires above { IsCounted above }
    ensures listed { IfOk result (λ b. items_of b ≡ items_of below ++ arc_value item
        ∷ items_of above) }
    ensures counted { IfOk result (λ b. IsCounted b) }
{
    let (low, high) = (height(&below), height(&above));
    if low > high.saturating_add(1) {
        return lean_below(alloc, &below, item, above);
    }
    if high > low.saturating_add(1) {
        return lean_above(alloc, below, item, &above);
    }
    branched(alloc, below, item, above)
}

/// A balanced fork of two parts, where the one below is higher.
fn lean_below<T: Drop>(
    alloc: Global,
    below: &Branch<T>,
    item: Arc<T>,
    above: Branch<T>,
) -> Result<Branch<T>, NoMemory>
    requires below { IsCounted below.now }
    requires above { IsCounted above }
    ensures listed { IfOk result (λ b. items_of b ≡ items_of below.now ++ arc_value item
        ∷ items_of above) }
    ensures counted { IfOk result (λ b. IsCounted b) }
{
    match below {
        Branch::Leaf => branched(alloc, Branch::Leaf, item, above),
        Branch::Fork(low) => turn_below(alloc, low, item, above),
    }
}

fn turn_below<T: Drop>(
    alloc: Global,
    low: &Fork<T>,
    item: Arc<T>,
    above: Branch<T>,
) -> Result<Branch<T>, NoMemory>
    requires low { IsCountedIn low.now }
    requires above { IsCounted above }
    ensures listed { IfOk result (λ b. items_of b ≡ items_of_fork low.now ++ arc_value item
        ∷ items_of above) }
    ensures counted { IfOk result (λ b. IsCounted b) }
{
    if height(&low.below) < height(&low.above) {
        return turn_twice_below(alloc, low, item, above);
    }
    let above = branched(alloc, shared_branch(&low.above)?, item, above)?;
    let below = shared_branch(&low.below)?;
    branched(alloc, below, Arc::try_clone(&low.item)?, above)
}

fn turn_twice_below<T: Drop>(
    alloc: Global,
    low: &Fork<T>,
    item: Arc<T>,
    above: Branch<T>,
) -> Result<Branch<T>, NoMemory>
    requires low { IsCountedIn low.now }
    requires above { IsCounted above }
    ensures listed { IfOk result (λ b. items_of b ≡ items_of_fork low.now ++ arc_value item
        ∷ items_of above) }
    ensures counted { IfOk result (λ b. IsCounted b) }
{
    let below = shared_branch(&low.below)?;
    let first = Arc::try_clone(&low.item)?;
    middle_below(alloc, below, first, &low.above, item, above)
}

/// A fork of two items and the parts below, between and above them.
fn middle_below<T: Drop>(
    alloc: Global,
    below: Branch<T>,
    first: Arc<T>,
    middle: &Branch<T>,
    item: Arc<T>,
    above: Branch<T>,
) -> Result<Branch<T>, NoMemory>
    requires below { IsCounted below }
    requires middle { IsCounted middle.now }
    requires above { IsCounted above }
    ensures listed { IfOk result (λ b. items_of b
        ≡ (items_of below ++ arc_value first ∷ items_of middle.now) ++ arc_value item
        ∷ items_of above) }
    ensures counted { IfOk result (λ b. IsCounted b) }
{
    match middle {
        Branch::Leaf => {
            let above = branched(alloc, Branch::Leaf, item, above)?;
            branched(alloc, below, first, above)
        }
        Branch::Fork(middle) => split_middle(alloc, below, first, middle, item, above),
    }
}

fn split_middle<T: Drop>(
    alloc: Global,
    below: Branch<T>,
    first: Arc<T>,
    middle: &Fork<T>,
    item: Arc<T>,
    above: Branch<T>,
) -> Result<Branch<T>, NoMemory>
    requires below { IsCounted below }
    requires middle { IsCountedIn middle.now }
    requires above { IsCounted above }
    ensures listed { IfOk result (λ b. items_of b
        ≡ (items_of below ++ arc_value first ∷ items_of_fork middle.now) ++ arc_value item
        ∷ items_of above) }
    ensures counted { IfOk result (λ b. IsCounted b) }
{
    let below = branched(alloc, below, first, shared_branch(&middle.below)?)?;
    let above = branched(alloc, shared_branch(&middle.above)?, item, above)?;
    branched(alloc, below, Arc::try_clone(&middle.item)?, above)
}

/// A balanced fork of two parts, where the one above is higher.
fn lean_above<T: Drop>(
    alloc: Global,
    below: Branch<T>,
    item: Arc<T>,
    above: &Branch<T>,
) -> Result<Branch<T>, NoMemory>
    requires below { IsCounted below }
    requires above { IsCounted above.now }
    ensures listed { IfOk result (λ b. items_of b ≡ items_of below ++ arc_value item
        ∷ items_of above.now) }
    ensures counted { IfOk result (λ b. IsCounted b) }
{
    match above {
        Branch::Leaf => branched(alloc, below, item, Branch::Leaf),
        Branch::Fork(high) => turn_above(alloc, below, item, high),
    }
}

fn turn_above<T: Drop>(
    alloc: Global,
    below: Branch<T>,
    item: Arc<T>,
    high: &Fork<T>,
) -> Result<Branch<T>, NoMemory>
    requires below { IsCounted below }
    requires high { IsCountedIn high.now }
    ensures listed { IfOk result (λ b. items_of b ≡ items_of below ++ arc_value item
        ∷ items_of_fork high.now) }
    ensures counted { IfOk result (λ b. IsCounted b) }
{
    if height(&high.above) < height(&high.below) {
        return turn_twice_above(alloc, below, item, high);
    }
    let below = branched(alloc, below, item, shared_branch(&high.below)?)?;
    let above = shared_branch(&high.above)?;
    branched(alloc, below, Arc::try_clone(&high.item)?, above)
}

fn turn_twice_above<T: Drop>(
    alloc: Global,
    below: Branch<T>,
    item: Arc<T>,
    high: &Fork<T>,
) -> Result<Branch<T>, NoMemory>
    requires below { IsCounted below }
    requires high { IsCountedIn high.now }
    ensures listed { IfOk result (λ b. items_of b ≡ items_of below ++ arc_value item
        ∷ items_of_fork high.now) }
    ensures counted { IfOk result (λ b. IsCounted b) }
{
    let above = shared_branch(&high.above)?;
    let last = Arc::try_clone(&high.item)?;
    middle_below(alloc, below, item, &high.below, last, above)
}
