//! Look-ups: the item under a key, and the item at a place.

ghost use Rattle.std.specs.Prelude.{◌≡◌, option_copied, option_map, slice_get};
ghost use Rattle.std.specs.Arc.{arc_value};
ghost use Rattle.ordered_list.specs.Ordered.{Rises, found_by};
ghost use Rattle.ordered_tree.specs.Branches.{IsCounted, IsCountedIn, items_of, items_of_fork};

use crate::branch::{Branch, Fork, count};
use crate::key_of::KeyOf;
use std::cmp::Ordering;
use std::sync::Arc;

/// The item with this key.
#[cycle(find)]
pub(crate) fn find<T: Drop, K: KeyOf<T>>(branch: &Branch<T>, key: K::Key) -> Option<&Arc<T>>
    ensures { Rises K.Key.cmp K.key_of (items_of branch.now) →
        option_map arc_value (option_copied result)
        ≡ found_by K.Key.cmp K.key_of key (items_of branch.now) }
{
    match branch {
        Branch::Leaf => None,
        Branch::Fork(fork) => find_in::<T, K>(fork, key),
    }
}

#[cycle(find)]
fn find_in<T: Drop, K: KeyOf<T>>(fork: &Fork<T>, key: K::Key) -> Option<&Arc<T>>
    ensures { Rises K.Key.cmp K.key_of (items_of_fork fork.now) →
        option_map arc_value (option_copied result)
        ≡ found_by K.Key.cmp K.key_of key (items_of_fork fork.now) }
{
    match key.cmp(&K::key(&fork.item)) {
        Ordering::Less => find::<T, K>(&fork.below, key),
        Ordering::Greater => find::<T, K>(&fork.above, key),
        Ordering::Equal => Some(&fork.item),
    }
}

/// The item at place `i` in order, counted from 0.
#[cycle(get)]
pub(crate) fn get<T: Drop>(branch: &Branch<T>, i: usize) -> Option<&Arc<T>>
    requires { IsCounted branch.now }
    ensures { option_map arc_value (option_copied result) ≡ slice_get (items_of branch.now) i }
{
    match branch {
        Branch::Leaf => None,
        Branch::Fork(fork) => get_in(fork, i),
    }
}

#[cycle(get)]
fn get_in<T: Drop>(fork: &Fork<T>, i: usize) -> Option<&Arc<T>>
    requires { IsCountedIn fork.now }
    ensures { option_map arc_value (option_copied result) ≡ slice_get (items_of_fork fork.now) i }
{
    let below = count(&fork.below);
    match i.cmp(&below) {
        Ordering::Less => get(&fork.below, i),
        Ordering::Equal => Some(&fork.item),
        Ordering::Greater => get(&fork.above, i - below - 1),
    }
}
