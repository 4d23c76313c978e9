//! A change of the item under a key.

ghost use Rattle.std.specs.Prelude.{◌≡◌, Some, None, option_map};
ghost use Rattle.std.specs.Arc.{arc_value};
ghost use Rattle.surface_tree.specs.Levels.{IsEdit, IsPlaced};

use crate::placed::{Placed, Plot};
use std::sync::Arc;

/// A change: an item to put under its key, or a key to clear. With the key goes a plot, by which the squares are found: that of the
/// item put or removed. The area of the item under the key before the change lies in it.
#[derive(Drop)]
pub(crate) struct Edit<T: Placed + Drop> {
    pub(crate) key: T::Key,
    pub(crate) plot: Plot,
    pub(crate) item: Option<Arc<T>>,
    ghost sound: { IsEdit plot },
}

impl<T: Placed + Drop> Edit<T> {
    /// The change that puts the item under its key.
    #[tactic(auto, using(crate::proofs::Wholes::placed_most))]
    pub(crate) fn put(item: Arc<T>) -> Edit<T>
        requires { IsPlaced (T.plot_of (arc_value item)) }
        ensures key { result.key ≡ T.key_of (arc_value item) }
        ensures plot { result.plot ≡ T.plot_of (arc_value item) }
        ensures item { option_map arc_value result.item ≡ Some (arc_value item) }
    {
        Edit {
            key: item.key(),
            plot: item.plot(),
            item: Some(item),
        }
    }

    /// The change that removes the item under the key; it has the plot of this item.
    #[tactic(auto, using(crate::proofs::Wholes::placed_most))]
    pub(crate) fn take(key: T::Key, old: &T) -> Edit<T>
        requires { IsPlaced (T.plot_of old.now) }
        ensures key { result.key ≡ key }
        ensures plot { result.plot ≡ T.plot_of old.now }
        ensures item { result.item ≡ None }
    {
        Edit {
            key,
            plot: old.plot(),
            item: None,
        }
    }
}
