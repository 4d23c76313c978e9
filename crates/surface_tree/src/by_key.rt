//! The order of the items by their keys. A change needs the squares of the item that was under a key, and only this order finds them.

use crate::placed::Placed;
use ordered_tree::KeyOf;

/// The key that each item has in a tree of areas.
pub(crate) struct PlacedKey;

impl<T: Placed> KeyOf<T> for PlacedKey {
    type Key = T::Key;

    ghost key_of = { T.key_of };

    fn key(item: &T) -> T::Key {
        item.key()
    }
}
