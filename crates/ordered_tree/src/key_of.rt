//! The key of an item.

ghost use Rattle.std.specs.Prelude.{◌≡◌};

use ordered_list::Keyed;

/// Gives the keys of items. One type of items can stand in trees by several keys.
pub trait KeyOf<T> {
    type Key: Ord + Copy;

    ghost key_of: { T → Self.Key };

    /// The key of the item.
    fn key(item: &T) -> Self::Key
        ensures { result ≡ key_of item.now };
}

/// The key that each item has as a `Keyed` value.
pub struct OwnKey;

impl<T: Keyed> KeyOf<T> for OwnKey {
    type Key = T::Key;

    ghost key_of = { T.key };

    fn key(item: &T) -> T::Key {
        item.key()
    }
}
