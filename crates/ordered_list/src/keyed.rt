//! Values with a key.

ghost use Rattle.std.specs.Prelude.{◌≡◌};
ghost use Rattle.std.specs.Arc.{arc_value};

use std::sync::Arc;

/// A value with a key, by which an ordered list orders and finds it.
pub trait Keyed {
    type Key: Ord + Copy;

    ghost key: { Self → Self.Key };

    /// The key of the value.
    fn key(&self) -> Self::Key
        ensures { result ≡ key self.now };
}

/// A shared value has the key of the value.
impl<T: Keyed + Drop> Keyed for Arc<T> {
    type Key = T::Key;

    ghost key = { λ a. T.key (arc_value a) };

    fn key(&self) -> T::Key {
        let value: &T = self;
        value.key()
    }
}
