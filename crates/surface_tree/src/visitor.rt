//! Receivers of the items over a point.

ghost use Rattle.std.specs.Prelude.{◌++◌, ◌∷◌, [], List};

/// Receives items one by one.
pub trait Visitor<T> {
    /// These items, in order, were received between the first of the two states and the second.
    ghost seen: { Self → Self → List T → Type 0 };

    /// Receives one more item.
    fn item(&mut self, item: &T)
        ensures { (start : Self) (xs : List T) → seen start self.old xs
            → seen start self.new (xs ++ item.now ∷ []) };
}
