//! The names of openings.

use std::marker::Brand;

/// The name of one opening: the book of its history, the value that it began with, and the number that its entries are counted from. The
/// caller of `Publisher::open` chooses it. Everything that comes from one opening has its name in its type.
pub trait Naming<V> {
    ghost use Rattle.std.specs.Prelude.{Option, ℕ};
    ghost use Rattle.logbook.specs.Pages.{Book};

    ghost book: { Book };

    ghost first: { Option V };

    ghost base: { ℕ };
}

impl<V> Naming<V> for Brand {
    ghost use Rattle.std.specs.Prelude.{None};

    ghost book = { record { number = 0; log_name = 0; cells_name = 0 } };

    ghost first = { None };

    ghost base = { 0 };
}
