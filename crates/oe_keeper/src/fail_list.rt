//! The calls that a test keeper is to fail.

ghost use Rattle.std.specs.Prelude.{◌≡◌, ◌++◌, ◌∷◌, [], OnOk, OnErr, nat_eq};
ghost use Rattle.std.specs.List.{list_any};

use grid_exact::NoMemory;
use std::alloc::Global;
use std::marker::Model;

/// The numbers of the calls that are to fail, seen as their list.
#[derive(Debug, Drop)]
pub struct FailList {
    numbers: Vec<u64>,
}

impl Model for FailList {
    ghost use Rattle.std.specs.Prelude.{List, ℕ};

    ghost Value = { List ℕ };

    ghost view = { λ a. a.numbers.items };
}

impl FailList {
    /// An empty list. It allocates nothing.
    pub fn new(alloc: Global) -> FailList
        ensures { result ≡ [] }
    {
        FailList {
            numbers: Vec::new(alloc),
        }
    }

    /// Adds call `n` to the list.
    ///
    /// # Errors
    ///
    /// `NoMemory` where memory ran out. The list then stays as it was.
    pub fn push(&mut self, n: u64) -> Result<(), NoMemory>
        ensures ok { OnOk result (self.new ≡ self.old ++ n ∷ []) }
        ensures err { OnErr result (self.new ≡ self.old) }
    {
        self.numbers.push(n)?;
        Ok(())
    }

    /// Whether call `n` is in the list.
    pub fn has(&self, n: u64) -> bool
        ensures { result ≡ list_any (λ m. nat_eq m n) self.now }
    {
        self.numbers.iter().any(|m| *m == n)
    }
}
