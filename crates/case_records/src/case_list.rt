//! Lists of cases.

ghost use Rattle.std.specs.Prelude.{◌≡◌, ◌∷◌, ◌++◌, [], length, slice_get, OnOk, OnErr};

use grid_exact::NoMemory;
use std::alloc::Global;
use std::marker::Model;

/// A list of case numbers.
#[derive(Drop)]
pub struct CaseList {
    cases: Vec<u32>,
}

impl Model for CaseList {
    ghost use Rattle.std.specs.Prelude.{ℕ, List};

    ghost Value = { List ℕ };

    ghost view = { λ l. l.cases.items };
}

impl CaseList {
    /// An empty list. It allocates nothing.
    pub fn new(alloc: Global) -> CaseList
        ensures { result ≡ [] }
    {
        CaseList {
            cases: Vec::new(alloc),
        }
    }

    /// Appends a case number.
    ///
    /// # Errors
    ///
    /// `NoMemory` where memory was refused; the list is then unchanged.
    pub fn push(&mut self, case: u32) -> Result<(), NoMemory>
        ensures pushed { OnOk result (self.new ≡ self.old ++ case ∷ []) }
        ensures kept { OnErr result (self.new ≡ self.old) }
    {
        self.cases.extend_from_slice(&[case])?;
        Ok(())
    }

    /// The number of cases.
    pub fn len(&self) -> usize
        ensures { result ≡ length self.now }
    {
        self.cases.len()
    }

    /// The case number at index `i`, counted from 0.
    pub fn get(&self, i: usize) -> Option<u32>
        ensures { result ≡ slice_get self.now i }
    {
        self.cases.get(i).copied()
    }

    /// The case numbers in their order.
    pub fn as_slice(&self) -> &[u32]
        ensures { result.now ≡ self.now }
    {
        self.cases.as_slice()
    }
}
