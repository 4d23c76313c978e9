//! A keeper in memory that fails at listed calls, for tests.

ghost use Rattle.std.specs.Prelude.{◌≡◌, ◌≤◌, ◌+◌, ◌-◌, ◌^◌, min, true, IfOk, OnOk, OnErr};
ghost use Rattle.std.proofs.Common.{◌∙◌, sym};
ghost use Rattle.oe_keeper.specs.Kept.{Kept, rows_after_changes};
ghost use Rattle.oe_keeper.specs.Memory.{HasRows, IsFresh, IsUnfailing, IsCounted, fails_next, has_failed};
ghost use Rattle.oe_keeper.specs.Keeping.{Stays, StaysSilent, HasAll, HasCause, IfFailed, Rose};

use crate::change::RowChange;
use crate::fail_list::FailList;
use crate::keeper::{KeepErr, Keeper};
use crate::tables::Tables;
use grid_exact::NoMemory;
use std::alloc::Global;

/// A keeper in memory, whose rows are always known. It counts the calls of `load` and `apply` from 1, fails at exactly the listed ones,
/// and ignores the place.
#[derive(Debug)]
pub struct MemoryKeeper {
    tables: Tables,
    fail: FailList,
    calls: u64,
    faults: u64,
}

// By hand, so that no crate above proves again how what it holds is dropped.
impl Drop for MemoryKeeper {
    fn drop(self) {
        let MemoryKeeper {
            tables: _,
            fail: _,
            calls: _,
            faults: _,
        } = self;
    }
}

impl MemoryKeeper {
    /// A new keeper with these rows. It allocates nothing.
    pub fn new(_alloc: Global, tables: Tables, fail: FailList) -> MemoryKeeper
        ensures { IsFresh result tables fail }
    {
        MemoryKeeper {
            tables,
            fail,
            calls: 0,
            faults: 0,
        }
    }

    /// Counts the call, and returns whether it is to fail.
    fn is_to_fail(&mut self) -> bool
        ensures tables { self.new.tables ≡ self.old.tables }
        ensures faults { self.new.faults ≡ self.old.faults }
        ensures counted { IsCounted self.old self.new }
        ensures answer { result ≡ fails_next self.old }
    {
        self.calls = self.calls.saturating_add(1);
        self.fail.has(self.calls)
    }

    /// Counts a fault.
    fn fault(&mut self) -> KeepErr
        ensures rows { self.new.tables ≡ self.old.tables }
        ensures fail { self.new.fail ≡ self.old.fail }
        ensures calls { self.new.calls ≡ self.old.calls }
        ensures counted { self.old.faults ≤ self.new.faults }
        ensures one { self.new.faults ≡ min (self.old.faults + 1) (2 ^ 64 - 1) }
        ensures rose { Rose self.old.faults self.new.faults }
        ensures answer { result ≡ KeepErr.Failed }
    {
        self.faults = self.faults.saturating_add(1);
        KeepErr::Failed
    }

    /// A copy of the rows with the changes applied.
    fn changed(&self, alloc: Global, changes: &[RowChange]) -> Result<Tables, NoMemory>
        ensures { IfOk result (λ t. t ≡ rows_after_changes self.now.tables changes.now) }
    {
        let mut next = self.tables.copy(alloc)?;
        'changes: for change in changes {
            next.change(alloc, change)?;
        }
        Ok(next)
    }
}

impl Keeper for MemoryKeeper {
    ghost Tells = { HasRows };

    ghost faults = { λ k. k.faults };

    ghost Finds = { λ k _ rows. rows ≡ k.tables };

    ghost IsLoaded = { λ k. Unit {0} };

    ghost IsSteady = { IsUnfailing };

    fn load(&mut self, alloc: Global, _place: Option<&str>) -> Result<Tables, KeepErr>
        ensures found { IfOk result (λ rows. rows ≡ self.old.tables) }
        ensures rows { IfOk result (λ rows. (now : Kept) → HasRows self.new now → now ≡ rows) }
        ensures stays { Stays HasRows self.old self.new }
        ensures silent { OnErr result (StaysSilent HasRows self.old self.new) }
        ensures loaded { OnOk result ∥ Unit {0} ∥₁ }
        ensures cause { HasCause self.old.faults self.new.faults result }
        ensures steady { IsUnfailing self.old → IsUnfailing self.new }
        ensures unfailing { IsUnfailing self.old → IfFailed result ⊥ }
        ensures counted { IsCounted self.old self.new }
        ensures exact { has_failed result ≡ fails_next self.old }
    {
        if self.is_to_fail() {
            Err(self.fault())
        } else {
            Ok(self.tables.copy(alloc)?)
        }
    }

    fn apply(&mut self, alloc: Global, changes: &[RowChange]) -> Result<(), KeepErr>
        ensures all { OnOk result (HasAll HasRows self.old self.new changes.now) }
        ensures none { OnErr result (Stays HasRows self.old self.new) }
        ensures silent { StaysSilent HasRows self.old self.new }
        ensures loaded { ∥ Unit {0} ∥₁ }
        ensures cause { HasCause self.old.faults self.new.faults result }
        ensures steady { IsUnfailing self.old → IsUnfailing self.new }
        ensures unfailing { IsUnfailing self.old → IfFailed result ⊥ }
        ensures counted { IsCounted self.old self.new }
        ensures exact { has_failed result ≡ fails_next self.old }
    {
        if self.is_to_fail() {
            return Err(self.fault());
        }
        self.tables = self.changed(alloc, changes)?;
        Ok(())
    }

    fn keeps(&self) -> bool
        ensures { result ≡ true }
    {
        true
    }

    ghost one = { λ k a b p q. p ∙ sym q };
}
