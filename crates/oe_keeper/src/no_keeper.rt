//! The keeper that stores nothing.

ghost use Rattle.std.specs.Prelude.{◌≡◌, false, IfOk, OnOk, OnErr};
ghost use Rattle.std.specs.FinMap as maps;
ghost use Rattle.oe_keeper.specs.Kept.{Kept};
ghost use Rattle.oe_keeper.specs.Keeping.{Stays, StaysSilent, HasAll, HasCause, IfFailed};

use crate::{KeepErr, Keeper, RowChange, Tables};
use std::alloc::Global;

/// Stores nothing: it loads no rows, accepts every change and drops it. It never fails, and its rows are never known.
#[derive(Debug, Drop)]
pub struct NoKeeper;

impl Keeper for NoKeeper {
    ghost Tells = { λ k rows. ⊥ };

    ghost faults = { λ k. 0 };

    ghost Finds = { λ k _ rows. rows ≡ maps.empty };

    ghost IsLoaded = { λ k. Unit {0} };

    ghost IsSteady = { λ k. Unit {0} };

    fn load(&mut self, alloc: Global, _place: Option<&str>) -> Result<Tables, KeepErr> {
        Ok(Tables::empty(alloc))
    }

    fn apply(&mut self, _alloc: Global, _changes: &[RowChange]) -> Result<(), KeepErr> {
        Ok(())
    }

    fn keeps(&self) -> bool
        ensures { result ≡ false }
    {
        false
    }

    ghost one = { λ k a b p q. absurd p };
}
