//! The law of two calls of a keeper.

ghost use Rattle.std.specs.Prelude.{◌≡◌, ◌⊎◌, OnOk, OnErr};
ghost use Rattle.oe_keeper.specs.Kept.{Kept, rows_after_changes};

use crate::change::RowChange;
use crate::keeper::{KeepErr, Keeper};
use std::alloc::Global;

/// Applies two lists of changes, one after the other. Afterwards the rows have both; after an error they are as before, or have the first
/// list, where they are still known. A keeper that loses a list between two calls would break this, though each call meets its contract.
///
/// # Errors
///
/// Those of the call that failed.
pub fn keeps<K: Keeper>(
    alloc: Global,
    k: &mut K,
    first: &[RowChange],
    second: &[RowChange],
) -> Result<(), KeepErr>
    requires { ∥ K.IsLoaded k.old ∥₁ }
    ensures both { OnOk result ((before now : Kept) → K.Tells k.old before → K.Tells k.new now
        → now ≡ rows_after_changes (rows_after_changes before first.now) second.now) }
    ensures one_or_none { OnErr result ((before now : Kept) → K.Tells k.old before
        → K.Tells k.new now → (now ≡ before) ⊎ (now ≡ rows_after_changes before first.now)) }
{
    k.apply(alloc, first)?;
    k.apply(alloc, second)
}
